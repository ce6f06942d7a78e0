//! References of code that can't be resolved, or that are of the wrong kind (JVMS 5.4.3 and 6.5).

ghost use Rattle.std.specs.Prelude.{◌≡◌, ◌≤◌, IfOk, length, map};
ghost use Rattle.jvm_model.specs.Builtin.{builtin_count};
ghost use Rattle.class_link.specs.{Answers.Gives, Answers.nothing, Link.unless, Marks.mark_fault};
ghost use Rattle.class_link.specs.Bodies as bodies;
ghost use Rattle.class_link.specs.Faults.{all_references_fault, first_some, indices, references_fault};
ghost use Rattle.class_link.specs.Marks as marking;

use crate::fault::LinkFault;
use crate::link_environment::LinkEnvironment;
use crate::supertypes::{judged, own_name};
use crate::targets::{Targets, missing_for, target_in, targets_of};
use crate::uses::{User, marks_of};
use class_pool::lookup;
use class_reader::{ClassFile, ClassParts};
use code_forms::Target;
use et_base::Items;
use jvm_model::BUILTIN_COUNT;
use std::alloc::Global;

// The mark of the entry of an index.
fn mark_at(marks: &[Option<bool>], index: usize) -> Option<bool>
    ensures { result ≡ marking.mark_at marks.now index }
{
    match marks.get(index.saturating_sub(1)) {
        None => None,
        Some(mark) => *mark,
    }
}

// Checks an entry that stands for this target; its mark says whether code uses it and all uses fit.
fn check_entry(
    alloc: Global,
    setting: &LinkEnvironment,
    class: &ClassParts,
    index: u16,
    target: Option<Target>,
    mark: Option<bool>,
) -> Result<(), LinkFault>
    ensures { Gives nothing result (unless (mark_fault setting.now class.now index target mark)) }
{
    let Some(fits) = mark else {
        return Ok(());
    };
    let slots = class.pool.slots();
    let needed = missing_for(alloc, &setting.names, slots, lookup::entry_at(slots, index))?;
    if needed.is_none() && (target.is_none() && !lookup::names_class(slots, index)) {
        return Err(LinkFault::NoMember {
            class: own_name(alloc, class)?,
            index: u32::from(index),
        });
    }
    judged(alloc, class, needed, target.is_some() && fits, index)
}

// Checks the entries of a class by their indices.
fn check_entries(
    alloc: Global,
    setting: &LinkEnvironment,
    class: &ClassParts,
    targets: &[Option<Target>],
    marks: &[Option<bool>],
) -> Result<(), LinkFault>
    ensures { Gives nothing result (unless (first_some (λ i. mark_fault setting.now class.now i (bodies.target_in targets.now i) (marking.mark_at marks.now i)) (indices class.now))) }
{
    let end = class.pool.slots().len() + 1;
    for index in 1..end {
        let target = target_in(targets, index as u16);
        check_entry(
            alloc,
            setting,
            class,
            index as u16,
            target,
            mark_at(marks, index),
        )?;
    }
    Ok(())
}

// Resolves the entries of a class and checks those that its code uses.
fn check_references(
    alloc: Global,
    setting: &LinkEnvironment,
    number: u32,
    class: &ClassParts,
) -> Result<Targets, LinkFault>
    ensures fault { Gives nothing result (unless (references_fault setting.now number class.now)) }
    ensures targets { IfOk result (λ targets. targets ≡ bodies.targets setting.now class.now.pool) }
{
    let slots = class.pool.slots();
    let targets = targets_of(alloc, setting, slots)?;
    let user = User {
        program: &setting.program,
        class: number,
        slots,
        targets: targets.as_slice(),
    };
    let marks = marks_of(alloc, &user, class)?;
    check_entries(alloc, setting, class, targets.as_slice(), &marks)?;
    Ok(targets)
}

/// What the pool entries of class files stand for, class by class; or the first fault of an entry that code uses: its class
/// isn't there, or its member, or it is of the wrong kind. Each entry is resolved once.
pub(crate) fn check_all_references(
    alloc: Global,
    setting: &LinkEnvironment,
    classes: &[ClassFile],
) -> Result<Items<Targets>, LinkFault>
    requires { length classes.now ≤ 1024 }
    ensures fault { Gives nothing result (unless (all_references_fault setting.now builtin_count classes.now)) }
    ensures targets { IfOk result (λ all. all ≡ map (λ c. bodies.targets setting.now c.pool) classes.now) }
{
    let mut all = Items::new(alloc);
    for (place, class) in classes.iter().enumerate() {
        all.push(check_references(alloc, setting, BUILTIN_COUNT + place as u32, class.parts())?)?;
    }
    Ok(all)
}
