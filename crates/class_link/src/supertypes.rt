//! Superclasses and superinterfaces that can't stand where a class names them.

ghost use Rattle.std.specs.Prelude.{◌≡◌, ◌+◌, ◌<◌, ◌^◌, IfOk, []};
ghost use Rattle.jvm_model.specs.Classes.{member};
ghost use Rattle.class_link.specs.{Answers.Gives, Answers.nothing, Link.unless, Marks.Lists, Faults.first_some, Faults.missing_or, Faults.wrong_unless};
ghost use Rattle.class_link.specs.ClassNames as names;
ghost use Rattle.class_link.specs.Faults as faults;

use crate::entries::name_at;
use crate::fault::LinkFault;
use crate::link_environment::LinkEnvironment;
use crate::names::{missing, starts_array};
use class_reader::{ClassFile, ClassParts};
use et_base::{Items, NoMemory, Units};
use jvm_model::{BUILTIN_COUNT, OBJECT, Program, THROWABLE};
use std::alloc::Global;

/// A class's own name.
pub(crate) fn own_name(alloc: Global, class: &ClassParts) -> Result<Units, NoMemory>
    ensures { IfOk result (λ name. name ≡ names.own_name class.now) }
{
    Items::from_slice(alloc, name_at(class.pool.slots(), class.this_class))
}

/// The fault of an entry: the class that isn't there, or else that it is of the wrong kind unless it fits.
pub(crate) fn judged(
    alloc: Global,
    class: &ClassParts,
    missing: Option<Units>,
    fits: bool,
    index: u16,
) -> Result<(), LinkFault>
    ensures { Gives nothing result (unless (missing_or class.now missing (wrong_unless fits class.now index))) }
{
    match missing {
        Some(name) => Err(LinkFault::Missing {
            class: own_name(alloc, class)?,
            name,
        }),
        None if fits => Ok(()),
        None => Err(LinkFault::WrongKind {
            class: own_name(alloc, class)?,
            index: u32::from(index),
        }),
    }
}

// The class may stand above an interface, or above a class.
fn superclass_fits(p: &Program, class: &ClassParts, above: u32) -> bool
    ensures { result ≡ faults.superclass_fits p.now class.now above }
{
    let is_open = BUILTIN_COUNT <= above || (above == OBJECT || p.is_below(above, THROWABLE));
    let suits = class.flags / 0x0200 % 2 == 0 || above == OBJECT;
    !p.is_interface(above) && (is_open && suits)
}

// The entry serves where the class names it; `named` says that this is among its superinterfaces.
fn supertype_fits(setting: &LinkEnvironment, class: &ClassParts, index: u16, named: bool) -> bool
    requires { named ≡ member index class.now.interfaces }
    ensures { result ≡ faults.supertype_fits setting.now class.now index }
{
    let name = name_at(class.pool.slots(), index);
    let above = setting.names.number_or_first(name);
    let as_superclass = index != class.super_class
        || superclass_fits(&setting.program, class, above);
    let as_interface = !named || setting.program.is_interface(above);
    !starts_array(name) && (as_superclass && as_interface)
}

#[tactic(auto, unfolding(crate::specs::Faults::supertype_fault))]
fn check_supertype(
    alloc: Global,
    setting: &LinkEnvironment,
    class: &ClassParts,
    index: u16,
    named: bool,
) -> Result<(), LinkFault>
    requires { named ≡ member index class.now.interfaces }
    ensures { Gives nothing result (unless (faults.supertype_fault setting.now class.now index)) }
{
    if index != class.super_class && !named {
        return Ok(());
    }
    let needed = missing(alloc, &setting.names, name_at(class.pool.slots(), index))?;
    judged(
        alloc,
        class,
        needed,
        supertype_fits(setting, class, index, named),
        index,
    )
}

/// So many times false.
pub(crate) fn unlisted(alloc: Global, size: usize) -> Result<Vec<bool>, NoMemory>
    ensures { IfOk result (λ table. Lists table.items size []) }
{
    let mut table = Vec::with_capacity(alloc, size)?;
    for place in 0..size {
        table.push(false)?;
    }
    Ok(table)
}

// Which of the indices below a size are listed.
fn listed(alloc: Global, size: usize, indices: &[u16]) -> Result<Vec<bool>, NoMemory>
    ensures { IfOk result (λ table. Lists table.items size indices.now) }
{
    let mut table = unlisted(alloc, size)?;
    for index in indices {
        let place = *index as usize;
        if place < table.len() {
            table[place] = true;
        }
    }
    Ok(table)
}

// The first fault of a class's superclass and superinterfaces, by pool index.
#[tactic(auto, unfolding(crate::specs::Faults::supertypes_fault))]
fn check_supertypes(
    alloc: Global,
    setting: &LinkEnvironment,
    class: &ClassParts,
) -> Result<(), LinkFault>
    ensures { Gives nothing result (unless (faults.supertypes_fault setting.now class.now)) }
{
    let end = class.pool.slots().len() + 1;
    let table = listed(alloc, end, class.interfaces.as_slice())?;
    for index in 1..end {
        check_supertype(alloc, setting, class, index as u16, table[index])?;
    }
    Ok(())
}

/// The first fault of the superclasses and superinterfaces of class files: each is there and may stand where it is named.
pub(crate) fn check_all_supertypes(
    alloc: Global,
    setting: &LinkEnvironment,
    classes: &[ClassFile],
) -> Result<(), LinkFault>
    ensures { Gives nothing result (unless (first_some (faults.supertypes_fault setting.now) classes.now)) }
{
    for class in classes {
        check_supertypes(alloc, setting, class.parts())?;
    }
    Ok(())
}
