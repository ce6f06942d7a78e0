//! Linking as a whole.

ghost use Rattle.std.specs.Prelude.{◌≡◌, ◌≤◌, ◌⊎◌, Option, Some, None, Ok, Err, IfOk, IfErr, OnOk, length, map};
ghost use Rattle.std.specs.List.{All};
ghost use Rattle.class_reader.specs.ClassGrammar as grammar;
ghost use Rattle.class_link.specs.Assembly as assembly;
ghost use Rattle.class_link.specs.Bodies as bodies;
ghost use Rattle.class_link.specs.Faults.{duplicate_fault};
ghost use Rattle.member_lookup.specs.Ancestors.{IsFirstCycle};
ghost use Rattle.class_link.specs.Link as links;
ghost use Rattle.jvm_model.specs.Linked.{Linked};
ghost use Rattle.class_link.specs.declared.fault.LinkFault.TheVariants as faults;

use crate::assembly::{setting_of, with_bodies};
use crate::bodies::bodies_of;
use crate::entries::name_at;
use crate::fault::LinkFault;
use crate::lines::TestLines;
use crate::link_environment::LinkEnvironment;
use crate::reference_faults::check_all_references;
use crate::supertypes::check_all_supertypes;
use crate::targets::Targets;
use crate::tests_of::tests_of;
use class_reader::ClassFile;
use et_base::{Items, NoMemory, Units};
use jvm_model::{Program, TestEntry};
use member_lookup::first_cycle;
use std::alloc::Global;

// Copies of files: their names and contents.
fn copies(alloc: Global, files: &[(Units, Units)]) -> Result<Items<(Units, Units)>, NoMemory>
    ensures { IfOk result (λ made. made ≡ files.now) }
{
    let mut made = Items::new(alloc);
    for file in files {
        let name = Items::from_slice(alloc, file.0.as_slice())?;
        let content = Items::from_slice(alloc, file.1.as_slice())?;
        made.push((name, content))?;
    }
    Ok(made)
}

// The name of the class file at a place.
fn name_of(classes: &[ClassFile], place: usize) -> &[u16]
    ensures { result.now ≡ links.name_of classes.now place }
{
    match classes {
        [] => &[],
        [class, ..] if place == 0 => {
            let parts = class.parts();
            name_at(parts.pool.slots(), parts.this_class)
        }
        [_, others @ ..] => name_of(others, place - 1),
    }
}

// The first class file that is its own ancestor is a fault.
fn check_cycles(
    alloc: Global,
    setting: &LinkEnvironment,
    classes: &[ClassFile],
) -> Result<(), LinkFault>
    requires setting { setting.now ≡ links.setting classes.now }
    requires few { length classes.now ≤ 1024 }
    ensures ok { OnOk result (IsFirstCycle (assembly.skeleton classes.now) None) }
    ensures err { IfErr result (λ f. (f ≡ faults.NoMemory) ⊎ links.IsCycleFault classes.now f) }
{
    match first_cycle(alloc, &setting.program)? {
        None => Ok(()),
        Some(place) => Err(LinkFault::Cycle {
            class: Items::from_slice(alloc, name_of(classes, place))?,
        }),
    }
}

// Each class file is spelled by some bytes.
fn know(classes: &[ClassFile])
    ensures { All (λ c. grammar.IsClass c) classes.now }
{
    for class in classes {
        class.parts();
    }
}

// The program of class files whose pool entries stand for these targets, with these tests and files.
fn program_of(
    alloc: Global,
    setting: LinkEnvironment,
    targets: &[Targets],
    classes: &[ClassFile],
    tests: Items<TestEntry>,
    files: &[(Units, Units)],
) -> Result<Program, NoMemory>
    requires setting { setting ≡ links.setting classes.now }
    requires targets { targets.now ≡ map (λ c. bodies.targets setting c.pool) classes.now }
    ensures { IfOk result (λ p. p ≡ links.program_of classes.now tests files.now) }
{
    let bodies = bodies_of(alloc, &setting, targets, classes)?;
    let files = copies(alloc, files)?;
    Ok(with_bodies(setting.program, bodies, tests, files))
}

// What pool entries stand for, and the tests; or the first fault, where the names of class files differ.
fn parts_of(
    alloc: Global,
    setting: &LinkEnvironment,
    classes: &[ClassFile],
    lines: &TestLines,
) -> Result<(Items<Targets>, Items<TestEntry>), LinkFault>
    requires setting { setting.now ≡ links.setting classes.now }
    requires names { links.unless (duplicate_fault classes.now) ≡ Ok tt }
    requires few { length classes.now ≤ 1024 }
    requires lines { links.AreLines lines.now }
    ensures fault { IfErr result (λ f. links.Links classes.now lines.now (Err f)) }
    ensures targets { IfOk result (λ x. x.0 ≡ map (λ c. bodies.targets setting.now c.pool) classes.now) }
    ensures program { IfOk result (λ x. links.Links classes.now lines.now (Ok (links.program_of classes.now x.1 lines.now.files))) }
{
    check_all_supertypes(alloc, setting, classes)?;
    check_cycles(alloc, setting, classes)?;
    let targets = check_all_references(alloc, setting, classes)?;
    let tests = tests_of(alloc, setting, lines.budget, lines.tests.as_slice())?;
    Ok((targets, tests))
}

/// The program of class files, tests and opening files, its references resolved; or the first fault of linking.
///
/// Faults come in this order, each the first one by class file, and within a class by pool index: a name that is built in or
/// given before; a superclass or superinterface that isn't there or is of the wrong kind; a class that is its own ancestor;
/// an entry that code uses and whose class or member isn't there, or that is of the wrong kind (JVMS 5.4.3); a line that
/// names no test. It takes time in proportion to the class files, but for look-ups of members, which go through the members
/// of the classes above.
pub fn link(alloc: Global, classes: &[ClassFile], lines: &TestLines) -> Result<Program, LinkFault>
    requires few { length classes.now ≤ 1024 }
    requires lines { links.AreLines lines.now }
    // Which program or fault it is.
    ensures links { links.Links classes.now lines.now result }
    // The program keeps each rule of linked programs.
    ensures linked { IfOk result Linked }
{
    let setting = setting_of(alloc, classes)?;
    let (targets, tests) = parts_of(alloc, &setting, classes, lines)?;
    let program = program_of(
        alloc,
        setting,
        targets.as_slice(),
        classes,
        tests,
        lines.files.as_slice(),
    )?;
    know(classes);
    Ok(program)
}
