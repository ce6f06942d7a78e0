//! The records of a program, put together.

ghost use Rattle.std.specs.Prelude.{◌≡◌, ◌≤◌, List, length, IfOk};
ghost use Rattle.class_reader.specs.declared.parts.{ClassParts.ClassParts, CodePart.CodePart};
ghost use Rattle.jvm_model.specs.{declared.program.Body.Body, Library.builtin_classes, Library.builtin_fields, Library.builtin_methods};
ghost use Rattle.class_link.specs.{Answers.Gives, Answers.nothing, ClassNames.all_names, Literals.literals, Faults.duplicate_fault, Link.setting, Link.unless};
ghost use Rattle.class_link.specs.{Assembly.assembled, Assembly.skeleton, Assembly.bodies_of, Filling.filled, Filling.with_body};

use crate::class_records::push_classes;
use crate::fault::LinkFault;
use crate::link_environment::LinkEnvironment;
use crate::literals::{Literals, literals_of};
use crate::members::{push_all_fields, push_all_methods};
use crate::names::{ClassNames, names_of};
use builtin_lib::{BuiltinRecords, builtin_records};
use class_reader::ClassFile;
use et_base::{Items, NoMemory, Units};
use jvm_model::{BUILTIN_COUNT, Body, MethodRec, Program, TestEntry};
use std::alloc::Global;

// The numbers of the first field and method of class files, behind the built-in ones.
const FIRST_FIELD: u32 = 2;

const FIRST_METHOD: u32 = 102;

// Gives a method this body, if there is such a method.
fn set_body(methods: &mut Vec<MethodRec>, place: usize, body: Option<Body>)
    ensures { methods.new.items ≡ with_body methods.old.items place body }
{
    if place < methods.len() {
        methods[place].body = body;
    }
}

// Gives the methods from the first given one on these bodies, in order.
#[tactic(auto, using(crate::proofs::AssemblyLaws::filled_more))]
fn fill(methods: &mut Vec<MethodRec>, bodies: Vec<Option<Body>>)
    ensures { methods.new.items ≡ filled 102 bodies.items methods.old.items }
{
    let mut place = FIRST_METHOD as usize;
    for body in bodies {
        set_body(methods, place, body);
        place += 1;
    }
}

/// A program with these bodies in place of the bare ones of its given methods, and with these tests and files.
pub(crate) fn with_bodies(
    program: Program,
    bodies: Items<Option<Body>>,
    tests: Items<TestEntry>,
    files: Items<(Units, Units)>,
) -> Program
    ensures { (body : ClassParts → CodePart → Body) (cs : List ClassParts) → program ≡ skeleton cs → bodies ≡ bodies_of body cs → result ≡ assembled body cs tests files }
{
    let Program {
        classes,
        fields,
        methods,
        literals,
        ..
    } = program;
    let mut methods = methods.into_vec();
    fill(&mut methods, bodies.into_vec());
    Program {
        classes,
        fields,
        methods: Items::from_vec(methods),
        literals,
        tests,
        files,
    }
}

/// The program before its references are resolved: the built-in classes with their fields and methods, and those of the class
/// files behind them in the suite's order. No body has an instruction yet, and there are no tests and no files.
#[tactic(auto, unfolding(crate::specs::Assembly::assembled))]
pub(crate) fn skeleton(
    alloc: Global,
    builtin: BuiltinRecords,
    files: &[ClassFile],
    names: &ClassNames,
    texts: &Literals,
) -> Result<Program, NoMemory>
    requires classes { builtin.classes ≡ builtin_classes }
    requires fields { builtin.fields ≡ builtin_fields }
    requires methods { builtin.methods ≡ builtin_methods }
    requires few { length files.now ≤ 1024 }
    requires names { names.now ≡ all_names files.now }
    requires texts { texts.now ≡ literals files.now }
    ensures { IfOk result (λ p. p ≡ skeleton files.now) }
{
    let BuiltinRecords {
        mut classes,
        mut fields,
        mut methods,
    } = builtin;
    push_classes(alloc, &mut classes, names, FIRST_FIELD, FIRST_METHOD, files)?;
    push_all_fields(alloc, &mut fields, texts, BUILTIN_COUNT, files)?;
    push_all_methods(alloc, &mut methods, BUILTIN_COUNT, files)?;
    Ok(Program {
        classes,
        fields,
        methods,
        literals: texts.contents(alloc)?,
        tests: Items::new(alloc),
        files: Items::new(alloc),
    })
}

/// What the references of class files are resolved with, or the first class file whose name is that of a built-in class or
/// of an earlier one.
pub(crate) fn setting_of(alloc: Global, files: &[ClassFile]) -> Result<LinkEnvironment, LinkFault>
    requires few { length files.now ≤ 1024 }
    ensures fault { Gives nothing result (unless (duplicate_fault files.now)) }
    ensures setting { IfOk result (λ s. s ≡ setting files.now) }
{
    let builtin = builtin_records(alloc)?;
    let names = names_of(alloc, builtin.classes.as_slice(), files)?;
    let texts = literals_of(alloc, files)?;
    let program = skeleton(alloc, builtin, files, &names, &texts)?;
    Ok(LinkEnvironment {
        program,
        names,
        texts,
    })
}
