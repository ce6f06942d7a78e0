//! The program without quiet initialisers.

ghost use Rattle.std.specs.Prelude.{◌≡◌, IfOk, None, cond, length};
ghost use Rattle.type_frames.specs.Typing.{IsTyped};
ghost use Rattle.quiet_init.specs.{Leaving.AreFlags, Leaving.AreOpenings, Leaving.unstarted, Leaving.opened_with, Quiet.quiet, Quiet.quiet_classes};

use crate::leaving::leave_all;
use crate::quietness::{flagged, quiet_flags};
use et_base::{Items, NoMemory};
use jvm_model::{ClassRec, FieldRec, Program, Value};
use std::alloc::Global;
use type_frames::Checked;
use vm_tables::Tables;

/// A program without its quiet initialisers, and the classes whose initialisers these were, ascending.
#[derive(Drop)]
pub struct QuietProgram {
    pub checked: Checked,
    pub classes: Items<u32>,
}

// Takes away a class's initialiser where the flag is set.
fn without_start(class: &mut ClassRec, quiet: bool)
    ensures { class.new ≡ cond quiet (record class.old { initialiser = None }) class.old }
{
    if quiet {
        class.initialiser = None;
    }
}

// Takes away the initialisers of the classes with this flag.
fn without_starts(classes: Items<ClassRec>, quiet: &[bool]) -> Items<ClassRec>
    requires { length quiet.now ≡ length classes }
    ensures { result ≡ unstarted quiet.now classes }
{
    let mut classes = classes.into_vec();
    for class in 0..classes.len() {
        without_start(&mut classes[class], quiet[class]);
    }
    Items::from_vec(classes)
}

// Gives each field the opening value at its place.
fn with_openings(fields: Items<FieldRec>, openings: &[Value]) -> Items<FieldRec>
    requires { length openings.now ≡ length fields }
    ensures { result ≡ opened_with openings.now fields }
{
    let mut fields = fields.into_vec();
    for field in 0..fields.len() {
        fields[field].opening = openings[field];
    }
    Items::from_vec(fields)
}

// Which classes of a program are quiet, by their numbers, and the opening values of its fields without their initialisers.
fn quiet_parts(alloc: Global, p: &Program) -> Result<(Items<bool>, Vec<Value>), NoMemory>
    requires typed { IsTyped p.now }
    ensures flags { IfOk result (λ x. AreFlags p.now x.0) }
    ensures openings { IfOk result (λ x. AreOpenings p.now x.1.items) }
{
    let tables = Tables::of(alloc, p)?;
    let parts = parts_by(alloc, p, &tables);
    drop(tables);
    parts
}

// What `quiet_parts` answers, by the program's tables.
fn parts_by(
    alloc: Global,
    p: &Program,
    tables: &Tables,
) -> Result<(Items<bool>, Vec<Value>), NoMemory>
    requires typed { IsTyped p.now }
    requires tables { tables.now ≡ p.now }
    ensures flags { IfOk result (λ x. AreFlags p.now x.0) }
    ensures openings { IfOk result (λ x. AreOpenings p.now x.1.items) }
{
    let flags = quiet_flags(alloc, p, tables)?;
    let memory = leave_all(alloc, p, tables, flags.as_slice())?;
    Ok((flags, memory.into_statics()))
}

// What `quiet_parts` answers, and the numbers of the quiet classes, ascending.
fn quiet_lists(
    alloc: Global,
    p: &Program,
) -> Result<(Items<bool>, Vec<Value>, Items<u32>), NoMemory>
    requires typed { IsTyped p.now }
    ensures flags { IfOk result (λ x. AreFlags p.now x.0) }
    ensures openings { IfOk result (λ x. AreOpenings p.now x.1.items) }
    ensures classes { IfOk result (λ x. x.2 ≡ quiet_classes p.now) }
{
    let (flags, openings) = quiet_parts(alloc, p)?;
    let classes = flagged(alloc, flags.as_slice())?;
    Ok((flags, openings, classes))
}

// The program without its quiet initialisers, by the flags of its classes and its openings then.
fn hushed(p: Checked, flags: &[bool], openings: &[Value]) -> Checked
    requires flags { AreFlags p flags.now }
    requires openings { AreOpenings p openings.now }
    ensures { result ≡ quiet p }
{
    let (program, frames) = p.into_parts();
    let Program {
        classes,
        fields,
        methods,
        literals,
        tests,
        files,
    } = program;
    let program = Program {
        classes: without_starts(classes, flags),
        fields: with_openings(fields, openings),
        methods,
        literals,
        tests,
        files,
    };
    Checked::new(program, frames)
}

/// The program in which no quiet class has an initialiser (JVMS 5.5), and the fields of each open with what its
/// `<clinit>` leaves in them where it starts on the opening values. The only error is want of memory.
pub fn quiet(alloc: Global, p: Checked) -> Result<QuietProgram, NoMemory>
    ensures { IfOk result (λ q. (q.checked ≡ quiet p) × (q.classes ≡ quiet_classes p)) }
{
    let (flags, openings, classes) = quiet_lists(alloc, p.program())?;
    let checked = hushed(p, flags.as_slice(), openings.as_slice());
    Ok(QuietProgram { checked, classes })
}
