//! The program without quiet initialisers, with ample memory.

use crate::class_files::{LOUD, QUIET};
use crate::texts::{File, files, is_text};
use et_base::Text;
use jvm_model::{Program, Value};
use outside::QuietDepot;
use quiet_init::{quiet, quiet_text};
use std::alloc::Global;
use suite_load::load;
use type_frames::Checked;

const SUITE: &[u8] = b"electric-suite 1
class Quiet.class
class Loud.class
test Quiet.t
end
";

const FILES: [File; 3] = [
    (b"s", SUITE),
    (b"Quiet.class", &QUIET),
    (b"Loud.class", &LOUD),
];

// The program of two classes and a test, if it is loaded.
fn two_classes(alloc: Global) -> Option<Checked> {
    let name = Text::from_slice(alloc, b"s").ok()?;
    let mut depot = QuietDepot::new(alloc, files(alloc, &FILES).ok()?);
    match load(alloc, &mut depot, &name) {
        Ok(loaded) => Some(loaded.checked),
        Err(_) => None,
    }
}

// Whether the field of a number opens with this value.
fn opens_with(p: &Program, field: u32, value: Value) -> bool {
    match p.field(field) {
        None => false,
        Some(record) => record.opening == value,
    }
}

fn opens_as_set(p: &Program) -> bool {
    opens_with(p, 2, Value::Int(40))
        && opens_with(p, 3, Value::Int(42))
        && opens_with(p, 4, Value::Long(360_777_252_864))
        && opens_with(p, 5, Value::Int(0))
}

// Whether the initialiser of constants is named, and its fields open with what it sets.
fn is_taken_away(alloc: Global) -> Option<bool> {
    let checked = two_classes(alloc)?;
    let is_said = is_text(
        quiet_text(alloc, &checked),
        b"electric-quiet 1\nclass Quiet\nend\n",
    );
    let q = quiet(alloc, checked).ok()?;
    Some(is_said && opens_as_set(q.checked.program()))
}

#[test]
fn an_initialiser_of_constants_is_taken_away(rt: HostRuntime) {
    assert!(rt; is_taken_away(rt.alloc()).unwrap_or(false));
}
