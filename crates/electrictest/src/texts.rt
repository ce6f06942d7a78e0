//! The line that answers a refusal.

ghost use Rattle.std.specs.Prelude.{◌≡◌, ◌++◌, ◌∷◌, codes, OnOk, IfOk};
ghost use Rattle.hex.specs.Hex.{encode_lower};
ghost use Rattle.electrictest.specs.Replies as reply;

use crate::fault_texts::{push_check_fault, push_class_fault, push_link_fault, push_suite_fault};
use crate::status::{InputFault, OverFault, Status};
use et_base::{NoMemory, Text, push_decimal, push_quoted_bytes};
use std::alloc::Global;

// Appends the 64 digits of a sum.
fn push_hash(out: &mut Text, hash: &[u8; 32]) -> Result<(), NoMemory>
    ensures { OnOk result (out.new ≡ out.old ++ encode_lower hash.now) }
{
    let mut digits = [0; 64];
    let _fits = hex::encode_to_slice(hash.as_slice(), &mut digits);
    out.extend_from_slice(digits.as_slice())
}

// Appends the sums of two suites.
fn push_foreign(out: &mut Text, kept: &[u8; 32], found: &[u8; 32]) -> Result<(), NoMemory>
    ensures { OnOk result (out.new
        ≡ out.old ++ (codes "record-foreign "
        ++ (encode_lower kept.now ++ (32 ∷ encode_lower found.now)))) }
{
    out.extend_from_slice(b"record-foreign ")?;
    push_hash(out, kept)?;
    out.push(b' ')?;
    push_hash(out, found)
}

// Appends a word and two names.
fn push_two(out: &mut Text, word: &[u8], first: &Text, second: &Text) -> Result<(), NoMemory>
    ensures { OnOk result (out.new ≡ out.old ++ (word.now ++ (first.now ++ (32 ∷ second.now)))) }
{
    out.extend_from_slice(word)?;
    out.extend_from_slice(first.as_slice())?;
    out.push(b' ')?;
    out.extend_from_slice(second.as_slice())
}

// Appends why the input was refused.
fn push_input(out: &mut Text, fault: &InputFault) -> Result<(), NoMemory>
    ensures { OnOk result (out.new ≡ out.old ++ reply.input_text fault.now) }
{
    match fault {
        InputFault::Absent { name } => {
            out.extend_from_slice(b"absent ")?;
            out.extend_from_slice(name.as_slice())
        }
        InputFault::TooLarge { name } => {
            out.extend_from_slice(b"too-large ")?;
            out.extend_from_slice(name.as_slice())
        }
        InputFault::Suite { line, why } => push_suite_fault(out, *line, *why),
        InputFault::Class { name, fault } => push_class_fault(out, name, *fault),
        InputFault::Link { fault } => push_link_fault(out, fault),
        InputFault::Check { fault } => push_check_fault(out, fault),
        InputFault::NeedsRecord => out.extend_from_slice(b"needs-record"),
        InputFault::NoTest { name } => {
            out.extend_from_slice(b"no-test ")?;
            push_quoted_bytes(out, name.as_slice())
        }
        InputFault::Record { line } => {
            out.extend_from_slice(b"record ")?;
            push_decimal(out, *line as u64)
        }
        InputFault::RecordOld => out.extend_from_slice(b"record-old"),
        InputFault::RecordForeign { kept, found } => push_foreign(out, kept, found),
        InputFault::Twice { test } => {
            out.extend_from_slice(b"twice ")?;
            out.extend_from_slice(test.as_slice())
        }
        InputFault::MissingWriter { test, writer } => push_two(
            out,
            b"missing-writer ",
            test,
            writer,
        ),
        InputFault::Inverted { first, second } => push_two(out, b"inverted ", first, second),
    }
}

// Appends which number of units was passed.
fn push_over(out: &mut Text, fault: &OverFault) -> Result<(), NoMemory>
    ensures { OnOk result (out.new ≡ out.old ++ reply.over_text fault.now) }
{
    match fault {
        OverFault::OverBudget { name, budget, .. } => {
            out.extend_from_slice(b"over-budget ")?;
            out.extend_from_slice(name.as_slice())?;
            out.push(b' ')?;
            push_decimal(out, *budget)?;
        }
        OverFault::OverSuite { name } => {
            out.extend_from_slice(b"over-suite ")?;
            out.extend_from_slice(name.as_slice())?;
        }
    }
    Ok(())
}

// Appends what a refusal says after `electric: `.
fn push_refusal(out: &mut Text, status: &Status) -> Result<(), NoMemory>
    ensures { OnOk result (out.new ≡ out.old ++ reply.refusal_text status.now) }
{
    match status {
        Status::Done | Status::NotPassed | Status::NoMemory | Status::Sink => Ok(()),
        Status::Words => out.extend_from_slice(b"words"),
        Status::Input(fault) => push_input(out, fault),
        Status::Depot { name } => {
            out.extend_from_slice(b"depot ")?;
            out.extend_from_slice(name.as_slice())
        }
        Status::Over(fault) => push_over(out, fault),
    }
}

/// The line that answers a refusal.
#[tactic(auto, unfolding(crate::specs::Replies::fault_line))]
pub fn fault_line(alloc: Global, status: &Status) -> Result<Text, NoMemory>
    ensures { IfOk result (λ text. text ≡ reply.fault_line status.now) }
{
    let mut out = Text::new(alloc);
    out.extend_from_slice(b"electric: ")?;
    push_refusal(&mut out, status)?;
    out.push(b'\n')?;
    Ok(out)
}
