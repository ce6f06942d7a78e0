//! The lines of a report on one test, and the counts of verdicts.

ghost use Rattle.std.specs.Prelude.{◌≡◌, ◌≤◌, ◌++◌, ◌∷◌, [], codes, decimal, get_or, OnOk, IfOk, ◌-◌};
ghost use Rattle.jvm_model.specs.Texts as line;

use et_base::{NoMemory, Text, Units, push_decimal, push_quoted_bytes, push_quoted_units};
use jvm_model::{Cause, Names, Outcome, Verdict};
use std::alloc::Global;

/// Appends the name of a test.
fn push_test_name(out: &mut Text, names: &Names, test: u32) -> Result<(), NoMemory>
    requires { 1 ≤ test }
    ensures { OnOk result (out.new ≡ out.old ++ get_or names.now.tests (test - 1) []) }
{
    match names.tests.as_slice().get((test - 1) as usize) {
        None => Ok(()),
        Some(name) => out.extend_from_slice(name.as_slice()),
    }
}

/// Appends the name of a class.
fn push_class_name(out: &mut Text, names: &Names, class: u32) -> Result<(), NoMemory>
    ensures { OnOk result (out.new ≡ out.old ++ get_or names.now.classes class []) }
{
    match names.classes.as_slice().get(class as usize) {
        None => Ok(()),
        Some(name) => out.extend_from_slice(name.as_slice()),
    }
}

/// Appends a message, where there is one.
fn push_message(out: &mut Text, message: &Option<Units>) -> Result<(), NoMemory>
    ensures { OnOk result (out.new ≡ out.old ++ line.message_text message.now) }
{
    match message {
        None => Ok(()),
        Some(text) => {
            out.push(b' ')?;
            push_quoted_units(out, text.as_slice())
        }
    }
}

/// Appends the class of the throwable that decided a verdict, and its message.
fn push_cause(out: &mut Text, names: &Names, cause: &Cause) -> Result<(), NoMemory>
    ensures { OnOk result (out.new ≡ out.old ++ line.cause_text names.now cause.now) }
{
    push_class_name(out, names, cause.class)?;
    push_message(out, &cause.message)
}

/// Appends a verdict.
fn push_verdict(out: &mut Text, names: &Names, verdict: &Verdict) -> Result<(), NoMemory>
    ensures { OnOk result (out.new ≡ out.old ++ line.verdict_text names.now verdict.now) }
{
    match verdict {
        Verdict::Passed => out.extend_from_slice(b"passed"),
        Verdict::Failed(cause) => {
            out.extend_from_slice(b"failed ")?;
            push_cause(out, names, cause)
        }
        Verdict::Error(cause) => {
            out.extend_from_slice(b"error ")?;
            push_cause(out, names, cause)
        }
    }
}

/// Appends what comes before the verdict on the line of a test.
fn push_named(out: &mut Text, names: &Names, test: u32) -> Result<(), NoMemory>
    requires { 1 ≤ test }
    ensures { OnOk result (out.new ≡ out.old ++ (codes "test " ++ (decimal test
        ++ (32 ∷ (get_or names.now.tests (test - 1) [] ++ (32 ∷ [])))))) }
{
    out.extend_from_slice(b"test ")?;
    push_decimal(out, test as u64)?;
    out.push(b' ')?;
    push_test_name(out, names, test)?;
    out.push(b' ')?;
    Ok(())
}

/// Appends what comes behind the verdict.
fn push_units(out: &mut Text, units: u64) -> Result<(), NoMemory>
    ensures { OnOk result (out.new ≡ out.old ++ (codes " units " ++ (decimal units ++ (10 ∷ [])))) }
{
    out.extend_from_slice(b" units ")?;
    push_decimal(out, units)?;
    out.push(b'\n')?;
    Ok(())
}

/// Appends the line of a test.
fn push_line(out: &mut Text, names: &Names, test: u32, outcome: &Outcome) -> Result<(), NoMemory>
    requires { 1 ≤ test }
    ensures { OnOk result (out.new ≡ out.old ++ line.test_line names.now test outcome.now) }
{
    push_named(out, names, test)?;
    push_verdict(out, names, &outcome.verdict)?;
    push_units(out, outcome.units)?;
    Ok(())
}

/// Appends what a test printed, if it printed anything.
fn push_out(out: &mut Text, printed: &Text) -> Result<(), NoMemory>
    ensures { OnOk result (out.new ≡ out.old ++ line.out_line printed.now) }
{
    match printed.as_slice() {
        [] => Ok(()),
        bytes => {
            out.extend_from_slice(b"out ")?;
            push_quoted_bytes(out, bytes)?;
            out.push(b'\n')?;
            Ok(())
        }
    }
}

/// The lines of a test: its number, name, verdict and units, and what it printed where it printed anything. The only error
/// is want of memory.
#[tactic(auto, unfolding(jvm_model::specs::Texts::outcome_lines))]
pub fn outcome_lines(
    alloc: Global,
    names: &Names,
    test: u32,
    outcome: &Outcome,
) -> Result<Text, NoMemory>
    requires { 1 ≤ test }
    ensures { IfOk result (λ text. text ≡ line.outcome_lines names.now test outcome.now) }
{
    let mut out = Text::new(alloc);
    push_line(&mut out, names, test, outcome)?;
    push_out(&mut out, &outcome.output)?;
    Ok(out)
}

/// Appends the counts of verdicts.
#[tactic(auto, unfolding(jvm_model::specs::Texts::count_line))]
fn push_counts(out: &mut Text, passed: u32, failed: u32, error: u32) -> Result<(), NoMemory>
    ensures { OnOk result (out.new ≡ out.old ++ line.count_line passed failed error) }
{
    push_count(out, b"passed ", passed)?;
    push_count(out, b" failed ", failed)?;
    push_count(out, b" error ", error)?;
    out.push(b'\n')?;
    Ok(())
}

/// Appends a word and a number.
fn push_count(out: &mut Text, word: &[u8], count: u32) -> Result<(), NoMemory>
    ensures { OnOk result (out.new ≡ out.old ++ (word.now ++ decimal count)) }
{
    out.extend_from_slice(word)?;
    push_decimal(out, count as u64)
}

/// The line that counts the verdicts. The only error is want of memory.
pub fn count_line(alloc: Global, passed: u32, failed: u32, error: u32) -> Result<Text, NoMemory>
    ensures { IfOk result (λ text. text ≡ line.count_line passed failed error) }
{
    let mut out = Text::new(alloc);
    push_counts(&mut out, passed, failed, error)?;
    Ok(out)
}
