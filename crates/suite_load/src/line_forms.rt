//! What each kind of line wants, and what it adds to the lines before it.

ghost use Rattle.std.specs.Prelude.{◌≡◌, ◌+◌, length, true, false, OnOk, IfOk};
ghost use Rattle.std.specs.{List.list_any, Option.ok_or, Option.option_copied, Str.bytes_eq};
ghost use Rattle.suite_load.specs.ContentForm as content;
ghost use Rattle.suite_load.specs.SuiteForm as form;
ghost use Rattle.suite_load.specs.Reading.{Gives, same, nothing, tested};

use crate::content::content_of;
use crate::cut::cut;
use crate::lines_before::{BUDGET, CLASS, FILE, LinesBefore, TEST};
use crate::name_set::NameSet;
use crate::names::{is_depot_name, is_file_name, is_test_name};
use crate::numbers::{budget_of, clock_of, seed_of};
use crate::suite_line::SuiteLine;
use crate::suite_text::{SuiteRefusal, TestLine, Why};
use crate::test_line::test_from;
use et_base::{NoMemory, Text, Units};
use std::alloc::Global;

/// The most lines of one kind.
const MOST_NAMES: usize = 1024;

/// Refuses a line with this fault, unless a test holds.
#[tactic(auto, using(crate::proofs::ReadingLaws::fails_as))]
pub fn wants(holds: bool, before: &LinesBefore, why: Why) -> Result<(), SuiteRefusal>
    ensures gives { Gives nothing result (tested holds (form.fault before.now why)) }
    ensures held { OnOk result (holds ≡ true) }
{
    if holds {
        Ok(())
    } else {
        Err(before.fault(why))
    }
}

/// Refuses a line with this fault, unless a value was found.
#[tactic(auto, using(crate::proofs::ReadingLaws::fails_as))]
fn found<T>(value: Option<T>, before: &LinesBefore, why: Why) -> Result<T, SuiteRefusal>
    ensures { Gives same result (ok_or value (form.fault before.now why)) }
{
    match value {
        Some(value) => Ok(value),
        None => Err(before.fault(why)),
    }
}

/// Refuses a line without further fields.
#[tactic(auto, using(crate::proofs::ReadingLaws::fails_as))]
fn fields<'a>(rest: Option<&'a [u8]>, before: &LinesBefore) -> Result<&'a [u8], SuiteRefusal>
    ensures { Gives (λ x. x.now) result (ok_or (option_copied rest.entry) (form.fault before.now Why.Form)) }
{
    match rest {
        Some(bytes) => Ok(bytes),
        None => Err(before.fault(Why::Form)),
    }
}

#[tactic(auto, using(crate::proofs::ReadingLaws::fails_as), unfolding(crate::specs::SuiteForm::one_field))]
fn one_field<'a>(before: &LinesBefore, rest: Option<&'a [u8]>) -> Result<&'a [u8], SuiteRefusal>
    ensures { Gives (λ x. x.now) result (form.one_field before.now (option_copied rest.entry)) }
{
    match rest {
        Some(bytes) if !bytes.contains(&b' ') => Ok(bytes),
        _ => Err(before.fault(Why::Form)),
    }
}

#[tactic(auto, unfolding(crate::specs::SuiteForm::fresh))]
fn fresh(before: &LinesBefore, names: &NameSet, name: &[u8]) -> Result<(), SuiteRefusal>
    ensures gives { Gives nothing result (form.fresh before.now names.now name.now) }
    ensures new { OnOk result (list_any (bytes_eq name.now) names.now ≡ false) }
{
    wants(!names.contains(name), before, Why::Twice)?;
    wants(names.len() < MOST_NAMES, before, Why::TooMany)
}

/// The header's word after line 1.
#[tactic(auto, using(crate::proofs::ReadingLaws::fails_as), unfolding(crate::specs::SuiteForm::second_header))]
pub fn second_header(before: &LinesBefore, rest: Option<&[u8]>) -> Result<SuiteLine, SuiteRefusal>
    ensures gives { Gives same result (form.second_header before.now (option_copied rest.entry)) }
    ensures new { IfOk result (form.IsNew before.now) }
{
    one_field(before, rest)?;
    Err(before.fault(Why::Order))
}

/// `budget B`, after the header alone.
#[tactic(auto, unfolding(crate::specs::SuiteForm::budget_line))]
pub fn budget_line(before: &LinesBefore, rest: Option<&[u8]>) -> Result<SuiteLine, SuiteRefusal>
    ensures gives { Gives same result (form.budget_line before.now (option_copied rest.entry)) }
    ensures new { IfOk result (form.IsNew before.now) }
{
    let digits = one_field(before, rest)?;
    wants(before.is_in_order(BUDGET - 1), before, Why::Order)?;
    let units = found(budget_of(digits), before, Why::Number)?;
    Ok(SuiteLine::Budget(units))
}

// The order of lines, then the form of the name.
#[tactic(auto, unfolding(crate::specs::SuiteForm::placed))]
fn placed(before: &LinesBefore, place: u8, is_named: bool) -> Result<(), SuiteRefusal>
    ensures { Gives nothing result (form.placed before.now place is_named) }
{
    wants(before.is_in_order(place), before, Why::Order)?;
    wants(is_named, before, Why::Name)
}

#[tactic(auto, unfolding(crate::specs::SuiteForm::class_name))]
fn class_name<'a>(before: &LinesBefore, rest: Option<&'a [u8]>) -> Result<&'a [u8], SuiteRefusal>
    ensures gives { Gives (λ x. x.now) result (form.class_name before.now (option_copied rest.entry)) }
    ensures new { IfOk result (λ x. list_any (bytes_eq x.now) (form.class_names before.now) ≡ false) }
{
    let name = one_field(before, rest)?;
    placed(before, CLASS, is_depot_name(name))?;
    fresh(before, before.classes(), name)?;
    Ok(name)
}

/// `class DEPOTNAME`.
#[tactic(auto, unfolding(crate::specs::SuiteForm::class_line))]
pub fn class_line(
    alloc: Global,
    before: &LinesBefore,
    rest: Option<&[u8]>,
) -> Result<SuiteLine, SuiteRefusal>
    ensures gives { Gives same result (form.class_line before.now (option_copied rest.entry)) }
    ensures new { IfOk result (form.IsNew before.now) }
{
    let name = class_name(before, rest)?;
    let name = Text::from_slice(alloc, name)?;
    Ok(SuiteLine::Class(name))
}

#[tactic(auto, unfolding(crate::specs::SuiteForm::file_fields))]
fn file_fields<'a>(
    before: &LinesBefore,
    rest: Option<&'a [u8]>,
) -> Result<(&'a [u8], &'a [u8]), SuiteRefusal>
    ensures { Gives (λ x. (x.0.now, x.1.now)) result (form.file_fields before.now (option_copied rest.entry)) }
{
    let (name, more) = cut(b' ', fields(rest, before)?);
    let text = fields(more, before)?;
    Ok((name, text))
}

fn checked_content(alloc: Global, before: &LinesBefore, text: &[u8]) -> Result<Units, SuiteRefusal>
    ensures { Gives same result (ok_or (content.content_of text.now) (form.fault before.now Why.Number)) }
{
    let content = content_of(alloc, text)?;
    found(content, before, Why::Number)
}

/// `file NAME TEXT`, where TEXT is what follows the second space.
#[tactic(auto, unfolding(crate::specs::SuiteForm::file_line))]
pub fn file_line(
    alloc: Global,
    before: &LinesBefore,
    rest: Option<&[u8]>,
) -> Result<SuiteLine, SuiteRefusal>
    ensures gives { Gives same result (form.file_line before.now (option_copied rest.entry)) }
    ensures new { IfOk result (form.IsNew before.now) }
{
    let (name, text) = file_fields(before, rest)?;
    placed(before, FILE, is_file_name(name))?;
    let content = checked_content(alloc, before, text)?;
    fresh(before, before.files(), name)?;
    let name = Text::from_slice(alloc, name)?;
    Ok(SuiteLine::File(name, content))
}

// The texts of a test's clock and seed; both are 0 where they aren't given.
#[tactic(auto, unfolding(crate::specs::SuiteForm::stream_fields))]
fn stream_fields<'a>(
    before: &LinesBefore,
    rest: Option<&'a [u8]>,
) -> Result<(&'a [u8], &'a [u8]), SuiteRefusal>
    ensures { Gives (λ x. (x.0.now, x.1.now)) result (form.stream_fields before.now (option_copied rest.entry)) }
{
    match rest {
        None => Ok((b"0", b"0")),
        Some(bytes) => {
            let (clock, more) = cut(b' ', bytes);
            let seed = one_field(before, more)?;
            Ok((clock, seed))
        }
    }
}

// The clock, then the seed.
#[tactic(auto, unfolding(crate::specs::SuiteForm::stream_of))]
fn stream_of(before: &LinesBefore, clock: &[u8], seed: &[u8]) -> Result<(i64, u64), SuiteRefusal>
    ensures { Gives same result (form.stream_of before.now (clock.now, seed.now)) }
{
    let clock = found(clock_of(clock), before, Why::Number)?;
    let seed = found(seed_of(seed), before, Why::Number)?;
    Ok((clock, seed))
}

// The test of the next line.
fn next_test(
    alloc: Global,
    before: &LinesBefore,
    name: &[u8],
    clock: i64,
    seed: u64,
) -> Result<TestLine, NoMemory>
    ensures { IfOk result (λ test. test ≡ form.test_from (length before.now + 1) name.now clock seed) }
{
    let line = before.number()?;
    test_from(alloc, line, name, clock, seed)
}

#[tactic(auto, unfolding(crate::specs::SuiteForm::test_of))]
fn test_of(
    alloc: Global,
    before: &LinesBefore,
    name: &[u8],
    clock: &[u8],
    seed: &[u8],
) -> Result<TestLine, SuiteRefusal>
    ensures gives { Gives same result (form.test_of before.now name.now (clock.now, seed.now)) }
    ensures new { IfOk result (λ test. list_any (bytes_eq test.name) (form.test_names before.now) ≡ false) }
{
    placed(before, TEST, is_test_name(name))?;
    let (clock, seed) = stream_of(before, clock, seed)?;
    fresh(before, before.tests(), name)?;
    Ok(next_test(alloc, before, name, clock, seed)?)
}

/// `test NAME` or `test NAME CLOCK SEED`.
#[tactic(auto, unfolding(crate::specs::SuiteForm::test_line))]
pub fn test_line(
    alloc: Global,
    before: &LinesBefore,
    rest: Option<&[u8]>,
) -> Result<SuiteLine, SuiteRefusal>
    ensures gives { Gives same result (form.test_line before.now (option_copied rest.entry)) }
    ensures new { IfOk result (form.IsNew before.now) }
{
    let (name, more) = cut(b' ', fields(rest, before)?);
    let (clock, seed) = stream_fields(before, more)?;
    let test = test_of(alloc, before, name, clock, seed)?;
    Ok(SuiteLine::Test(test))
}

/// `end`.
#[tactic(auto, using(crate::proofs::ReadingLaws::fails_as), unfolding(crate::specs::SuiteForm::end_line))]
pub fn end_line(before: &LinesBefore, rest: Option<&[u8]>) -> Result<SuiteLine, SuiteRefusal>
    ensures gives { Gives same result (form.end_line before.now (option_copied rest.entry)) }
    ensures new { IfOk result (form.IsNew before.now) }
{
    match rest {
        None => Ok(SuiteLine::End),
        Some(_) => Err(before.fault(Why::Form)),
    }
}
