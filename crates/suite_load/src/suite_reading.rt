//! Reading a suite text.

ghost use Rattle.std.specs.Prelude.{◌≡◌, [], IfOk, OnOk};
ghost use Rattle.std.specs.Option.{option_copied};
ghost use Rattle.suite_load.specs.{LineForms.rows, LineForms.rest_of, Reading.Gives, Reading.same};
ghost use Rattle.suite_load.specs.SuiteForm as form;

use crate::cut::cut;
use crate::first_word::{FirstWord, first_word};
use crate::line_forms::{
    budget_line, class_line, end_line, file_line, second_header, test_line, wants,
};
use crate::lines_before::LinesBefore;
use crate::suite_line::SuiteLine;
use crate::suite_text::{FileLine, SuiteRefusal, SuiteText, Why};
use dep_record::are_printable;
use et_base::{Items, NoMemory, Units};
use std::alloc::Global;

/// The units that a test may take where the text gives no budget.
const BUDGET_NOT_GIVEN: u64 = 1_000_000;

/// What a suite text says. Its lines end with a line feed each, and stand in this order:
///
/// - `electric-suite 1`;
/// - at most once `budget B`, the units that a test may take, 1 to 67,108,864;
/// - `class DEPOTNAME`, `file NAME TEXT`, and `test NAME` or `test NAME CLOCK SEED`, at most 1,024 of each kind, none with a name
///   that stands already;
/// - `end`.
///
/// # Errors
///
/// The first faulty line, and the first fault that it has. A line that is missing has the number after the last. `NoMemory` where an
/// allocation is refused.
#[tactic(auto, unfolding(crate::specs::SuiteForm::suite_of))]
pub fn read_suite(alloc: Global, text: &[u8]) -> Result<SuiteText, SuiteRefusal>
    ensures { Gives same result (form.suite_of text.now) }
{
    let lines = lines_of(alloc, text)?;
    Ok(suite_from(alloc, lines.into_lines())?)
}

// The lines of a text, or the first faulty one.
fn lines_of(alloc: Global, text: &[u8]) -> Result<LinesBefore, SuiteRefusal>
    ensures { Gives same result (form.lines_from [] (rows text.now)) }
{
    let mut before = LinesBefore::new(alloc);
    let mut rest = text;
    while !rest.is_empty() {
        let (line, more) = line_at(alloc, &before, rest)?;
        before = before.with(alloc, line)?;
        rest = more;
    }
    wants(before.is_ended(), &before, missing(&before))?;
    Ok(before)
}

// What is wrong with a line that is missing.
fn missing(before: &LinesBefore) -> Why
    ensures { result ≡ form.missing before.now }
{
    if before.is_empty() {
        Why::Header
    } else {
        Why::Form
    }
}

// The first line of a text, and the text after it.
fn line_at<'a>(
    alloc: Global,
    before: &LinesBefore,
    text: &'a [u8],
) -> Result<(SuiteLine, &'a [u8]), SuiteRefusal>
    ensures gives { Gives (λ x. (x.0, x.1.now)) result (form.line_at before.now text.now) }
    ensures rest { IfOk result (λ x. x.1.now ≡ rest_of text.now) }
    ensures new { IfOk result (λ x. form.IsNew before.now x.0) }
{
    let (line, more) = cut(b'\n', text);
    match more {
        Some(rest) => Ok((next_line(alloc, before, line, true)?, rest)),
        None => Ok((next_line(alloc, before, line, false)?, b"")),
    }
}

#[tactic(auto, unfolding(crate::specs::SuiteForm::next_line))]
fn next_line(
    alloc: Global,
    before: &LinesBefore,
    line: &[u8],
    ended: bool,
) -> Result<SuiteLine, SuiteRefusal>
    ensures gives { Gives same result (form.next_line before.now (record { bytes = line.now; ended = ended })) }
    ensures new { IfOk result (form.IsNew before.now) }
{
    if before.is_empty() {
        first_line(before, line, ended)
    } else {
        later_line(alloc, before, line, ended)
    }
}

// Line 1 is the header.
#[tactic(auto, unfolding(crate::specs::SuiteForm::first_line))]
fn first_line(before: &LinesBefore, line: &[u8], ended: bool) -> Result<SuiteLine, SuiteRefusal>
    ensures gives { Gives same result (form.first_line before.now (record { bytes = line.now; ended = ended })) }
    ensures new { IfOk result (form.IsNew before.now) }
{
    let is_header = line == b"electric-suite 1".as_slice();
    wants(is_header, before, Why::Header)?;
    wants(ended, before, Why::Form)?;
    Ok(SuiteLine::Header)
}

fn is_formed(before: &LinesBefore, line: &[u8], ended: bool) -> bool
    ensures { result ≡ form.is_formed before.now (record { bytes = line.now; ended = ended }) }
{
    ended && !before.is_ended() && are_printable(line)
}

// A line after the first.
#[tactic(auto, unfolding(crate::specs::SuiteForm::later_line))]
fn later_line(
    alloc: Global,
    before: &LinesBefore,
    line: &[u8],
    ended: bool,
) -> Result<SuiteLine, SuiteRefusal>
    ensures gives { Gives same result (form.later_line before.now (record { bytes = line.now; ended = ended })) }
    ensures new { IfOk result (form.IsNew before.now) }
{
    wants(is_formed(before, line, ended), before, Why::Form)?;
    let (word, rest) = cut(b' ', line);
    line_of(alloc, first_word(word), before, rest)
}

// A line of a kind, with what follows the first word.
#[tactic(auto, using(crate::proofs::ReadingLaws::fails_as), unfolding(crate::specs::SuiteForm::line_of))]
fn line_of(
    alloc: Global,
    word: FirstWord,
    before: &LinesBefore,
    rest: Option<&[u8]>,
) -> Result<SuiteLine, SuiteRefusal>
    ensures gives { Gives same result (form.line_of word before.now (option_copied rest.entry)) }
    ensures new { IfOk result (form.IsNew before.now) }
{
    match word {
        FirstWord::Header => second_header(before, rest),
        FirstWord::Budget => budget_line(before, rest),
        FirstWord::Class => class_line(alloc, before, rest),
        FirstWord::File => file_line(alloc, before, rest),
        FirstWord::Test => test_line(alloc, before, rest),
        FirstWord::End => end_line(before, rest),
        FirstWord::Other => Err(before.fault(Why::Form)),
    }
}

// What lines say.
fn suite_from(alloc: Global, lines: Vec<SuiteLine>) -> Result<SuiteText, NoMemory>
    ensures { IfOk result (λ suite. suite ≡ form.suite_from lines.items) }
{
    let mut suite = SuiteText {
        budget: BUDGET_NOT_GIVEN,
        classes: Items::new(alloc),
        files: Items::new(alloc),
        tests: Items::new(alloc),
    };
    for line in lines {
        suite = added(alloc, suite, line)?;
    }
    Ok(suite)
}

// What lines say, with a line more.
fn added(alloc: Global, mut suite: SuiteText, line: SuiteLine) -> Result<SuiteText, NoMemory>
    ensures { IfOk result (λ new. new ≡ form.added suite line) }
{
    match line {
        SuiteLine::Header | SuiteLine::End => Ok(suite),
        SuiteLine::Budget(budget) => {
            suite.budget = budget;
            Ok(suite)
        }
        SuiteLine::Class(name) => {
            suite.classes.push(name)?;
            Ok(suite)
        }
        SuiteLine::File(name, content) => {
            let name = Units::from_ascii(alloc, name.as_slice())?;
            suite.files.push(FileLine { name, content })?;
            Ok(suite)
        }
        SuiteLine::Test(test) => {
            suite.tests.push(test)?;
            Ok(suite)
        }
    }
}
