//! The report on cones.
//!
//! Each `push_` function appends to a text; after a refusal part of it may stand there.

ghost use Rattle.std.specs.Prelude.{◌≡◌, ◌<◌, ◌≤◌, ◌++◌, ◌∷◌, All, length, codes, IfOk, OnOk};
ghost use Rattle.std.specs.List.{list_all, zip};
ghost use Rattle.jvm_model.specs.Texts as line;
ghost use Rattle.cone_run.specs.ConesText as text;
ghost use Rattle.test_run.specs.Tallies.{IsTally};

use et_base::{NoMemory, Text};
use jvm_model::{Names, Outcome, Verdict};
use std::alloc::Global;
use test_run::{Piece, Tally, count_line, push_head};

// How many tests were run.
fn count_run(pieces: &[Piece]) -> u64
    requires few { length pieces.now ≤ 1024 }
    requires short { All (λ x. length x.list ≤ 1024) pieces.now }
    ensures { result ≡ text.count_run pieces.now }
{
    let mut run = 0;
    for index in 0..pieces.len() {
        run += pieces[index].list().len() as u64;
    }
    run
}

// Appends the lines before those of the tests.
fn push_begin(out: &mut Text, selected: u64, run: u64) -> Result<(), NoMemory>
    ensures { OnOk result (out.new ≡ out.old
        ++ (codes "electric-cones 1" ++ (10 ∷ text.cones_line selected run))) }
{
    push_head(out, b"electric-cones 1", selected, b" ran ", run)?;
    out.push(b'\n')
}

// The lines of tests and the counts of their verdicts, by the pieces of their cones.
#[tactic(auto, using(crate::proofs::TallyLaws::no_pieces, crate::proofs::TallyLaws::all_pieces))]
fn tally_of(
    alloc: Global,
    names: &Names,
    tests: &[u32],
    pieces: &[Piece],
) -> Result<Tally, NoMemory>
    requires few { length tests.now ≤ 1024 }
    requires each { length pieces.now ≡ length tests.now }
    requires numbers { All (λ t. 0 < t) tests.now }
    ensures { IfOk result (IsTally names.now (zip tests.now (text.outcomes pieces.now))) }
{
    let mut tally = Tally::new(alloc);
    for index in 0..tests.len() {
        tally.add(alloc, names, tests[index], pieces[index].outcome())?;
    }
    Ok(tally)
}

/// The report on selected tests, by the pieces of their cones. It says how many were selected and how many tests of cones
/// were run, of each selected test its verdict, units and output, and how many passed.
///
/// # Errors
///
/// `NoMemory` where an allocation is refused.
pub fn cones_text(
    alloc: Global,
    names: &Names,
    tests: &[u32],
    pieces: &[Piece],
) -> Result<Text, NoMemory>
    requires few { length tests.now ≤ 1024 }
    requires each { length pieces.now ≡ length tests.now }
    requires numbers { All (λ t. 0 < t) tests.now }
    requires short { All (λ x. length x.list ≤ 1024) pieces.now }
    ensures { IfOk result (λ t. t ≡ text.cones_text names.now tests.now pieces.now) }
{
    let tally = tally_of(alloc, names, tests, pieces)?;
    let counts = tally.counts;
    let counted = count_line(alloc, counts.passed, counts.failed, counts.error)?;
    let mut out = Text::new(alloc);
    push_begin(&mut out, tests.len() as u64, count_run(pieces))?;
    out.extend_from_slice(tally.lines.as_slice())?;
    out.extend_from_slice(counted.as_slice())?;
    Ok(out)
}

fn is_passed(outcome: &Outcome) -> bool
    ensures { result ≡ line.is_passed outcome.now }
{
    matches!(&outcome.verdict, Verdict::Passed)
}

/// Whether each of the tests passed.
pub fn all_passed(pieces: &[Piece]) -> bool
    ensures { result ≡ list_all line.is_passed (text.outcomes pieces.now) }
{
    let mut all = true;
    for index in 0..pieces.len() {
        let passed = is_passed(pieces[index].outcome());
        all = all && passed;
    }
    all
}
