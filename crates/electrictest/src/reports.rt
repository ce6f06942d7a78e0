//! The report on a suite.

ghost use Rattle.std.specs.Prelude.{◌≡◌, ℕ, ◌<◌, ◌≤◌, ◌^◌, ◌++◌, ◌∷◌, [], filter, length, OnOk, IfOk};
ghost use Rattle.std.specs.List.{list_all};
ghost use Rattle.jvm_model.specs.Texts as line;
ghost use Rattle.order_law.specs.Conflicts.{Member};
ghost use Rattle.electrictest.specs.Orders as order;
ghost use Rattle.test_run.specs.Tallies.{IsTally};
ghost use Rattle.electrictest.specs.Wholes as whole;

use crate::tallies::report_of;
use et_base::{NoMemory, Text};
use jvm_model::{Names, Outcome};
use std::alloc::Global;
use test_run::{Counts, Tally, outcome_lines};

/// A report, and whether each test in it passed.
#[derive(Drop)]
pub struct Report {
    pub text: Text,
    pub passed: bool,
}

// The tests of a suite with these outcomes, in order.
#[tactic(auto, using(crate::proofs::TallyLaws::none_in_order, crate::proofs::TallyLaws::few_in_order, crate::proofs::TallyLaws::in_order_more))]
fn tally_in_order(alloc: Global, names: &Names, outcomes: &[Outcome]) -> Result<Tally, NoMemory>
    requires few { length outcomes.now < 2 ^ 32 }
    ensures { IfOk result (IsTally names.now (whole.numbered 1 outcomes.now)) }
{
    let mut tally = Tally::new(alloc);
    for index in 0..outcomes.len() {
        tally.add(alloc, names, (index + 1) as u32, &outcomes[index])?;
    }
    Ok(tally)
}

/// The report on a whole suite. The only error is want of memory.
pub fn report_on(alloc: Global, names: &Names, outcomes: &[Outcome]) -> Result<Report, NoMemory>
    requires few { length outcomes.now < 2 ^ 32 }
    ensures text { IfOk result (λ r. r.text ≡ whole.report names.now outcomes.now) }
    ensures passed { IfOk result (λ r. r.passed ≡ list_all line.is_passed outcomes.now) }
{
    let tally = tally_in_order(alloc, names, outcomes)?;
    let count = outcomes.len() as u64;
    let text = report_of(
        alloc,
        count,
        count,
        None,
        tally.lines.as_slice(),
        tally.counts,
    )?;
    Ok(Report {
        text,
        passed: tally.counts.all_passed,
    })
}

// Appends the lines of a listed test, where it is this one.
fn push_one(
    alloc: Global,
    out: &mut Text,
    names: &Names,
    listed: u32,
    outcome: &Outcome,
    test: u32,
) -> Result<(), NoMemory>
    requires test { 1 ≤ test }
    ensures { OnOk result (out.new ≡ out.old
        ++ line.test_lines names.now (filter (order.is_of test) ((listed, outcome.now) ∷ []))) }
{
    if listed != test {
        return Ok(());
    }
    let lines = outcome_lines(alloc, names, test, outcome)?;
    out.extend_from_slice(lines.as_slice())
}

// Appends the lines of a test, where it is in a list of tests with these outcomes.
fn push_listed(
    alloc: Global,
    out: &mut Text,
    names: &Names,
    tests: &[u32],
    outcomes: &[Outcome],
    test: u32,
) -> Result<(), NoMemory>
    requires test { 1 ≤ test }
    requires each { length outcomes.now ≡ length tests.now }
    ensures { OnOk result (out.new ≡ out.old
        ++ line.test_lines names.now (filter (order.is_of test) (order.paired tests.now outcomes.now))) }
{
    for place in 0..tests.len() {
        push_one(alloc, out, names, tests[place], &outcomes[place], test)?;
    }
    Ok(())
}

// Appends the lines of a list of tests, in suite order.
fn push_in_order(
    alloc: Global,
    out: &mut Text,
    names: &Names,
    tests: &[u32],
    outcomes: &[Outcome],
) -> Result<(), NoMemory>
    requires few { length names.now.tests ≤ 1024 }
    requires each { length outcomes.now ≡ length tests.now }
    ensures { OnOk result (out.new ≡ out.old
        ++ line.test_lines names.now (order.by_test (length names.now.tests) (order.paired tests.now outcomes.now))) }
{
    for index in 0..names.tests.len() {
        push_listed(alloc, out, names, tests, outcomes, (index + 1) as u32)?;
    }
    Ok(())
}

/// The report on a list of tests of the suite. The only error is want of memory.
pub fn order_report(
    alloc: Global,
    names: &Names,
    tests: &[u32],
    outcomes: &[Outcome],
) -> Result<Report, NoMemory>
    requires few { length names.now.tests ≤ 1024 }
    requires counted { length outcomes.now < 2 ^ 32 }
    requires each { length outcomes.now ≡ length tests.now }
    requires tests { (t : ℕ) → Member t tests.now → (0 < t) × (t ≤ length names.now.tests) }
    ensures text { IfOk result (λ r. r.text ≡ order.order_report names.now tests.now outcomes.now) }
    ensures passed { IfOk result (λ r. r.passed ≡ list_all line.is_passed outcomes.now) }
{
    let mut lines = Text::new(alloc);
    push_in_order(alloc, &mut lines, names, tests, outcomes)?;
    let counts = Counts::of(outcomes);
    let count = outcomes.len() as u64;
    let text = report_of(alloc, count, count, None, lines.as_slice(), counts)?;
    Ok(Report {
        text,
        passed: counts.all_passed,
    })
}
