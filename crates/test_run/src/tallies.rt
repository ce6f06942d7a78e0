//! Reports on tests with their outcomes: the head, the lines of the tests and the counts of verdicts.

ghost use Rattle.std.specs.Prelude.{◌≡◌, ◌<◌, ◌≤◌, ◌^◌, ◌++◌, [], length, OnOk};
ghost use Rattle.test_run.specs.Tallies.{IsCount, IsFew, counted_with, head_of, tally_with};

use crate::lines::outcome_lines;
use et_base::{NoMemory, Text, push_decimal};
use jvm_model::{Names, Outcome, Verdict};
use std::alloc::Global;

/// How many tests ended with each verdict, and whether all passed.
#[derive(Clone, Copy)]
pub struct Counts {
    pub passed: u32,
    pub failed: u32,
    pub error: u32,
    pub all_passed: bool,
}

/// The lines of tests, and the counts of their verdicts.
#[derive(Drop)]
pub struct Tally {
    pub lines: Text,
    pub counts: Counts,
}

impl Counts {
    // The counts of no test.
    #[tactic(auto, using(crate::proofs::TallyLaws::none_counted))]
    fn new() -> Counts
        ensures { IsCount [] result }
    {
        Counts {
            passed: 0,
            failed: 0,
            error: 0,
            all_passed: true,
        }
    }

    // Counts one more.
    fn add(&mut self, outcome: &Outcome)
        requires few { IsFew self.old }
        ensures { self.new ≡ counted_with outcome.now self.old }
    {
        match &outcome.verdict {
            Verdict::Passed => self.passed += 1,
            Verdict::Failed(_) => {
                self.failed += 1;
                self.all_passed = false;
            }
            Verdict::Error(_) => {
                self.error += 1;
                self.all_passed = false;
            }
        }
    }

    /// The counts of these outcomes.
    #[tactic(auto, using(crate::proofs::TallyLaws::count_more, crate::proofs::TallyLaws::few_counted))]
    pub fn of(outcomes: &[Outcome]) -> Counts
        requires few { length outcomes.now < 2 ^ 32 }
        ensures { IsCount outcomes.now result }
    {
        let mut counts = Counts::new();
        for index in 0..outcomes.len() {
            counts.add(&outcomes[index]);
        }
        counts
    }
}

impl Tally {
    /// The tally of no test.
    pub fn new(alloc: Global) -> Tally
        ensures lines { result.lines ≡ [] }
        ensures counts { IsCount [] result.counts }
    {
        Tally {
            lines: Text::new(alloc),
            counts: Counts::new(),
        }
    }

    /// Adds a test with its outcome. The only error is want of memory; part of its lines may then stand there.
    pub fn add(
        &mut self,
        alloc: Global,
        names: &Names,
        test: u32,
        outcome: &Outcome,
    ) -> Result<(), NoMemory>
        requires test { 1 ≤ test }
        requires few { IsFew self.old.counts }
        ensures { OnOk result (self.new ≡ tally_with names.now test outcome.now self.old) }
    {
        let lines = outcome_lines(alloc, names, test, outcome)?;
        self.lines.extend_from_slice(lines.as_slice())?;
        self.counts.add(outcome);
        Ok(())
    }
}

/// Appends the head of a report: its title, how many tests were selected, and by this word how many ran.
pub fn push_head(
    out: &mut Text,
    title: &[u8],
    selected: u64,
    word: &[u8],
    ran: u64,
) -> Result<(), NoMemory>
    ensures { OnOk result (out.new ≡ out.old ++ head_of title.now selected word.now ran) }
{
    out.extend_from_slice(title)?;
    out.extend_from_slice(b"\nselected ")?;
    push_decimal(out, selected)?;
    out.extend_from_slice(word)?;
    push_decimal(out, ran)
}
