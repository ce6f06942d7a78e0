//! Runs of the whole suite.

ghost use Rattle.std.specs.Prelude.{◌≡◌, Ok, IfOk, IfErr};
ghost use Rattle.outside.specs.Depot.{DepotView};
ghost use Rattle.electrictest.specs.{Begun.AreCounted, Commands.AnswersOver, Running.RunRefused, Wholes.IsWholeReport, Words.Ask};
ghost use Rattle.electrictest.specs.declared.words.Command.TheVariants as command;

use crate::reports::{Report, report_on};
use crate::running::run_all;
use crate::status::Status;
use outside::Steps;
use std::alloc::Global;
use std::sync::ledger::Ledger;
use suite_load::Loaded;

// The report on the whole suite.
fn whole_report<L: Ledger>(
    alloc: Global,
    loaded: &Loaded,
    steps: &mut Steps<L>,
) -> Result<Report, Status>
    ensures reports { IfOk result (λ r.
        AreCounted (IsWholeReport loaded.now r.passed r.text) steps.old steps.new) }
    ensures refused { IfErr result (RunRefused loaded.now) }
{
    let outcomes = run_all(alloc, loaded, steps)?;
    let report = report_on(alloc, &loaded.names, outcomes.as_slice())?;
    Ok(report)
}

/// The report on the whole suite, run in order on one heap.
///
/// `Over` comes where a test passes its budget or the rest of the suite's units.
pub fn whole_for<L: Ledger>(
    alloc: Global,
    loaded: &Loaded,
    steps: &mut Steps<L>,
) -> Result<Report, Status>
    ensures { (a : Ask) (depot : DepotView) → a.command ≡ Ok command.Whole →
        AnswersOver loaded.now a depot depot steps.old steps.new result }
{
    whole_report(alloc, loaded, steps)
}
