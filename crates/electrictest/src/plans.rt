//! Plans of selections.

ghost use Rattle.std.specs.Prelude.{◌≡◌, ◌<◌, ℕ, Ok, IfOk};
ghost use Rattle.schedule_plan.specs.Plans.{HasUnits};
ghost use Rattle.electrictest.specs.{Commands.AnswersOver, Loads.IsSuite, Plans.IsPlanReport, Records.beginning};
ghost use Rattle.electrictest.specs.declared.words.Command.TheVariants as command;

use crate::asks::Ask;
use crate::begins::begin;
use crate::plan_texts::plan_text;
use crate::recorded::Request;
use crate::reports::Report;
use crate::status::Status;
use dep_graph::Graph;
use et_base::{NoMemory, Text};
use outside::Depot;
use schedule_plan::{chains, plan};
use selection_close::close;
use std::alloc::Global;
use suite_load::Loaded;

// The plan of a selection's closure for so many workers. The only error is want of memory.
fn plan_of(alloc: Global, begun: &Request, workers: u32) -> Result<Text, NoMemory>
    requires workers { 0 < workers }
    requires tests { HasUnits begun.now.tests begun.now.record.units }
    ensures { IfOk result (λ text. IsPlanReport (beginning begun.now) workers text) }
{
    let graph = Graph::of(alloc, &begun.record)?;
    graph.goes_up();
    let set = close(alloc, &graph, begun.tests.as_slice())?;
    let listed = chains(alloc, &graph, set.as_slice())?;
    let units = begun.record.units.as_slice();
    let shares = plan(alloc, &listed, units, workers)?;
    plan_text(alloc, &listed, units, &shares)
}

/// The plan of the selection that the words name for so many workers, by the record that they name; it runs no test.
///
/// `NoTest` comes where a name is of no test; then what the record is refused for.
pub fn plan_for<D: Depot>(
    alloc: Global,
    loaded: &Loaded,
    ask: &Ask<'_>,
    workers: u32,
    depot: &mut D,
) -> Result<Report, Status>
    requires workers { 0 < workers }
    requires asks { ask.now.command ≡ Ok (command.Plan workers) }
    requires suite { IsSuite loaded.now }
    ensures { (steps : ℕ) → let depot_now = D.shown depot.new in
        AnswersOver loaded.now ask.now (D.shown depot.old) depot_now steps steps result }
{
    let begun = begin(alloc, loaded, ask, depot)?;
    let text = plan_of(alloc, &begun, workers)?;
    Ok(Report { text, passed: true })
}
