//! Selected tests, each alone after what it needs.

ghost use Rattle.std.specs.Prelude.{◌≡◌, ◌<◌, ◌≤◌, All, Ok, length, IfOk, IfErr};
ghost use Rattle.order_law.specs.Conflicts.{Member};
ghost use Rattle.test_run.specs.Running.{IsTest};
ghost use Rattle.electrictest.specs.{Begun.AreCounted, Commands.AnswersOver, ConeRuns.ConesRefused, ConeRuns.IsConeReport, Loads.IsSuite, Records.beginning};
ghost use Rattle.electrictest.specs.declared.words.Command.TheVariants as command;

use crate::asks::Ask;
use crate::begins::begin;
use crate::recorded::Request;
use crate::reports::Report;
use crate::running::list_status;
use crate::status::Status;
use cone_run::{all_passed, cones, cones_text};
use dep_graph::Graph;
use outside::{Depot, Gate, Steps};
use selection_close::ascending;
use std::alloc::Global;
use std::sync::Wait;
use std::sync::ledger::Ledger;
use std::thread::Threads;
use suite_load::Loaded;

// The report on the selected tests, each alone after its cone, on so many workers.
fn cones_of<R: Threads + Wait + Sync, G: Gate + Sync, L: Ledger>(
    rt: &R,
    alloc: Global,
    loaded: &Loaded,
    begun: &Request,
    workers: u32,
    gate: &G,
    steps: &mut Steps<L>,
) -> Result<Report, Status>
    requires workers { (0 < workers) × (workers ≤ 16) }
    requires suite { IsSuite loaded.now }
    requires tests { All (IsTest loaded.now.checked) begun.now.tests }
    requires units { length begun.now.record.units ≡ length loaded.now.checked.tests }
    ensures reports { IfOk result (λ r. let b = beginning begun.now in
        AreCounted (IsConeReport loaded.now b r.passed r.text) steps.old steps.new) }
    ensures refused { IfErr result
        (ConesRefused loaded.now (beginning begun.now) (λ t. Member t begun.now.tests)) }
{
    let graph = Graph::of(alloc, &begun.record)?;
    let tests = ascending(alloc, begun.tests.as_slice())?;
    let tests = tests.as_slice();
    match cones(
        rt,
        alloc,
        &loaded.checked,
        &graph,
        tests,
        workers,
        gate,
        steps,
    ) {
        Ok(pieces) => {
            let pieces = pieces.as_slice();
            let text = cones_text(alloc, &loaded.names, tests, pieces)?;
            Ok(Report {
                text,
                passed: all_passed(pieces),
            })
        }
        Err(fault) => {
            let status = list_status(alloc, loaded, fault)?;
            Err(status)
        }
    }
}

/// The report on each test of the selection that the words name, alone after what it needs by the record that they name; so
/// many workers run these cones.
///
/// `NoTest` comes where a name is of no test; then what the record is refused for; and `Over` exactly where a selected test
/// gives nothing at the end of its cone.
pub fn cones_for<R: Threads + Wait + Sync, D: Depot, G: Gate + Sync, L: Ledger>(
    rt: &R,
    alloc: Global,
    loaded: &Loaded,
    ask: &Ask<'_>,
    workers: u32,
    depot: &mut D,
    gate: &G,
    steps: &mut Steps<L>,
) -> Result<Report, Status>
    requires workers { (0 < workers) × (workers ≤ 16) }
    requires asks { ask.now.command ≡ Ok (command.Cones workers) }
    requires suite { IsSuite loaded.now }
    ensures { let depot_now = D.shown depot.new in
        AnswersOver loaded.now ask.now (D.shown depot.old) depot_now steps.old steps.new result }
{
    let begun = begin(alloc, loaded, ask, depot)?;
    cones_of(rt, alloc, loaded, &begun, workers, gate, steps)
}
