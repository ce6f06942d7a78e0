//! What becomes of each test without one of its writers.

ghost use Rattle.std.specs.Prelude.{◌≡◌, Ok, length, IfOk, IfErr};
ghost use Rattle.cone_run.specs.Marks.{HasWriter};
ghost use Rattle.electrictest.specs.{Begun.AreCounted, Commands.AnswersOver, ConeRuns.ConesRefused, Loads.IsSuite, Manifests.IsManifest, Records.beginning};
ghost use Rattle.electrictest.specs.declared.words.Command.TheVariants as command;

use crate::asks::Ask;
use crate::begins::begin;
use crate::recorded::Request;
use crate::reports::Report;
use crate::running::list_status;
use crate::status::Status;
use cone_run::{manifest, manifest_text};
use dep_graph::Graph;
use outside::{Depot, Steps};
use std::alloc::Global;
use std::sync::ledger::Ledger;
use suite_load::Loaded;

// The manifest of a record.
fn manifest_of<L: Ledger>(
    alloc: Global,
    loaded: &Loaded,
    begun: &Request,
    steps: &mut Steps<L>,
) -> Result<Report, Status>
    requires units { length begun.now.record.units ≡ length loaded.now.checked.tests }
    ensures reports { IfOk result (λ r. let b = beginning begun.now in
        AreCounted (IsManifest loaded.now b r.passed r.text) steps.old steps.new) }
    ensures refused { IfErr result (ConesRefused loaded.now (beginning begun.now)
        (HasWriter begun.now.record.edges)) }
{
    let graph = Graph::of(alloc, &begun.record)?;
    match manifest(alloc, &loaded.checked, &graph, steps) {
        Ok(marks) => {
            let text = manifest_text(alloc, &loaded.names, marks.as_slice())?;
            Ok(Report { text, passed: true })
        }
        Err(fault) => {
            let status = list_status(alloc, loaded, fault)?;
            Err(status)
        }
    }
}

/// The mark of each raw edge of the record that the words name: what becomes of its test when its writer is left out of the
/// test's cone.
///
/// First comes what the record is refused for; then `Over` exactly where a test that a raw edge leads to gives nothing at the
/// end of its cone.
pub fn manifest_for<D: Depot, L: Ledger>(
    alloc: Global,
    loaded: &Loaded,
    ask: &Ask<'_>,
    depot: &mut D,
    steps: &mut Steps<L>,
) -> Result<Report, Status>
    requires asks { ask.now.command ≡ Ok command.Manifest }
    requires suite { IsSuite loaded.now }
    ensures { let depot_now = D.shown depot.new in
        AnswersOver loaded.now ask.now (D.shown depot.old) depot_now steps.old steps.new result }
{
    let begun = begin(alloc, loaded, ask, depot)?;
    manifest_of(alloc, loaded, &begun, steps)
}
