//! The top call for all commands.

ghost use Rattle.std.specs.Prelude.{◌≡◌, ◌≤◌, None};
ghost use Rattle.outside.specs.Depot.{OfHeld, TellsOn};
ghost use Rattle.electrictest.specs.{Complete.Complete, EagerForms.EagerAnswer, EarlierRecords.EarlierAnswer};
ghost use Rattle.electrictest.specs.Commands.{called, AnswersAny, AnswersOver, Taken, Served, Ends};
ghost use Rattle.electrictest.specs.{GeneratedAnswers.GeneratedAnswer, GeneratedAnswers.Summed, Loads.IsSuite};
ghost use Rattle.electrictest.specs.{OwnCones.OwnConesAnswer, OwnCones.OwnManifestAnswer, OwnLists.DetectedOrderAnswer, OwnLists.OwnOrderAnswer};
ghost use Rattle.electrictest.specs.{OwnPools.DetectedAnswer, OwnPools.OwnAnswer, Words.threaded, Words.refusal_of, Words.IsOverSuite, Words.OfGenerated};

use crate::asks::Ask;
use crate::commands::{answered, report_for};
use crate::cone_runs::cones_for;
use crate::generated::summary_for;
use crate::loading::load_for;
use crate::pool_runs::run_for;
use crate::reports::Report;
use crate::status::Status;
use crate::words::Command;
use et_base::Text;
use outside::{Depot, Gate, Sink, Steps};
use std::alloc::Global;
use std::sync::Wait;
use std::sync::ledger::Ledger;
use std::thread::Threads;
use suite_load::Loaded;

// The text for a command over a loaded suite.
fn text_for<R: Threads + Wait + Sync, D: Depot, G: Gate + Sync, L: Ledger>(
    rt: &R,
    alloc: Global,
    loaded: &Loaded,
    ask: &Ask<'_>,
    depot: &mut D,
    gate: &G,
    steps: &mut Steps<L>,
) -> Result<Report, Status>
    requires form { refusal_of ask.now.command ≡ None }
    requires over { IsOverSuite ask.now.command }
    requires suite { IsSuite loaded.now }
    ensures { let depot_now = D.shown depot.new in
        AnswersOver loaded.now ask.now (D.shown depot.old) depot_now steps.old steps.new result }
{
    match ask.command() {
        Ok(Command::Run { workers, log }) => {
            run_for(rt, alloc, loaded, ask, workers, log, depot, gate, steps)
        }
        Ok(Command::Cones { workers }) => {
            cones_for(rt, alloc, loaded, ask, workers, depot, gate, steps)
        }
        _ => report_for(alloc, loaded, ask, depot, steps),
    }
}

// The text for a command over a suite of the depot.
fn suite_text<R: Threads + Wait + Sync, D: Depot, G: Gate + Sync, L: Ledger>(
    rt: &R,
    alloc: Global,
    ask: &Ask<'_>,
    depot: &mut D,
    gate: &G,
    steps: &mut Steps<L>,
) -> Result<Report, Status>
    requires over { IsOverSuite ask.now.command }
    ensures answers { let depot_now = D.shown depot.new in
        AnswersAny ask.now (D.shown depot.old) depot_now steps.old steps.new result }
    ensures generated { let depot_now = D.shown depot.new in OfGenerated ask.now.command (λ k n.
        Summed k n result (D.shown depot.old) depot_now steps.old steps.new) }
{
    let loaded = load_for(alloc, ask, depot)?;
    text_for(rt, alloc, &loaded, ask, depot, gate, steps)
}

// The text that is asked for.
fn asked_text<R: Threads + Wait + Sync, D: Depot, G: Gate + Sync, L: Ledger>(
    rt: &R,
    alloc: Global,
    ask: &Ask<'_>,
    depot: &mut D,
    gate: &G,
    steps: &mut Steps<L>,
) -> Result<Report, Status>
    ensures answers { let depot_now = D.shown depot.new in
        AnswersAny ask.now (D.shown depot.old) depot_now steps.old steps.new result }
    ensures generated { let depot_now = D.shown depot.new in OfGenerated ask.now.command (λ k n.
        Summed k n result (D.shown depot.old) depot_now steps.old steps.new) }
{
    match ask.command() {
        Ok(Command::Gen { tests, workers }) => {
            summary_for(rt, alloc, tests, workers, gate, steps)
        }
        _ => suite_text(rt, alloc, ask, depot, gate, steps),
    }
}

/// Answers the words of a command line; each answer that is no report is a line `electric: ..` that says why. What
/// `electric_plain` serves it answers in the same way. Beside that
///
/// - `run SUITE RECORD N SEL` runs the closure of the selection, by the record, on N workers, and writes the report;
/// - `run SUITE RECORD N SEL log` writes the history of claims and posts behind it;
/// - `cones SUITE RECORD N SEL` runs each test of the selection alone after what it needs, on N workers, and writes the report;
/// - `gen K N` runs a generated suite of K tests on N workers and writes its summary; it reads no file, and each test passes.
///
/// A worker calls the gate before each test. The call waits for its threads. `Over` comes for `run` only where a test passes its
/// budget after the tests that the status lists, and for `cones` exactly where a selected test gives nothing.
pub fn electric<R: Threads + Wait + Sync, D: Depot, S: Sink, G: Gate + Sync, L: Ledger>(
    rt: &R,
    alloc: Global,
    words: &[Text],
    depot: &mut D,
    sink: &mut S,
    gate: &G,
    steps: &mut Steps<L>,
) -> Status
    ensures told { TellsOn (D.shown depot.old).told (D.shown depot.new).told }
    ensures depot_faults { (D.shown depot.old).faults ≤ (D.shown depot.new).faults }
    ensures sink_faults { (S.shown sink.old).faults ≤ (S.shown sink.new).faults }
    // What it answers, of whichever files the depot may hold by what it told.
    ensures served { let depot_now = D.shown depot.new in
        let asked = called (threaded words.now) (D.shown depot.old) depot_now steps.old steps.new in
        OfHeld depot_now.told (λ files.
        Served (asked files) result (S.shown sink.old) (S.shown sink.new)) }
    // With the suite's own record a run is answered by what its tests do in the suite's own order, and so is a lawful order.
    ensures own { let depot_now = D.shown depot.new in
        let asked = called (threaded words.now) (D.shown depot.old) depot_now steps.old steps.new in
        OfHeld depot_now.told (λ files.
        OwnAnswer (asked files) result (S.shown sink.old) (S.shown sink.new)) }
    ensures own_order { let depot_now = D.shown depot.new in
        let asked = called (threaded words.now) (D.shown depot.old) depot_now steps.old steps.new in
        OfHeld depot_now.told (λ files.
        OwnOrderAnswer (asked files) result (S.shown sink.old) (S.shown sink.new)) }
    // So they are with the record that `detect` wrote.
    ensures detected { let depot_now = D.shown depot.new in
        let asked = called (threaded words.now) (D.shown depot.old) depot_now steps.old steps.new in
        OfHeld depot_now.told (λ files.
        DetectedAnswer (asked files) result (S.shown sink.old) (S.shown sink.new)) }
    ensures detected_order { let depot_now = D.shown depot.new in
        let asked = called (threaded words.now) (D.shown depot.old) depot_now steps.old steps.new in
        OfHeld depot_now.told (λ files.
        DetectedOrderAnswer (asked files) result (S.shown sink.old) (S.shown sink.new)) }
    // With the suite's own record, `detect`'s text too, each test alone is answered by what it does in the suite's own order, and
    // the manifest compares with that.
    ensures own_cones { let depot_now = D.shown depot.new in
        let asked = called (threaded words.now) (D.shown depot.old) depot_now steps.old steps.new in
        OfHeld depot_now.told (λ files.
        OwnConesAnswer (asked files) result (S.shown sink.old) (S.shown sink.new)) }
    ensures own_manifest { let depot_now = D.shown depot.new in
        let asked = called (threaded words.now) (D.shown depot.old) depot_now steps.old steps.new in
        OfHeld depot_now.told (λ files.
        OwnManifestAnswer (asked files) result (S.shown sink.old) (S.shown sink.new)) }
    // With the record of an earlier state each test that an impact doesn't name has the report lines that it had.
    ensures earlier { let depot_now = D.shown depot.new in
        let asked = called (threaded words.now) (D.shown depot.old) depot_now steps.old steps.new in
        OfHeld depot_now.told (λ files.
        EarlierAnswer (asked files) result (S.shown sink.old) (S.shown sink.new)) }
    // An eager form is over the suite without its quiet initialisers, in which each test ends as in the suite as it is.
    ensures eager { OfHeld (D.shown depot.new).told
        (λ files. EagerAnswer files (threaded words.now)) }
    // Where what is asked is accepted, and neither the depot nor the sink failed, nothing is refused.
    ensures complete { let depot_now = D.shown depot.new in
        let asked = called (threaded words.now) (D.shown depot.old) depot_now steps.old steps.new in
        OfHeld depot_now.told (λ files.
        Complete (asked files) result (S.shown sink.old) (S.shown sink.new)) }
    // A generated suite is read of no depot; its summary, want of memory or a failing sink are answered, and nothing else.
    ensures generated { let depot_now = D.shown depot.new in
        let answer = GeneratedAnswer (threaded words.now) result (D.shown depot.old) depot_now in
        answer steps.old steps.new (S.shown sink.old) (S.shown sink.new) }
    // What the sink took, whatever the depot tells.
    ensures taken { Taken result (S.shown sink.old) (S.shown sink.new) }
    // When the words, a depot or a sink are answered, whatever the depot tells.
    ensures ends { let depot_now = D.shown depot.new in let sink_now = S.shown sink.new in
        Ends (threaded words.now) result (D.shown depot.old) depot_now (S.shown sink.old) sink_now }
{
    let ask = Ask::threaded(words);
    let report = asked_text(rt, alloc, &ask, depot, gate, steps);
    answered(alloc, sink, report)
}
