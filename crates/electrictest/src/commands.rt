//! The top call: from the words of a command line to the text on a sink.

ghost use Rattle.std.specs.Prelude.{◌≡◌, ◌≤◌, None, IfOk, IfErr};
ghost use Rattle.outside.specs.Depot.{OfHeld, TellsOn};
ghost use Rattle.electrictest.specs.{Complete.Complete, EagerForms.EagerAnswer, EarlierRecords.EarlierAnswer, Loads.IsSuite};
ghost use Rattle.electrictest.specs.Commands.{called, AnswersAny, AnswersOver, Writes, Refused, Taken, Served, Ends};
ghost use Rattle.electrictest.specs.{OwnCones.OwnManifestAnswer, OwnLists.DetectedOrderAnswer, OwnLists.OwnOrderAnswer};
ghost use Rattle.electrictest.specs.Words.{plain, refusal_of, IsServed};
ghost use Rattle.electrictest.specs.Commands as command;

use crate::asks::Ask;
use crate::detections::{deps_for, record_for};
use crate::impacts::impact_for;
use crate::loading::load_for;
use crate::manifests::manifest_for;
use crate::orders::order_for;
use crate::plans::plan_for;
use crate::quiet_lists::quiet_for;
use crate::reports::Report;
use crate::status::Status;
use crate::texts::fault_line;
use crate::wholes::whole_for;
use crate::words::Command;
use et_base::Text;
use outside::{Depot, Sink, Steps, write_text};
use std::alloc::Global;
use std::sync::ledger::Ledger;
use suite_load::Loaded;

/// How a command ends that writes the report.
fn report_status(report: &Report) -> Status
    ensures { result ≡ command.report_status report.now.passed }
{
    if report.passed {
        Status::Done
    } else {
        Status::NotPassed
    }
}

/// The text for a command over a loaded suite.
pub fn report_for<D: Depot, L: Ledger>(
    alloc: Global,
    loaded: &Loaded,
    ask: &Ask<'_>,
    depot: &mut D,
    steps: &mut Steps<L>,
) -> Result<Report, Status>
    requires form { refusal_of ask.now.command ≡ None }
    requires served { IsServed ask.now.command }
    requires suite { IsSuite loaded.now }
    ensures { let depot_now = D.shown depot.new in
        AnswersOver loaded.now ask.now (D.shown depot.old) depot_now steps.old steps.new result }
{
    match ask.command() {
        Ok(Command::Detect) => record_for(alloc, loaded, steps),
        Ok(Command::Deps { json }) => deps_for(alloc, loaded, json, steps),
        Ok(Command::Order) => order_for(alloc, loaded, ask, depot, steps),
        Ok(Command::Plan { workers }) => plan_for(alloc, loaded, ask, workers, depot),
        Ok(Command::Quiet) => quiet_for(alloc, loaded),
        Ok(Command::Impact) => impact_for(alloc, loaded, ask, depot),
        Ok(Command::Manifest) => manifest_for(alloc, loaded, ask, depot, steps),
        _ => whole_for(alloc, loaded, steps),
    }
}

// The report that is asked for.
fn reported<D: Depot, L: Ledger>(
    alloc: Global,
    ask: &Ask<'_>,
    depot: &mut D,
    steps: &mut Steps<L>,
) -> Result<Report, Status>
    requires served { IsServed ask.now.command }
    ensures { AnswersAny ask.now (D.shown depot.old) (D.shown depot.new)
        steps.old steps.new result }
{
    let loaded = load_for(alloc, ask, depot)?;
    report_for(alloc, &loaded, ask, depot, steps)
}

/// Writes a text, and answers this status, or `Sink` where the sink failed: it then took a prefix of the text, and its
/// count of faults rose.
pub fn written<S: Sink>(sink: &mut S, text: &[u8], status: Status) -> Status
    ensures faults { (S.shown sink.old).faults ≤ (S.shown sink.new).faults }
    ensures writes { Writes text.now status result (S.shown sink.old) (S.shown sink.new) }
{
    match write_text(sink, text) {
        Ok(()) => status,
        Err(_) => Status::Sink,
    }
}

/// Writes the line of a refusal; want of memory has none.
fn refused<S: Sink>(alloc: Global, sink: &mut S, status: Status) -> Status
    ensures faults { (S.shown sink.old).faults ≤ (S.shown sink.new).faults }
    ensures writes { Refused status result (S.shown sink.old) (S.shown sink.new) }
{
    match status {
        Status::NoMemory => Status::NoMemory,
        status => match fault_line(alloc, &status) {
            Ok(text) => written(sink, text.as_slice(), status),
            Err(_) => Status::NoMemory,
        },
    }
}

/// Writes a report, or else the line of a refusal.
pub fn answered<S: Sink>(alloc: Global, sink: &mut S, report: Result<Report, Status>) -> Status
    ensures faults { (S.shown sink.old).faults ≤ (S.shown sink.new).faults }
    ensures reports { IfOk report (λ r. let status = command.report_status r.passed in
        Writes r.text status result (S.shown sink.old) (S.shown sink.new)) }
    ensures refuses { IfErr report (λ s. Refused s result (S.shown sink.old) (S.shown sink.new)) }
{
    match report {
        Ok(report) => written(sink, report.text.as_slice(), report_status(&report)),
        Err(status) => refused(alloc, sink, status),
    }
}

/// Answers the words of a command line; each answer that is no report is a line `electric: ..` that says why.
///
/// - `run SUITE - 1 all` runs the whole suite in order on one heap and writes the report.
/// - `order SUITE RECORD ORDER` runs the tests of a lawful order on one heap and writes the report, in suite order.
/// - `detect SUITE` runs the whole suite in order on one heap and writes its record.
/// - `deps SUITE` does the same and writes the report on dependences, and `deps SUITE json` writes that as JSON.
/// - `plan SUITE RECORD N SEL` writes the chains of the selection's closure and the loads of N workers.
/// - `impact SUITE RECORD` writes which class files aren't those of the record, and which tests this concerns.
/// - `manifest SUITE RECORD` writes of each test what becomes of it without one of the tests that it reads from.
///
/// The answers:
///
/// - `Done`: the report was written, and each test passed; or the plan, record, impact, manifest or report on dependences was
///   written.
/// - `NotPassed`: the report was written, and a test failed or ended in an error.
/// - `Words`: the words have no form that is served.
/// - `Input`: no record is named; a file is absent, too large or faulty, the class files don't link, or the program isn't typed;
///   a name is that of no test; the record is too old, or of another suite; or the order isn't lawful by it.
/// - `Over`: a test passed its budget, or the suite its number of units.
/// - `Depot`: the depot failed, last at the file that is named, and its count of faults rose.
/// - `Sink`: the sink failed, and its count of faults rose.
/// - `NoMemory`: memory was refused; nothing was written.
pub fn electric_plain<D: Depot, S: Sink, L: Ledger>(
    alloc: Global,
    words: &[Text],
    depot: &mut D,
    sink: &mut S,
    steps: &mut Steps<L>,
) -> Status
    ensures told { TellsOn (D.shown depot.old).told (D.shown depot.new).told }
    ensures depot_faults { (D.shown depot.old).faults ≤ (D.shown depot.new).faults }
    ensures sink_faults { (S.shown sink.old).faults ≤ (S.shown sink.new).faults }
    // What it answers, of whichever files the depot may hold by what it told.
    ensures served { let depot_now = D.shown depot.new in
        let asked = called (plain words.now) (D.shown depot.old) depot_now steps.old steps.new in
        OfHeld depot_now.told (λ files.
        Served (asked files) result (S.shown sink.old) (S.shown sink.new)) }
    // With the suite's own record a lawful order is answered by what its tests do in the suite's own order.
    ensures own { let depot_now = D.shown depot.new in
        let asked = called (plain words.now) (D.shown depot.old) depot_now steps.old steps.new in
        OfHeld depot_now.told (λ files.
        OwnOrderAnswer (asked files) result (S.shown sink.old) (S.shown sink.new)) }
    // So it is with the record that `detect` wrote.
    ensures detected { let depot_now = D.shown depot.new in
        let asked = called (plain words.now) (D.shown depot.old) depot_now steps.old steps.new in
        OfHeld depot_now.told (λ files.
        DetectedOrderAnswer (asked files) result (S.shown sink.old) (S.shown sink.new)) }
    // With the suite's own record, `detect`'s text too, the manifest compares with what tests do in the suite's own order.
    ensures own_manifest { let depot_now = D.shown depot.new in
        let asked = called (plain words.now) (D.shown depot.old) depot_now steps.old steps.new in
        OfHeld depot_now.told (λ files.
        OwnManifestAnswer (asked files) result (S.shown sink.old) (S.shown sink.new)) }
    // With the record of an earlier state each test that an impact doesn't name has the report lines that it had.
    ensures earlier { let depot_now = D.shown depot.new in
        let asked = called (plain words.now) (D.shown depot.old) depot_now steps.old steps.new in
        OfHeld depot_now.told (λ files.
        EarlierAnswer (asked files) result (S.shown sink.old) (S.shown sink.new)) }
    // An eager form is over the suite without its quiet initialisers, in which each test ends as in the suite as it is.
    ensures eager { OfHeld (D.shown depot.new).told (λ files. EagerAnswer files (plain words.now)) }
    // Where what is asked is accepted, and neither the depot nor the sink failed, nothing is refused.
    ensures complete { let depot_now = D.shown depot.new in
        let asked = called (plain words.now) (D.shown depot.old) depot_now steps.old steps.new in
        OfHeld depot_now.told (λ files.
        Complete (asked files) result (S.shown sink.old) (S.shown sink.new)) }
    // What the sink took, whatever the depot tells.
    ensures taken { Taken result (S.shown sink.old) (S.shown sink.new) }
    // When the words, a depot or a sink are answered, whatever the depot tells.
    ensures ends { let depot_now = D.shown depot.new in let sink_now = S.shown sink.new in
        Ends (plain words.now) result (D.shown depot.old) depot_now (S.shown sink.old) sink_now }
{
    let ask = Ask::plain(words);
    let report = reported(alloc, &ask, depot, steps);
    answered(alloc, sink, report)
}
