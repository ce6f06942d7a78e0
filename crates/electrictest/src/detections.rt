//! Detection runs: the record of a suite, and the reports on its dependences.

ghost use Rattle.std.specs.Prelude.{◌≡◌, ◌+◌, Ok, sum, IfOk, IfErr};
ghost use Rattle.detect_run.specs.Detection.{IsDetectedRecord, IsDetection};
ghost use Rattle.outside.specs.Depot.{DepotView};
ghost use Rattle.electrictest.specs.{Begun.AreCounted, Commands.AnswersOver, Detections.IsFound, Loads.IsSuite, Running.RunRefused, Words.Ask};
ghost use Rattle.electrictest.specs.declared.words.Command.TheVariants as command;
ghost use Rattle.electrictest.specs.Detections as detection;

use crate::reports::Report;
use crate::running::passed_units;
use crate::status::Status;
use dep_graph::Detected;
use dep_record::{deps_json, deps_text, write_record};
use detect_run::{detect, detect_record};
use et_base::{NoMemory, Text};
use jvm_model::Names;
use order_law::Record;
use outside::Steps;
use std::alloc::Global;
use std::sync::ledger::Ledger;
use suite_load::Loaded;

// What the detection run of a suite finds.
fn detected<L: Ledger>(
    alloc: Global,
    loaded: &Loaded,
    steps: &mut Steps<L>,
) -> Result<Detected, Status>
    requires suite { IsSuite loaded.now }
    ensures found { IfOk result (IsDetection loaded.now.checked loaded.now.prints) }
    ensures counted { IfOk result (λ d. steps.new ≡ steps.old + sum d.kept.units) }
    ensures refused { IfErr result (RunRefused loaded.now) }
{
    match detect(alloc, &loaded.checked, &loaded.prints, steps) {
        Ok(found) => Ok(found),
        Err(fault) => {
            let status = passed_units(alloc, &loaded.names, fault)?;
            Err(status)
        }
    }
}

/// The record of a suite's own run, without what else that run finds.
///
/// `Over` comes where a test passes its budget or the rest of the suite's units.
pub fn recorded<L: Ledger>(
    alloc: Global,
    loaded: &Loaded,
    steps: &mut Steps<L>,
) -> Result<Record, Status>
    requires suite { IsSuite loaded.now }
    ensures found { IfOk result (IsDetectedRecord loaded.now.checked loaded.now.prints) }
    ensures counted { IfOk result (λ r. steps.new ≡ steps.old + sum r.units) }
    ensures refused { IfErr result (RunRefused loaded.now) }
{
    match detect_record(alloc, &loaded.checked, &loaded.prints, steps) {
        Ok(found) => Ok(found),
        Err(fault) => {
            let status = passed_units(alloc, &loaded.names, fault)?;
            Err(status)
        }
    }
}

// The record of a suite.
fn record_report<L: Ledger>(
    alloc: Global,
    loaded: &Loaded,
    steps: &mut Steps<L>,
) -> Result<Report, Status>
    requires suite { IsSuite loaded.now }
    ensures reports { IfOk result (λ r. let found = IsFound loaded.now detection.recorded in
        AreCounted (found r.passed r.text) steps.old steps.new) }
    ensures refused { IfErr result (RunRefused loaded.now) }
{
    let found = recorded(alloc, loaded, steps)?;
    let text = write_record(alloc, &found)?;
    Ok(Report { text, passed: true })
}

// What is written of the dependences that were found, as JSON or not.
fn dependences(alloc: Global, found: &Detected, names: &Names, json: bool) -> Result<Text, NoMemory>
    ensures { IfOk result (λ text. text ≡ detection.dependences json names.now found.now) }
{
    if json {
        deps_json(alloc, found, names)
    } else {
        deps_text(alloc, found, names)
    }
}

// The report on the dependences of a suite.
fn deps_report<L: Ledger>(
    alloc: Global,
    loaded: &Loaded,
    json: bool,
    steps: &mut Steps<L>,
) -> Result<Report, Status>
    requires suite { IsSuite loaded.now }
    ensures reports { IfOk result (λ r.
        let found = IsFound loaded.now (detection.dependences json) in
        AreCounted (found r.passed r.text) steps.old steps.new) }
    ensures refused { IfErr result (RunRefused loaded.now) }
{
    let found = detected(alloc, loaded, steps)?;
    let text = dependences(alloc, &found, &loaded.names, json)?;
    Ok(Report { text, passed: true })
}

/// The record of a suite's own run: its whole suite in order on one heap.
///
/// `Over` comes where a test passes its budget or the rest of the suite's units.
pub fn record_for<L: Ledger>(
    alloc: Global,
    loaded: &Loaded,
    steps: &mut Steps<L>,
) -> Result<Report, Status>
    requires suite { IsSuite loaded.now }
    ensures { (a : Ask) (depot : DepotView) → a.command ≡ Ok command.Detect →
        AnswersOver loaded.now a depot depot steps.old steps.new result }
{
    record_report(alloc, loaded, steps)
}

/// The report on the dependences of that run, as text or as JSON.
///
/// `Over` comes where a test passes its budget or the rest of the suite's units.
pub fn deps_for<L: Ledger>(
    alloc: Global,
    loaded: &Loaded,
    json: bool,
    steps: &mut Steps<L>,
) -> Result<Report, Status>
    requires suite { IsSuite loaded.now }
    ensures { (a : Ask) (depot : DepotView) → a.command ≡ Ok (command.Deps json) →
        AnswersOver loaded.now a depot depot steps.old steps.new result }
{
    deps_report(alloc, loaded, json, steps)
}
