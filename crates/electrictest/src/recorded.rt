//! The record that a command is given.

ghost use Rattle.std.specs.Prelude.{◌≡◌, ◌≤◌, [], length, true, Ok, IfOk, IfErr, IfSome, IsSome};
ghost use Rattle.outside.specs.Depot.{OfHeld, TellsOn};
ghost use Rattle.dep_record.specs.{RecordReading.said_in, RecordText.said};
ghost use Rattle.impact_pick.specs.Form.{fits_prints};
ghost use Rattle.electrictest.specs.{Commands.Fails, Commands.IsRecordRefusal, Records.Gives, Records.nothing, Records.says};
ghost use Rattle.electrictest.specs.Records as records;

use crate::status::{InputFault, Status};
use dep_record::{RecordRefusal, read_record};
use et_base::{Items, Text};
use order_law::Record;
use outside::{Depot, DepotRefusal};
use std::alloc::Global;
use suite_load::Loaded;

/// The most bytes of a record.
const RECORD_LIMIT: u64 = 536_870_912;

/// The tests that the words name, and a record of their suite.
#[derive(Drop)]
pub struct Request {
    pub tests: Items<u32>,
    pub record: Record,
}

// How a refusal of the depot at the record is answered.
fn named(refusal: DepotRefusal, name: Text) -> Status
    ensures { result ≡ records.refusal_of refusal name }
{
    match refusal {
        DepotRefusal::Absent => Status::Input(InputFault::Absent { name }),
        DepotRefusal::TooLong => Status::Input(InputFault::TooLarge { name }),
        DepotRefusal::Failed => Status::Depot { name },
        DepotRefusal::NoMemory => Status::NoMemory,
    }
}

// The bytes of the record of this name.
#[tactic(auto, unfolding(crate::specs::Records::record_bytes))]
fn record_bytes<D: Depot>(alloc: Global, depot: &mut D, name: &Text) -> Result<Text, Status>
    ensures told { TellsOn (D.shown depot.old).told (D.shown depot.new).told }
    ensures faults { (D.shown depot.old).faults ≤ (D.shown depot.new).faults }
    ensures gives { OfHeld (D.shown depot.new).told (λ files.
        Gives (λ bytes. bytes) result (records.record_bytes files name.now)) }
    ensures fails { IfErr result (Fails name.now (D.shown depot.old) (D.shown depot.new)) }
{
    match depot.read(name, RECORD_LIMIT) {
        Ok(bytes) => Ok(Text::from_vec(bytes)),
        Err(refusal) => {
            let name = Text::from_slice(alloc, name.as_slice())?;
            Err(named(refusal, name))
        }
    }
}

// What the bytes of a record say.
fn record_of(alloc: Global, bytes: &[u8]) -> Result<Record, Status>
    ensures gives { Gives said result (records.said_answer (said_in bytes.now)) }
    ensures proper { IfErr result IsRecordRefusal }
{
    match read_record(alloc, bytes) {
        Ok(record) => Ok(record),
        Err(RecordRefusal::RecordFault { line }) => Err(Status::Input(InputFault::Record { line })),
        Err(RecordRefusal::NoMemory) => Err(Status::NoMemory),
    }
}

// That a record of version 2 has as many classes as the suite.
fn classes_fit(loaded: &Loaded, kept: &Record) -> Result<(), Status>
    ensures gives { Gives nothing result (records.classes_fit loaded.now kept.now.more) }
    ensures proper { IfErr result IsRecordRefusal }
    ensures classes { IfOk result (λ _. IfSome kept.now.more (λ m.
        length m.classes ≡ length loaded.now.prints.classes)) }
{
    match &kept.more {
        Some(more) if more.classes.len() != loaded.prints.classes.len() => {
            Err(Status::Input(InputFault::Record { line: 5 }))
        }
        _ => Ok(()),
    }
}

// That a record has as many tests and classes as the suite.
fn counts_fit(loaded: &Loaded, kept: &Record) -> Result<(), Status>
    ensures gives { Gives nothing result (records.counts_fit loaded.now (said kept.now)) }
    ensures proper { IfErr result IsRecordRefusal }
    ensures units { IfOk result (λ _. length kept.now.units ≡ length loaded.now.checked.tests) }
    ensures classes { IfOk result (λ _. IfSome kept.now.more (λ m.
        length m.classes ≡ length loaded.now.prints.classes)) }
{
    if kept.units.len() != loaded.checked.program().tests.len() {
        return Err(Status::Input(InputFault::Record { line: 3 }));
    }
    classes_fit(loaded, kept)
}

// That a record is of the suite.
#[tactic(auto, unfolding(crate::specs::Records::record_fits))]
fn record_fits(loaded: &Loaded, kept: &Record) -> Result<(), Status>
    ensures gives { Gives nothing result (records.record_fits loaded.now (said kept.now)) }
    ensures proper { IfErr result IsRecordRefusal }
    ensures units { IfOk result (λ _. length kept.now.units ≡ length loaded.now.checked.tests) }
{
    if kept.digest.as_slice() != loaded.prints.digest.as_slice() {
        return Err(Status::Input(InputFault::RecordForeign {
            kept: kept.digest,
            found: loaded.prints.digest,
        }));
    }
    counts_fit(loaded, kept)
}

// That a record is in version 2, and of the suite's text.
fn suite_fits(loaded: &Loaded, kept: &Record) -> Result<(), Status>
    ensures gives { Gives nothing result (records.suite_fits loaded.now kept.now.more) }
    ensures proper { IfErr result IsRecordRefusal }
    ensures newer { IfOk result (λ _. IsSome kept.now.more) }
{
    match &kept.more {
        None => Err(Status::Input(InputFault::RecordOld)),
        Some(more) if more.suite.as_slice() != loaded.prints.suite.as_slice() => {
            Err(Status::Input(InputFault::RecordForeign {
                kept: more.suite,
                found: loaded.prints.suite,
            }))
        }
        Some(_) => Ok(()),
    }
}

// That a record is of an earlier state of the suite.
#[tactic(auto, unfolding(crate::specs::Records::earlier_fits))]
fn earlier_fits(loaded: &Loaded, kept: &Record) -> Result<(), Status>
    ensures gives { Gives nothing result (records.earlier_fits loaded.now (said kept.now)) }
    ensures proper { IfErr result IsRecordRefusal }
    ensures fits { IfOk result (λ _. fits_prints kept.now.more loaded.now.prints ≡ true) }
{
    suite_fits(loaded, kept)?;
    counts_fit(loaded, kept)
}

// What the record of this name says.
#[tactic(auto, unfolding(crate::specs::Records::record_at))]
fn record_at<D: Depot>(alloc: Global, depot: &mut D, name: &Text) -> Result<Record, Status>
    ensures told { TellsOn (D.shown depot.old).told (D.shown depot.new).told }
    ensures faults { (D.shown depot.old).faults ≤ (D.shown depot.new).faults }
    ensures gives { OfHeld (D.shown depot.new).told (λ files.
        Gives said result (records.record_at files name.now)) }
    ensures fails { IfErr result (Fails name.now (D.shown depot.old) (D.shown depot.new)) }
{
    let bytes = record_bytes(alloc, depot, name)?;
    record_of(alloc, bytes.as_slice())
}

/// The record of this name, for tests that were named.
///
/// `Absent`, `TooLarge` and `Depot` come where it can't be read; `Record` at the first line that is in no record's grammar, or at
/// line 3 or 5 where it has not the suite's number of tests or classes; `RecordForeign` where it is of another suite.
#[tactic(auto, unfolding(crate::specs::Records::begun))]
pub fn begin_with<D: Depot>(
    alloc: Global,
    depot: &mut D,
    loaded: &Loaded,
    tests: Items<u32>,
    name: &[u8],
) -> Result<Request, Status>
    ensures told { TellsOn (D.shown depot.old).told (D.shown depot.new).told }
    ensures faults { (D.shown depot.old).faults ≤ (D.shown depot.new).faults }
    ensures gives { OfHeld (D.shown depot.new).told (λ files.
        let begun = records.begun records.record_fits files loaded.now (Ok tests) name.now in
        Gives records.beginning result begun) }
    ensures tests { IfOk result (λ b. b.tests ≡ tests) }
    ensures units { IfOk result (λ b. length b.record.units ≡ length loaded.now.checked.tests) }
    ensures fails { IfErr result (Fails name.now (D.shown depot.old) (D.shown depot.new)) }
{
    let name = Text::from_slice(alloc, name)?;
    let record = record_at(alloc, depot, &name)?;
    record_fits(loaded, &record)?;
    Ok(Request { tests, record })
}

/// The record of this name, of an earlier state of the suite: of the same suite text, whatever its class files are now.
///
/// `Absent`, `TooLarge` and `Depot` come where it can't be read; `Record` at the first line that is in no record's grammar;
/// `RecordOld` where it is in version 1; `RecordForeign` where it is of another suite text; `Record` at line 3 or 5 where it
/// has not the suite's number of tests or classes.
#[tactic(auto, unfolding(crate::specs::Records::begun))]
pub fn earlier_record<D: Depot>(
    alloc: Global,
    depot: &mut D,
    loaded: &Loaded,
    name: &[u8],
) -> Result<Record, Status>
    ensures told { TellsOn (D.shown depot.old).told (D.shown depot.new).told }
    ensures faults { (D.shown depot.old).faults ≤ (D.shown depot.new).faults }
    ensures gives { OfHeld (D.shown depot.new).told (λ files.
        let begun = records.begun records.earlier_fits files loaded.now (Ok []) name.now in
        Gives records.nameless result begun) }
    ensures fits { IfOk result (λ r. fits_prints r.more loaded.now.prints ≡ true) }
    ensures fails { IfErr result (Fails name.now (D.shown depot.old) (D.shown depot.new)) }
{
    let name = Text::from_slice(alloc, name)?;
    let record = record_at(alloc, depot, &name)?;
    earlier_fits(loaded, &record)?;
    Ok(record)
}
