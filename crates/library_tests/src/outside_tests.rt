//! Each depot and sink once, with ample memory.

ghost use Rattle.std.specs.Prelude.{◌≡◌, ◌<◌};

use crate::texts::{File, files};
use et_base::{NoMemory, Text};
use outside::{
    Depot, DepotRefusal, FolderDepot, Gate, MemoryDepot, MemorySink, OpenGate, QuietDepot,
    QuietSink, Sink, StdSink, Steps, write_text,
};
use std::alloc::Global;
use std::marker::Brand;
use std::sync::ledger::{Blank, Ledger};

// The second file has a name that stands already.
const FILES: [File; 2] = [(b"s", b"suite"), (b"s", b"other")];

// Whether these bytes were read.
fn is_read(read: Result<Vec<u8>, DepotRefusal>, bytes: &[u8]) -> bool {
    match read {
        Ok(read) => read.as_slice() == bytes,
        Err(_) => false,
    }
}

fn memory_depot(alloc: Global) -> Result<MemoryDepot, NoMemory> {
    let fail = Vec::from_slice(alloc, &[2])?;
    let files = files(alloc, &FILES)?;
    MemoryDepot::new(alloc, files, fail)
}

// Whether the first call reads the first file, and the second fails.
fn fails_at_its_second_call(alloc: Global) -> Result<bool, NoMemory> {
    let name = Text::from_slice(alloc, b"s")?;
    let mut depot = memory_depot(alloc)?;
    let first = is_read(depot.read(&name, 5), b"suite");
    let second = depot.read(&name, 5).err();
    Ok(first && second == Some(DepotRefusal::Failed))
}

#[test]
fn a_memory_depot_fails_at_its_second_call(rt: HostRuntime) {
    assert!(rt; fails_at_its_second_call(rt.alloc()).unwrap_or(false));
}

fn reads_the_first_file(alloc: Global) -> Result<bool, NoMemory> {
    let name = Text::from_slice(alloc, b"s")?;
    let mut depot = QuietDepot::new(alloc, files(alloc, &FILES)?);
    Ok(is_read(depot.read(&name, 5), b"suite"))
}

#[test]
fn a_quiet_depot_reads(rt: HostRuntime) {
    assert!(rt; reads_the_first_file(rt.alloc()).unwrap_or(false));
}

// Each line is one piece, so failing at call 2 leaves the first line.
fn holds_the_first_line(alloc: Global) -> Result<bool, NoMemory> {
    let fail = Vec::from_slice(alloc, &[2])?;
    let mut sink = MemorySink::new(alloc, 1000, fail);
    sink.reserve(100)?;
    let fails = write_text(&mut sink, b"one\ntwo\nend").is_err();
    Ok(fails && sink.held() == b"one\n".as_slice())
}

#[test]
fn a_memory_sink_holds_the_lines_before_a_fault(rt: HostRuntime) {
    assert!(rt; holds_the_first_line(rt.alloc()).unwrap_or(false));
}

fn holds_both_lines(alloc: Global) -> Result<bool, NoMemory> {
    let mut sink = QuietSink::new(alloc, 1, 8)?;
    let ends = write_text(&mut sink, b"one\ntwo\n").is_ok();
    Ok(ends && sink.held() == b"one\ntwo\n".as_slice())
}

#[test]
fn a_text_is_written_byte_by_byte(rt: HostRuntime) {
    assert!(rt; holds_both_lines(rt.alloc()).unwrap_or(false));
}

#[test]
fn standard_output_takes_a_text(rt: HostRuntime) {
    let mut sink = StdSink::new(&rt);
    assert!(rt; write_text(&mut sink, b"written\n").is_ok());
}

// What the folder of the tests has under this name.
fn read_in_folder(rt: &HostRuntime, name: &[u8]) -> Result<Vec<u8>, DepotRefusal> {
    let alloc = rt.alloc();
    let name = Text::from_slice(alloc, name)?;
    let folder = String::from_str(alloc, ".")?;
    let mut depot = FolderDepot::new(rt, alloc, folder);
    depot.read(&name, 5)
}

#[test]
fn a_folder_reads_a_file(rt: HostRuntime) {
    assert!(rt; std::fs::write(&rt, "outside-test-file", "five!").is_ok());
    assert!(rt; is_read(read_in_folder(&rt, b"outside-test-file"), b"five!"));
    assert!(rt; std::fs::remove_file(&rt, "outside-test-file").is_ok());
}

#[test]
fn a_folder_lacks_a_file(rt: HostRuntime) {
    let missing = read_in_folder(&rt, b"missing-test-file").err();
    assert!(rt; missing == Some(DepotRefusal::Absent));
}

// What a ledger counts is known at its own name alone.
fn spend_three<L: Ledger>(blank: Blank)
    requires name { blank.name ≡ L.name }
    requires parts { blank.parts ≡ L.parts }
    requires some { 0 < blank.parts }
{
    let mut steps = Steps::<L>::new(blank);
    steps.spend(3);
}

// Workers share a gate.
fn enter_shared<G: Gate + Sync>(gate: &G) {
    gate.enter(1, 1);
}

#[test]
fn units_are_spent_and_a_gate_is_open(_rt: HostRuntime) {
    spend_three::<Brand>(Blank::new(1));
    enter_shared(&OpenGate::new());
}
