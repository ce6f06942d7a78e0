//! Asks the top call about files in memory.

ghost use Rattle.std.specs.Prelude.{◌≡◌, ◌<◌};
ghost use Rattle.electrictest.specs.{Commands.Ends, Words.plain};

use electrictest::{Status, electric_plain};
use et_base::{Items, NoMemory, Text};
use outside::{Depot, MemoryDepot, MemorySink, Sink, Steps};
use std::alloc::Global;
use std::marker::Brand;
use std::sync::ledger::{Blank, Ledger};

/// A file's name and its bytes.
pub type File<'a> = (&'a [u8], &'a [u8]);

fn text(alloc: Global, bytes: &[u8]) -> Result<Text, NoMemory> {
    Ok(Text::from_vec(Vec::from_slice(alloc, bytes)?))
}

/// The words of a command line.
pub fn words(alloc: Global, given: &[&[u8]]) -> Result<Items<Text>, NoMemory> {
    let mut words = Items::new(alloc);
    for word in given {
        words.push(text(alloc, word)?)?;
    }
    Ok(words)
}

/// A depot of these files, whose listed calls fail.
pub fn depot(alloc: Global, files: &[File], fail: &[u64]) -> Result<MemoryDepot, NoMemory> {
    let mut held = Vec::new(alloc);
    for (name, bytes) in files {
        held.push((text(alloc, name)?, Vec::from_slice(alloc, bytes)?))?;
    }
    MemoryDepot::new(alloc, held, Vec::from_slice(alloc, fail)?)
}

/// A sink that takes at most `most` bytes a call and has room for `room`; its listed calls fail.
pub fn sink(alloc: Global, most: usize, room: usize, fail: &[u64]) -> Result<MemorySink, NoMemory>
    requires { 0 < most }
{
    let mut sink = MemorySink::new(alloc, most, Vec::from_slice(alloc, fail)?);
    sink.reserve(room)?;
    Ok(sink)
}

// What a ledger counts is known at its own name alone.
fn answer_on<D: Depot, S: Sink, L: Ledger>(
    alloc: Global,
    words: &[Text],
    depot: &mut D,
    sink: &mut S,
    blank: Blank,
) -> Status
    requires name { blank.name ≡ L.name }
    requires parts { blank.parts ≡ L.parts }
    requires some { 0 < blank.parts }
    ensures { let depot_now = D.shown depot.new in let sink_now = S.shown sink.new in
        Ends (plain words.now) result (D.shown depot.old) depot_now (S.shown sink.old) sink_now }
{
    let mut steps = Steps::<L>::new(blank);
    electric_plain(alloc, words, depot, sink, &mut steps)
}

/// The answer to the words. A depot or a sink is said to have failed only where its count of faults rose.
pub fn answer<D: Depot, S: Sink>(
    alloc: Global,
    words: &[Text],
    depot: &mut D,
    sink: &mut S,
) -> Status
    ensures { let depot_now = D.shown depot.new in let sink_now = S.shown sink.new in
        Ends (plain words.now) result (D.shown depot.old) depot_now (S.shown sink.old) sink_now }
{
    answer_on::<D, S, Brand>(alloc, words, depot, sink, Blank::new(1))
}

/// Whether the words are answered by this exit status and this text, taken by at most `most` bytes a call.
pub fn answers(
    alloc: Global,
    given: &[&[u8]],
    depot: &mut MemoryDepot,
    most: usize,
    code: u8,
    text: &[u8],
) -> Result<bool, NoMemory>
    requires { 0 < most }
{
    let words = words(alloc, given)?;
    let mut sink = sink(alloc, most, 1000, &[])?;
    let status = answer(alloc, words.as_slice(), depot, &mut sink);
    Ok(status.code() == code && sink.held() == text)
}
