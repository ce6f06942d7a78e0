//! A run on two workers by a record, over depots and sinks that fail.

ghost use Rattle.std.specs.Prelude.{◌<◌};

use crate::asking::{File, depot, sink, words};
use crate::files::{COUNTER_CLASS, COUNTER_RECORD, COUNTER_SUITE, NEEDED_REPORT};
use crate::outsides::{Held, LINES_BEFORE};
use crate::threads::status_of;
use crate::turns::Turns;
use et_base::NoMemory;
use std::alloc::Global;
use std::sync::Wait;
use std::test::Fail;
use std::thread::Threads;

const RUN_SHOW: [&[u8]; 5] = [b"run", b"s", b"r", b"2", b"Counter.show"];

const SHOW_FILES: [File; 3] = [
    (b"s", COUNTER_SUITE),
    (b"Counter.class", &COUNTER_CLASS),
    (b"r", COUNTER_RECORD),
];

// How the run ends where the listed calls of the depot and of the sink fail, which takes at most `most` bytes a call; the
// text is the whole answer.
fn held_by<R: Threads + Wait + Sync>(
    rt: &R,
    alloc: Global,
    reads: &[u64],
    most: usize,
    writes: &[u64],
    text: &[u8],
) -> Result<Held, NoMemory>
    requires { 0 < most }
{
    let words = words(alloc, &RUN_SHOW)?;
    let mut depot = depot(alloc, &SHOW_FILES, reads)?;
    let mut sink = sink(alloc, most, 1000, writes)?;
    let gate = Turns::new(0, 0);
    let status = status_of(rt, alloc, words.as_slice(), &mut depot, &mut sink, &gate);
    Ok(Held::of(status.code(), sink.held(), text))
}

// Whether the run over a depot that fails at this call ends with this exit status and this text.
fn answers_a_read<R: Threads + Wait + Sync>(
    rt: &R,
    alloc: Global,
    call: u64,
    code: u8,
    text: &[u8],
) -> Result<bool, NoMemory> {
    let held = held_by(rt, alloc, &[call], 1000, &[], text)?;
    Ok(held.is_prefix && held.code == code && held.len == text.len())
}

// The call of the depot that fails, and how the run ends then.
const READS: [(u64, u8, &[u8]); 4] = [
    (1, 5, b"electric: depot s\n"),
    (2, 5, b"electric: depot Counter.class\n"),
    (3, 5, b"electric: depot r\n"),
    (4, 0, NEEDED_REPORT),
];

#[test]
fn the_file_that_a_depot_fails_at_is_named(rt: HostRuntime) -> Result<(), Fail> {
    for (call, code, text) in READS {
        assert!(rt;
            answers_a_read(&rt, rt.alloc(), call, code, text)?,
            "at {call}"
        );
    }
    Ok(())
}

// Whether the run over a sink that fails at this call ends so, and so much of the report is held.
fn answers_a_write<R: Threads + Wait + Sync>(
    rt: &R,
    alloc: Global,
    most: usize,
    call: u64,
    code: u8,
    len: usize,
) -> Result<bool, NoMemory>
    requires { 0 < most }
{
    let held = held_by(rt, alloc, &[], most, &[call], NEEDED_REPORT)?;
    Ok(held.is_prefix && held.code == code && held.len == len)
}

#[test]
fn a_sink_that_fails_holds_the_lines_before_on_workers(rt: HostRuntime) -> Result<(), Fail> {
    for (call, code, len) in LINES_BEFORE {
        assert!(rt;
            answers_a_write(&rt, rt.alloc(), 1000, call, code, len)?,
            "at {call}"
        );
    }
    Ok(())
}

// Whether the run over a sink that takes a byte a call, and fails behind so many, holds these alone.
fn holds_bytes<R: Threads + Wait + Sync>(
    rt: &R,
    alloc: Global,
    len: usize,
) -> Result<bool, NoMemory> {
    let code = if len < NEEDED_REPORT.len() { 6 } else { 0 };
    let call = (len as u64).saturating_add(1);
    answers_a_write(rt, alloc, 1, call, code, len)
}

#[test]
fn a_sink_that_fails_holds_the_bytes_before_on_workers(rt: HostRuntime) -> Result<(), Fail> {
    for len in 0..152 {
        assert!(rt; holds_bytes(&rt, rt.alloc(), len)?, "behind {len} bytes");
    }
    Ok(())
}
