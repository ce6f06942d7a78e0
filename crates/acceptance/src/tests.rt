//! The top call over depots and sinks that fail, sinks that take short pieces, and class files of
//! each length.

ghost use Rattle.std.specs.Prelude.{◌<◌};

use crate::asking::{File, answers, depot};
use crate::files::{
    COUNTER_CLASS, COUNTER_REPORT, COUNTER_SUITE, RETURN_CLASS, RETURN_REPORT, RETURN_SUITE,
};
use crate::outsides::{LINES_BEFORE, held_before};
use et_base::NoMemory;
use std::alloc::Global;
use std::test::Fail;

const RUN: [&[u8]; 5] = [b"run", b"s", b"-", b"1", b"all"];

const RETURN_FILES: [File; 2] = [(b"s", RETURN_SUITE), (b"T.class", &RETURN_CLASS)];

const COUNTER_FILES: [File; 2] = [(b"s", COUNTER_SUITE), (b"Counter.class", &COUNTER_CLASS)];

// Whether a suite is answered where the sink takes at most `most` bytes a call.
fn is_answered(alloc: Global, most: usize) -> Result<bool, NoMemory>
    requires { 0 < most }
{
    let mut depot = depot(alloc, &COUNTER_FILES, &[])?;
    answers(alloc, &RUN, &mut depot, most, 0, COUNTER_REPORT)
}

#[test]
fn a_suite_is_answered_in_pieces_of_any_size(rt: HostRuntime) -> Result<(), Fail> {
    for most in [1, 3, 1000] {
        assert!(rt; is_answered(rt.alloc(), most)?, "{most}");
    }
    Ok(())
}

// Whether words in no form are answered so over a depot whose first call would fail.
fn refuses_words(alloc: Global) -> Result<bool, NoMemory> {
    let mut depot = depot(alloc, &RETURN_FILES, &[1])?;
    let given: [&[u8]; 2] = [b"walk", b"s"];
    answers(alloc, &given, &mut depot, 1000, 2, b"electric: words\n")
}

#[test]
fn words_in_no_form_ask_no_depot(rt: HostRuntime) -> Result<(), Fail> {
    assert!(rt; refuses_words(rt.alloc())?);
    Ok(())
}

// A run reads the suite and then the class, and stops where one of these calls fails.
fn names_what_failed(alloc: Global) -> Result<bool, NoMemory> {
    let mut depot = depot(alloc, &RETURN_FILES, &[1, 3])?;
    let suite = answers(alloc, &RUN, &mut depot, 1000, 5, b"electric: depot s\n")?;
    let class = answers(
        alloc,
        &RUN,
        &mut depot,
        1000,
        5,
        b"electric: depot T.class\n",
    )?;
    let none = answers(alloc, &RUN, &mut depot, 1000, 0, RETURN_REPORT)?;
    Ok(suite && class && none)
}

#[test]
fn a_depot_that_fails_is_named(rt: HostRuntime) -> Result<(), Fail> {
    assert!(rt; names_what_failed(rt.alloc())?);
    Ok(())
}

// Whether a run over a sink that fails at this call ends so, and so much of the report is held. Each line is one piece, so
// the sink that takes all at once holds whole lines.
fn holds_lines(alloc: Global, call: u64, code: u8, len: usize) -> Result<bool, NoMemory> {
    let held = held_before(alloc, &RUN, &COUNTER_FILES, 1000, call, COUNTER_REPORT)?;
    Ok(held.is_prefix && held.code == code && held.len == len)
}

#[test]
fn a_sink_that_fails_holds_the_lines_before(rt: HostRuntime) -> Result<(), Fail> {
    for (call, code, len) in LINES_BEFORE {
        assert!(rt; holds_lines(rt.alloc(), call, code, len)?, "at {call}");
    }
    Ok(())
}

// Whether a refusal over a sink that fails in the middle of it ends so, and its first 8 bytes are held.
fn holds_a_prefix(alloc: Global) -> Result<bool, NoMemory> {
    let held = held_before(alloc, &[], &[], 4, 3, b"electric: words\n")?;
    Ok(held.is_prefix && held.code == 6 && held.len == 8)
}

#[test]
fn a_sink_that_fails_at_a_refusal_holds_a_prefix(rt: HostRuntime) -> Result<(), Fail> {
    assert!(rt; holds_a_prefix(rt.alloc())?);
    Ok(())
}

// The class file of `T` with an attribute of its own, so that it has this many bytes.
fn class_of_size(alloc: Global, size: u32) -> Result<Vec<u8>, NoMemory> {
    let mut class = Vec::from_slice(alloc, &RETURN_CLASS[..95])?;
    class.extend_from_slice(&[0, 1, 0, 1])?;
    class.extend_from_slice(&size.saturating_sub(103).to_be_bytes())?;
    for _ in 103..size {
        class.push(0)?;
    }
    Ok(class)
}

fn reads_greatest_class(alloc: Global) -> Result<bool, NoMemory> {
    let most = class_of_size(alloc, 1_048_576)?;
    let mut depot = depot(alloc, &[(b"s", RETURN_SUITE), (b"T.class", &most)], &[])?;
    answers(alloc, &RUN, &mut depot, 1000, 0, RETURN_REPORT)
}

#[test]
fn a_class_file_of_a_mebibyte_is_read(rt: HostRuntime) -> Result<(), Fail> {
    assert!(rt; reads_greatest_class(rt.alloc())?);
    Ok(())
}

// Where the parts of the class file of `T` begin that are read as a whole.
const PARTS: [usize; 42] = [
    0, 4, 6, 8, 10, 11, 13, 14, 15, 17, 18, 20, 36, 37, 39, 40, 42, 43, 44, 46, 49, 50, 52, 56, 58,
    60, 62, 64, 66, 68, 70, 72, 74, 76, 78, 82, 84, 86, 90, 91, 93, 95,
];

// Where the part begins that is short in the first bytes of the class file.
fn short_part(len: usize) -> usize {
    let mut last = 0;
    for part in PARTS {
        if part <= len {
            last = part;
        }
    }
    last
}

// Whether the first bytes of the class file of `T` are refused at the part that is short.
fn names_the_cut(alloc: Global, len: usize) -> Result<bool, NoMemory> {
    let mut class = Vec::from_slice(alloc, &RETURN_CLASS)?;
    class.truncate(len);
    let mut depot = depot(alloc, &[(b"s", RETURN_SUITE), (b"T.class", &class)], &[])?;
    let at = short_part(len);
    let line = format!(in alloc; "electric: class T.class truncated {at}\n")?;
    answers(alloc, &RUN, &mut depot, 1000, 3, line.as_bytes())
}

#[test]
fn a_class_file_that_is_cut_is_refused_at_the_cut(rt: HostRuntime) -> Result<(), Fail> {
    for len in 0..97 {
        assert!(rt; names_the_cut(rt.alloc(), len)?, "{len} bytes");
    }
    Ok(())
}
