//! Sinks that fail at chosen calls.

ghost use Rattle.std.specs.Prelude.{◌<◌};

use crate::asking::{File, answer, depot, sink, words};
use et_base::NoMemory;
use std::alloc::Global;

/// The call at which a sink of whole lines fails, the exit status of a run of the counter then, and the length of the lines
/// before. Its reports have lines of the same lengths.
pub const LINES_BEFORE: [(u64, u8, usize); 7] = [
    (1, 6, 0),
    (2, 6, 15),
    (3, 6, 46),
    (4, 6, 80),
    (5, 6, 115),
    (6, 6, 125),
    (7, 0, 151),
];

/// How a run ended, and what its sink holds.
#[derive(Drop)]
pub struct Held {
    pub code: u8,
    pub len: usize,
    pub is_prefix: bool,
}

impl Held {
    /// By the exit status and what the sink holds; the text is the whole answer.
    pub fn of(code: u8, held: &[u8], text: &[u8]) -> Held {
        Held {
            code,
            len: held.len(),
            is_prefix: text.starts_with(held),
        }
    }
}

/// The answer over a sink that fails at this call and takes at most `most` bytes a call; the text is the whole answer.
pub fn held_before(
    alloc: Global,
    given: &[&[u8]],
    files: &[File],
    most: usize,
    call: u64,
    text: &[u8],
) -> Result<Held, NoMemory>
    requires { 0 < most }
{
    let words = words(alloc, given)?;
    let mut depot = depot(alloc, files, &[])?;
    let mut sink = sink(alloc, most, 1000, &[call])?;
    let code = answer(alloc, words.as_slice(), &mut depot, &mut sink).code();
    Ok(Held::of(code, sink.held(), text))
}
