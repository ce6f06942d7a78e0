//! A text on a sink, line by line.

ghost use Rattle.std.specs.Prelude.{◌≡◌, ◌≢◌, ◌<◌, ◌≤◌, ◌+◌, ◌-◌, ◌^◌, ℕ, length, slice_index, IsOk, OnOk, OnErr};
ghost use Rattle.outside.specs.{Counts.Rose, Sink.appended, Sink.lowered, Sink.HasRoom, Sink.TookPrefix};

use crate::{Sink, SinkFailed};
use memchr::memchr;

/// Offers a text to a sink line by line: each line with its line feed is one piece, and where less was taken the rest
/// of the piece is offered again. An error comes only where the sink's count of faults rose in this call; the sink then
/// has taken a prefix of the text.
pub fn write_text<S: Sink>(sink: &mut S, text: &[u8]) -> Result<(), SinkFailed>
    ensures written { OnOk result ((S.shown sink.new).told ≡ appended (S.shown sink.old).told text.now) }
    ensures prefix { OnErr result (TookPrefix (S.shown sink.old) (S.shown sink.new) text.now) }

    ensures faults { (S.shown sink.old).faults ≤ (S.shown sink.new).faults }
    ensures failed { OnErr result (Rose (S.shown sink.old).faults (S.shown sink.new).faults) }

    // A told room that holds the text keeps the count, so the text is written.
    ensures has_room { HasRoom (S.shown sink.old).room (length text.now) →
        (S.shown sink.new).faults ≡ (S.shown sink.old).faults }
    ensures fits { HasRoom (S.shown sink.old).room (length text.now) →
        (S.shown sink.old).faults < 2 ^ 64 - 1 → IsOk result }
    ensures room { OnOk result
        ((S.shown sink.new).room ≡ lowered (S.shown sink.old).room (length text.now)) }
{
    let mut rest = text;
    while !rest.is_empty() {
        let (line, after) = rest.split_at(line_len(rest));
        write_piece(sink, line)?;
        rest = after;
    }
    Ok(())
}

/// How long the first line is, with its line feed where it has one.
fn line_len(text: &[u8]) -> usize
    requires { 0 < length text.now }
    ensures some { 0 < result }
    ensures within { result ≤ length text.now }
    ensures ended { result < length text.now → slice_index text.now (result - 1) ≡ 10 }
    ensures first { (k : ℕ) → k + 1 < result → slice_index text.now k ≢ 10 }
{
    match memchr(b'\n', text) {
        Some(at) => at + 1,
        None => text.len(),
    }
}

/// Offers a piece until the sink has taken all of it, or failed.
fn write_piece<S: Sink>(sink: &mut S, piece: &[u8]) -> Result<(), SinkFailed>
    ensures written { OnOk result ((S.shown sink.new).told ≡ appended (S.shown sink.old).told piece.now) }
    ensures prefix { OnErr result (TookPrefix (S.shown sink.old) (S.shown sink.new) piece.now) }

    ensures faults { (S.shown sink.old).faults ≤ (S.shown sink.new).faults }
    ensures failed { OnErr result (Rose (S.shown sink.old).faults (S.shown sink.new).faults) }

    ensures has_room { HasRoom (S.shown sink.old).room (length piece.now) →
        (S.shown sink.new).faults ≡ (S.shown sink.old).faults }
    ensures room { OnOk result
        ((S.shown sink.new).room ≡ lowered (S.shown sink.old).room (length piece.now)) }
{
    let mut rest = piece;
    while !rest.is_empty() {
        let taken = sink.write(rest).unwrap_or(0);
        if taken == 0 {
            return Err(SinkFailed {});
        }
        let (_, after) = rest.split_at(taken);
        rest = after;
    }
    Ok(())
}
