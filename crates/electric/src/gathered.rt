//! A sink that hands many pieces on as one.

ghost use Rattle.std.specs.Prelude.{◌≡◌, ◌≤◌, ◌<◌, [], ◌++◌, length, true, false, IfOk, OnOk, OnErr};
ghost use Rattle.std.specs.Result.{result_unwrap_or};
ghost use Rattle.outside.specs.Counts.{Rose};
ghost use Rattle.electric.specs.Gathered.{seen, HandedOn, TookFront};

use outside::{Sink, SinkFailed};
use std::alloc::Global;
use std::marker::Model;

/// How many bytes are gathered at most.
const SIZE: usize = 65536;

/// Gathers pieces, and hands them on to a sink together where no more fit or `flush` asks for it. Contracts see the sink
/// and the bytes that are still to be handed on.
#[derive(Drop)]
pub struct Gathered<S: Sink + Drop> {
    sink: S,
    bytes: Vec<u8>,
    sent: usize,
}

impl<S: Sink + Drop> Model for Gathered<S> {
    ghost use Rattle.std.specs.Prelude.{◌≤◌, length, drop};
    ghost use Rattle.electric.specs.Gathered.{Gathering};

    ghost Value = { Gathering S };

    ghost view = { λ s. record { sink = s.sink; bytes = drop s.sent s.bytes.items } };

    ghost invariant = { λ s. s.sent ≤ length s.bytes.items };
}

impl<S: Sink + Drop> Gathered<S> {
    /// Hands on to this sink; nothing is gathered so far. Where no memory is given for bytes, each piece will be handed
    /// on by itself.
    pub fn new(alloc: Global, sink: S) -> Gathered<S>
        ensures { result ≡ record { sink = sink; bytes = [] } }
    {
        Gathered {
            sink,
            bytes: Vec::with_capacity(alloc, SIZE).unwrap_or_else(|_| Vec::new(alloc)),
            sent: 0,
        }
    }

    /// Hands on what is gathered. An error comes only where the sink's count of faults rose in this call; what the sink
    /// didn't take then stays gathered.
    pub fn flush(&mut self) -> Result<(), SinkFailed>
        ensures all { OnOk result (self.new.bytes ≡ []) }
        ensures handed { HandedOn
            (S.shown self.old.sink) (S.shown self.new.sink) self.old.bytes self.new.bytes }
        ensures failed { OnErr result
            (Rose (S.shown self.old.sink).faults (S.shown self.new.sink).faults) }
    {
        while self.is_left() {
            if self.hand_on() == 0 {
                return Err(SinkFailed {});
            }
        }
        self.bytes.clear();
        self.sent = 0;
        Ok(())
    }

    // Whether bytes are still to be handed on.
    fn is_left(&self) -> bool
        ensures left { result ≡ true → 0 < length self.now.bytes }
        ensures none { result ≡ false → self.now.bytes ≡ [] }
    {
        self.sent < self.bytes.len()
    }

    // Offers what is gathered to the sink once, and says how many bytes that took. That it stands apart puts the machine's
    // loop of `run`, which the program has behind it, where few of its jumps cross 32 bytes.
    #[inline(never)]
    fn hand_on(&mut self) -> usize
        requires { 0 < length self.old.bytes }
        ensures less { 0 < result → length self.new.bytes < length self.old.bytes }
        ensures handed { HandedOn
            (S.shown self.old.sink) (S.shown self.new.sink) self.old.bytes self.new.bytes }
        ensures none_taken { result ≡ 0 →
            Rose (S.shown self.old.sink).faults (S.shown self.new.sink).faults }
    {
        let (_, left) = self.bytes.as_slice().split_at(self.sent);
        let taken = self.sink.write(left).unwrap_or(0);
        self.sent += taken;
        taken
    }

    // Gathers a piece where it fits, and says whether it did.
    fn gather(&mut self, piece: &[u8]) -> bool
        ensures longer { result ≡ true →
            self.new ≡ record self.old { bytes = self.old.bytes ++ piece.now } }
        ensures kept { result ≡ false → self.new ≡ self.old }
    {
        let room = self.bytes.capacity() - self.bytes.len();
        piece.len() <= room && self.bytes.extend_from_slice(piece).is_ok()
    }
}

impl<S: Sink + Drop> Sink for Gathered<S> {
    ghost use Rattle.electric.specs.Gathered.{seen};

    ghost shown = { λ s. seen S.shown s };

    fn write(&mut self, piece: &[u8]) -> Result<usize, SinkFailed>
        requires { 0 < length piece.now }

        ensures within { IfOk result (λ taken. taken ≤ length piece.now) }
        ensures took { TookFront
            (seen S.shown self.old) (seen S.shown self.new) piece.now (result_unwrap_or result 0) }
        ensures none_taken { result_unwrap_or result 0 ≡ 0 →
            Rose (S.shown self.old.sink).faults (S.shown self.new.sink).faults }
    {
        if self.gather(piece) {
            return Ok(piece.len());
        }
        self.flush()?;
        if self.gather(piece) {
            return Ok(piece.len());
        }
        self.sink.write(piece)
    }
}
