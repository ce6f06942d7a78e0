//! A sink that keeps the fault line that goes through it.

ghost use Rattle.std.specs.Prelude.{◌≡◌, ◌≤◌, ◌<◌, length, take, IfOk};
ghost use Rattle.std.specs.Result.{result_unwrap_or};
ghost use Rattle.outside.specs.{Counts.Rose, Sink.appended, Sink.lowered, Sink.HasRoom};

use et_base::Text;
use outside::{Sink, SinkFailed};
use std::alloc::Global;
use std::marker::Model;

/// Passes each piece on to a sink, and keeps the first one where it begins a fault line. Contracts see the sink alone.
#[derive(Drop)]
pub struct Heard<S: Sink + Drop> {
    sink: S,
    line: Text,
}

impl<S: Sink + Drop> Model for Heard<S> {
    ghost Value = { S };

    ghost view = { λ s. s.sink };
}

impl<S: Sink + Drop> Heard<S> {
    /// Passes on to this sink; nothing is kept so far.
    pub fn new(alloc: Global, sink: S) -> Heard<S>
        ensures { result ≡ sink }
    {
        Heard {
            sink,
            line: Text::new(alloc),
        }
    }

    /// The sink, and the fault line with its line feed; that is empty where there was none, or no memory to keep it.
    pub fn into_parts(self) -> (S, Text)
        ensures { result.0 ≡ self }
    {
        let Heard { sink, line } = self;
        (sink, line)
    }

    fn hear(&mut self, piece: &[u8])
        ensures { self.new ≡ self.old }
    {
        if self.line.as_slice().is_empty() && piece.starts_with(b"electric: ") {
            let _kept = self.line.extend_from_slice(piece);
        }
    }
}

impl<S: Sink + Drop> Sink for Heard<S> {
    ghost shown = { λ s. S.shown s };

    fn write(&mut self, piece: &[u8]) -> Result<usize, SinkFailed>
        requires { 0 < length piece.now }

        ensures within { IfOk result (λ taken. taken ≤ length piece.now) }
        ensures told { let front = take (result_unwrap_or result 0) piece.now in
            (S.shown self.new).told ≡ appended (S.shown self.old).told front }

        ensures faults { (S.shown self.old).faults ≤ (S.shown self.new).faults }
        ensures none_taken { result_unwrap_or result 0 ≡ 0 →
            Rose (S.shown self.old).faults (S.shown self.new).faults }

        ensures room { (S.shown self.new).room
            ≡ lowered (S.shown self.old).room (result_unwrap_or result 0) }
        ensures has_room { HasRoom (S.shown self.old).room (length piece.now) →
            (S.shown self.new).faults ≡ (S.shown self.old).faults }
    {
        self.hear(piece);
        self.sink.write(piece)
    }
}
