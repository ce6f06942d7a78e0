//! A sink in memory that fails only where its room ends.

ghost use Rattle.std.specs.Prelude.{◌≡◌, ◌<◌, ◌≤◌, ◌++◌, ◌-◌, ◌↔◌, [], length, take, min, IfOk, IsErr, OnOk, OnErr};
ghost use Rattle.std.specs.Result.{result_unwrap_or};
ghost use Rattle.outside.specs.Counts.{Rose, raised};

use crate::buffer::Buffer;
use crate::counts::raise;
use crate::{Sink, SinkFailed};
use et_base::NoMemory;
use std::alloc::Global;
use std::marker::Model;

/// Takes bytes into memory that it reserved when it was made. It fails only at a piece that is longer than the room.
#[derive(Drop)]
pub struct QuietSink {
    buffer: Buffer,
    most: usize,
    faults: u64,
}

impl Model for QuietSink {
    ghost use Rattle.std.specs.Prelude.{◌<◌};
    ghost use Rattle.outside.specs.QuietSink.{QuietSinkState};

    ghost Value = { QuietSinkState };

    ghost view = { λ s. record {
      held = s.buffer.bytes;
      room = s.buffer.room;
      most = s.most;
      faults = s.faults;
    } };

    ghost invariant = { λ s. 0 < s.most };
}

impl QuietSink {
    /// An empty sink with room for `room` bytes, which takes at most `most` bytes per call.
    pub fn new(alloc: Global, most: usize, room: usize) -> Result<QuietSink, NoMemory>
        requires { 0 < most }
        ensures { IfOk result (λ sink. sink ≡ record { held = []; room = room; most = most; faults = 0 }) }
    {
        let mut buffer = Buffer::new(alloc);
        buffer.reserve(room)?;
        Ok(QuietSink {
            buffer,
            most,
            faults: 0,
        })
    }

    /// The bytes taken so far.
    pub fn held(&self) -> &[u8]
        ensures { result.now ≡ self.now.held }
    {
        self.buffer.bytes()
    }
}

impl Sink for QuietSink {
    ghost use Rattle.std.specs.Prelude.{Some};

    ghost shown = { λ s. record { told = Some s.held; room = Some s.room; faults = s.faults } };

    fn write(&mut self, piece: &[u8]) -> Result<usize, SinkFailed>
        requires { 0 < length piece.now }

        ensures taken { IfOk result (λ taken. taken ≡ min self.old.most (length piece.now)) }
        ensures some { IfOk result (λ taken. 0 < taken) }
        ensures held { self.new.held ≡ self.old.held ++ take (result_unwrap_or result 0) piece.now }
        ensures room { self.new.room ≡ self.old.room - result_unwrap_or result 0 }
        ensures most { self.new.most ≡ self.old.most }

        // It fails just where the piece is longer than the room.
        ensures failed { IsErr result ↔ (self.old.room < length piece.now) }
        ensures fault { OnErr result (self.new.faults ≡ raised self.old.faults) }
        ensures no_fault { OnOk result (self.new.faults ≡ self.old.faults) }
        ensures rose { OnErr result (Rose self.old.faults self.new.faults) }
        ensures later { self.old.faults ≤ self.new.faults }
    {
        if self.buffer.room() < piece.len() {
            self.faults = raise(self.faults);
            return Err(SinkFailed {});
        }
        let taken = self.most.min(piece.len());
        self.buffer.put(&piece[..taken]);
        Ok(taken)
    }
}
