//! A sink in memory that fails at chosen calls.

ghost use Rattle.std.specs.Prelude.{◌≡◌, ◌⊎◌, ◌-◌, ◌<◌, ◌≤◌, ◌++◌, ◌↔◌, [], length, take, min, max, IfOk, IsOk, IsErr, OnOk, OnErr, Contains};
ghost use Rattle.std.specs.Result.{result_unwrap_or};
ghost use Rattle.outside.specs.Counts.{Rose, raised};

use crate::buffer::Buffer;
use crate::counts::{is_listed, raise};
use crate::{Sink, SinkFailed};
use et_base::NoMemory;
use std::alloc::Global;
use std::marker::Model;

/// Takes bytes into memory that was reserved for them. The calls whose numbers, from 1, are listed fail, and so does
/// a write without room.
#[derive(Drop)]
pub struct MemorySink {
    buffer: Buffer,
    most: usize,
    fail: Vec<u64>,
    calls: u64,
    faults: u64,
}

impl Model for MemorySink {
    ghost use Rattle.std.specs.Prelude.{◌<◌};
    ghost use Rattle.outside.specs.MemorySink.{MemorySinkState};

    ghost Value = { MemorySinkState };

    ghost view = { λ s. record {
      held = s.buffer.bytes;
      room = s.buffer.room;
      most = s.most;
      fail = s.fail.items;
      calls = s.calls;
      faults = s.faults;
    } };

    ghost invariant = { λ s. 0 < s.most };
}

impl MemorySink {
    /// An empty sink that takes at most `most` bytes per call. It has no room until `reserve` makes some.
    pub fn new(alloc: Global, most: usize, fail: Vec<u64>) -> MemorySink
        requires { 0 < most }
        ensures { result ≡ record { held = []; room = 0; most = most; fail = fail.items; calls = 0; faults = 0 } }
    {
        MemorySink {
            buffer: Buffer::new(alloc),
            most,
            fail,
            calls: 0,
            faults: 0,
        }
    }

    /// The bytes taken so far.
    pub fn held(&self) -> &[u8]
        ensures { result.now ≡ self.now.held }
    {
        self.buffer.bytes()
    }

    /// Makes room for `n` more bytes at least.
    pub fn reserve(&mut self, n: usize) -> Result<(), NoMemory>
        ensures ok { OnOk result (self.new ≡ record self.old { room = max self.old.room n }) }
        ensures err { OnErr result (self.new ≡ self.old) }
        ensures fits { n ≤ self.old.room → IsOk result }
    {
        self.buffer.reserve(n)
    }

    fn fault(&mut self)
        ensures { self.new ≡ record self.old { faults = raised self.old.faults } }
    {
        self.faults = raise(self.faults);
    }
}

impl Sink for MemorySink {
    ghost use Rattle.std.specs.Prelude.{Some, None};

    ghost shown = { λ s. record { told = Some s.held; room = None; faults = s.faults } };

    fn write(&mut self, piece: &[u8]) -> Result<usize, SinkFailed>
        requires { 0 < length piece.now }

        ensures taken { IfOk result (λ taken. taken ≡ min self.old.most (length piece.now)) }
        ensures some { IfOk result (λ taken. 0 < taken) }
        ensures held { self.new.held ≡ self.old.held ++ take (result_unwrap_or result 0) piece.now }
        ensures room { self.new.room ≡ self.old.room - result_unwrap_or result 0 }
        ensures most { self.new.most ≡ self.old.most }
        ensures fail { self.new.fail ≡ self.old.fail }
        ensures calls { self.new.calls ≡ raised self.old.calls }

        // It fails at the listed calls and where room is missing, and counts just these faults.
        ensures failed { IsErr result ↔
            (Contains self.old.fail (raised self.old.calls) ⊎ (self.old.room < min self.old.most (length piece.now))) }
        ensures fault { OnErr result (self.new.faults ≡ raised self.old.faults) }
        ensures no_fault { OnOk result (self.new.faults ≡ self.old.faults) }
        ensures rose { OnErr result (Rose self.old.faults self.new.faults) }
        ensures later { self.old.faults ≤ self.new.faults }
    {
        self.calls = raise(self.calls);
        let taken = self.most.min(piece.len());
        if is_listed(&self.fail, self.calls) || self.buffer.room() < taken {
            self.fault();
            return Err(SinkFailed {});
        }
        self.buffer.put(&piece[..taken]);
        Ok(taken)
    }
}
