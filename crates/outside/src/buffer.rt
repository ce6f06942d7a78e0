//! Bytes in memory, with room that was reserved for more.

ghost use Rattle.std.specs.Prelude.{◌≡◌, ◌-◌, ◌≤◌, ◌++◌, [], length, max, IsOk, OnOk, OnErr};

use et_base::NoMemory;
use std::alloc::Global;
use std::marker::Model;

/// Bytes, and for how many more there is room.
#[derive(Drop)]
pub(crate) struct Buffer {
    bytes: Vec<u8>,
    room: usize,
}

impl Model for Buffer {
    ghost use Rattle.std.specs.Prelude.{◌+◌, ◌≤◌, length, vec_capacity};
    ghost use Rattle.outside.specs.MemorySink.{Held};

    ghost Value = { Held };

    ghost view = { λ b. record { bytes = b.bytes.items; room = b.room } };

    ghost invariant = { λ b. length b.bytes.items + b.room ≤ vec_capacity b.bytes };
}

impl Buffer {
    /// No bytes and no room.
    pub(crate) fn new(alloc: Global) -> Buffer
        ensures { result ≡ record { bytes = []; room = 0 } }
    {
        Buffer {
            bytes: Vec::new(alloc),
            room: 0,
        }
    }

    /// The bytes.
    pub(crate) fn bytes(&self) -> &[u8]
        ensures { result.now ≡ self.now.bytes }
    {
        self.bytes.as_slice()
    }

    /// For how many more bytes there is room.
    pub(crate) fn room(&self) -> usize
        ensures { result ≡ self.now.room }
    {
        self.room
    }

    /// Makes room for `n` more bytes at least.
    pub(crate) fn reserve(&mut self, n: usize) -> Result<(), NoMemory>
        ensures ok { OnOk result (self.new ≡ record self.old { room = max self.old.room n }) }
        ensures err { OnErr result (self.new ≡ self.old) }
        ensures fits { n ≤ self.old.room → IsOk result }
    {
        if n > self.room {
            self.bytes.reserve(n)?;
            self.room = n;
        }
        Ok(())
    }

    /// Appends bytes for which there is room.
    pub(crate) fn put(&mut self, piece: &[u8])
        requires { length piece.now ≤ self.old.room }
        ensures { self.new ≡ record {
          bytes = self.old.bytes ++ piece.now;
          room = self.old.room - length piece.now;
        } }
    {
        let _ = self.bytes.extend_from_slice(piece);
        self.room -= piece.len();
    }
}
