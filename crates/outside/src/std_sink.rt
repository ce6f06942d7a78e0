//! Standard output as a sink.

ghost use Rattle.std.specs.Prelude.{◌≡◌, ◌<◌, ◌≤◌, length, IfOk, OnOk, OnErr};
ghost use Rattle.outside.specs.Counts.{Rose, raised};

use crate::counts::raise;
use crate::{Sink, SinkFailed};
use std::marker::Model;

/// Standard output. It tells neither what it took nor a room. Contracts see it as its count of faults.
#[derive(Drop)]
pub struct StdSink<'a, R: Print> {
    rt: &'a R,
    faults: u64,
}

impl<'a, R: Print> Model for StdSink<'a, R> {
    ghost use Rattle.std.specs.Prelude.{ℕ};

    ghost Value = { ℕ };

    ghost view = { λ s. s.faults };
}

impl<'a, R: Print> StdSink<'a, R> {
    /// The standard output of a runtime, with no fault so far.
    pub fn new(rt: &'a R) -> StdSink<'a, R>
        ensures { result ≡ 0 }
    {
        StdSink { rt, faults: 0 }
    }
}

impl<'a, R: Print> Sink for StdSink<'a, R> {
    ghost use Rattle.std.specs.Prelude.{None};

    ghost shown = { λ faults. record { told = None; room = None; faults = faults } };

    fn write(&mut self, piece: &[u8]) -> Result<usize, SinkFailed>
        requires { 0 < length piece.now }

        ensures within { IfOk result (λ taken. taken ≤ length piece.now) }
        ensures some { IfOk result (λ taken. 0 < taken) }

        // It counts a fault just where it answers one.
        ensures fault { OnErr result (self.new ≡ raised self.old) }
        ensures no_fault { OnOk result (self.new ≡ self.old) }
        ensures rose { OnErr result (Rose self.old self.new) }
        ensures later { self.old ≤ self.new }
    {
        match self.rt.write_some(piece) {
            Ok(0) | Err(_) => {
                self.faults = raise(self.faults);
                Err(SinkFailed {})
            }
            Ok(taken) => Ok(taken),
        }
    }
}
