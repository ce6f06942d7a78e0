//! What workers do.

use outside::{Gate, Steps};
use std::sync::Wait;
use std::sync::ledger::Ledger;
use test_run::{Machine, PoolName};
use vm_heap::RegionMemory;

/// What the workers of a pool do: jobs, which have numbers from 0.
pub trait Jobs<N: PoolName> {
    ghost use Rattle.std.specs.Prelude.{◌≡◌, ◌<◌, ◌≤◌};

    /// Does the job of a number on the worker's machine and counts its steps. Says whether the worker may take one more.
    ///
    /// The number may be that of no job, or of one that another worker took, and the machine may be spent.
    fn take<R: Wait, G: Gate, L: Ledger>(
        &self,
        rt: &R,
        gate: &G,
        worker: u32,
        machine: &mut Machine<'_, RegionMemory>,
        number: u32,
        steps: &mut Steps<L>,
    ) -> bool
        requires worker { (0 < worker) × (worker ≤ N.workers) }
        requires program { machine.old.program ≡ N.program }
        requires machine { machine.old.worker ≡ worker }
        ensures { (machine.new.program ≡ machine.old.program)
            × (machine.new.worker ≡ machine.old.worker) };
}
