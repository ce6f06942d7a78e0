//! A list of tests on a machine that was set back.

ghost use Rattle.std.specs.Prelude.{◌≡◌, ◌+◌, ◌*◌, ◌<◌, ◌≤◌, ◌^◌, All, length, false, IfOk, IfErr, OnOk, OnErr};
ghost use Rattle.type_frames.specs.Typing.{IsTyped};
ghost use Rattle.test_run.specs.Running.{IsTest};
ghost use Rattle.cone_run.specs.{Cones.cone_units, Runs.IsListFault, Runs.IsNextFault, Runs.IsPieceOf, Runs.RanAfter};

use outside::{Gate, Steps};
use std::sync::ledger::Ledger;
use test_run::{Machine, Piece, RunFault};
use vm_heap::RegionMemory;

/// What the run of a list gave: the piece of its last test, and the units of all its tests.
#[derive(Drop)]
pub struct ListRun {
    pub piece: Piece,
    pub units: u64,
}

/// Runs one more test after a call of the gate.
fn run_next<G: Gate, L: Ledger>(
    gate: &G,
    machine: &mut Machine<'_, RegionMemory>,
    worker: u32,
    test: u32,
    steps: &mut Steps<L>,
) -> Result<Piece, RunFault>
    requires ready { machine.old.spent ≡ false }
    requires typed { IsTyped machine.old.program }
    requires test { IsTest machine.old.program test }
    ensures ran { IfOk result (RanAfter machine.old.program machine.old.list test) }
    ensures list { IfOk result (λ x. machine.new.list ≡ x.list) }
    ensures ready { OnOk result (machine.new.spent ≡ false) }
    ensures counted { IfOk result (λ x. steps.new ≡ steps.old + x.outcome.units) }
    ensures fault { IfErr result (IsNextFault machine.old.program machine.old.list test) }
    ensures uncounted { OnErr result (steps.new ≡ steps.old) }
    ensures same { (machine.new.program ≡ machine.old.program)
        × (machine.new.worker ≡ machine.old.worker) }
{
    let _memory = machine.memory();
    gate.enter(worker, test);
    machine.run_test(test, steps)
}

/// Sets a machine back and runs the tests of a list on it, each after a call of the gate and within its own budget. It
/// counts the units of the tests that end.
///
/// `OverBudget` comes exactly where a test gives nothing after those before it, and names the first such one.
pub fn run_alone<G: Gate, L: Ledger>(
    gate: &G,
    machine: &mut Machine<'_, RegionMemory>,
    worker: u32,
    list: &[u32],
    steps: &mut Steps<L>,
) -> Result<ListRun, RunFault>
    requires typed { IsTyped machine.old.program }
    requires tests { All (IsTest machine.old.program) list.now }
    requires some { 0 < length list.now }
    requires few { length list.now ≤ 1024 }
    ensures piece { IfOk result (λ r. IsPieceOf machine.old.program list.now r.piece) }
    ensures units { IfOk result (λ r. r.units ≡ cone_units machine.old.program list.now) }
    ensures few { IfOk result (λ r. r.units ≤ 2 ^ 36) }
    ensures counted { OnOk result
        (steps.new ≡ steps.old + cone_units machine.old.program list.now) }
    ensures fault { IfErr result
        (IsListFault machine.old.program list.now steps.old steps.new) }
    ensures same { (machine.new.program ≡ machine.old.program)
        × (machine.new.worker ≡ machine.old.worker) }
{
    machine.reset();
    let mut units = 0;
    let mut last = None;
    for index in 0..list.len() {
        let piece = run_next(gate, machine, worker, list[index], steps)?;
        units += piece.outcome().units;
        last = Some(piece);
    }
    match last {
        Some(piece) => Ok(ListRun { piece, units }),
        None => unreachable!(),
    }
}
