//! Chains as jobs.

ghost use Rattle.std.specs.Prelude.{◌≡◌, ◌<◌, ◌≤◌, false};
ghost use Rattle.worker_pool.specs.Plans.{AreTests, HaveTests};

use et_base::Items;
use job_pool::Jobs;
use outside::{Gate, Steps};
use run_core::RunName;
use std::sync::Wait;
use std::sync::ledger::Ledger;
use test_run::Machine;
use verdict_board::Board;
use vm_heap::RegionMemory;

/// The chains of a run, which are claimed and posted on its board.
#[derive(Drop)]
pub struct ChainJobs<'a, N: RunName> {
    pub board: &'a Board<N>,
    pub chains: &'a [Items<u32>],
    ghost chains_of: { chains.now ≡ N.chains },
    ghost tests: { HaveTests N.program N.chains },
}

/// Runs the tests of a claimed chain and posts each. Says whether all were posted.
fn run_chain<N: RunName, R: Wait, G: Gate, L: Ledger>(
    rt: &R,
    board: &Board<N>,
    gate: &G,
    worker: u32,
    machine: &mut Machine<'_, RegionMemory>,
    tests: &[u32],
    steps: &mut Steps<L>,
) -> bool
    requires ready { machine.old.spent ≡ false }
    requires program { machine.old.program ≡ N.program }
    requires number { machine.old.worker ≡ worker }
    requires range { (0 < worker) × (worker ≤ N.workers) }
    requires tests { AreTests N.program tests.now }
    ensures { (machine.new.program ≡ machine.old.program)
        × (machine.new.worker ≡ machine.old.worker) }
{
    for index in 0..tests.len() {
        let test = tests[index];
        gate.enter(worker, test);
        let Ok(piece) = machine.run_test(test, steps) else {
            return false;
        };
        if board.post(rt, piece).is_err() {
            return false;
        }
    }
    true
}

impl<'a, N: RunName> Jobs<N> for ChainJobs<'a, N> {
    /// Claims the chain and runs it.
    fn take<R: Wait, G: Gate, L: Ledger>(
        &self,
        rt: &R,
        gate: &G,
        worker: u32,
        machine: &mut Machine<'_, RegionMemory>,
        number: u32,
        steps: &mut Steps<L>,
    ) -> bool {
        if machine.is_spent() || number as usize >= self.chains.len() || number == u32::MAX {
            return false;
        }
        if self.board.claim(rt, worker, number + 1).is_err() {
            return false;
        }
        let tests = self.chains[number as usize].as_slice();
        run_chain(rt, self.board, gate, worker, machine, tests, steps)
    }
}
