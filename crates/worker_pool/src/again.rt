//! A test after a list that ran before.

ghost use Rattle.std.specs.Prelude.{◌≡◌, ◌++◌, ◌∷◌, [], None, false, IfOk, IfErr};
ghost use Rattle.jvm_model.specs.Suite.{first_over};
ghost use Rattle.order_law.specs.Histories.{IsTestNumber};
ghost use Rattle.worker_pool.specs.{Faults.IsRunFault, Plans.AreTests};

use outside::{Gate, Steps};
use std::marker::Brand;
use std::sync::ledger::{Blank, Ledger};
use test_run::{Machine, Piece, RunFault};
use vm_heap::RegionMemory;

/// Runs a list of tests again, each of which gives something, and then one more, on a machine that ran none, and counts on
/// a ledger of its own. It calls the gate before the last test.
///
/// `OverBudget` comes only where the last test gives nothing after the list.
#[tactic(auto, using(crate::proofs::Tests::all_tests, crate::proofs::Tests::run_fault))]
fn run_after_counted<G: Gate, L: Ledger>(
    gate: &G,
    machine: &mut Machine<'_, RegionMemory>,
    worker: u32,
    list: &[u32],
    test: u32,
    blank: Blank,
) -> Result<Piece, RunFault>
    requires name { blank.name ≡ L.name }
    requires parts { (blank.parts ≡ L.parts) × (blank.parts ≡ 1) }
    requires fresh { (machine.old.list ≡ []) × (machine.old.spent ≡ false) }
    requires tests { AreTests machine.old.program list.now }
    requires given { first_over machine.old.program list.now ≡ None }
    requires test { IsTestNumber machine.old.program test }
    ensures piece { IfOk result (λ x. (x.program ≡ machine.old.program)
        × (x.worker ≡ machine.old.worker) × (x.list ≡ list.now ++ test ∷ [])) }
    ensures fault { IfErr result (λ e. IsRunFault machine.old.program list.now test e) }
{
    let mut steps = Steps::<L>::new(blank);
    let _opening = machine.memory();
    let _outcomes = machine.run_list(list, &mut steps)?;
    let _memory = machine.memory();
    gate.enter(worker, test);
    machine.run_test(test, &mut steps)
}

/// Runs a list of tests again, each of which gives something, and then one more, on a machine that ran none. What that
/// counts is dropped.
pub fn run_after<G: Gate>(
    gate: &G,
    machine: &mut Machine<'_, RegionMemory>,
    worker: u32,
    list: &[u32],
    test: u32,
) -> Result<Piece, RunFault>
    requires fresh { (machine.old.list ≡ []) × (machine.old.spent ≡ false) }
    requires tests { AreTests machine.old.program list.now }
    requires given { first_over machine.old.program list.now ≡ None }
    requires test { IsTestNumber machine.old.program test }
    ensures piece { IfOk result (λ x. (x.program ≡ machine.old.program)
        × (x.worker ≡ machine.old.worker) × (x.list ≡ list.now ++ test ∷ [])) }
    ensures fault { IfErr result (λ e. IsRunFault machine.old.program list.now test e) }
{
    run_after_counted::<G, Brand>(gate, machine, worker, list, test, Blank::new(1))
}
