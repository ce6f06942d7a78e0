//! What the caller does after the join.

ghost use Rattle.std.specs.Prelude.{◌≡◌, ◌+◌, ◌<◌, ℕ, length, reverse, None, true, IfOk, IfErr, IfSome};
ghost use Rattle.jvm_model.specs.Suite.{first_over};
ghost use Rattle.order_law.specs.{Histories.IsTestNumber, Plan.posts, RecordForm.are_chains};
ghost use Rattle.run_core.specs.{Refusal.HasOpen, Run.IsComplete, Run.IsLegal, Run.IsWorker, Run.history};
ghost use Rattle.worker_pool.specs.{Faults.IsPlanFault, Faults.IsRunFault, Plans.AreTests, Plans.HaveTests, Plans.units_of};
ghost use Rattle.worker_pool.specs.Progress.{AllHaveNone, IsNextPost, IsOneMore, MayPost};

use crate::again::run_after;
use crate::plan_fault::PlanFault;
use et_base::Items;
use job_pool::fresh_machine;
use outside::{Gate, Steps};
use run_core::{Core, Event};
use std::alloc::Global;
use std::sync::ledger::Ledger;
use test_run::{Piece, RunFault};
use type_frames::Checked;

/// Runs a worker's posts again on a fresh machine, and then one more test.
fn run_again<G: Gate>(
    alloc: Global,
    p: &Checked,
    gate: &G,
    core: &Core,
    worker: u32,
    test: u32,
) -> Result<Piece, RunFault>
    requires program { p.now ≡ core.now.program }
    requires tests { AreTests core.now.program (reverse (posts (history core.now) worker)) }
    requires given { first_over core.now.program
        (reverse (posts (history core.now) worker)) ≡ None }
    requires test { IsTestNumber core.now.program test }
    ensures piece { IfOk result (IsNextPost core.now worker test) }
    ensures fault { IfErr result (λ e. IsRunFault
        core.now.program (reverse (posts (history core.now) worker)) test e) }
{
    let list = core.posts(worker);
    let mut machine = fresh_machine(alloc, p, worker)?;
    let piece = run_after(gate, &mut machine, worker, list, test);
    drop(machine);
    piece
}

/// Runs the next test of the worker's chain in hand on a machine that runs the worker's posts again first.
///
/// `OverBudget` comes only where the test gives nothing after those posts, which are whole chains and the first tests of
/// one more, whose next test it is.
fn next_piece<G: Gate>(
    alloc: Global,
    p: &Checked,
    gate: &G,
    core: &Core,
    worker: u32,
    test: u32,
) -> Result<Piece, PlanFault>
    requires program { p.now ≡ core.now.program }
    requires form { are_chains core.now.chains ≡ true }
    requires tests { HaveTests core.now.program core.now.chains }
    requires open { (i : ℕ) × HasOpen core.now.chains (history core.now) worker i test }
    ensures piece { IfOk result (IsNextPost core.now worker test) }
    ensures fault { IfErr result
        (λ e. IsPlanFault core.now.program core.now.chains core.now.workers e) }
{
    let _events = core.history();
    match run_again(alloc, p, gate, core, worker, test) {
        Ok(piece) => Ok(piece),
        Err(RunFault::OverBudget { test: _ }) => Err(PlanFault::OverBudget {
            worker,
            test,
            list: Items::from_slice(alloc, core.posts(worker))?,
        }),
        Err(RunFault::NoMemory) => Err(PlanFault::NoMemory),
    }
}

/// Runs and posts the next test of the worker's chain in hand. Says whether it had one; else nothing changed.
fn post_next<G: Gate>(
    alloc: Global,
    p: &Checked,
    gate: &G,
    core: &mut Core,
    worker: u32,
) -> Result<bool, PlanFault>
    requires program { p.now ≡ core.old.program }
    requires worker { IsWorker core.old worker }
    requires form { are_chains core.old.chains ≡ true }
    requires tests { HaveTests core.old.program core.old.chains }
    ensures posts { IfOk result (MayPost core.old core.new worker) }
    ensures fault { IfErr result
        (λ e. IsPlanFault core.old.program core.old.chains core.old.workers e) }
{
    let Some(open) = core.open(worker) else {
        return Ok(false);
    };
    let _events = core.history();
    let piece = next_piece(alloc, p, gate, core, worker, open.test)?;
    match core.step(Event::Post(piece)) {
        Ok(()) => Ok(true),
        Err(_) => unreachable!(),
    }
}

/// Claims the first chain that nobody claimed, for worker 1.
fn claim_next(core: &mut Core, chains: u32)
    requires chains { chains ≡ length core.old.chains }
    requires some { 0 < core.old.workers }
    requires none { AllHaveNone core.old }
    requires more { IsComplete core.old → ⊥ }
    ensures { IsOneMore core.old core.new }
{
    let _events = core.history();
    for place in 0..chains {
        let claim = Event::Claim {
            worker: 1,
            chain: place + 1,
        };
        match core.step(claim) {
            Ok(()) => return,
            Err(_) => continue,
        }
    }
    unreachable!()
}

/// Adds an event: a post of the first worker that has a chain in hand, or else a claim.
fn advance<G: Gate>(
    alloc: Global,
    p: &Checked,
    gate: &G,
    core: &mut Core,
    chains: u32,
) -> Result<(), PlanFault>
    requires program { p.now ≡ core.old.program }
    requires chains { chains ≡ length core.old.chains }
    requires some { 0 < core.old.workers }
    requires form { are_chains core.old.chains ≡ true }
    requires tests { HaveTests core.old.program core.old.chains }
    requires more { IsComplete core.old → ⊥ }
    ensures adds { IfOk result (λ _. IsOneMore core.old core.new) }
    ensures fault { IfErr result
        (λ e. IsPlanFault core.old.program core.old.chains core.old.workers e) }
{
    for before in 0..core.workers() {
        let posted = post_next(alloc, p, gate, core, before + 1)?;
        if posted {
            return Ok(());
        }
    }
    claim_next(core, chains);
    Ok(())
}

/// Runs what is left of the chains: those in hand on behalf of their workers, and the others on behalf of worker 1. It ends,
/// as each round adds an event and a history has no more than a claim of each chain and a post of each test.
pub fn finish<G: Gate>(
    alloc: Global,
    p: &Checked,
    gate: &G,
    core: Core,
    chains: u32,
) -> Result<Core, PlanFault>
    requires program { p.now ≡ core.program }
    requires chains { chains ≡ length core.chains }
    requires some { 0 < core.workers }
    requires form { are_chains core.chains ≡ true }
    requires tests { HaveTests core.program core.chains }
    ensures same { IfOk result (λ k. (k.program ≡ core.program) × (k.chains ≡ core.chains)
        × (k.workers ≡ core.workers)) }
    ensures whole { IfOk result (λ k. IsLegal k × IsComplete k) }
    ensures fault { IfErr result (λ e. IsPlanFault core.program core.chains core.workers e) }
{
    let mut core = core;
    while !core.is_complete() {
        advance(alloc, p, gate, &mut core, chains)?;
        let _events = core.history();
    }
    let _events = core.history();
    Ok(core)
}

/// Counts the units of all posts.
pub fn count<L: Ledger>(events: &[Event], steps: &mut Steps<L>)
    ensures { steps.new ≡ steps.old + units_of events.now }
{
    for event in events {
        if let Event::Post(piece) = event {
            steps.spend(piece.outcome().units);
        }
    }
}
