//! The pool of workers.

ghost use Rattle.std.specs.Prelude.{◌≡◌, ◌+◌, ◌<◌, ◌^◌, All, length, map, IfOk, IfErr};
ghost use Rattle.run_core.specs.Run.{IsComplete, IsLegal};
ghost use Rattle.worker_pool.specs.{Faults.IsPlanFault, Plans.HaveTests, Plans.units_of};

use crate::chain_jobs::ChainJobs;
use crate::finish::{count, finish};
use crate::plan_fault::PlanFault;
use et_base::{Items, NoMemory};
use job_pool::{slots_of, work_all};
use order_law::Chains;
use outside::{Gate, Steps};
use run_core::{Core, RunName};
use schedule_plan::{Share, WorkPlan};
use std::alloc::Global;
use std::marker::Brand;
use std::sync::Wait;
use std::sync::ledger::Ledger;
use std::thread::Threads;
use type_frames::Checked;
use verdict_board::Board;

/// A copy of chains. The only error is want of memory.
fn copy_of(alloc: Global, c: &Chains) -> Result<Chains, NoMemory>
    ensures { IfOk result (λ copy. copy.lists ≡ c.now.lists) }
{
    let chains = c.lists.as_slice();
    let mut lists = Items::new(alloc);
    for tests in chains {
        lists.push(Items::from_slice(alloc, tests.as_slice())?)?;
    }
    Ok(Chains { lists })
}

/// The chains of each share, by their numbers. The only error is want of memory.
fn numbers_of(alloc: Global, shares: &[Share]) -> Result<Items<Items<u32>>, NoMemory>
    ensures { IfOk result (λ lists. lists ≡ map (λ s. s.chains) shares.now) }
{
    let mut lists = Items::new(alloc);
    for share in shares {
        lists.push(Items::from_slice(alloc, share.chains.as_slice())?)?;
    }
    Ok(lists)
}

/// Lets a worker for each share work over a board with this core, and answers the core. The only error is want of memory.
fn run_workers<N: RunName + Send + Sync, R: Threads + Wait + Sync, G: Gate + Sync>(
    rt: &R,
    alloc: Global,
    p: &Checked,
    c: &Chains,
    shares: &[Share],
    gate: &G,
    core: Core,
) -> Result<Core, NoMemory>
    requires program { (p.now ≡ N.program) × (core.program ≡ N.program) }
    requires chains { (c.now.lists ≡ N.chains) × (core.chains ≡ N.chains) }
    requires workers { (length shares.now ≡ N.workers) × (core.workers ≡ N.workers)
        × (N.workers < 2 ^ 32) }
    requires tests { HaveTests N.program N.chains }
    requires short { All (λ s. length s.chains < 2 ^ 32) shares.now }
    ensures { IfOk result (λ k. (k.program ≡ N.program) × (k.chains ≡ N.chains)
        × (k.workers ≡ N.workers)) }
{
    let lists = numbers_of(alloc, shares)?;
    let mut slots = slots_of::<N>(alloc, p, lists.as_slice())?;
    let board = Board::<N>::new(core);
    let jobs = ChainJobs::<N> {
        board: &board,
        chains: c.lists.as_slice(),
    };
    work_all(rt, &jobs, gate, slots.as_mut_slice());
    Ok(board.into_core())
}

/// Runs the chains of a plan, one worker for each share, until all have ended, and answers the core of what they did. A
/// worker takes the chains of its own deque and then steals from the others; it claims a chain, runs its tests on its own
/// machine, each after a call of the gate, and posts each. One that was refused ends, so that chains may be left. The only
/// error is want of memory.
pub fn work_plan<R: Threads + Wait + Sync, G: Gate + Sync>(
    rt: &R,
    alloc: Global,
    p: &Checked,
    c: &Chains,
    plan: &WorkPlan,
    gate: &G,
) -> Result<Core, NoMemory>
    requires tests { HaveTests p.now c.now.lists }
    ensures { IfOk result (λ k. (k.program ≡ p.now) × (k.chains ≡ c.now.lists)
        × (k.workers ≡ length plan.now.shares)) }
{
    let shares = plan.shares.as_slice();
    let program = p.program();
    let core = Core::new(alloc, program, copy_of(alloc, c)?, shares.len() as u32)?;
    run_workers::<Brand, R, G>(rt, alloc, p, c, shares, gate, core)
}

/// Runs the chains of a plan as `work_plan`, and then what is left. It counts the units of all posts.
///
/// `OverBudget` comes only where this test gives nothing within its budget after the list that it carries, which the worker
/// that it names posted in a legal history of the chains: whole chains, each once, and the first tests of one more, whose
/// next test it is.
pub fn run_plan<R: Threads + Wait + Sync, G: Gate + Sync, L: Ledger>(
    rt: &R,
    alloc: Global,
    p: &Checked,
    c: &Chains,
    plan: &WorkPlan,
    gate: &G,
    steps: &mut Steps<L>,
) -> Result<Core, PlanFault>
    requires tests { HaveTests p.now c.now.lists }
    requires workers { 0 < length plan.now.shares }
    ensures run { IfOk result (λ k. (k.program ≡ p.now) × (k.chains ≡ c.now.lists)
        × (k.workers ≡ length plan.now.shares)) }
    ensures whole { IfOk result (λ k. IsLegal k × IsComplete k) }
    ensures units { IfOk result (λ k. steps.new ≡ steps.old + units_of k.events) }
    ensures fault { IfErr result
        (λ e. IsPlanFault p.now c.now.lists (length plan.now.shares) e) }
{
    let _program = p.program();
    let chains = c.lists.len() as u32;
    let core = work_plan(rt, alloc, p, c, plan, gate)?;
    let core = finish(alloc, p, gate, core, chains)?;
    count(core.history(), steps);
    Ok(core)
}
