//! Runs of a selection's closure on workers.

ghost use Rattle.std.specs.Prelude.{◌≡◌, ◌+◌, ◌<◌, ◌≤◌, ◌++◌, [], cond, length, Ok, OnOk, IfOk, IfErr};
ghost use Rattle.schedule_plan.specs.Plans.{HasUnits, IsPlanOf, chain_units};
ghost use Rattle.run_core.specs.Run.{history};
ghost use Rattle.worker_pool.specs.{Faults.IsPlanFault, Plans.units_of};
ghost use Rattle.jvm_model.specs.State.{test_at};
ghost use Rattle.electrictest.specs.{Begun.AreCounted, Commands.AnswersOver, Loads.IsSuite, Logs.log_text, Pools.IsPooled, Records.beginning};
ghost use Rattle.electrictest.specs.declared.words.Command.TheVariants as command;
ghost use Rattle.electrictest.specs.declared.status.OverFault.TheVariants as over_fault;
ghost use Rattle.electrictest.specs.declared.status.Status.TheVariants as ends;
ghost use Rattle.electrictest.specs.PoolRuns.{IsChosen, IsPoolReport, PoolRefused};
ghost use Rattle.electrictest.specs.TestNames as names_of;

use crate::asks::Ask;
use crate::begins::begin;
use crate::logs::push_log;
use crate::pool_reports::tally_of;
use crate::recorded::Request;
use crate::reports::Report;
use crate::running::{budget_of, test_name};
use crate::status::{OverFault, Status};
use crate::tallies::report_of;
use dep_graph::Graph;
use et_base::{Items, NoMemory, Text};
use order_law::Chains;
use outside::{Depot, Gate, Steps};
use run_core::Core;
use schedule_plan::{WorkPlan, chains, plan};
use selection_close::{ascending, close};
use std::alloc::Global;
use std::sync::Wait;
use std::sync::ledger::Ledger;
use std::thread::Threads;
use suite_load::Loaded;
use worker_pool::{PlanFault, run_plan};

/// What is run: the closure of a selection, its chains, which worker runs which of them, and how many different tests were
/// selected.
#[derive(Drop)]
pub struct Schedule {
    pub selected: usize,
    pub set: Items<u32>,
    pub chains: Chains,
    pub plan: WorkPlan,
}

/// A run of what was chosen, and the core that holds its history.
#[derive(Drop)]
pub struct RunResult {
    pub chosen: Schedule,
    pub core: Core,
}

// What is run for a selection, by the plan that is written of it. The only error is want of memory.
fn choose(alloc: Global, begun: &Request, workers: u32) -> Result<Schedule, NoMemory>
    requires workers { 0 < workers }
    requires tests { HasUnits begun.now.tests begun.now.record.units }
    ensures chosen { IfOk result (λ c.
        IsChosen (beginning begun.now) c.set c.chains.lists c.selected) }
    ensures units { IfOk result (λ c. HasUnits c.set begun.now.record.units) }
    ensures workers { IfOk result (λ c. length c.plan.shares ≡ workers) }
    ensures planned { let units = begun.now.record.units in IfOk result (λ c.
        IsPlanOf (chain_units c.chains.lists units) workers c.plan.shares) }
{
    let graph = Graph::of(alloc, &begun.record)?;
    graph.goes_up();
    let once = ascending(alloc, begun.tests.as_slice())?;
    let set = close(alloc, &graph, begun.tests.as_slice())?;
    let listed = chains(alloc, &graph, set.as_slice())?;
    let shares = plan(alloc, &listed, begun.record.units.as_slice(), workers)?;
    Ok(Schedule {
        selected: once.len(),
        set,
        chains: listed,
        plan: shares,
    })
}

// How a test is answered that passes its budget after a list of tests.
fn over_budget(
    alloc: Global,
    loaded: &Loaded,
    test: u32,
    list: Items<u32>,
) -> Result<Status, NoMemory>
    ensures { IfOk result (λ s. s ≡ ends.Over (over_fault.OverBudget
        (names_of.test_name loaded.now.names test) (test_at loaded.now.checked test).budget list)) }
{
    let name = test_name(alloc, &loaded.names, test)?;
    let budget = budget_of(loaded, test);
    Ok(Status::Over(OverFault::OverBudget { name, budget, list }))
}

// How a run is answered whose workers stopped.
fn refusal_of(
    alloc: Global,
    loaded: &Loaded,
    begun: &Request,
    chosen: &Schedule,
    fault: PlanFault,
) -> Status
    requires chosen { IsChosen (beginning begun.now) chosen.now.set chosen.now.chains.lists
        chosen.now.selected }
    requires fault { IsPlanFault loaded.now.checked chosen.now.chains.lists
        (length chosen.now.plan.shares) fault }
    ensures { PoolRefused loaded.now (beginning begun.now) result }
{
    match fault {
        PlanFault::NoMemory => Status::NoMemory,
        PlanFault::OverBudget { test, list, .. } => match over_budget(alloc, loaded, test, list) {
            Ok(status) => status,
            Err(_) => Status::NoMemory,
        },
    }
}

/// Runs a selection's closure on so many workers.
///
/// `Over` comes where a test passes its budget after the tests that its worker ran before it.
pub fn run_pool<R: Threads + Wait + Sync, G: Gate + Sync, L: Ledger>(
    rt: &R,
    alloc: Global,
    loaded: &Loaded,
    begun: &Request,
    workers: u32,
    gate: &G,
    steps: &mut Steps<L>,
) -> Result<RunResult, Status>
    requires workers { 0 < workers }
    requires tests { HasUnits begun.now.tests begun.now.record.units }
    requires units { length begun.now.record.units ≡ length loaded.now.checked.tests }
    ensures pooled { IfOk result (IsPooled loaded.now (beginning begun.now) workers) }
    ensures units { IfOk result (λ p. steps.new ≡ steps.old + units_of p.core.events) }
    ensures refused { IfErr result (PoolRefused loaded.now (beginning begun.now)) }
{
    let chosen = choose(alloc, begun, workers)?;
    let planned = run_plan(
        rt,
        alloc,
        &loaded.checked,
        &chosen.chains,
        &chosen.plan,
        gate,
        steps,
    );
    match planned {
        Ok(core) => Ok(RunResult { chosen, core }),
        Err(fault) => Err(refusal_of(alloc, loaded, begun, &chosen, fault)),
    }
}

// Appends the history of a core, where a log is asked for.
fn push_asked(out: &mut Text, core: &Core, log: bool) -> Result<(), NoMemory>
    ensures { OnOk result (out.new ≡ out.old ++ cond log (log_text (history core.now)) []) }
{
    if log {
        push_log(out, core.history())
    } else {
        Ok(())
    }
}

// The report on a run, with its history where a log is asked for. The only error is want of memory.
fn pool_report(
    alloc: Global,
    loaded: &Loaded,
    begun: &Request,
    workers: u32,
    pooled: &RunResult,
    log: bool,
) -> Result<Report, NoMemory>
    requires few { length loaded.now.checked.tests ≤ 1024 }
    requires pooled { IsPooled loaded.now (beginning begun.now) workers pooled.now }
    ensures { IfOk result (λ r. IsPoolReport loaded.now (beginning begun.now)
        workers log r.passed r.text (units_of pooled.now.core.events)) }
{
    let chosen = &pooled.chosen;
    let tests = chosen.set.as_slice();
    let tally = tally_of(alloc, &loaded.names, &pooled.core, tests)?;
    let selected = chosen.selected as u64;
    let executed = tests.len() as u64;
    let chains = chosen.chains.lists.len() as u64;
    let mut text = report_of(
        alloc,
        selected,
        executed,
        Some(chains),
        tally.lines.as_slice(),
        tally.counts,
    )?;
    push_asked(&mut text, &pooled.core, log)?;
    Ok(Report {
        text,
        passed: tally.counts.all_passed,
    })
}

// The report on a selection's closure, run by so many workers.
fn pool_of<R: Threads + Wait + Sync, G: Gate + Sync, L: Ledger>(
    rt: &R,
    alloc: Global,
    loaded: &Loaded,
    begun: &Request,
    workers: u32,
    log: bool,
    gate: &G,
    steps: &mut Steps<L>,
) -> Result<Report, Status>
    requires workers { 0 < workers }
    requires suite { IsSuite loaded.now }
    requires tests { HasUnits begun.now.tests begun.now.record.units }
    requires units { length begun.now.record.units ≡ length loaded.now.checked.tests }
    ensures reports { IfOk result (λ r. let is = IsPoolReport loaded.now (beginning begun.now) in
        AreCounted (is workers log r.passed r.text) steps.old steps.new) }
    ensures refused { IfErr result (PoolRefused loaded.now (beginning begun.now)) }
{
    let pooled = run_pool(rt, alloc, loaded, begun, workers, gate, steps)?;
    let report = pool_report(alloc, loaded, begun, workers, &pooled, log)?;
    Ok(report)
}

/// The report on the closure of the selection that the words name, by the record that they name, run by so many workers; with
/// the history of the run behind it, where a log is asked for.
///
/// `NoTest` comes where a name is of no test; then what the record is refused for; and `Over` where a test passes its budget
/// after the tests that its worker ran before it.
pub fn run_for<R: Threads + Wait + Sync, D: Depot, G: Gate + Sync, L: Ledger>(
    rt: &R,
    alloc: Global,
    loaded: &Loaded,
    ask: &Ask<'_>,
    workers: u32,
    log: bool,
    depot: &mut D,
    gate: &G,
    steps: &mut Steps<L>,
) -> Result<Report, Status>
    requires workers { 0 < workers }
    requires asks { ask.now.command ≡ Ok (command.Run workers log) }
    requires suite { IsSuite loaded.now }
    ensures { let depot_now = D.shown depot.new in
        AnswersOver loaded.now ask.now (D.shown depot.old) depot_now steps.old steps.new result }
{
    let begun = begin(alloc, loaded, ask, depot)?;
    pool_of(rt, alloc, loaded, &begun, workers, log, gate, steps)
}
