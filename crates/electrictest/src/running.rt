//! The whole suite, run in order.

ghost use Rattle.std.specs.Prelude.{◌≡◌, ◌+◌, All, false, IfOk, IfErr};
ghost use Rattle.jvm_model.specs.State.{test_at};
ghost use Rattle.jvm_model.specs.Suite as suite;
ghost use Rattle.test_run.specs.Running.{IsTest};
ghost use Rattle.type_frames.specs.Typing.{IsTyped};
ghost use Rattle.electrictest.specs.Running.{Ran, RunRefused, RanInOrder, ListRefused};
ghost use Rattle.electrictest.specs.Wholes as whole;
ghost use Rattle.electrictest.specs.TestNames as names_of;
ghost use Rattle.electrictest.specs.Tests as tests;

use crate::status::{OverFault, Status};
use detect_run::{DetectFault, run_suite};
use et_base::{Items, NoMemory, Text};
use jvm_model::{Names, Outcome};
use outside::Steps;
use std::alloc::Global;
use std::sync::ledger::Ledger;
use suite_load::Loaded;
use test_run::{Machine, RunFault};
use vm_heap::RegionMemory;
use vm_mem::Memory;

/// The name of a test.
pub fn test_name(alloc: Global, names: &Names, test: u32) -> Result<Text, NoMemory>
    ensures { IfOk result (λ name. name ≡ names_of.test_name names.now test) }
{
    match names.tests.as_slice().get(test.saturating_sub(1) as usize) {
        Some(name) => Text::from_slice(alloc, name.as_slice()),
        None => Ok(Text::new(alloc)),
    }
}

/// The budget of a test.
pub fn budget_of(loaded: &Loaded, test: u32) -> u64
    ensures { result ≡ (test_at loaded.now.checked test).budget }
{
    let place = test.saturating_sub(1) as usize;
    match loaded.checked.program().tests.as_slice().get(place) {
        Some(entry) => entry.budget,
        None => 0,
    }
}

/// How a list of tests is answered that is refused.
pub fn list_status(alloc: Global, loaded: &Loaded, fault: RunFault) -> Result<Status, NoMemory>
    ensures { IfOk result (λ s. s ≡ tests.list_status loaded.now fault) }
{
    match fault {
        RunFault::NoMemory => Ok(Status::NoMemory),
        RunFault::OverBudget { test } => Ok(Status::Over(OverFault::OverBudget {
            name: test_name(alloc, &loaded.names, test)?,
            budget: budget_of(loaded, test),
            list: Items::new(alloc),
        })),
    }
}

/// How a suite is answered that passes a number of units.
pub fn passed_units(alloc: Global, names: &Names, fault: DetectFault) -> Result<Status, NoMemory>
    ensures { IfOk result (λ s. s ≡ tests.passed_units names.now fault) }
{
    match fault {
        DetectFault::NoMemory => Ok(Status::NoMemory),
        DetectFault::OverBudget { test, budget } => Ok(Status::Over(OverFault::OverBudget {
            name: test_name(alloc, names, test)?,
            budget,
            list: Items::new(alloc),
        })),
        DetectFault::OverSuite { test } => Ok(Status::Over(OverFault::OverSuite {
            name: test_name(alloc, names, test)?,
        })),
    }
}

// The outcomes of a list of tests, run in its order on a machine that ran none.
fn run_list_on<'p, M: Memory, L: Ledger>(
    alloc: Global,
    loaded: &Loaded,
    tests: &[u32],
    machine: &mut Machine<'p, M>,
    steps: &mut Steps<L>,
) -> Result<Items<Outcome>, Status>
    requires program { machine.old.program ≡ loaded.now.checked }
    requires ready { machine.old.spent ≡ false }
    requires world { M.world machine.old.memory ≡ suite.opening loaded.now.checked }
    requires tests { All (IsTest loaded.now.checked) tests.now }
    ensures ran { IfOk result (RanInOrder loaded.now tests.now steps.old steps.new) }
    ensures refused { IfErr result (ListRefused loaded.now tests.now) }
{
    match machine.run_list(tests, steps) {
        Ok(outcomes) => Ok(outcomes),
        Err(fault) => {
            let status = list_status(alloc, loaded, fault)?;
            Err(status)
        }
    }
}

/// The outcomes of a list of tests, run in its order on one heap.
///
/// `Over` comes where a test passes its budget.
pub fn run_tests<L: Ledger>(
    alloc: Global,
    loaded: &Loaded,
    tests: &[u32],
    steps: &mut Steps<L>,
) -> Result<Items<Outcome>, Status>
    requires tests { All (IsTest loaded.now.checked) tests.now }
    ensures ran { IfOk result (RanInOrder loaded.now tests.now steps.old steps.new) }
    ensures refused { IfErr result (ListRefused loaded.now tests.now) }
{
    let memory = RegionMemory::opening(alloc, loaded.checked.program())?;
    let mut machine = Machine::new(alloc, &loaded.checked, 0, memory)?;
    run_list_on(alloc, loaded, tests, &mut machine, steps)
}

// The outcomes of a whole suite, run in order on a machine that ran no test.
fn run_all_on<M: Memory, L: Ledger>(
    alloc: Global,
    loaded: &Loaded,
    machine: &mut Machine<'_, M>,
    steps: &mut Steps<L>,
) -> Result<Items<Outcome>, Status>
    requires typed { IsTyped loaded.now.checked }
    requires program { machine.old.program ≡ loaded.now.checked }
    requires ready { machine.old.spent ≡ false }
    requires world { M.world machine.old.memory ≡ suite.opening loaded.now.checked }
    ensures ran { IfOk result (Ran loaded.now) }
    ensures counted { IfOk result (λ outcomes. steps.new ≡ steps.old + names_of.units_in outcomes) }
    ensures refused { IfErr result (RunRefused loaded.now) }
{
    match run_suite(alloc, &loaded.checked, machine, steps) {
        Ok(outcomes) => Ok(outcomes),
        Err(fault) => {
            let status = passed_units(alloc, &loaded.names, fault)?;
            Err(status)
        }
    }
}

/// The outcomes of a whole suite, run in order on one heap.
///
/// `Over` comes where a test passes its budget or the rest of the suite's units.
pub fn run_all<L: Ledger>(
    alloc: Global,
    loaded: &Loaded,
    steps: &mut Steps<L>,
) -> Result<Items<Outcome>, Status>
    ensures ran { IfOk result (Ran loaded.now) }
    ensures counted { IfOk result (λ outcomes. steps.new ≡ steps.old + names_of.units_in outcomes) }
    ensures refused { IfErr result (RunRefused loaded.now) }
{
    let memory = RegionMemory::opening(alloc, loaded.checked.program())?;
    let mut machine = Machine::new(alloc, &loaded.checked, 0, memory)?;
    let outcomes = run_all_on(alloc, loaded, &mut machine, steps);
    drop(machine);
    outcomes
}
