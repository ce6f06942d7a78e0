//! The whole suite, run in order on one heap within the suite's limit of units.

ghost use Rattle.std.specs.Prelude.{◌≡◌, ◌+◌, ◌++◌, ◌∷◌, [], None, false, IfOk, IfErr, OnOk};
ghost use Rattle.jvm_model.specs.Suite as suite;
ghost use Rattle.test_run.specs.{Lists.RanList, Running.IsTest};
ghost use Rattle.detect_run.specs.SuiteRun.{IsSuiteFault, IsOneRefused, RanOne, over_of};

use crate::fault::DetectFault;
use et_base::Items;
use jvm_model::Outcome;
use outside::Steps;
use std::alloc::Global;
use std::sync::ledger::Ledger;
use test_run::{Machine, RunFault};
use type_frames::Checked;
use vm_mem::Memory;

/// The most units of a whole suite's run.
const SUITE_LIMIT: u64 = 67_108_864;

// How a test is answered that passes the smaller of its budget and the rest of the suite's units.
fn over(p: &Checked, test: u32, rest: u64) -> DetectFault
    requires { IsTest p.now test }
    ensures { result ≡ over_of p.now test rest }
{
    let budget = p.program().tests.as_slice()[(test - 1) as usize].budget;
    if budget <= rest {
        DetectFault::OverBudget { test, budget }
    } else {
        DetectFault::OverSuite { test }
    }
}

// One test after those before it, within its budget and the rest of the suite's units.
fn run_one<M: Memory, L: Ledger>(
    p: &Checked,
    machine: &mut Machine<'_, M>,
    test: u32,
    rest: u64,
    steps: &mut Steps<L>,
) -> Result<Outcome, DetectFault>
    requires program { machine.old.program ≡ p.now }
    requires ready { machine.old.spent ≡ false }
    requires test { IsTest p.now test }
    ensures ran { IfOk result (λ o. RanOne M.world M.follows p.now
        machine.old.memory machine.new.memory test rest o) }
    ensures counted { IfOk result (λ o. steps.new ≡ steps.old + o.units) }
    ensures after { OnOk result (machine.new ≡ record machine.old {
      list = machine.old.list ++ test ∷ [];
      memory = machine.new.memory;
    }) }
    ensures refused { IfErr result (IsOneRefused p.now (M.world machine.old.memory) test rest) }
{
    match machine.run_within(test, rest, steps) {
        Ok(piece) => Ok(piece.into_outcome()),
        Err(RunFault::NoMemory) => Err(DetectFault::NoMemory),
        Err(RunFault::OverBudget { .. }) => Err(over(p, test, rest)),
    }
}

/// Runs the whole suite in order on a machine that ran no test yet, each test within its budget and the rest of the suite's
/// 2^26 units. It answers the tests' outcomes and counts their units.
///
/// # Errors
///
/// `OverBudget` and `OverSuite` name the first test that passes the smaller of both numbers; `NoMemory` where an allocation
/// is refused. After an error the machine is spent, or only dropped.
pub fn run_suite<M: Memory, L: Ledger>(
    alloc: Global,
    p: &Checked,
    machine: &mut Machine<'_, M>,
    steps: &mut Steps<L>,
) -> Result<Items<Outcome>, DetectFault>
    requires program { machine.old.program ≡ p.now }
    requires ready { machine.old.spent ≡ false }
    requires world { M.world machine.old.memory ≡ suite.opening p.now }
    ensures within { OnOk result (suite.suite_fault p.now ≡ None) }
    ensures ran { IfOk result (λ os. RanList M.world M.follows p.now
        machine.old.memory machine.new.memory (suite.all_tests p.now) os steps.old steps.new) }
    ensures after { OnOk result (machine.new ≡ record machine.old {
      list = machine.old.list ++ suite.all_tests p.now;
      memory = machine.new.memory;
    }) }
    ensures refused { IfErr result (IsSuiteFault p.now) }
{
    let mut outcomes = Items::new(alloc);
    let mut rest = SUITE_LIMIT;
    let count = p.program().tests.len();
    for index in 0..count {
        let test = (index + 1) as u32;
        let outcome = run_one(p, machine, test, rest, steps)?;
        rest -= outcome.units;
        outcomes.push(outcome)?;
    }
    Ok(outcomes)
}
