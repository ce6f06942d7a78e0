//! What becomes of a test's report when another list of tests is run.

ghost use Rattle.std.specs.Prelude.{◌≡◌, ◌+◌, ◌<◌, ◌≤◌, ◌↔◌, All, length, Some, IsTrue, IfOk, OnOk};
ghost use Rattle.jvm_model.specs.Suite.{last_outcome};
ghost use Rattle.type_frames.specs.Typing.{IsTyped};
ghost use Rattle.test_run.specs.Running.{IsTest};
ghost use Rattle.cone_run.specs.{Cones.cone_units, Marks.HasSameReport, Marks.IsEffect};

use crate::marks::Effect;
use crate::runs::run_alone;
use et_base::{NoMemory, Units};
use jvm_model::{Cause, Outcome, Verdict};
use outside::{OpenGate, Steps};
use std::sync::ledger::Ledger;
use test_run::{Machine, RunFault};
use vm_heap::RegionMemory;

fn same_message(a: &Option<Units>, b: &Option<Units>) -> bool
    ensures { IsTrue result ↔ (a.now ≡ b.now) }
{
    match a {
        None => b.is_none(),
        Some(x) => match b {
            None => false,
            Some(y) => x.as_slice() == y.as_slice(),
        },
    }
}

fn same_cause(a: &Cause, b: &Cause) -> bool
    ensures { IsTrue result ↔ (a.now ≡ b.now) }
{
    a.class == b.class && same_message(&a.message, &b.message)
}

fn same_verdict(a: &Verdict, b: &Verdict) -> bool
    ensures { IsTrue result ↔ (a.now ≡ b.now) }
{
    match a {
        Verdict::Passed => matches!(b, Verdict::Passed),
        Verdict::Failed(x) => match b {
            Verdict::Failed(y) => same_cause(x, y),
            Verdict::Passed | Verdict::Error(_) => false,
        },
        Verdict::Error(x) => match b {
            Verdict::Error(y) => same_cause(x, y),
            Verdict::Passed | Verdict::Failed(_) => false,
        },
    }
}

/// Whether two outcomes have the same verdict, with class and message in it, and the same output.
fn same_report(a: &Outcome, b: &Outcome) -> bool
    ensures { IsTrue result ↔ HasSameReport a.now b.now }
{
    same_verdict(&a.verdict, &b.verdict) && a.output.as_slice() == b.output.as_slice()
}

fn compared(a: &Outcome, b: &Outcome) -> Effect
    ensures { IsEffect a.now (Some b.now) result }
{
    if same_report(a, b) {
        Effect::Same
    } else {
        Effect::Changed
    }
}

/// What becomes of a test with this outcome when a list is run that ends with it, on a machine that is set back. It counts
/// the units of the tests that end, also where one passes its budget. The only error is want of memory.
pub fn effect_of<L: Ledger>(
    machine: &mut Machine<'_, RegionMemory>,
    outcome: &Outcome,
    list: &[u32],
    steps: &mut Steps<L>,
) -> Result<Effect, NoMemory>
    requires typed { IsTyped machine.old.program }
    requires tests { All (IsTest machine.old.program) list.now }
    requires some { 0 < length list.now }
    requires few { length list.now ≤ 1024 }
    ensures effect { IfOk result
        (IsEffect outcome.now (last_outcome machine.old.program list.now)) }
    ensures counted { OnOk result
        (steps.new ≡ steps.old + cone_units machine.old.program list.now) }
    ensures same { machine.new.program ≡ machine.old.program }
{
    match run_alone(&OpenGate::new(), machine, 1, list, steps) {
        Ok(run) => Ok(compared(outcome, run.piece.outcome())),
        Err(RunFault::OverBudget { .. }) => Ok(Effect::Over),
        Err(RunFault::NoMemory) => Err(NoMemory {}),
    }
}
