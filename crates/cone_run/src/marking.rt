//! The manifest: what becomes of each test when one of its writers is left out.

ghost use Rattle.std.specs.Prelude.{◌≡◌, ◌+◌, ◌<◌, ℕ, Some, length, sum_by, IfOk, IfErr, OnOk};
ghost use Rattle.jvm_model.specs.Suite.{last_outcome};
ghost use Rattle.order_law.specs.Conflicts.{Member};
ghost use Rattle.type_frames.specs.Typing.{IsTyped};
ghost use Rattle.dep_graph.specs.Graphs.{GoUp};
ghost use Rattle.test_run.specs.Running.{IsTest};
ghost use Rattle.cone_run.specs.{Cones.IsCone, Cones.IsConeFault, Cones.cone_units, Runs.HasTest, Marking.AreMarksIn, Marking.HasMarks, Marking.IsTestFault};
ghost use Rattle.cone_run.specs.Marks.{AreMarks, HasSpent, HasWriter, without};

use crate::effects::effect_of;
use crate::marks::Mark;
use crate::runs::run_alone;
use dep_graph::Graph;
use et_base::{Items, NoMemory};
use job_pool::fresh_machine;
use jvm_model::Outcome;
use outside::{OpenGate, Steps};
use selection_close::close;
use std::alloc::Global;
use std::sync::ledger::Ledger;
use test_run::{Machine, RunFault};
use type_frames::Checked;
use vm_heap::RegionMemory;

/// A list without a test. The only error is want of memory.
fn list_without(alloc: Global, list: &[u32], test: u32) -> Result<Items<u32>, NoMemory>
    ensures { IfOk result (λ l. l ≡ without test list.now) }
{
    let mut left = Items::new(alloc);
    for other in list {
        if *other != test {
            left.push(*other)?;
        }
    }
    Ok(left)
}

/// The marks of these writers of a test, whose cone this is and which has this outcome at the end of it. The only error is
/// want of memory.
fn marks_in<L: Ledger>(
    alloc: Global,
    machine: &mut Machine<'_, RegionMemory>,
    cone: &[u32],
    outcome: &Outcome,
    writers: &[u32],
    test: u32,
    steps: &mut Steps<L>,
) -> Result<Items<Mark>, NoMemory>
    requires typed { IsTyped machine.old.program }
    requires test { IsTest machine.old.program test }
    requires cone { HasTest machine.old.program test cone.now }
    requires writers { (u : ℕ) → Member u writers.now → u < test }
    ensures marks { IfOk result
        (AreMarksIn machine.old.program cone.now outcome.now test writers.now) }
    ensures counted { OnOk result (steps.new ≡ steps.old
        + sum_by (λ u. cone_units machine.old.program (without u cone.now)) writers.now) }
    ensures same { machine.new.program ≡ machine.old.program }
{
    let mut marks = Items::new(alloc);
    for index in 0..writers.len() {
        let writer = writers[index];
        let list = list_without(alloc, cone, writer)?;
        let effect = effect_of(machine, outcome, list.as_slice(), steps)?;
        marks.push(Mark {
            writer,
            test,
            effect,
        })?;
    }
    Ok(marks)
}

/// The marks of a test's writers, ascending.
///
/// `OverBudget` comes exactly where the test has a writer and its cone gives nothing.
fn marks_of<L: Ledger>(
    alloc: Global,
    g: &Graph,
    machine: &mut Machine<'_, RegionMemory>,
    test: u32,
    steps: &mut Steps<L>,
) -> Result<Items<Mark>, RunFault>
    requires typed { IsTyped machine.old.program }
    requires record { GoUp (length machine.old.program.tests) g.now }
    requires test { IsTest machine.old.program test }
    ensures marks { IfOk result
        (λ ms. HasMarks machine.old.program g.now test ms steps.old steps.new) }
    ensures fault { IfErr result (IsTestFault machine.old.program g.now test) }
    ensures same { machine.new.program ≡ machine.old.program }
{
    let writers = g.raw_of(test);
    if writers.is_empty() {
        return Ok(Items::new(alloc));
    }
    let cone = close(alloc, g, &[test])?;
    let cone = cone.as_slice();
    let run = run_alone(&OpenGate::new(), machine, 1, cone, steps)?;
    let outcome = run.piece.outcome();
    Ok(marks_in(alloc, machine, cone, outcome, writers, test, steps)?)
}

/// The marks of all tests, in their order, on this machine.
///
/// `OverBudget` comes exactly where the cone of a test with a writer gives nothing, and is of the least such one.
fn marks_on<L: Ledger>(
    alloc: Global,
    g: &Graph,
    machine: &mut Machine<'_, RegionMemory>,
    tests: usize,
    steps: &mut Steps<L>,
) -> Result<Items<Mark>, RunFault>
    requires typed { IsTyped machine.old.program }
    requires record { GoUp (length machine.old.program.tests) g.now }
    requires tests { tests ≡ length machine.old.program.tests }
    ensures marks { IfOk result (AreMarks machine.old.program g.now) }
    ensures units { OnOk result (HasSpent machine.old.program g.now steps.old steps.new) }
    ensures fault { IfErr result (IsConeFault machine.old.program g.now (HasWriter g.now)) }
{
    let mut marks = Items::new(alloc);
    for index in 0..tests {
        let test = (index + 1) as u32;
        let more = marks_of(alloc, g, machine, test, steps)?;
        marks.extend_from_slice(more.as_slice())?;
    }
    Ok(marks)
}

/// The mark of each raw edge, in the order of the record. It says what becomes of the test when the writer is left out of its
/// cone. Each run begins on a machine that was set back, and there are as many as raw edges and tests that they lead to; it
/// counts the units of all tests that end in these.
///
/// # Errors
///
/// `OverBudget` exactly where the cone of such a test gives nothing: the test that passes its budget in the cone of the
/// least such one. `NoMemory` where an allocation is refused.
pub fn manifest<L: Ledger>(
    alloc: Global,
    p: &Checked,
    g: &Graph,
    steps: &mut Steps<L>,
) -> Result<Items<Mark>, RunFault>
    requires record { GoUp (length p.now.tests) g.now }
    ensures marks { IfOk result (AreMarks p.now g.now) }
    ensures units { OnOk result (HasSpent p.now g.now steps.old steps.new) }
    ensures fault { IfErr result (IsConeFault p.now g.now (HasWriter g.now)) }
{
    let tests = p.program().tests.len();
    let mut machine = fresh_machine(alloc, p, 1)?;
    let marks = marks_on(alloc, g, &mut machine, tests, steps);
    drop(machine);
    marks
}
