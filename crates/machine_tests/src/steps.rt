//! A step of the machine, made by itself. Each function owns one of the values that a step works on, and lends it on: where
//! one owned two, the check of what it drops took minutes.

ghost use Rattle.std.specs.Prelude.{◌≡◌, length};
ghost use Rattle.jvm_model.specs.{State.started, Suite.opening};
ghost use Rattle.vm_interp.specs.Abs.{abs};

use crate::suites::{COUNTER_FILES, Question, is_so};
use check_sound::reach_law;
use et_base::NoMemory;
use std::alloc::Global;
use std::test::Fail;
use suite_load::Loaded;
use type_frames::{Checked, started_law};
use vm_calls::Selections;
use vm_frames::FrameStack;
use vm_interp::{State, StepOutcome, stack_limits, step};
use vm_mem::PlainMemory;
use vm_tables::Tables;

// What the first step of the second test, begun in the opening world, leaves of these units where
// the test goes on.
fn stepped(
    alloc: Global,
    checked: &Checked,
    tables: &Tables,
    selections: &mut Selections,
    memory: &mut PlainMemory,
    state: &mut State,
    units: u64,
) -> Result<Option<u64>, NoMemory>
    requires parts { (tables.now ≡ checked.now) × (selections.old ≡ checked.now)
        × (memory.old.program ≡ checked.now) × (memory.old.world ≡ opening checked.now) }
    requires state { abs state.old ≡ started checked.now 2 }
    requires tests { length checked.now.tests ≡ 2 }
{
    reach_law();
    started_law();
    stack_limits(checked.program());
    let mut left = units;
    Ok(
        match step(alloc, state, memory, tables, selections, &mut left)? {
            StepOutcome::Running => Some(left),
            StepOutcome::Done(_) | StepOutcome::OutOfBudget => None,
        },
    )
}

// The same from the state in which the test starts.
fn step_of_memory(
    alloc: Global,
    checked: &Checked,
    tables: &Tables,
    selections: &mut Selections,
    memory: &mut PlainMemory,
    units: u64,
) -> Result<Option<u64>, NoMemory>
    requires parts { (tables.now ≡ checked.now) × (selections.old ≡ checked.now)
        × (memory.old.program ≡ checked.now) × (memory.old.world ≡ opening checked.now) }
    requires tests { length checked.now.tests ≡ 2 }
{
    let mut state = State::start(alloc, checked.program(), 2, FrameStack::new(alloc))?;
    stepped(
        alloc, checked, tables, selections, memory, &mut state, units,
    )
}

// The same over the memory before the first test.
fn step_of_selections(
    alloc: Global,
    checked: &Checked,
    tables: &Tables,
    selections: &mut Selections,
    units: u64,
) -> Result<Option<u64>, NoMemory>
    requires parts { (tables.now ≡ checked.now) × (selections.old ≡ checked.now) }
    requires tests { length checked.now.tests ≡ 2 }
{
    let mut memory = PlainMemory::opening(alloc, checked.program())?;
    step_of_memory(alloc, checked, tables, selections, &mut memory, units)
}

// The same of a program and its tables.
fn step_of_tables(
    alloc: Global,
    checked: &Checked,
    tables: &Tables,
    units: u64,
) -> Result<Option<u64>, NoMemory>
    requires of { tables.now ≡ checked.now }
    requires tests { length checked.now.tests ≡ 2 }
{
    let mut selections = Selections::new(alloc, checked.program())?;
    step_of_selections(alloc, checked, tables, &mut selections, units)
}

// The same of a program alone.
fn first_step(alloc: Global, checked: &Checked, units: u64) -> Result<Option<u64>, NoMemory>
    requires { length checked.now.tests ≡ 2 }
{
    let tables = Tables::of(alloc, checked.program())?;
    step_of_tables(alloc, checked, &tables, units)
}

// Whether the second of two tests enters its method, for one unit and one for its operand, and not
// within one unit.
fn is_entered(alloc: Global, checked: &Checked) -> Result<bool, NoMemory> {
    if checked.program().tests.len() != 2 {
        return Ok(false);
    }
    let left = first_step(alloc, checked, 10)?;
    let short = first_step(alloc, checked, 1)?;
    Ok(left == Some(8) && short.is_none())
}

// The method of the second test is entered.
#[derive(Drop)]
struct MethodIsEntered;

impl Question for MethodIsEntered {
    fn holds(&self, alloc: Global, suite: &Loaded) -> Result<bool, Fail> {
        Ok(is_entered(alloc, &suite.checked)?)
    }
}

#[test]
fn a_first_step_enters_the_method(rt: HostRuntime) -> Result<(), Fail> {
    assert!(rt; is_so(rt.alloc(), &COUNTER_FILES, &MethodIsEntered)?);
    Ok(())
}
