//! The step of the machine.

ghost use Rattle.std.specs.Prelude.{◌≡◌, None};
ghost use Rattle.jvm_model.specs.declared.state.EntryKind.TheVariants.{InMethod};
ghost use Rattle.jvm_model.specs.Initialise.{row_finish};
ghost use Rattle.jvm_model.specs.Step as steps;
ghost use Rattle.class_init.specs.Starting.{fail_row};
ghost use Rattle.exception_flow.specs.Raise.{raise_row};
ghost use Rattle.type_frames.specs.{Typing.IsTyped, TypedState.TypedState};
ghost use Rattle.check_sound.specs.ReachLaw.{HasStackLimits};
ghost use Rattle.vm_interp.specs.Reaching.{CanStep, HasNativeSpace, HasSpace, IsRunning};
ghost use Rattle.vm_interp.specs.Abs.{abs};
ghost use Rattle.vm_interp.specs.Turns.{IsFit, MakesPart, by_row, AreOf};

use crate::concluding::conclude;
use crate::driving::drive;
use crate::rows::row_here;
use crate::state::State;
use crate::step_outcome::StepOutcome;
use check_sound::{reach_law, step_law};
use class_init::{fail, finish};
use et_base::NoMemory;
use exception_flow::raise;
use jvm_model::{EntryKind, Next, Value};
use std::alloc::Global;
use vm_calls::Selections;
use vm_mem::Memory;
use vm_tables::Tables;

/// The instruction at the place of the frame at the top.
fn run_step<M: Memory>(
    alloc: Global,
    state: &mut State,
    memory: &mut M,
    tables: &Tables,
    selections: &mut Selections,
    left: &mut u64,
) -> Result<StepOutcome, NoMemory>
    requires selections { selections.old ≡ tables.now }
    requires space { HasSpace tables.now state.old.frames }
    requires native_space { HasNativeSpace steps.row_here
        tables.now (M.world memory.old) state.old.frames }
    requires fit { IsFit (by_row steps.row_here) tables.now M.program M.world memory.old state.old }
    ensures made { MakesPart (by_row steps.row_here) M.program M.world M.follows
        memory.old memory.new state.old left.old result state.new left.new }
    ensures kept { selections.new ≡ selections.old }
{
    let next = row_here(&mut state.frames, memory, tables, selections, left)?;
    if let Next::Over = next {
        return Ok(StepOutcome::OutOfBudget);
    }
    conclude(alloc, state, memory, tables, next, left)
}

/// A step on the initialisation entry at the top.
fn finish_step<M: Memory>(
    alloc: Global,
    state: &mut State,
    memory: &mut M,
    tables: &Tables,
    left: &mut u64,
) -> Result<StepOutcome, NoMemory>
    requires fit { IsFit (by_row row_finish) tables.now M.program M.world memory.old state.old }
    ensures made { MakesPart (by_row row_finish) M.program M.world M.follows
        memory.old memory.new state.old left.old result state.new left.new }
{
    let next = finish(&mut state.frames, memory, tables, left)?;
    if let Next::Over = next {
        return Ok(StepOutcome::OutOfBudget);
    }
    conclude(alloc, state, memory, tables, next, left)
}

/// A throwable is raised into the initialisation entry at the top.
fn fail_step<M: Memory>(
    alloc: Global,
    state: &mut State,
    memory: &mut M,
    tables: &Tables,
    thrown: Value,
    left: &mut u64,
) -> Result<StepOutcome, NoMemory>
    requires fit { IsFit (by_row (fail_row thrown))
        tables.now M.program M.world memory.old state.old }
    ensures made { MakesPart (by_row (fail_row thrown)) M.program M.world M.follows
        memory.old memory.new state.old left.old result state.new left.new }
{
    let next = fail(&mut state.frames, memory, tables.program(), thrown, left)?;
    if let Next::Over = next {
        return Ok(StepOutcome::OutOfBudget);
    }
    conclude(alloc, state, memory, tables, next, left)
}

/// A throwable is raised into the frame at the top.
fn raise_step<M: Memory>(
    alloc: Global,
    state: &mut State,
    memory: &mut M,
    tables: &Tables,
    thrown: Value,
    left: &mut u64,
) -> Result<StepOutcome, NoMemory>
    requires frame { state.old.frames.top.kind ≡ InMethod }
    requires fit { IsFit (by_row (raise_row thrown))
        tables.now M.program M.world memory.old state.old }
    ensures made { MakesPart (by_row (raise_row thrown)) M.program M.world M.follows
        memory.old memory.new state.old left.old result state.new left.new }
{
    let next = raise(&mut state.frames, memory, tables.program(), thrown, left)?;
    if let Next::Over = next {
        return Ok(StepOutcome::OutOfBudget);
    }
    conclude(alloc, state, memory, tables, next, left)
}

/// Makes one step of a test of a typed program, from a typed state (this project's): the row of the instruction at the top
/// frame's place, what raising does there, a step on an initialisation entry, or a step of the driver where no entry is
/// left. Over where its cost is above the units left; the memory isn't used on then.
pub fn step<M: Memory>(
    alloc: Global,
    state: &mut State,
    memory: &mut M,
    tables: &Tables,
    selections: &mut Selections,
    left: &mut u64,
) -> Result<StepOutcome, NoMemory>
    requires of { AreOf tables.now (M.program memory.old) selections.old }
    requires checked { IsTyped tables.now }
    requires limits { HasStackLimits tables.now }
    requires typed { TypedState tables.now (M.world memory.old) (abs state.old) }
    ensures made { MakesPart steps.step M.program M.world M.follows
        memory.old memory.new state.old left.old result state.new left.new }
    ensures kept { selections.new ≡ selections.old }
{
    step_law();
    reach_law();
    step_safe(alloc, state, memory, tables, selections, left)
}

/// The same of a state that can step.
fn step_safe<M: Memory>(
    alloc: Global,
    state: &mut State,
    memory: &mut M,
    tables: &Tables,
    selections: &mut Selections,
    left: &mut u64,
) -> Result<StepOutcome, NoMemory>
    requires of { AreOf tables.now (M.program memory.old) selections.old }
    requires can { CanStep tables.now (M.world memory.old) (abs state.old) }
    ensures made { MakesPart steps.step M.program M.world M.follows
        memory.old memory.new state.old left.old result state.new left.new }
    ensures kept { selections.new ≡ selections.old }
{
    if state.is_running() {
        run_step(alloc, state, memory, tables, selections, left)
    } else {
        step_aside(alloc, state, memory, tables, left)
    }
}

/// The same where the next step is not that of an instruction: a step on an initialisation entry, of the driver, or of
/// what raising does.
#[inline(never)]
#[tactic(auto, unfolding(jvm_model::specs::Step::step))]
pub(crate) fn step_aside<M: Memory>(
    alloc: Global,
    state: &mut State,
    memory: &mut M,
    tables: &Tables,
    left: &mut u64,
) -> Result<StepOutcome, NoMemory>
    requires program { tables.now ≡ M.program memory.old }
    requires can { CanStep tables.now (M.world memory.old) (abs state.old) }
    requires aside { IsRunning (abs state.old) → ⊥ }
    ensures made { MakesPart steps.step M.program M.world M.follows
        memory.old memory.new state.old left.old result state.new left.new }
{
    match state.frames.kind() {
        EntryKind::Absent => drive(alloc, state, memory, tables, left),
        EntryKind::InMethod => match state.raised {
            None => unreachable!(),
            Some(thrown) => raise_step(alloc, state, memory, tables, thrown, left),
        },
        EntryKind::InClass { .. } => match state.raised {
            None => finish_step(alloc, state, memory, tables, left),
            Some(thrown) => fail_step(alloc, state, memory, tables, thrown, left),
        },
    }
}
