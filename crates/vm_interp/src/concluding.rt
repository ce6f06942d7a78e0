//! How a step ends after its row.

ghost use Rattle.std.specs.Prelude.{◌≡◌};
ghost use Rattle.jvm_model.specs.declared.outcome.Next.TheVariants.{Enter};
ghost use Rattle.jvm_model.specs.Classes.{method_at};
ghost use Rattle.vm_interp.specs.Reaching.{HasRoomAfter};
ghost use Rattle.vm_natives.specs.Rows.{growth};
ghost use Rattle.vm_frames.specs.Stack.{HasRoom};
ghost use Rattle.vm_interp.specs.Turns.{IsFit, MakesPart, after, builtin_part};

use crate::raising::{raise_into, throw_new};
use crate::state::State;
use crate::step_outcome::StepOutcome;
use et_base::NoMemory;
use jvm_model::{Native, Next};
use std::alloc::Global;
use vm_mem::Memory;
use vm_natives::native;
use vm_tables::Tables;

/// Ends a step whose row answered this: the test goes on over the row's entries, a new throwable of a class or a given one
/// is raised, or a method is entered, which a built-in one runs at once. It counts what the row left.
#[inline(never)]
pub fn conclude<M: Memory>(
    alloc: Global,
    state: &mut State,
    memory: &mut M,
    tables: &Tables,
    next: Next,
    left: &mut u64,
) -> Result<StepOutcome, NoMemory>
    requires room { HasRoomAfter next tables.now state.old.frames }
    requires fit { IsFit (after next) tables.now M.program M.world memory.old state.old }
    ensures made { MakesPart (after next) M.program M.world M.follows
        memory.old memory.new state.old left.old result state.new left.new }
{
    match next {
        Next::Go | Next::Leave => {}
        Next::Fault { class } => {
            state.raised = None;
            return throw_new(state, memory, class, left);
        }
        Next::Raise(thrown) => {
            state.raised = None;
            raise_into(state, thrown);
            return Ok(StepOutcome::Running);
        }
        Next::Enter { method } => return enter(alloc, state, memory, tables, method, left),
        Next::Over => unreachable!(),
    }
    state.raised = None;
    Ok(StepOutcome::Running)
}

/// A method is entered: one with code has its frame already, and a built-in one runs now.
fn enter<M: Memory>(
    alloc: Global,
    state: &mut State,
    memory: &mut M,
    tables: &Tables,
    method: u32,
    left: &mut u64,
) -> Result<StepOutcome, NoMemory>
    requires room { HasRoomAfter (Enter method) tables.now state.old.frames }
    requires fit { IsFit (after (Enter method)) tables.now M.program M.world memory.old state.old }
    ensures made { MakesPart (after (Enter method)) M.program M.world M.follows
        memory.old memory.new state.old left.old result state.new left.new }
{
    match native_of(tables, method) {
        None => {
            state.raised = None;
            Ok(StepOutcome::Running)
        }
        Some(which) => run_builtin(alloc, state, memory, tables, which, left),
    }
}

/// A built-in method runs, over the calling frame.
fn run_builtin<M: Memory>(
    alloc: Global,
    state: &mut State,
    memory: &mut M,
    tables: &Tables,
    which: Native,
    left: &mut u64,
) -> Result<StepOutcome, NoMemory>
    requires room { HasRoom (growth which) state.old.frames }
    requires fit { IsFit (builtin_part which) tables.now M.program M.world memory.old state.old }
    ensures made { MakesPart (builtin_part which) M.program M.world M.follows
        memory.old memory.new state.old left.old result state.new left.new }
{
    let place = tables.next_place(state.frames.number(), state.frames.pc());
    let frames = &mut state.frames;
    let next = native(
        alloc,
        frames,
        memory,
        tables.program(),
        &mut state.own,
        which,
        place,
        left,
    )?;
    match next {
        Next::Go => Ok(StepOutcome::Running),
        Next::Fault { class } => throw_new(state, memory, class, left),
        Next::Over => Ok(StepOutcome::OutOfBudget),
        Next::Raise(_) => unreachable!(),
        Next::Enter { .. } => unreachable!(),
        Next::Leave => unreachable!(),
    }
}

/// Which built-in method a method is, if it is one.
pub fn native_of(tables: &Tables, method: u32) -> Option<Native>
    ensures { result ≡ (method_at tables.now method).native }
{
    match tables.program().method(method) {
        None => None,
        Some(record) => record.native,
    }
}
