//! One test on a memory.

ghost use Rattle.std.specs.Prelude.{◌≡◌, IfOk, IfSome};
ghost use Rattle.std.specs.Option.{option_map};
ghost use Rattle.jvm_model.specs.{Entries.no_entries, Suite.one_test};
ghost use Rattle.type_frames.specs.{Typing.IsTyped, TypedState.TypedWorld};
ghost use Rattle.check_sound.specs.ReachLaw.{HasStackLimits};
ghost use Rattle.vm_interp.specs.Turns.{AreOf};
ghost use Rattle.test_run.specs.{Outcomes.given_in, Outcomes.TracesOne, Running.IsTest};

use et_base::NoMemory;
use jvm_model::{Outcome, Own, Verdict};
use std::alloc::Global;
use std::mem;
use vm_calls::Selections;
use vm_frames::FrameStack;
use vm_interp::{State, run_frames};
use vm_mem::Memory;
use vm_tables::Tables;

/// Runs a test of a typed program from its start to its end within so many units. It answers its outcome, None exactly
/// where its units would pass that number; the memory isn't used on then. The world that it leaves is typed again.
/// The room for entries is used again.
pub(crate) fn run_single<M: Memory>(
    alloc: Global,
    memory: &mut M,
    tables: &Tables,
    selections: &mut Selections,
    frames: &mut FrameStack,
    test: u32,
    budget: u64,
) -> Result<Option<Outcome>, NoMemory>
    requires of { AreOf tables.now (M.program memory.old) selections.old }
    requires checked { IsTyped tables.now }
    requires limits { HasStackLimits tables.now }
    requires typed { TypedWorld tables.now (M.world memory.old) }
    requires test { IsTest tables.now test }
    ensures gives { IfOk result (λ o. one_test tables.now (M.world memory.old) test budget
        ≡ given_in tables.now test (M.world memory.old) budget o (M.world memory.new)) }
    ensures told { IfOk result (λ o. IfSome o (λ x. TracesOne
        tables.now test (M.world memory.old) budget M.follows memory.old memory.new)) }
    ensures left { IfOk result (λ o. IfSome o (λ x. TypedWorld tables.now (M.world memory.new))) }
    ensures of { M.program memory.new ≡ M.program memory.old }
    ensures kept { selections.new ≡ selections.old }
{
    memory.begin_test(test)?;
    let mut state = State::start(alloc, tables.program(), test, emptied(alloc, frames))?;
    let mut left = budget;
    let verdict = run_frames(alloc, &mut state, memory, tables, selections, &mut left)?;
    let State {
        test: _,
        frames: used,
        stage: _,
        raised: _,
        own,
    } = state;
    *frames = used;
    Ok(outcome_of(verdict, own, budget.saturating_sub(left)))
}

/// The room for entries, with none in it.
fn emptied(alloc: Global, frames: &mut FrameStack) -> FrameStack
    ensures { result ≡ no_entries }
{
    let mut emptied = mem::replace(frames, FrameStack::new(alloc));
    emptied.clear();
    emptied
}

/// The outcome of a test that ended with this verdict; none of one that didn't.
fn outcome_of(verdict: Option<Verdict>, own: Own, units: u64) -> Option<Outcome>
    ensures { result ≡ option_map (λ v. record {
      verdict = v;
      output = own.output;
      units = units;
    }) verdict }
{
    let Some(verdict) = verdict else {
        return None;
    };
    let Own {
        output,
        clock: _,
        random: _,
    } = own;
    Some(Outcome {
        verdict,
        output,
        units,
    })
}
