//! The steps of a test.

ghost use Rattle.std.specs.Prelude.{◌≡◌, ◌<◌, ◌≤◌, length, IfOk, IfSome};
ghost use Rattle.jvm_model.specs.{Linked.Linked, State.started, Suite.one_test};
ghost use Rattle.type_frames.specs.{Typing.IsTyped, TypedState.TypedWorld};
ghost use Rattle.check_sound.specs.ReachLaw.{HasStackLimits};
ghost use Rattle.vm_interp.specs.Reaching.{AllSafe, TracesTest, given_by};
ghost use Rattle.vm_interp.specs.{Abs.abs, Turns.AreOf};

use crate::dispatching::run_slice;
use crate::state::State;
use check_sound::{reach_law, step_law};
use et_base::NoMemory;
use jvm_model::Verdict;
use std::alloc::Global;
use vm_calls::Selections;
use vm_mem::Memory;
use vm_tables::Tables;

/// Makes the steps of a test of a typed program from its start to its end, in a typed world. It answers the verdict, or
/// None exactly where the test's units would pass those left; the memory isn't used on then. The world that it leaves is
/// typed again.
pub fn run_frames<M: Memory>(
    alloc: Global,
    state: &mut State,
    memory: &mut M,
    tables: &Tables,
    selections: &mut Selections,
    left: &mut u64,
) -> Result<Option<Verdict>, NoMemory>
    requires of { AreOf tables.now (M.program memory.old) selections.old }
    requires checked { IsTyped tables.now }
    requires limits { HasStackLimits tables.now }
    requires typed { TypedWorld tables.now (M.world memory.old) }
    requires low { 0 < state.old.test }
    requires high { state.old.test ≤ length tables.now.tests }
    requires start { abs state.old ≡ started tables.now state.old.test }
    ensures gives { IfOk result (λ v. one_test
        tables.now (M.world memory.old) state.old.test left.old
        ≡ given_by tables.now state.old.test (M.world memory.old) left.old
        v state.new (M.world memory.new) left.new) }
    ensures told { IfOk result (λ v. TracesTest
        tables.now state.old.test (M.world memory.old) left.old
        v M.follows memory.old memory.new) }
    ensures left { IfOk result (λ v. IfSome v (λ x.
        TypedWorld tables.now (M.world memory.new))) }
    ensures of { M.program memory.new ≡ M.program memory.old }
    ensures kept { selections.new ≡ selections.old }
{
    step_law();
    reach_law();
    run_safe(alloc, state, memory, tables, selections, left)
}

/// The same of a test whose states can all step.
fn run_safe<M: Memory>(
    alloc: Global,
    state: &mut State,
    memory: &mut M,
    tables: &Tables,
    selections: &mut Selections,
    left: &mut u64,
) -> Result<Option<Verdict>, NoMemory>
    requires of { AreOf tables.now (M.program memory.old) selections.old }
    requires linked { Linked tables.now }
    requires start { abs state.old ≡ started tables.now state.old.test }
    requires safe { AllSafe tables.now state.old.test (M.world memory.old) }
    ensures gives { IfOk result (λ v. one_test
        tables.now (M.world memory.old) state.old.test left.old
        ≡ given_by tables.now state.old.test (M.world memory.old) left.old
        v state.new (M.world memory.new) left.new) }
    ensures told { IfOk result (λ v. TracesTest
        tables.now state.old.test (M.world memory.old) left.old
        v M.follows memory.old memory.new) }
    ensures of { M.program memory.new ≡ M.program memory.old }
    ensures kept { selections.new ≡ selections.old }
{
    while *left > 0 {
        if let Some(end) = run_slice(alloc, state, memory, tables, selections, left)? {
            return Ok(end);
        }
    }
    Ok(None)
}
