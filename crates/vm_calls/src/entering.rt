//! Methods are entered.

ghost use Rattle.std.specs.Prelude.{◌≡◌, ◌≤◌, ◌<◌, ℕ, IfOk, None, Some, length};
ghost use Rattle.jvm_model.specs.{Entries.Entries, World.World};
ghost use Rattle.vm_mem.specs.Refines.{Refines};
ghost use Rattle.vm_tables.specs.Methods.{call_descriptor_of};
ghost use Rattle.vm_calls.specs.{Calls.method_row, Calls.selected_row, Choices.selected_of};

use crate::choice::Choice;
use et_base::NoMemory;
use jvm_model::{ABSTRACT_METHOD_ERROR, Next, Program, STACK_OVERFLOW_ERROR};
use vm_frames::{FrameStack, PushFault};
use vm_tables::Tables;

/// Enters a method with so many of the topmost operands as its arguments, the receiver among them: its frame is on top, and
/// its cost and the 1 of the step are counted. A full list of entries faults with StackOverflowError, a method without code
/// with AbstractMethodError; a built-in method leaves the operands as they are and counts nothing.
#[inline(always)]
#[tactic(auto, unfolding(jvm_model::specs::RowsCalls::calls))]
pub(crate) fn enter_method(
    stack: &mut FrameStack,
    tables: &Tables,
    method: u32,
    arguments: usize,
    left: &mut u64,
) -> Result<Next, NoMemory>
    requires arguments { arguments ≤ length stack.old.top.stack }
    ensures { IfOk result (λ x. (w : World) → Refines (method_row method arguments)
        tables.now w stack.old left.old x stack.new w left.new) }
{
    let Some(call_descriptor) = tables.call_descriptor(method) else {
        return Ok(without_descriptor(tables.program(), method));
    };
    if stack.is_full() {
        return Ok(Next::Fault {
            class: STACK_OVERFLOW_ERROR,
        });
    }
    let cost = u64::from(call_descriptor.cost);
    if *left < cost {
        return Ok(Next::Over);
    }
    match stack.enter(method, call_descriptor.max_locals, arguments) {
        Ok(()) => {}
        Err(PushFault::Deep) => unreachable!(),
        Err(PushFault::NoMemory) => return Err(NoMemory {}),
    }
    *left -= cost;
    Ok(Next::Enter { method })
}

/// What the call of a method answers that is built-in or has no code.
#[inline(never)]
#[tactic(auto, unfolding(jvm_model::specs::RowsCalls::calls))]
fn without_descriptor(p: &Program, method: u32) -> Next
    requires { call_descriptor_of p.now method ≡ None }
    ensures { (n left : ℕ) (s : Entries) (w : World) → n ≤ length s.top.stack
        → Refines (method_row method n) p.now w s left result s w left }
{
    if let Some(record) = p.method(method) {
        if record.native.is_some() {
            return Next::Enter { method };
        }
    }
    Next::Fault {
        class: ABSTRACT_METHOD_ERROR,
    }
}

/// Enters the method that a call selected, or throws the error that it selected.
#[inline(always)]
pub(crate) fn enter_choice(
    stack: &mut FrameStack,
    tables: &Tables,
    choice: Choice,
    arguments: usize,
    left: &mut u64,
) -> Result<Next, NoMemory>
    requires arguments { arguments ≤ length stack.old.top.stack }
    ensures { IfOk result (λ x. (w : World) → Refines (selected_row (selected_of choice) arguments)
        tables.now w stack.old left.old x stack.new w left.new) }
{
    match choice {
        Choice::Chosen { method } => enter_method(stack, tables, method, arguments, left),
        Choice::Failing { class } => Ok(Next::Fault { class }),
    }
}
