//! Steps of a test, one after the other.

ghost use Rattle.std.specs.Prelude.{◌≡◌, ◌<◌, ℕ, true, false, None, Some, IfOk, OnOk, drop, IfSome, IsSome};
ghost use Rattle.jvm_model.specs.declared.state.EntryKind.TheVariants.{InMethod};
ghost use Rattle.jvm_model.specs.{Entries.Entries, Classes.form_at, Classes.method_at, Linked.Linked};
ghost use Rattle.jvm_model.specs.declared.library.Native.TheVariants as native;
ghost use Rattle.jvm_model.specs.Step as steps;
ghost use Rattle.vm_interp.specs.Dispatching.{RunsSlice, EndsInit, EndsWithRow, HasObject, HasOne, IsAtForm, IsInCode, IsRest, MakesFlow, Dispatches, Stands, StaysAt, StepsOn, left_behind, next_of, place_behind};
ghost use Rattle.vm_interp.specs.declared.flow.Flow.TheVariants.{FallThrough};
ghost use Rattle.vm_interp.specs.{Reaching.CanStep, Abs.abs, Turns.AreOf, Turns.as_step_outcome};

use crate::concluding::{conclude, native_of};
use crate::cursor::InstrCursor;
use crate::flow::Flow;
use crate::hot::hot_row;
use crate::state::State;
use crate::step_outcome::StepOutcome;
use crate::stepping::step_aside;
use et_base::NoMemory;
use jvm_model::{Body, EntryKind, Native, Next, Placed, Verdict};
use std::alloc::Global;
use std::mem;
use vm_calls::Selections;
use vm_frames::FrameStack;
use vm_mem::Memory;
use vm_tables::Tables;

/// Makes steps of a test one after the other, at least one, as long as they stay in the code of the method at the top. It
/// answers how the test ended with the last one, None where it goes on: a verdict, or none where the cost is above the
/// units left.
pub fn run_slice<M: Memory>(
    alloc: Global,
    state: &mut State,
    memory: &mut M,
    tables: &Tables,
    selections: &mut Selections,
    left: &mut u64,
) -> Result<Option<Option<Verdict>>, NoMemory>
    requires of { AreOf tables.now (M.program memory.old) selections.old }
    requires linked { Linked tables.now }
    requires can { StepsOn tables.now (abs state.old) (M.world memory.old) left.old }
    ensures made { IfOk result (λ x. RunsSlice tables.now M.world M.follows memory.old memory.new
        state.old left.old (as_step_outcome x) state.new left.new) }
    ensures of { M.program memory.new ≡ M.program memory.old }
    ensures kept { selections.new ≡ selections.old }
{
    match run_block(alloc, state, memory, tables, selections, left)? {
        StepOutcome::Running => Ok(None),
        StepOutcome::Done(verdict) => Ok(Some(Some(verdict))),
        StepOutcome::OutOfBudget => Ok(Some(None)),
    }
}

/// The same, with how the last step ended.
fn run_block<M: Memory>(
    alloc: Global,
    state: &mut State,
    memory: &mut M,
    tables: &Tables,
    selections: &mut Selections,
    left: &mut u64,
) -> Result<StepOutcome, NoMemory>
    requires of { AreOf tables.now (M.program memory.old) selections.old }
    requires linked { Linked tables.now }
    requires can { StepsOn tables.now (abs state.old) (M.world memory.old) left.old }
    ensures made { IfOk result (λ x. RunsSlice tables.now M.world M.follows memory.old memory.new
        state.old left.old x state.new left.new) }
    ensures of { M.program memory.new ≡ M.program memory.old }
    ensures kept { selections.new ≡ selections.old }
{
    if state.is_running() {
        let cursor = cursor_in_method(&state.frames, tables);
        return run_block_in(alloc, state, memory, tables, selections, cursor, left);
    }
    let step_outcome = step_aside(alloc, state, memory, tables, left)?;
    Ok(step_outcome)
}

/// The code of the method at the top, at an instruction of it.
#[inline(always)]
fn body_at_top<'p>(stack: &FrameStack, tables: &Tables<'p>) -> &'p Body
    requires { IsSome (form_at tables.now stack.now.top.number stack.now.top.pc) }
    ensures { (method_at tables.now stack.now.top.number).body ≡ Some result.now }
{
    let Some(record) = tables.program().method(stack.number()) else {
        unreachable!();
    };
    let Some(body) = &record.body else {
        unreachable!();
    };
    body
}

/// Makes such steps in the code of the method at the top and of those that it calls or returns to, and the step of the row
/// that comes after them.
fn run_block_in<'p, M: Memory>(
    alloc: Global,
    state: &mut State,
    memory: &mut M,
    tables: &Tables<'p>,
    selections: &mut Selections,
    cursor: InstrCursor<'p>,
    left: &mut u64,
) -> Result<StepOutcome, NoMemory>
    requires of { AreOf tables.now (M.program memory.old) selections.old }
    requires linked { Linked tables.now }
    requires stands { Stands tables.now cursor.body.now cursor.rest.now state.old.frames }
    requires quiet { state.old.raised ≡ None }
    requires can { StepsOn tables.now (abs state.old) (M.world memory.old) left.old }
    ensures made { IfOk result (λ x. RunsSlice tables.now M.world M.follows memory.old memory.new
        state.old left.old x state.new left.new) }
    ensures of { M.program memory.new ≡ M.program memory.old }
    ensures kept { selections.new ≡ selections.old }
{
    let next = dispatch_loop(alloc, state, memory, tables, selections, cursor, left)?;
    if let Next::Over = next {
        return Ok(StepOutcome::OutOfBudget);
    }
    let step_outcome = conclude(alloc, state, memory, tables, next, left)?;
    Ok(step_outcome)
}

/// Makes the rows of such steps, up to one with which its step doesn't end or that leaves no instruction at the top. The
/// entries stand in a local meanwhile, and what is called apart works on a copy of them: so they can be kept in registers.
fn dispatch_loop<'p, M: Memory>(
    alloc: Global,
    state: &mut State,
    memory: &mut M,
    tables: &Tables<'p>,
    selections: &mut Selections,
    cursor: InstrCursor<'p>,
    left: &mut u64,
) -> Result<Next, NoMemory>
    requires of { AreOf tables.now (M.program memory.old) selections.old }
    requires linked { Linked tables.now }
    requires stands { Stands tables.now cursor.body.now cursor.rest.now state.old.frames }
    requires quiet { state.old.raised ≡ None }
    requires can { StepsOn tables.now (abs state.old) (M.world memory.old) left.old }
    ensures made { IfOk result (λ x. Dispatches tables.now M.world M.follows memory.old memory.new
        state.old left.old x state.new.frames left.new) }
    ensures rest { OnOk result (state.new ≡ record state.old { frames = state.new.frames }) }
    ensures of { M.program memory.new ≡ M.program memory.old }
    ensures kept { selections.new ≡ selections.old }
{
    let mut frames = mem::replace(&mut state.frames, FrameStack::new(alloc));
    let mut units = *left;
    let mut cursor = cursor;
    while units > 0 {
        let flow = row_at(
            &mut frames,
            memory,
            tables,
            selections,
            cursor,
            &mut units,
            state,
        )?;
        match cursor_after(flow, &frames, tables, cursor) {
            Some(next) => cursor = next,
            None => match cursor_past_init(flow, &mut frames, tables, &mut units) {
                Some(next) => cursor = next,
                None => {
                    state.frames = frames;
                    *left = units;
                    return Ok(flow.next());
                }
            },
        }
    }
    frames.set_pc(0);
    state.frames = frames;
    *left = units;
    Ok(Next::Over)
}

/// Makes the row of the instruction at the top, the first of these of its method's code. Where it goes on in its method, the
/// 1 of its step is counted behind it, in one place for all forms.
#[inline(always)]
fn row_at<M: Memory>(
    stack: &mut FrameStack,
    memory: &mut M,
    tables: &Tables,
    selections: &mut Selections,
    cursor: InstrCursor<'_>,
    left: &mut u64,
    _state: &State,
) -> Result<Flow, NoMemory>
    requires of { AreOf tables.now (M.program memory.old) selections.old }
    requires linked { Linked tables.now }
    requires stands { Stands tables.now cursor.body.now cursor.rest.now stack.old }
    requires quiet { _state.now.raised ≡ None }
    requires can { CanStep tables.now (M.world memory.old)
        (record (abs _state.now) { entries = stack.old }) }
    requires units { 0 < left.old }
    ensures made { MakesFlow steps.row_here M.program M.world M.follows
        memory.old memory.new stack.old left.old result stack.new left.new }
    ensures left { IfOk result (λ x. StaysAt tables.now cursor.entry.body.now x
        (place_behind cursor.entry.body.now cursor.entry.rest.now) stack.new) }
    ensures kept { selections.new ≡ selections.old }
{
    let rest = cursor.rest;
    let placed = &rest[0];
    stack.set_pc(placed.pc);
    let flow = hot_row(
        stack,
        memory,
        tables,
        selections,
        &placed.form,
        cursor,
        left,
    )?;
    count_behind(flow, left);
    Ok(flow)
}

/// Counts the 1 of the step of a row that went on in its method.
#[inline(always)]
fn count_behind(flow: Flow, left: &mut u64)
    requires { HasOne flow left.old }
    ensures { left.new ≡ left_behind flow left.old }
{
    match flow {
        Flow::FallThrough | Flow::Jump => *left -= 1,
        Flow::Call { .. } | Flow::Other(_) => {}
    }
}

/// The instruction at which a row left the top, where its step ends with it.
#[inline(always)]
fn cursor_after<'p>(
    flow: Flow,
    stack: &FrameStack,
    tables: &Tables<'p>,
    cursor: InstrCursor<'p>,
) -> Option<InstrCursor<'p>>
    requires linked { Linked tables.now }
    requires of { IsRest cursor.body.now cursor.rest.now }
    requires there { EndsWithRow tables.now (next_of flow) → IsAtForm tables.now stack.now }
    requires left { StaysAt tables.now cursor.body.now flow
        (place_behind cursor.body.now cursor.rest.now) stack.now }
    ensures stands { IfSome result (λ x. EndsWithRow tables.now (next_of flow)
        × Stands tables.now x.body.now x.rest.now stack.now) }
{
    let InstrCursor { body, rest } = cursor;
    match flow {
        Flow::FallThrough => Some(InstrCursor {
            body,
            rest: behind_first(rest, tables, body, stack),
        }),
        Flow::Jump => Some(InstrCursor {
            body,
            rest: rest_there(tables, body, stack),
        }),
        Flow::Call { method } => cursor_at_start(stack, tables, method),
        Flow::Other(Next::Go) => cursor_on_top(stack, tables),
        Flow::Other(_) => None,
    }
}

/// The first instruction of a method that was entered, None of a built-in one. That the entry at the top is its frame is
/// known where this is inlined, and the tests of it are left out.
#[inline(always)]
fn cursor_at_start<'p>(
    stack: &FrameStack,
    tables: &Tables<'p>,
    method: u32,
) -> Option<InstrCursor<'p>>
    requires linked { Linked tables.now }
    requires there { (method_at tables.now method).native ≡ None → IsAtForm tables.now stack.now }
    ensures { IfSome result (λ x. ((method_at tables.now method).native ≡ None)
        × Stands tables.now x.body.now x.rest.now stack.now) }
{
    let record = tables.program().method(method)?;
    if record.native.is_some() {
        return None;
    }
    let body = record.body.as_ref()?;
    if !is_frame(stack) || stack.number() != method || stack.pc() != 0 {
        return None;
    }
    Some(InstrCursor {
        body,
        rest: body.code.as_slice(),
    })
}

/// The instruction after one that calls the built-in constructor of `Object`: the step ends, over the frame of the caller,
/// whose operands lose the object. Where the row answered anything else, or no unit is left, it is None and all stays.
#[inline(always)]
fn cursor_past_init<'p>(
    flow: Flow,
    stack: &mut FrameStack,
    tables: &Tables<'p>,
    left: &mut u64,
) -> Option<InstrCursor<'p>>
    requires object { HasObject tables.now (next_of flow) stack.old }
    requires there { (s : Entries) (n : ℕ) → EndsInit tables.now (next_of flow) stack.old left.old s n
        → IsAtForm tables.now s }
    ensures ended { IfSome result (λ x.
        EndsInit tables.now (next_of flow) stack.old left.old stack.new left.new
        × Stands tables.now x.body.now x.rest.now stack.new) }
    ensures kept { result ≡ None → (stack.new ≡ stack.old) × (left.new ≡ left.old) }
{
    if !ends_object_init(flow, stack, tables, left) {
        return None;
    }
    Some(cursor_in_method(stack, tables))
}

/// Whether the step of an instruction that called a method ends with the built-in constructor of `Object`: then it does.
#[inline(always)]
fn ends_object_init(flow: Flow, stack: &mut FrameStack, tables: &Tables, left: &mut u64) -> bool
    requires object { HasObject tables.now (next_of flow) stack.old }
    ensures ended { result ≡ true
        → EndsInit tables.now (next_of flow) stack.old left.old stack.new left.new }
    ensures kept { result ≡ false → (stack.new ≡ stack.old) × (left.new ≡ left.old) }
{
    let Flow::Call { method } = flow else {
        return false;
    };
    if !is_object_init(tables, method) || *left == 0 || !is_frame(stack) {
        return false;
    }
    let next = tables.next_place(stack.number(), stack.pc());
    stack.pop_value();
    stack.set_pc(next);
    *left -= 1;
    true
}

/// Whether a method is the built-in constructor of `Object`.
#[inline(always)]
fn is_object_init(tables: &Tables, method: u32) -> bool
    ensures { result ≡ true → (method_at tables.now method).native ≡ Some native.ObjectInit }
{
    matches!(native_of(tables, method), Some(Native::ObjectInit))
}

/// The instructions behind the first of these, where the top stands at the next one.
#[inline(always)]
fn behind_first<'p>(
    rest: &'p [Placed],
    _tables: &Tables,
    _body: &Body,
    _stack: &FrameStack,
) -> &'p [Placed]
    requires linked { Linked _tables.now }
    requires of { IsRest _body.now rest.now }
    requires at { StaysAt _tables.now _body.now FallThrough
        (place_behind _body.now rest.now) _stack.now }
    requires there { IsAtForm _tables.now _stack.now }
    ensures { Stands _tables.now _body.now result.now _stack.now }
{
    &rest[1..]
}

/// The instruction at the top in the code of its method, where a method is.
#[inline(always)]
fn cursor_on_top<'p>(stack: &FrameStack, tables: &Tables<'p>) -> Option<InstrCursor<'p>>
    requires there { IsAtForm tables.now stack.now }
    ensures { IfSome result (λ x. Stands tables.now x.body.now x.rest.now stack.now) }
{
    if !is_frame(stack) {
        return None;
    }
    Some(cursor_in_method(stack, tables))
}

/// The instruction at the top in the code of its method.
#[inline(always)]
fn cursor_in_method<'p>(stack: &FrameStack, tables: &Tables<'p>) -> InstrCursor<'p>
    requires frame { stack.now.top.kind ≡ InMethod }
    requires there { IsAtForm tables.now stack.now }
    ensures { Stands tables.now result.body.now result.rest.now stack.now }
{
    let body = body_at_top(stack, tables);
    let rest = rest_there(tables, body, stack);
    InstrCursor { body, rest }
}

/// Whether the frame of a method is at the top.
#[inline(always)]
fn is_frame(stack: &FrameStack) -> bool
    ensures { result ≡ true → stack.now.top.kind ≡ InMethod }
{
    match stack.kind() {
        EntryKind::InMethod => true,
        EntryKind::Absent | EntryKind::InClass { .. } => false,
    }
}

/// The instruction at the top in this code, and those behind it.
#[inline(always)]
fn rest_there<'p>(tables: &Tables, body: &'p Body, stack: &FrameStack) -> &'p [Placed]
    requires code { IsInCode tables.now body.now stack.now }
    requires there { IsAtForm tables.now stack.now }
    ensures { Stands tables.now body.now result.now stack.now }
{
    let at = tables.index(stack.number(), stack.pc());
    &body.code.as_slice()[at..]
}
