//! The rows of instructions in one flat match, so that one jump finds each: those that run often, and apart the others.

ghost use Rattle.std.specs.Prelude.{◌≡◌, ◌<◌, ℕ, IfOk, Some, cond, length};
ghost use Rattle.jvm_model.specs.declared.instr.Instr.TheVariants as form;
ghost use Rattle.jvm_model.specs.declared.outcome.Next.TheVariants.{Go};
ghost use Rattle.jvm_model.specs.{Classes.form_at, Entries.Entries, Entries.with_place};
ghost use Rattle.jvm_model.specs.Step as steps;
ghost use Rattle.vm_frames.specs.Stack.{HasIntOnTop, HasRoom};
ghost use Rattle.vm_mem.specs.Refines.{IsNext, IsReady};
ghost use Rattle.jvm_model.specs.declared.state.EntryKind.TheVariants.{InMethod};
ghost use Rattle.vm_interp.specs.declared.flow.Flow.TheVariants.{Jump, FallThrough};
ghost use Rattle.vm_arith.specs.Pure.{Ends, HasRow};
ghost use Rattle.vm_interp.specs.Dispatching.{CanRun, IsLeft, HasOne, MakesUncounted, left_behind, next_of, place_behind, settled, settled_flow};
ghost use Rattle.check_sound.specs.ReachLaw.{puts};
ghost use Rattle.vm_interp.specs.{Reaching.HasPlaceBelow, Reaching.HasSpace, Rows.IsOnObject, Rows.form_row};
ghost use Rattle.vm_calls.specs.Calls.{object_row};

use crate::cursor::InstrCursor;
use crate::flow::Flow;
use crate::rows::{return_nothing, row_of};
use crate::straight::{
    add_ints, and_ints, load_local, multiply_ints, push_constant, store_local, subtract_ints,
};
use et_base::NoMemory;
use jvm_model::{Cell, EntryKind, Instr, Next, Op};
use std::mem;
use vm_arith::{
    binary_ints, binary_longs, compare, convert, dup, dup_x1, dup2, if_ints, if_null, if_refs,
    if_zero, increase, lookup_switch, neg_int, neg_long, pop, table_switch,
};
use vm_calls::{Selections, give_back, invoke_on_object, invoke_special, invoke_static};
use vm_frames::FrameStack;
use vm_mem::Memory;
use vm_objects::{
    array_length, array_load, array_store_number, check_cast, get_field, get_static, instance_of,
    new_object, put_field, put_static,
};
use vm_tables::Tables;

/// Makes the row of an instruction that was found, at its place in its method's code. Those that run often are made
/// here, and the others apart. The place of the next one is read only where it's asked for. Where the row goes on in its
/// method, the 1 of its step is left to be counted behind it.
#[inline(always)]
#[tactic(auto, unfolding(jvm_model::specs::Step::row_here))]
pub fn hot_row<M: Memory>(
    stack: &mut FrameStack,
    memory: &mut M,
    tables: &Tables,
    selections: &mut Selections,
    form: &Instr,
    cursor: InstrCursor<'_>,
    left: &mut u64,
) -> Result<Flow, NoMemory>
    requires selections { selections.old ≡ tables.now }
    requires found { form_at tables.now stack.old.top.number stack.old.top.pc ≡ Some form.now }
    requires within { 0 < length cursor.rest.now }
    requires place { IsNext tables.now stack.old (place_behind cursor.body.now cursor.rest.now) }
    requires space { HasSpace tables.now stack.old }
    requires row { IsReady steps.row_here tables.now M.program M.world memory.old stack.old }
    requires can { CanRun form.now stack.old }
    requires frame { stack.old.top.kind ≡ InMethod }
    requires units { 0 < left.old }
    ensures made { MakesUncounted steps.row_here M.program M.world M.follows
        memory.old memory.new stack.old left.old result stack.new left.new }
    ensures left { IfOk result (λ x. IsLeft x stack.old.top.number
        (place_behind cursor.entry.body.now cursor.entry.rest.now) stack.new) }
    ensures kept { selections.new ≡ selections.old }
{
    hot_form(stack, memory, tables, selections, form, cursor, left)
}

/// The same by its form alone.
#[inline(always)]
#[tactic(auto, using(crate::proofs::Found::branch_meets, crate::proofs::Found::branch_tells, crate::proofs::Found::straight_meets, crate::proofs::Found::straight_tells), unfolding(jvm_model::specs::Step::row, jvm_model::specs::RowsMoves::row_moves, jvm_model::specs::RowsBranches::row_branches, jvm_model::specs::RowsFields::row_fields, jvm_model::specs::RowsArrays::row_arrays))]
fn hot_form<M: Memory>(
    stack: &mut FrameStack,
    memory: &mut M,
    tables: &Tables,
    selections: &mut Selections,
    form: &Instr,
    cursor: InstrCursor<'_>,
    left: &mut u64,
) -> Result<Flow, NoMemory>
    requires selections { selections.old ≡ tables.now }
    requires within { 0 < length cursor.rest.now }
    requires place { IsNext tables.now stack.old (place_behind cursor.body.now cursor.rest.now) }
    requires room { HasRoom (puts form.now) stack.old }
    requires below { HasPlaceBelow form.now stack.old }
    requires row { IsReady (form_row form.now) tables.now M.program M.world memory.old stack.old }
    requires can { CanRun form.now stack.old }
    requires frame { stack.old.top.kind ≡ InMethod }
    requires units { 0 < left.old }
    ensures made { MakesUncounted (form_row form.now) M.program M.world M.follows
        memory.old memory.new stack.old left.old result stack.new left.new }
    ensures left { IfOk result (λ x. IsLeft x stack.old.top.number
        (place_behind cursor.entry.body.now cursor.entry.rest.now) stack.new) }
    ensures kept { selections.new ≡ selections.old }
{
    match form {
        Instr::Const(v) => {
            push_constant(stack, v);
            Ok(fall_through(stack, cursor))
        }
        Instr::Load { local, .. } => {
            load_local(stack, *local);
            Ok(fall_through(stack, cursor))
        }
        Instr::Store { local, .. } => {
            store_local(stack, *local);
            Ok(fall_through(stack, cursor))
        }
        Instr::Dup => {
            dup(stack);
            Ok(fall_through(stack, cursor))
        }
        Instr::DupX1 => {
            dup_x1(stack);
            Ok(fall_through(stack, cursor))
        }
        Instr::Dup2 => {
            dup2(stack);
            Ok(fall_through(stack, cursor))
        }
        Instr::Pop => {
            pop(stack);
            Ok(fall_through(stack, cursor))
        }
        Instr::Inc { local, by } => {
            increase(stack, *local, *by);
            Ok(fall_through(stack, cursor))
        }
        Instr::Convert { to } => {
            convert(stack, *to);
            Ok(fall_through(stack, cursor))
        }
        Instr::Compare => {
            compare(stack);
            Ok(fall_through(stack, cursor))
        }
        Instr::Binary {
            op: Op::Add,
            wide: false,
        } => {
            add_ints(stack);
            Ok(fall_through(stack, cursor))
        }
        Instr::Binary {
            op: Op::Sub,
            wide: false,
        } => {
            subtract_ints(stack);
            Ok(fall_through(stack, cursor))
        }
        Instr::Binary {
            op: Op::Mul,
            wide: false,
        } => {
            multiply_ints(stack);
            Ok(fall_through(stack, cursor))
        }
        Instr::Binary {
            op: Op::And,
            wide: false,
        } => {
            and_ints(stack);
            Ok(fall_through(stack, cursor))
        }
        Instr::Binary { op, wide } => calculate(stack, memory, *op, *wide, cursor, *left),
        Instr::Neg { wide: false } => {
            neg_int(stack);
            Ok(fall_through(stack, cursor))
        }
        Instr::Neg { wide: true } => {
            neg_long(stack);
            Ok(fall_through(stack, cursor))
        }
        Instr::IfZero { test, to } => {
            let taken = if_zero(stack, *test);
            Ok(branch(stack, taken, *to, cursor))
        }
        Instr::IfInts { test, to } => {
            let taken = if_ints(stack, *test);
            Ok(branch(stack, taken, *to, cursor))
        }
        Instr::IfRefs { same, to } => {
            let taken = if_refs(stack, *same);
            Ok(branch(stack, taken, *to, cursor))
        }
        Instr::IfNull { null, to } => {
            let taken = if_null(stack, *null);
            Ok(branch(stack, taken, *to, cursor))
        }
        Instr::Goto { to } => {
            stack.set_pc(*to);
            Ok(Flow::Jump)
        }
        Instr::Table {
            low,
            targets,
            other,
        } => switch_by_table(stack, memory, *low, targets.as_slice(), *other, *left),
        Instr::Lookup { pairs, other } => {
            switch_by_lookup(stack, memory, pairs.as_slice(), *other, *left)
        }
        Instr::GetField { field, .. } => {
            let method = stack.number();
            let next = place_after(cursor);
            let before = *left;
            let answer = get_field(stack, memory, *field, next, left)?;
            Ok(classify_flow(answer, stack, method, next, before, left))
        }
        Instr::PutField { field, .. } => {
            let method = stack.number();
            let next = place_after(cursor);
            let before = *left;
            let answer = put_field(stack, memory, tables, *field, next, left)?;
            Ok(classify_flow(answer, stack, method, next, before, left))
        }
        Instr::ArrayLength => {
            let method = stack.number();
            let next = place_after(cursor);
            let before = *left;
            let answer = array_length(stack, memory, next, left)?;
            Ok(classify_flow(answer, stack, method, next, before, left))
        }
        Instr::ArrayLoad { .. } => {
            let method = stack.number();
            let next = place_after(cursor);
            let before = *left;
            let answer = array_load(stack, memory, next, left)?;
            Ok(classify_flow(answer, stack, method, next, before, left))
        }
        Instr::ArrayStore {
            of: Cell::Int | Cell::Long | Cell::Byte | Cell::Char | Cell::Short,
        } => {
            let method = stack.number();
            let next = place_after(cursor);
            let before = *left;
            let answer = array_store_number(stack, memory, next, left)?;
            Ok(classify_flow(answer, stack, method, next, before, left))
        }
        Instr::CheckCast { kind } => {
            let method = stack.number();
            let next = place_after(cursor);
            let before = *left;
            let answer = check_cast(stack, memory, tables, *kind, next, left)?;
            Ok(classify_flow(answer, stack, method, next, before, left))
        }
        Instr::InstanceOf { kind } => {
            let method = stack.number();
            let next = place_after(cursor);
            let before = *left;
            let answer = instance_of(stack, memory, tables, *kind, next, left)?;
            Ok(classify_flow(answer, stack, method, next, before, left))
        }
        Instr::GetStatic { field } => {
            let method = stack.number();
            let next = place_after(cursor);
            let before = *left;
            let answer = get_static(stack, memory, tables, *field, next, left)?;
            Ok(classify_flow(answer, stack, method, next, before, left))
        }
        Instr::PutStatic { field } => {
            let method = stack.number();
            let next = place_after(cursor);
            let before = *left;
            let answer = put_static(stack, memory, tables, *field, next, left)?;
            Ok(classify_flow(answer, stack, method, next, before, left))
        }
        Instr::New { class } => {
            let method = stack.number();
            let next = place_after(cursor);
            let before = *left;
            let answer = new_object(stack, memory, tables, *class, next, left)?;
            Ok(classify_flow(answer, stack, method, next, before, left))
        }
        Instr::InvokeStatic { method } => {
            let answer = invoke_static(stack, memory, tables, *method, left)?;
            Ok(called(answer, *left))
        }
        Instr::InvokeSpecial { named, method } => {
            let answer = invoke_special(stack, memory, tables, selections, *named, *method, left)?;
            Ok(called(answer, *left))
        }
        Instr::InvokeVirtual { .. } | Instr::InvokeInterface { .. } => {
            call_on_object(stack, memory, tables, selections, form, left)
        }
        Instr::Return { of: Some(of) } => {
            let answer = give_back(stack, memory, tables, Some(*of), left)?;
            Ok(Flow::Other(answer))
        }
        Instr::Return { of: None } => {
            let answer = return_nothing(stack, memory, tables, left)?;
            Ok(Flow::Other(answer))
        }
        _ => { row_apart(stack, memory, tables, selections, form, left) }
    }
}

/// Goes on at the next instruction.
#[inline(always)]
fn fall_through(stack: &mut FrameStack, cursor: InstrCursor<'_>) -> Flow
    ensures flow { result ≡ FallThrough }
    ensures place { stack.new
        ≡ with_place stack.old (place_behind cursor.entry.body.now cursor.entry.rest.now) }
{
    let next = place_after(cursor);
    stack.set_pc(next);
    Flow::FallThrough
}

/// Takes two numbers and puts what the operation gives of them, or throws where it divides by 0.
#[inline(always)]
#[tactic(auto, using(crate::proofs::Found::settled_meets, crate::proofs::Found::settled_left, crate::proofs::Found::settled_one, crate::proofs::Found::quiet_tells))]
fn calculate<M: Memory>(
    stack: &mut FrameStack,
    _memory: &mut M,
    op: Op,
    wide: bool,
    cursor: InstrCursor<'_>,
    _left: u64,
) -> Result<Flow, NoMemory>
    requires place { IsNext (M.program _memory.old) stack.old
        (place_behind cursor.body.now cursor.rest.now) }
    requires row { HasRow (form.Binary op wide) stack.old }
    requires frame { stack.old.top.kind ≡ InMethod }
    requires units { 0 < _left }
    ensures made { MakesUncounted (form_row (form.Binary op wide)) M.program M.world M.follows
        _memory.old _memory.new stack.old _left result stack.new _left }
    ensures left { IfOk result (λ x. IsLeft x stack.old.top.number
        (place_behind cursor.entry.body.now cursor.entry.rest.now) stack.new) }
{
    let answer = binary(stack, op, wide);
    Ok(settle(answer, stack, cursor))
}

/// Takes two numbers of a type and puts what the operation gives of them.
#[inline(always)]
fn binary(stack: &mut FrameStack, op: Op, wide: bool) -> Next
    requires { HasRow (form.Binary op wide) stack.old }
    ensures { Ends (form.Binary op wide) result stack.old stack.new }
{
    if wide {
        binary_longs(stack, op)
    } else {
        binary_ints(stack, op)
    }
}

/// Goes on at the next instruction, where a form that touches nothing answered so.
#[inline(always)]
fn settle(answer: Next, stack: &mut FrameStack, cursor: InstrCursor<'_>) -> Flow
    ensures flow { result ≡ settled_flow answer }
    ensures entries { stack.new
        ≡ settled answer (place_behind cursor.entry.body.now cursor.entry.rest.now) stack.old }
{
    match answer {
        Next::Go => fall_through(stack, cursor),
        Next::Fault { .. } | Next::Raise(_) | Next::Enter { .. } | Next::Leave | Next::Over => {
            Flow::Other(answer)
        }
    }
}

/// Takes an int and goes on at its place among the targets from that of `low` on, or at `other` past them.
#[inline(always)]
fn switch_by_table<M: Memory>(
    stack: &mut FrameStack,
    _memory: &mut M,
    low: i32,
    targets: &[u32],
    other: u32,
    _left: u64,
) -> Result<Flow, NoMemory>
    requires row { HasIntOnTop stack.old.top.stack }
    requires frame { stack.old.top.kind ≡ InMethod }
    requires units { 0 < _left }
    ensures made { MakesUncounted (form_row (form.Table low targets.now other)) M.program M.world
        M.follows _memory.old _memory.new stack.old _left result stack.new _left }
    ensures left { IfOk result (λ x. (next : ℕ) → IsLeft x stack.old.top.number next stack.new) }
{
    let to = table_switch(stack, low, targets, other);
    stack.set_pc(to);
    Ok(Flow::Jump)
}

/// Takes an int and goes on at the target that is paired with it, or at `other`.
#[inline(always)]
fn switch_by_lookup<M: Memory>(
    stack: &mut FrameStack,
    _memory: &mut M,
    pairs: &[(i32, u32)],
    other: u32,
    _left: u64,
) -> Result<Flow, NoMemory>
    requires row { HasIntOnTop stack.old.top.stack }
    requires frame { stack.old.top.kind ≡ InMethod }
    requires units { 0 < _left }
    ensures made { MakesUncounted (form_row (form.Lookup pairs.now other)) M.program M.world
        M.follows _memory.old _memory.new stack.old _left result stack.new _left }
    ensures left { IfOk result (λ x. (next : ℕ) → IsLeft x stack.old.top.number next stack.new) }
{
    let to = lookup_switch(stack, pairs, other);
    stack.set_pc(to);
    Ok(Flow::Jump)
}

/// Goes on at the target of a branch that is taken, else at the next instruction.
#[inline(always)]
fn branch(stack: &mut FrameStack, taken: bool, to: u32, cursor: InstrCursor<'_>) -> Flow
    ensures flow { result ≡ cond taken Jump FallThrough }
    ensures place { stack.new ≡ with_place stack.old
        (cond taken to (place_behind cursor.entry.body.now cursor.entry.rest.now)) }
{
    let next = place_after(cursor);
    stack.set_pc(target(taken, to, next));
    aside_if(taken)
}

/// How a branch left the entry.
#[inline(always)]
fn aside_if(taken: bool) -> Flow
    ensures { result ≡ cond taken Jump FallThrough }
{
    if taken { Flow::Jump } else { Flow::FallThrough }
}

/// How a row that answered this left an entry, where the next instruction of this method has this place, and what was left
/// before the row. Where it goes on there, the 1 that the row counted is left again, to be counted behind it.
#[inline(always)]
fn classify_flow(
    answer: Next,
    stack: &FrameStack,
    method: u32,
    next: u32,
    _before: u64,
    left: &mut u64,
) -> Flow
    requires counted { answer ≡ Go → left.old < _before }
    ensures answered { next_of result ≡ answer }
    ensures left { IsLeft result method next stack.now }
    ensures again { left_behind result left.new ≡ left.old }
    ensures one { HasOne result left.new }
{
    match answer {
        Next::Go => match stack.kind() {
            EntryKind::InMethod => {
                if stack.number() == method && stack.pc() == next {
                    *left += 1;
                    Flow::FallThrough
                } else {
                    Flow::Other(answer)
                }
            }
            EntryKind::Absent | EntryKind::InClass { .. } => Flow::Other(answer),
        },
        _ => Flow::Other(answer),
    }
}

/// Calls a method on an object by its class: one copy of the code serves both forms.
#[inline(always)]
fn call_on_object<M: Memory>(
    stack: &mut FrameStack,
    memory: &mut M,
    tables: &Tables,
    selections: &mut Selections,
    form: &Instr,
    left: &mut u64,
) -> Result<Flow, NoMemory>
    requires form { IsOnObject form.now }
    requires selections { selections.old ≡ tables.now }
    requires row { IsReady (form_row form.now) tables.now M.program M.world memory.old stack.old }
    ensures made { MakesUncounted (form_row form.now) M.program M.world M.follows
        memory.old memory.new stack.old left.old result stack.new left.new }
    ensures left { IfOk result (λ x. (method next : ℕ) (s : Entries) → IsLeft x method next s) }
    ensures kept { selections.new ≡ selections.old }
{
    let (interface, method) = called_on_object(form);
    let answer = invoke_on_object(stack, memory, tables, selections, interface, method, left)?;
    Ok(called(answer, *left))
}

/// The interface that a call on an object names, None where it names a class, and the method.
#[inline(always)]
#[tactic(auto, unfolding(jvm_model::specs::Step::row, jvm_model::specs::RowsCalls::row_calls))]
fn called_on_object(form: &Instr) -> (Option<u32>, u32)
    requires { IsOnObject form.now }
    ensures { form_row form.now ≡ object_row result.0 result.1 }
{
    match form {
        Instr::InvokeVirtual { method, .. } => (None, *method),
        Instr::InvokeInterface { named, method } => (Some(*named), *method),
        _ => unreachable!(),
    }
}

/// How a call left the entries that answered this, and so many units.
#[inline(always)]
fn called(answer: Next, _left: u64) -> Flow
    ensures answered { next_of result ≡ answer }
    ensures left { (method next : ℕ) (s : Entries) → IsLeft result method next s }
    ensures counted { left_behind result _left ≡ _left }
    ensures one { HasOne result _left }
{
    match answer {
        Next::Enter { method } => Flow::Call { method },
        _ => Flow::Other(answer),
    }
}

/// Makes the row of an instruction on a copy of the entries and of the units left, so that no address of theirs is handed
/// on. It tells no flow apart: where it did, LLVM no longer gave each branch its own jump, and loops were a third slower.
#[inline(always)]
fn row_apart<M: Memory>(
    stack: &mut FrameStack,
    memory: &mut M,
    tables: &Tables,
    selections: &mut Selections,
    form: &Instr,
    left: &mut u64,
) -> Result<Flow, NoMemory>
    requires selections { selections.old ≡ tables.now }
    requires room { HasRoom (puts form.now) stack.old }
    requires below { HasPlaceBelow form.now stack.old }
    requires row { IsReady (form_row form.now) tables.now M.program M.world memory.old stack.old }
    ensures made { MakesUncounted (form_row form.now) M.program M.world M.follows
        memory.old memory.new stack.old left.old result stack.new left.new }
    ensures left { IfOk result (λ x. (method next : ℕ) (s : Entries) → IsLeft x method next s) }
    ensures kept { selections.new ≡ selections.old }
{
    let next = tables.next_place(stack.number(), stack.pc());
    let mut moved = mem::replace(stack, FrameStack::new(selections.alloc()));
    let mut units = *left;
    let answer = row_of(
        &mut moved, memory, tables, selections, form, next, &mut units,
    )?;
    *stack = moved;
    *left = units;
    Ok(Flow::Other(answer))
}

/// The target of a branch that is taken, else the next instruction's place.
fn target(taken: bool, to: u32, next: u32) -> u32
    ensures { result ≡ cond taken to next }
{
    if taken { to } else { next }
}

/// The place of the instruction after this one, or the end of the code behind the last one.
#[inline(always)]
#[tactic(auto, using(crate::proofs::Numbered::after_some, crate::proofs::Numbered::after_none))]
fn place_after(cursor: InstrCursor<'_>) -> u32
    ensures { result ≡ place_behind cursor.entry.body.now cursor.entry.rest.now }
{
    match cursor.rest.get(1) {
        None => cursor.body.length,
        Some(placed) => placed.pc,
    }
}
