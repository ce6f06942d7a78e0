//! The row of the instruction at the top frame's place.

ghost use Rattle.std.specs.Prelude.{◌≡◌, None, Some};
ghost use Rattle.jvm_model.specs.declared.instr.Instr.TheVariants as form;
ghost use Rattle.jvm_model.specs.Step as steps;
ghost use Rattle.vm_frames.specs.Stack.{HasRoom};
ghost use Rattle.vm_arith.specs.Pure.{TouchesNothing};
ghost use Rattle.vm_mem.specs.Refines.{IsNext, IsReady, Makes};
ghost use Rattle.vm_calls.specs.Calls.{return_row};
ghost use Rattle.check_sound.specs.ReachLaw.{puts};
ghost use Rattle.vm_interp.specs.{Reaching.HasPlaceBelow, Reaching.HasSpace, Rows.form_row, Rows.throw_row};

use et_base::NoMemory;
use jvm_model::{EntryKind, Instr, NULL_POINTER_EXCEPTION, Next, Value};
use vm_arith::arith;
use vm_calls::{Selections, call, give_back};
use vm_frames::FrameStack;
use vm_mem::Memory;
use vm_objects::{
    arrays, casts, fields, get_static, multi_new_array, new_array, new_object, put_static,
};
use vm_tables::Tables;

/// Makes the row of the instruction at the place of the frame at the top.
#[tactic(auto, unfolding(jvm_model::specs::Step::row_here))]
pub fn row_here<M: Memory>(
    stack: &mut FrameStack,
    memory: &mut M,
    tables: &Tables,
    selections: &mut Selections,
    left: &mut u64,
) -> Result<Next, NoMemory>
    requires selections { selections.old ≡ tables.now }
    requires space { HasSpace tables.now stack.old }
    requires row { IsReady steps.row_here tables.now M.program M.world memory.old stack.old }
    ensures made { Makes steps.row_here M.program M.world M.follows
        memory.old memory.new stack.old left.old result stack.new left.new }
    ensures kept { selections.new ≡ selections.old }
{
    let number = stack.number();
    let pc = stack.pc();
    let Some(form) = tables.form(number, pc) else {
        unreachable!()
    };
    let next = tables.next_place(number, pc);
    row_of(stack, memory, tables, selections, form, next, left)
}

/// Makes the row of an instruction, with the byte place of the next one.
#[cold]
#[inline(never)]
#[tactic(auto, unfolding(jvm_model::specs::Step::row))]
pub fn row_of<M: Memory>(
    stack: &mut FrameStack,
    memory: &mut M,
    tables: &Tables,
    selections: &mut Selections,
    form: &Instr,
    next: u32,
    left: &mut u64,
) -> Result<Next, NoMemory>
    requires selections { selections.old ≡ tables.now }
    requires place { IsNext tables.now stack.old next }
    requires room { HasRoom (puts form.now) stack.old }
    requires below { HasPlaceBelow form.now stack.old }
    requires row { IsReady (form_row form.now) tables.now M.program M.world memory.old stack.old }
    ensures made { Makes (form_row form.now) M.program M.world M.follows
        memory.old memory.new stack.old left.old result stack.new left.new }
    ensures kept { selections.new ≡ selections.old }
{
    match form {
        Instr::GetStatic { field } => get_static(stack, memory, tables, *field, next, left),
        Instr::PutStatic { field } => put_static(stack, memory, tables, *field, next, left),
        Instr::GetField { .. } => fields(stack, memory, tables, form, next, left),
        Instr::PutField { .. } => fields(stack, memory, tables, form, next, left),
        Instr::New { class } => new_object(stack, memory, tables, *class, next, left),
        Instr::NewArray { kind } => new_array(stack, memory, *kind, next, left),
        Instr::MultiNewArray { kind, dims } => {
            multi_new_array(stack, memory, *kind, *dims, next, left)
        }
        Instr::ArrayLoad { .. } => arrays(stack, memory, tables, form, next, left),
        Instr::ArrayStore { .. } => arrays(stack, memory, tables, form, next, left),
        Instr::ArrayLength => arrays(stack, memory, tables, form, next, left),
        Instr::CheckCast { .. } => casts(stack, memory, tables, form, next, left),
        Instr::InstanceOf { .. } => casts(stack, memory, tables, form, next, left),
        Instr::Throw => throw_top(stack, memory, left),
        Instr::InvokeVirtual { .. } => { call(stack, memory, tables, selections, form, left) }
        Instr::InvokeSpecial { .. } => { call(stack, memory, tables, selections, form, left) }
        Instr::InvokeStatic { .. } => { call(stack, memory, tables, selections, form, left) }
        Instr::InvokeInterface { .. } => { call(stack, memory, tables, selections, form, left) }
        Instr::Return { of: None } => return_nothing(stack, memory, tables, left),
        Instr::Return { of: Some(of) } => give_back(stack, memory, tables, Some(*of), left),
        _ => quiet_row(stack, memory, form, next, left),
    }
}

/// Makes the row of a form that touches nothing.
#[tactic(auto, using(vm_arith::proofs::Rows::has_row, crate::proofs::Quiet::untouched))]
fn quiet_row<M: Memory>(
    stack: &mut FrameStack,
    _memory: &mut M,
    form: &Instr,
    next: u32,
    left: &mut u64,
) -> Result<Next, NoMemory>
    requires form { TouchesNothing form.now }
    requires place { IsNext (M.program _memory.old) stack.old next }
    requires room { HasRoom (puts form.now) stack.old }
    requires row { IsReady (form_row form.now)
        (M.program _memory.old) M.program M.world _memory.old stack.old }
    ensures made { Makes (form_row form.now) M.program M.world M.follows
        _memory.old _memory.new stack.old left.old result stack.new left.new }
{
    Ok(arith(stack, form, next, left))
}

/// Returns from the method at the top, which gives no value (`return`): its entry is popped, and a frame below goes on
/// after its call. It answers Leave where no entry is left, counts 1 and touches nothing; Over, with the entries as before,
/// where no unit is left.
#[tactic(auto, using(vm_calls::proofs::Returned::return_touches), unfolding(jvm_model::specs::RowsReturn::row_return, jvm_model::specs::RowsReturn::hands_on))]
#[inline(always)]
pub fn return_nothing<M: Memory>(
    stack: &mut FrameStack,
    _memory: &mut M,
    tables: &Tables,
    left: &mut u64,
) -> Result<Next, NoMemory>
    requires tables { tables.now ≡ M.program _memory.old }
    ensures made { Makes (return_row (form.Return None)) M.program M.world M.follows
        _memory.old _memory.new stack.old left.old result stack.new left.new }
{
    if *left == 0 {
        return Ok(Next::Over);
    }
    *left -= 1;
    stack.pop();
    Ok(match stack.kind() {
        EntryKind::Absent => Next::Leave,
        EntryKind::InMethod => {
            let next = tables.next_place(stack.number(), stack.pc());
            stack.set_pc(next);
            Next::Go
        }
        EntryKind::InClass { .. } => Next::Go,
    })
}

/// The throwable on top is raised (`athrow`). It counts 1. Null faults with NullPointerException, which counts nothing.
/// Over where no unit is left.
#[tactic(auto, unfolding(jvm_model::specs::Step::row_throw))]
fn throw_top<M: Memory>(
    stack: &mut FrameStack,
    _memory: &mut M,
    left: &mut u64,
) -> Result<Next, NoMemory>
    requires row { IsReady throw_row
        (M.program _memory.old) M.program M.world _memory.old stack.old }
    ensures made { Makes throw_row M.program M.world M.follows
        _memory.old _memory.new stack.old left.old result stack.new left.new }
{
    let thrown = stack.peek(0);
    match thrown {
        Value::Obj(_) => {
            if *left == 0 {
                return Ok(Next::Over);
            }
            *left -= 1;
            Ok(Next::Raise(thrown))
        }
        Value::Null => Ok(Next::Fault {
            class: NULL_POINTER_EXCEPTION,
        }),
        Value::Int(_) => unreachable!(),
        Value::Long(_) => unreachable!(),
        Value::Lit(_) => unreachable!(),
    }
}
