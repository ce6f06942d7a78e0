//! Instance fields.
#![tactic(auto, unfolding(jvm_model::specs::RowsFields::row_fields))]

ghost use Rattle.jvm_model.specs.declared.instr.Instr.TheVariants as form;
ghost use Rattle.vm_mem.specs.Refines.{IsReady, IsNext, Makes};
ghost use Rattle.vm_objects.specs.Forms.{field_row};

use et_base::NoMemory;
use jvm_model::{Instr, NULL_POINTER_EXCEPTION, Next, Value};
use vm_frames::FrameStack;
use vm_mem::Memory;
use vm_tables::Tables;

/// Makes the step of `getfield` or `putfield`, with the byte place of the next instruction. It touches the field and
/// costs 1; null throws a NullPointerException, which counts nothing.
///
/// It answers Over where no unit is left. The only error is want of memory.
pub fn fields<M: Memory>(
    stack: &mut FrameStack,
    memory: &mut M,
    tables: &Tables,
    form: &Instr,
    next: u32,
    left: &mut u64,
) -> Result<Next, NoMemory>
    requires row { IsReady (field_row form.now) tables.now M.program M.world memory.old stack.old }
    requires place { IsNext tables.now stack.old next }
    ensures made { Makes (field_row form.now) M.program M.world M.follows memory.old memory.new
        stack.old left.old result stack.new left.new }
{
    match form {
        Instr::GetField { field, .. } => get_field(stack, memory, *field, next, left),
        Instr::PutField { field, .. } => put_field(stack, memory, tables, *field, next, left),
        _ => unreachable!(),
    }
}

/// Takes an object and puts the value of its field on top (`getfield`).
#[inline(always)]
pub fn get_field<M: Memory>(
    stack: &mut FrameStack,
    memory: &mut M,
    field: u32,
    next: u32,
    left: &mut u64,
) -> Result<Next, NoMemory>
    requires row { IsReady (field_row (form.GetField 0 field)) (M.program memory.old) M.program
        M.world memory.old stack.old }
    requires place { IsNext (M.program memory.old) stack.old next }
    ensures made { Makes (field_row (form.GetField 0 field)) M.program M.world M.follows memory.old
        memory.new stack.old left.old result stack.new left.new }
{
    if *left == 0 {
        return Ok(Next::Over);
    }
    match stack.pop_value() {
        Value::Obj(object) => {
            let v = memory.get_field(object, field)?;
            stack.push_value(v);
            stack.set_pc(next);
            *left -= 1;
            Ok(Next::Go)
        }
        Value::Null => Ok(Next::Fault {
            class: NULL_POINTER_EXCEPTION,
        }),
        Value::Int(_) | Value::Long(_) | Value::Lit(_) => unreachable!(),
    }
}

/// Takes a value and an object and gives its field the value, narrowed to the field's type (`putfield`).
#[inline(always)]
#[tactic(auto, using(vm_tables::proofs::FieldUnits::field_narrowed), unfolding(jvm_model::specs::RowsFields::row_fields))]
pub fn put_field<M: Memory>(
    stack: &mut FrameStack,
    memory: &mut M,
    tables: &Tables,
    field: u32,
    next: u32,
    left: &mut u64,
) -> Result<Next, NoMemory>
    requires row { IsReady (field_row (form.PutField 0 field)) tables.now M.program M.world
        memory.old stack.old }
    requires place { IsNext tables.now stack.old next }
    ensures made { Makes (field_row (form.PutField 0 field)) M.program M.world M.follows memory.old
        memory.new stack.old left.old result stack.new left.new }
{
    if *left == 0 {
        return Ok(Next::Over);
    }
    let v = stack.pop_value();
    match stack.pop_value() {
        Value::Obj(object) => {
            memory.put_field(object, field, v.narrow(tables.field_unit(field)))?;
            stack.set_pc(next);
            *left -= 1;
            Ok(Next::Go)
        }
        Value::Null => Ok(Next::Fault {
            class: NULL_POINTER_EXCEPTION,
        }),
        Value::Int(_) | Value::Long(_) | Value::Lit(_) => unreachable!(),
    }
}
