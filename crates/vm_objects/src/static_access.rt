//! Static fields.
#![tactic(auto, unfolding(jvm_model::specs::RowsStatics::row_statics))]

ghost use Rattle.jvm_model.specs.declared.instr.Instr.TheVariants as form;
ghost use Rattle.vm_frames.specs.Stack.{HasRoom};
ghost use Rattle.vm_mem.specs.Refines.{IsReady, IsNext, Makes};
ghost use Rattle.vm_objects.specs.Forms.{static_row, read_row, write_row};

use class_init::{Use, begin_use};
use et_base::NoMemory;
use jvm_model::{Instr, Next};
use vm_frames::FrameStack;
use vm_mem::Memory;
use vm_tables::Tables;

/// Makes the step of `getstatic` or `putstatic`, with the byte place of the next instruction. It uses the class that
/// declares the field, touches the field and costs 1.
///
/// Where the class's initialisation is begun, its entry is on top, which costs 1; where it can't be used the step
/// throws, which counts nothing. It answers Over where no unit is left. The only error is want of memory.
pub fn statics<M: Memory>(
    stack: &mut FrameStack,
    memory: &mut M,
    tables: &Tables,
    form: &Instr,
    next: u32,
    left: &mut u64,
) -> Result<Next, NoMemory>
    requires row { IsReady (static_row form.now) tables.now M.program M.world memory.old stack.old }
    requires room { HasRoom 1 stack.old }
    requires place { IsNext tables.now stack.old next }
    ensures made { Makes (static_row form.now) M.program M.world M.follows memory.old memory.new
        stack.old left.old result stack.new left.new }
{
    match form {
        Instr::GetStatic { field } => { get_static(stack, memory, tables, *field, next, left) }
        Instr::PutStatic { field } => { put_static(stack, memory, tables, *field, next, left) }
        _ => unreachable!(),
    }
}

/// Uses the class that declares a static field and puts the field's value on top (`getstatic`).
#[inline(always)]
pub fn get_static<M: Memory>(
    stack: &mut FrameStack,
    memory: &mut M,
    tables: &Tables,
    field: u32,
    next: u32,
    left: &mut u64,
) -> Result<Next, NoMemory>
    requires row { IsReady (static_row (form.GetStatic field)) tables.now M.program M.world
        memory.old stack.old }
    requires room { HasRoom 1 stack.old }
    requires place { IsNext tables.now stack.old next }
    ensures made { Makes (static_row (form.GetStatic field)) M.program M.world M.follows memory.old
        memory.new stack.old left.old result stack.new left.new }
{
    match begin_use(
        stack,
        memory,
        tables,
        tables.program().field_class(field),
        left,
    )? {
        Use::Ready => read_static(stack, memory, field, next, left),
        Use::Begun => Ok(Next::Go),
        Use::Fault { class } => Ok(Next::Fault { class }),
        Use::Over => Ok(Next::Over),
    }
}

// The value of a static field whose class may be used is put on top.
#[inline(always)]
#[tactic(auto, unfolding(jvm_model::specs::RowsStatics::read_static))]
fn read_static<M: Memory>(
    stack: &mut FrameStack,
    memory: &mut M,
    field: u32,
    next: u32,
    left: &mut u64,
) -> Result<Next, NoMemory>
    requires row { IsReady (read_row field) (M.program memory.old) M.program M.world memory.old
        stack.old }
    requires room { HasRoom 1 stack.old }
    requires place { IsNext (M.program memory.old) stack.old next }
    ensures made { Makes (read_row field) M.program M.world M.follows memory.old memory.new
        stack.old left.old result stack.new left.new }
{
    if *left == 0 {
        return Ok(Next::Over);
    }
    let v = memory.get_static(field)?;
    stack.push_value(v);
    stack.set_pc(next);
    *left -= 1;
    Ok(Next::Go)
}

/// Uses the class that declares a static field, takes a value and gives it to the field, narrowed to the field's type
/// (`putstatic`).
#[inline(always)]
pub fn put_static<M: Memory>(
    stack: &mut FrameStack,
    memory: &mut M,
    tables: &Tables,
    field: u32,
    next: u32,
    left: &mut u64,
) -> Result<Next, NoMemory>
    requires row { IsReady (static_row (form.PutStatic field)) tables.now M.program M.world
        memory.old stack.old }
    requires place { IsNext tables.now stack.old next }
    ensures made { Makes (static_row (form.PutStatic field)) M.program M.world M.follows memory.old
        memory.new stack.old left.old result stack.new left.new }
{
    match begin_use(
        stack,
        memory,
        tables,
        tables.program().field_class(field),
        left,
    )? {
        Use::Ready => write_static(stack, memory, tables, field, next, left),
        Use::Begun => Ok(Next::Go),
        Use::Fault { class } => Ok(Next::Fault { class }),
        Use::Over => Ok(Next::Over),
    }
}

// A static field whose class may be used gets a value.
#[inline(always)]
#[tactic(auto, using(vm_tables::proofs::FieldUnits::field_narrowed), unfolding(jvm_model::specs::RowsStatics::write_static))]
fn write_static<M: Memory>(
    stack: &mut FrameStack,
    memory: &mut M,
    tables: &Tables,
    field: u32,
    next: u32,
    left: &mut u64,
) -> Result<Next, NoMemory>
    requires row { IsReady (write_row field) tables.now M.program M.world memory.old stack.old }
    requires place { IsNext tables.now stack.old next }
    ensures made { Makes (write_row field) M.program M.world M.follows memory.old memory.new
        stack.old left.old result stack.new left.new }
{
    if *left == 0 {
        return Ok(Next::Over);
    }
    let v = stack.pop_value();
    memory.put_static(field, v.narrow(tables.field_unit(field)))?;
    stack.set_pc(next);
    *left -= 1;
    Ok(Next::Go)
}
