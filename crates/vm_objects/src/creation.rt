//! New objects and arrays.
#![tactic(auto, unfolding(jvm_model::specs::RowsCreate::row_create))]

ghost use Rattle.std.specs.Prelude.{◌≡◌};
ghost use Rattle.jvm_model.specs.declared.instr.Instr.TheVariants as form;
ghost use Rattle.jvm_model.specs.RowsCreate.{is_bare};
ghost use Rattle.vm_frames.specs.Stack.{HasRoom};
ghost use Rattle.vm_mem.specs.Refines.{IsReady, IsNext, Makes};
ghost use Rattle.vm_objects.specs.Forms.{create_row, object_row, count_of};

use crate::nesting::multi_new_array;
use class_init::{Use, begin_use};
use et_base::NoMemory;
use jvm_model::{
    Head, INSTANTIATION_ERROR, Instr, Kind, NEGATIVE_ARRAY_SIZE_EXCEPTION, Next, Program, Value,
};
use vm_frames::FrameStack;
use vm_mem::Memory;
use vm_tables::Tables;

/// Makes the step of `new`, `newarray`, `anewarray` or `multianewarray`, with the byte place of the next instruction. It
/// writes the head of each new object and all its cells, and costs 1, and for each of them 1 and the number of its cells.
///
/// A class without instances and a negative length throw, which counts nothing. Where the initialisation of the class of
/// `new` is begun, its entry is on top, which costs 1; where the class can't be used the step throws, which counts
/// nothing. It answers Over where the cost is above the units left. The only error is want of memory.
pub fn create<M: Memory>(
    stack: &mut FrameStack,
    memory: &mut M,
    tables: &Tables,
    form: &Instr,
    next: u32,
    left: &mut u64,
) -> Result<Next, NoMemory>
    requires row { IsReady (create_row form.now) tables.now M.program M.world memory.old stack.old }
    requires room { HasRoom 1 stack.old }
    requires place { IsNext tables.now stack.old next }
    ensures made { Makes (create_row form.now) M.program M.world M.follows memory.old memory.new
        stack.old left.old result stack.new left.new }
{
    match form {
        Instr::New { class } => new_object(stack, memory, tables, *class, next, left),
        Instr::NewArray { kind } => new_array(stack, memory, *kind, next, left),
        Instr::MultiNewArray { kind, dims } => {
            multi_new_array(stack, memory, *kind, *dims, next, left)
        }
        _ => unreachable!(),
    }
}

/// Uses a class and puts a new instance of it on top, its fields with the default values of their types (`new`). It
/// writes the object's head and each field, and costs 2 and the number of fields.
///
/// An abstract class or an interface throws an InstantiationError, which counts nothing. Where the class's
/// initialisation is begun, its entry is on top, which costs 1; where it can't be used the step throws, which counts
/// nothing. It answers Over where the cost is above the units left. The only error is want of memory.
#[inline(always)]
pub fn new_object<M: Memory>(
    stack: &mut FrameStack,
    memory: &mut M,
    tables: &Tables,
    class: u32,
    next: u32,
    left: &mut u64,
) -> Result<Next, NoMemory>
    requires row { IsReady (create_row (form.New class)) tables.now M.program M.world memory.old
        stack.old }
    requires room { HasRoom 1 stack.old }
    requires place { IsNext tables.now stack.old next }
    ensures made { Makes (create_row (form.New class)) M.program M.world M.follows memory.old
        memory.new stack.old left.old result stack.new left.new }
{
    if is_bare(tables.program(), class) {
        return Ok(Next::Fault {
            class: INSTANTIATION_ERROR,
        });
    }
    match begin_use(stack, memory, tables, class, left)? {
        Use::Ready => make_object(stack, memory, tables, class, next, left),
        Use::Begun => Ok(Next::Go),
        Use::Fault { class } => Ok(Next::Fault { class }),
        Use::Over => Ok(Next::Over),
    }
}

// Whether a class has no instances.
#[inline(always)]
fn is_bare(program: &Program, class: u32) -> bool
    ensures { result ≡ is_bare program.now class }
{
    match program.class(class) {
        None => false,
        Some(record) => record.is_abstract() || record.is_interface(),
    }
}

// A new instance of a class that may be used is put on top.
#[inline(always)]
#[tactic(auto, unfolding(jvm_model::specs::RowsCreate::new_object))]
fn make_object<M: Memory>(
    stack: &mut FrameStack,
    memory: &mut M,
    tables: &Tables,
    class: u32,
    next: u32,
    left: &mut u64,
) -> Result<Next, NoMemory>
    requires row { IsReady (object_row class) tables.now M.program M.world memory.old stack.old }
    requires room { HasRoom 1 stack.old }
    requires place { IsNext tables.now stack.old next }
    ensures made { Makes (object_row class) M.program M.world M.follows memory.old memory.new
        stack.old left.old result stack.new left.new }
{
    let cells = tables.cells(class) as u64;
    if *left < 2 || *left - 2 < cells {
        return Ok(Next::Over);
    }
    let object = memory.make(Head {
        kind: Kind::Class(class),
        length: 0,
    })?;
    stack.push_value(Value::Obj(object));
    stack.set_pc(next);
    *left = *left - 2 - cells;
    Ok(Next::Go)
}

/// Takes a length and puts a new array on top, its elements with the default value of their type (`newarray`,
/// `anewarray`). It writes the array's head and each element, and costs 2 and the length; a negative length throws a
/// NegativeArraySizeException, which counts nothing.
///
/// It answers Over where the cost is above the units left. The only error is want of memory.
pub fn new_array<M: Memory>(
    stack: &mut FrameStack,
    memory: &mut M,
    kind: Kind,
    next: u32,
    left: &mut u64,
) -> Result<Next, NoMemory>
    requires row { IsReady (create_row (form.NewArray kind)) (M.program memory.old) M.program
        M.world memory.old stack.old }
    requires place { IsNext (M.program memory.old) stack.old next }
    ensures made { Makes (create_row (form.NewArray kind)) M.program M.world M.follows memory.old
        memory.new stack.old left.old result stack.new left.new }
{
    if *left == 0 {
        return Ok(Next::Over);
    }
    match count_of(stack.pop_int()) {
        Some(length) => {
            let cost = 2 + u64::from(length);
            if *left < cost {
                return Ok(Next::Over);
            }
            let object = memory.make(Head { kind, length })?;
            stack.push_value(Value::Obj(object));
            stack.set_pc(next);
            *left -= cost;
            Ok(Next::Go)
        }
        None => Ok(Next::Fault {
            class: NEGATIVE_ARRAY_SIZE_EXCEPTION,
        }),
    }
}

// A length that isn't negative.
pub(crate) fn count_of(n: i32) -> Option<u32>
    ensures { result ≡ count_of n }
{
    if n < 0 {
        return None;
    }
    Some(n.cast_unsigned())
}
