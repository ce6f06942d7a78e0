//! Arrays: their length, and loads and stores of their elements.
#![tactic(auto, unfolding(jvm_model::specs::RowsArrays::row_arrays))]

ghost use Rattle.std.specs.Prelude.{◌≡◌, ◌<◌, ◌-◌, ◌∷◌, [], IfOk, OnOk};
ghost use Rattle.jvm_model.specs.declared.instr.Instr.TheVariants as form;
ghost use Rattle.jvm_model.specs.declared.instr.Cell.TheVariants as cell;
ghost use Rattle.jvm_model.specs.{declared.outcome.Next.Next, World.put, Access.write_of, Entries.with_place, RowsArrays.element_letter, View.Exists};
ghost use Rattle.jvm_model.specs.declared.values.Location.TheVariants as place;
ghost use Rattle.vm_mem.specs.{Trace.Extends, Refines.IsReady, Refines.IsNext, Refines.Makes};
ghost use Rattle.vm_objects.specs.Forms.{array_row, store_row, place_in};

use et_base::letters::{BOOLEAN, BYTE, CHAR, CLASS, INT, LONG, SHORT};
use et_base::{NoMemory, l2i};
use jvm_model::{
    ARRAY_INDEX_EXCEPTION, ARRAY_STORE_EXCEPTION, Base, Cell, Head, Instr, Kind,
    NULL_POINTER_EXCEPTION, Next, Value,
};
use vm_frames::FrameStack;
use vm_mem::Memory;
use vm_tables::Tables;

/// Makes the step of `arraylength` or of a load or store of an array's element, with the byte place of the next
/// instruction. It reads the array's head, of a reference that is stored its head too, and then touches the element; it
/// costs 1.
///
/// Null, an index out of range, and the store of a reference that isn't of the elements' type throw, which counts
/// nothing. It answers Over where no unit is left. The only error is want of memory.
pub fn arrays<M: Memory>(
    stack: &mut FrameStack,
    memory: &mut M,
    tables: &Tables,
    form: &Instr,
    next: u32,
    left: &mut u64,
) -> Result<Next, NoMemory>
    requires row { IsReady (array_row form.now) tables.now M.program M.world memory.old stack.old }
    requires place { IsNext tables.now stack.old next }
    ensures made { Makes (array_row form.now) M.program M.world M.follows memory.old memory.new
        stack.old left.old result stack.new left.new }
{
    match form {
        Instr::ArrayLength => array_length(stack, memory, next, left),
        Instr::ArrayLoad { .. } => array_load(stack, memory, next, left),
        Instr::ArrayStore { of } => array_store(stack, memory, tables, *of, next, left),
        _ => unreachable!(),
    }
}

/// Takes an array and puts its length on top (`arraylength`).
#[inline(always)]
pub fn array_length<M: Memory>(
    stack: &mut FrameStack,
    memory: &mut M,
    next: u32,
    left: &mut u64,
) -> Result<Next, NoMemory>
    requires row { IsReady (array_row form.ArrayLength) (M.program memory.old) M.program M.world
        memory.old stack.old }
    requires place { IsNext (M.program memory.old) stack.old next }
    ensures made { Makes (array_row form.ArrayLength) M.program M.world M.follows memory.old
        memory.new stack.old left.old result stack.new left.new }
{
    if *left == 0 {
        return Ok(Next::Over);
    }
    match stack.pop_value() {
        Value::Obj(array) => {
            let head = memory.head(array)?;
            match head.kind {
                Kind::Array { .. } => {
                    stack.push_int(l2i(i64::from(head.length)));
                    stack.set_pc(next);
                    *left -= 1;
                    Ok(Next::Go)
                }
                Kind::Class(_) => unreachable!(),
            }
        }
        Value::Null => Ok(Next::Fault {
            class: NULL_POINTER_EXCEPTION,
        }),
        Value::Int(_) | Value::Long(_) | Value::Lit(_) => unreachable!(),
    }
}

/// Takes an index and an array and puts the element there on top (`iaload`, `laload`, `aaload`, `baload`, `caload`,
/// `saload`).
#[inline(always)]
pub fn array_load<M: Memory>(
    stack: &mut FrameStack,
    memory: &mut M,
    next: u32,
    left: &mut u64,
) -> Result<Next, NoMemory>
    requires row { IsReady (array_row (form.ArrayLoad cell.Ref)) (M.program memory.old) M.program
        M.world memory.old stack.old }
    requires place { IsNext (M.program memory.old) stack.old next }
    ensures made { Makes (array_row (form.ArrayLoad cell.Ref)) M.program M.world M.follows
        memory.old memory.new stack.old left.old result stack.new left.new }
{
    if *left == 0 {
        return Ok(Next::Over);
    }
    let index = stack.pop_int();
    match stack.pop_value() {
        Value::Obj(array) => {
            let head = memory.head(array)?;
            match place_in(head, index) {
                Some(i) => {
                    let v = memory.get_elem(array, i)?;
                    stack.push_value(v);
                    stack.set_pc(next);
                    *left -= 1;
                    Ok(Next::Go)
                }
                None => Ok(Next::Fault {
                    class: ARRAY_INDEX_EXCEPTION,
                }),
            }
        }
        Value::Null => Ok(Next::Fault {
            class: NULL_POINTER_EXCEPTION,
        }),
        Value::Int(_) | Value::Long(_) | Value::Lit(_) => unreachable!(),
    }
}

/// Takes a value, an index and an array and gives the element there the value, narrowed to the element's type
/// (`iastore`, `lastore`, `aastore`, `bastore`, `castore`, `sastore`).
pub fn array_store<M: Memory>(
    stack: &mut FrameStack,
    memory: &mut M,
    tables: &Tables,
    of: Cell,
    next: u32,
    left: &mut u64,
) -> Result<Next, NoMemory>
    requires row { IsReady (array_row (form.ArrayStore of)) tables.now M.program M.world memory.old
        stack.old }
    requires place { IsNext tables.now stack.old next }
    ensures made { Makes (array_row (form.ArrayStore of)) M.program M.world M.follows memory.old
        memory.new stack.old left.old result stack.new left.new }
{
    if *left == 0 {
        return Ok(Next::Over);
    }
    let v = stack.pop_value();
    let index = stack.pop_int();
    match stack.pop_value() {
        Value::Obj(array) => match of {
            Cell::Ref => store_reference(stack, memory, tables, array, index, v, next, left),
            Cell::Int | Cell::Long | Cell::Byte | Cell::Char | Cell::Short => store_number(
                stack, memory, array, index, v, next, left,
            ),
        },
        Value::Null => Ok(Next::Fault {
            class: NULL_POINTER_EXCEPTION,
        }),
        Value::Int(_) | Value::Long(_) | Value::Lit(_) => unreachable!(),
    }
}

/// Takes a number, an index and an array of numbers and gives the element there the number, narrowed to the element's type.
#[inline(always)]
pub fn array_store_number<M: Memory>(
    stack: &mut FrameStack,
    memory: &mut M,
    next: u32,
    left: &mut u64,
) -> Result<Next, NoMemory>
    requires row { IsReady (array_row (form.ArrayStore cell.Int)) (M.program memory.old) M.program
        M.world memory.old stack.old }
    requires place { IsNext (M.program memory.old) stack.old next }
    ensures made { Makes (array_row (form.ArrayStore cell.Int)) M.program M.world M.follows
        memory.old memory.new stack.old left.old result stack.new left.new }
{
    if *left == 0 {
        return Ok(Next::Over);
    }
    let v = stack.pop_value();
    let index = stack.pop_int();
    match stack.pop_value() {
        Value::Obj(array) => store_number(stack, memory, array, index, v, next, left),
        Value::Null => Ok(Next::Fault {
            class: NULL_POINTER_EXCEPTION,
        }),
        Value::Int(_) | Value::Long(_) | Value::Lit(_) => unreachable!(),
    }
}

// A number goes into an array: it is narrowed to the type of the elements.
#[inline(always)]
fn store_number<M: Memory>(
    stack: &mut FrameStack,
    memory: &mut M,
    array: u64,
    index: i32,
    v: Value,
    next: u32,
    left: &mut u64,
) -> Result<Next, NoMemory>
    requires row { IsReady (store_row cell.Int array index v) (M.program memory.old) M.program
        M.world memory.old stack.old }
    requires units { 0 < left.old }
    requires place { IsNext (M.program memory.old) stack.old next }
    ensures made { Makes (store_row cell.Int array index v) M.program M.world M.follows memory.old
        memory.new stack.old left.old result stack.new left.new }
{
    let head = memory.head(array)?;
    match place_in(head, index) {
        Some(i) => {
            memory.put_elem(array, i, v.narrow(element_letter(head.kind)))?;
            stack.set_pc(next);
            *left -= 1;
            Ok(Next::Go)
        }
        None => Ok(Next::Fault {
            class: ARRAY_INDEX_EXCEPTION,
        }),
    }
}

// A reference goes into an array: null, or what is of the elements' type; another throws.
fn store_reference<M: Memory>(
    stack: &mut FrameStack,
    memory: &mut M,
    tables: &Tables,
    array: u64,
    index: i32,
    v: Value,
    next: u32,
    left: &mut u64,
) -> Result<Next, NoMemory>
    requires row { IsReady (store_row cell.Ref array index v) tables.now M.program M.world
        memory.old stack.old }
    requires units { 0 < left.old }
    requires place { IsNext tables.now stack.old next }
    ensures made { Makes (store_row cell.Ref array index v) M.program M.world M.follows memory.old
        memory.new stack.old left.old result stack.new left.new }
{
    let head = memory.head(array)?;
    let Some(i) = place_in(head, index) else {
        return Ok(Next::Fault {
            class: ARRAY_INDEX_EXCEPTION,
        });
    };
    match v {
        Value::Null => put_element(stack, memory, array, i, v, next, left),
        Value::Lit(n) => {
            if !tables.kind_fits(Kind::of_constant(n), head.kind.element()) {
                return Ok(Next::Fault {
                    class: ARRAY_STORE_EXCEPTION,
                });
            }
            put_element(stack, memory, array, i, v, next, left)
        }
        Value::Obj(object) => {
            let stored = memory.head(object)?;
            if !tables.kind_fits(stored.kind, head.kind.element()) {
                return Ok(Next::Fault {
                    class: ARRAY_STORE_EXCEPTION,
                });
            }
            put_element(stack, memory, array, i, v, next, left)
        }
        Value::Int(_) | Value::Long(_) => unreachable!(),
    }
}

// An element gets a value, and the step goes on.
fn put_element<M: Memory>(
    stack: &mut FrameStack,
    memory: &mut M,
    array: u64,
    i: u32,
    v: Value,
    next: u32,
    left: &mut u64,
) -> Result<Next, NoMemory>
    requires there { Exists (M.world memory.old) (place.Elem array i) }
    requires units { 0 < left.old }
    ensures goes { IfOk result (λ x. x ≡ Next.Go) }
    ensures stack { OnOk result (stack.new ≡ with_place stack.old next) }
    ensures counted { OnOk result (left.new ≡ left.old - 1) }
    ensures of { M.program memory.new ≡ M.program memory.old }
    ensures set { OnOk result
        (M.world memory.new ≡ put (M.world memory.old) (place.Elem array i) v) }
    ensures told { OnOk result
        (Extends M.follows memory.old memory.new (write_of (place.Elem array i) ∷ [])) }
{
    memory.put_elem(array, i, v)?;
    stack.set_pc(next);
    *left -= 1;
    Ok(Next::Go)
}

// The place that an index says in an array, if it is in range.
fn place_in(head: Head, index: i32) -> Option<u32>
    ensures { result ≡ place_in index head.length }
{
    if index < 0 || index.cast_unsigned() >= head.length {
        return None;
    }
    Some(index.cast_unsigned())
}

// The first unit of the descriptor of an array's elements, where it has one dimension.
fn element_letter(kind: Kind) -> u16
    ensures { result ≡ element_letter kind }
{
    match kind {
        Kind::Class(_) => CLASS,
        Kind::Array { base, .. } => match base {
            Base::Boolean => BOOLEAN,
            Base::Byte => BYTE,
            Base::Char => CHAR,
            Base::Short => SHORT,
            Base::Int => INT,
            Base::Long => LONG,
            Base::Class(_) => CLASS,
        },
    }
}
