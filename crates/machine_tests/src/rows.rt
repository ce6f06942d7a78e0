//! Rows of two groups, made by the calls that take any form of the group.

ghost use Rattle.std.specs.Prelude.{◌≡◌, ◌<◌, length, true};
ghost use Rattle.jvm_model.specs.{Classes.field_at, Classes.is_trivial, Suite.opening};

use crate::suites::{COUNTER_FILES, Question, is_so};
use jvm_model::{Base, EntryKind, Instr, Kind, Next};
use std::alloc::Global;
use std::test::Fail;
use suite_load::Loaded;
use type_frames::Checked;
use vm_frames::{FrameStack, PushFault};
use vm_mem::PlainMemory;
use vm_objects::{create, statics};
use vm_tables::Tables;

// The number of the last of so many, if it has one.
fn last_of(count: usize) -> u32 {
    u32::try_from(count.saturating_sub(1)).unwrap_or(0)
}

// Whether the top entry stands behind the three bytes of a method's first instruction.
fn is_behind_first(stack: &FrameStack, method: u32) -> bool {
    stack.kind() == EntryKind::InMethod && stack.number() == method && stack.pc() == 3
}

// Whether `getstatic` at the head of a method's code goes on behind it, for one unit.
fn reads_static(
    alloc: Global,
    tables: &Tables,
    memory: &mut PlainMemory,
    method: u32,
    field: u32,
) -> Result<bool, PushFault>
    requires of { tables.now ≡ memory.old.program }
    requires world { memory.old.world ≡ opening tables.now }
    requires field { field < length tables.now.fields }
    requires trivial { is_trivial tables.now (field_at tables.now field).class ≡ true }
    ensures { tables.now ≡ memory.new.program }
{
    let mut stack = FrameStack::new(alloc);
    stack.push(method, 0, None)?;
    let next = tables.next_place(method, 0);
    let form = Instr::GetStatic { field };
    let mut left = 9;
    let answer = statics(&mut stack, memory, tables, &form, next, &mut left)?;
    Ok(answer == Next::Go && left == 8 && is_behind_first(&stack, method))
}

// Whether `newarray` of three ints there goes on so too, for its step, the head and the cells.
fn makes_array(
    alloc: Global,
    tables: &Tables,
    memory: &mut PlainMemory,
    method: u32,
) -> Result<bool, PushFault>
    requires { tables.now ≡ memory.old.program }
{
    let mut stack = FrameStack::new(alloc);
    stack.push(method, 0, None)?;
    stack.push_int(3);
    let next = tables.next_place(method, 0);
    let kind = Kind::Array {
        dims: 1,
        base: Base::Int,
    };
    let mut left = 9;
    let answer = create(
        &mut stack,
        memory,
        tables,
        &Instr::NewArray { kind },
        next,
        &mut left,
    )?;
    Ok(answer == Next::Go && left == 4 && is_behind_first(&stack, method))
}

// Whether both go on in the last method of a program, which begins with a `getstatic` of the last
// field.
fn go_on(alloc: Global, tables: &Tables, memory: &mut PlainMemory) -> Result<bool, PushFault>
    requires program { tables.now ≡ memory.old.program }
    requires world { memory.old.world ≡ opening tables.now }
{
    let program = tables.program();
    let method = last_of(program.methods.len());
    let field = last_of(program.fields.len());
    if field as usize >= program.fields.len() || !tables.is_trivial(program.field_class(field)) {
        return Ok(false);
    }
    let read = reads_static(alloc, tables, memory, method, field)?;
    let made = makes_array(alloc, tables, memory, method)?;
    Ok(read && made)
}

// The same of a program and its tables.
fn go_on_at_first(alloc: Global, checked: &Checked, tables: &Tables) -> Result<bool, PushFault>
    requires { tables.now ≡ checked.now }
{
    let mut memory = PlainMemory::opening(alloc, checked.program())?;
    go_on(alloc, tables, &mut memory)
}

// The same of a program alone.
fn rows_go_on(alloc: Global, checked: &Checked) -> Result<bool, PushFault> {
    let tables = Tables::of(alloc, checked.program())?;
    go_on_at_first(alloc, checked, &tables)
}

// Both rows go on.
#[derive(Drop)]
struct RowsGoOn;

impl Question for RowsGoOn {
    fn holds(&self, alloc: Global, suite: &Loaded) -> Result<bool, Fail> {
        Ok(rows_go_on(alloc, &suite.checked)?)
    }
}

#[test]
fn rows_of_statics_and_of_new_arrays_go_on(rt: HostRuntime) -> Result<(), Fail> {
    assert!(rt; is_so(rt.alloc(), &COUNTER_FILES, &RowsGoOn)?);
    Ok(())
}
