//! What quiet initialisers leave: their code is run in one memory that begins with the opening values.

ghost use Rattle.std.specs.Prelude.{◌≡◌, ◌≤◌, ◌+◌, IfOk, OnOk, length, map, true};
ghost use Rattle.std.specs.List.{range_with_len};
ghost use Rattle.check_sound.specs.ReachLaw.{most_operands};
ghost use Rattle.jvm_model.specs.Entries.{no_entries};
ghost use Rattle.type_frames.specs.Typing.{IsTyped};
ghost use Rattle.vm_arith.specs.Pure.{HasRow, growth};
ghost use Rattle.vm_frames.specs.Stack.{HasRoom};
ghost use Rattle.quiet_init.specs.Leaving.{CanDo, CanDoAll, Does, GoesCalmly, HasPlaces, Leaves, AreLeft, before_end, entered};
ghost use Rattle.quiet_init.specs.{Quiet.is_calm, Quiet.is_quiet, Quiet.begun_world, Quiet.left_after, StillLaw.HasOwn};

use crate::memory::StaticMemory;
use crate::starts::start_of;
use et_base::NoMemory;
use jvm_model::{Body, Instr, Placed, Program};
use std::alloc::Global;
use vm_arith::arith;
use vm_frames::{FrameStack, PushFault};
use vm_tables::Tables;

// Does an instruction that touches nothing.
fn move_operands(stack: &mut FrameStack, form: &Instr, next: u32)
    requires form { is_calm form.now ≡ true }
    requires row { HasRow form.now stack.old }
    requires room { HasRoom (growth form.now) stack.old }
    ensures { GoesCalmly form.now next stack.old stack.new }
{
    let mut left = 1;
    arith(stack, form, next, &mut left);
}

// Does an instruction of a quiet initialiser, but for its return.
fn step(stack: &mut FrameStack, memory: &mut StaticMemory, tables: &Tables, form: &Instr)
    requires can { CanDo tables.now form.now stack.old memory.old }
    ensures does { Does tables.now form.now stack.old memory.old stack.new memory.new }
    ensures below { stack.new.below ≡ stack.old.below }
{
    let next = tables.next_place(stack.number(), stack.pc());
    match form {
        Instr::GetStatic { field } => {
            stack.push_value(memory.get_static(*field));
            stack.set_pc(next);
        }
        Instr::PutStatic { field } => {
            let value = stack.pop_value();
            memory.put_static(*field, value.narrow(tables.field_unit(*field)));
            stack.set_pc(next);
        }
        _ => move_operands(stack, form, next),
    }
}

// Does these instructions, one after the other.
fn step_through(stack: &mut FrameStack, memory: &mut StaticMemory, tables: &Tables, code: &[Placed])
    requires can { CanDoAll tables.now code.now stack.old memory.old }
    ensures left { left_after tables.now code.now stack.old memory.old ≡ memory.new }
    ensures below { stack.new.below ≡ stack.old.below }
{
    for placed in code {
        step(stack, memory, tables, &placed.form);
    }
}

// How many places a method has for its operands.
fn operand_places(body: &Body) -> u16
    ensures { result ≡ body.now.max_stack }
{
    body.max_stack
}

// Runs the body of a quiet class's `<clinit>` while the class is being initialised, above no other entry.
fn run_body(
    stack: &mut FrameStack,
    memory: &mut StaticMemory,
    tables: &Tables,
    method: u32,
    body: &Body,
) -> Result<(), NoMemory>
    requires empty { stack.old ≡ no_entries }
    requires can { body.now.max_stack ≤ most_operands →
        CanDoAll tables.now (before_end body.now.code) (entered method body.now) memory.old }
    ensures left { OnOk result (left_after tables.now (before_end body.now.code) (entered method body.now) memory.old ≡ memory.new) }
    ensures empty { stack.new ≡ no_entries }
{
    operand_places(body);
    match stack.push(method, body.max_locals, None) {
        Ok(()) => {}
        Err(PushFault::Deep) => unreachable!(),
        Err(PushFault::NoMemory) => return Err(NoMemory {}),
    }
    let Some((_end, before)) = body.code.as_slice().split_last() else {
        stack.pop();
        return Ok(());
    };
    step_through(stack, memory, tables, before);
    stack.pop();
    Ok(())
}

// Runs the `<clinit>` of a quiet class in the memory, in which its statics have their opening values.
fn leave(
    stack: &mut FrameStack,
    memory: &mut StaticMemory,
    p: &Program,
    tables: &Tables,
    class: u32,
) -> Result<(), NoMemory>
    requires typed { IsTyped p.now }
    requires tables { tables.now ≡ p.now }
    requires quiet { is_quiet p.now class ≡ true }
    requires places { HasPlaces p.now memory.old }
    requires own { HasOwn p.now class (begun_world p.now class) memory.old }
    requires empty { stack.old ≡ no_entries }
    ensures leaves { OnOk result (Leaves p.now class memory.old memory.new) }
    ensures empty { stack.new ≡ no_entries }
{
    memory.begin(class);
    match start_of(p, class) {
        None => Ok(()),
        Some((method, body)) => run_body(stack, memory, tables, method, body),
    }
}

// Runs the `<clinit>` of the next class where that is quiet.
fn leave_next(
    stack: &mut FrameStack,
    memory: &mut StaticMemory,
    p: &Program,
    tables: &Tables,
    class: u32,
    quiet: bool,
) -> Result<(), NoMemory>
    requires typed { IsTyped p.now }
    requires tables { tables.now ≡ p.now }
    requires quiet { quiet ≡ is_quiet p.now class }
    requires left { AreLeft p.now class memory.old }
    requires empty { stack.old ≡ no_entries }
    ensures left { OnOk result (AreLeft p.now (class + 1) memory.new) }
    ensures empty { stack.new ≡ no_entries }
{
    if quiet {
        leave(stack, memory, p, tables, class)
    } else {
        Ok(())
    }
}

/// The memory that all quiet initialisers leave, begun on the opening values: each sets statics of its own class alone. They
/// share one list of entries, whose slots are made once. The only error is want of memory.
pub(crate) fn leave_all(
    alloc: Global,
    p: &Program,
    tables: &Tables,
    quiet: &[bool],
) -> Result<StaticMemory, NoMemory>
    requires typed { IsTyped p.now }
    requires tables { tables.now ≡ p.now }
    requires quiet { quiet.now ≡ map (is_quiet p.now) (range_with_len 0 (length p.now.classes)) }
    ensures { IfOk result (λ m. AreLeft p.now (length p.now.classes) m) }
{
    let mut memory = StaticMemory::opening(alloc, p)?;
    let mut stack = FrameStack::new(alloc);
    for class in 0..p.classes.len() as u32 {
        let is_quiet = quiet[class as usize];
        leave_next(&mut stack, &mut memory, p, tables, class, is_quiet)?;
    }
    Ok(memory)
}
