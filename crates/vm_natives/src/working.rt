//! How the calls of built-in methods end.

ghost use Rattle.std.specs.Prelude.{◌≡◌};
ghost use Rattle.jvm_model.specs.{declared.outcome.Own.Own, declared.program.Program.Program, World.World};
ghost use Rattle.jvm_model.specs.Working as working;
ghost use Rattle.vm_frames.specs.Stack.{HasRoom};
ghost use Rattle.vm_mem.specs.Refines.{IsNext, Refines, Makes};
ghost use Rattle.vm_natives.specs.Rows.{with_own, end_row, value_row, costly_row, text_row};

use et_base::{NoMemory, Units};
use jvm_model::{
    Head, Kind, NULL_POINTER_EXCEPTION, Next, Own, Program, STRING, STRING_INDEX_EXCEPTION, Value,
};
use vm_frames::FrameStack;
use vm_mem::Memory;

/// A null receiver or argument throws.
pub const NULL_FAULT: Next = Next::Fault {
    class: NULL_POINTER_EXCEPTION,
};

/// A place that is out of a text's range throws.
pub const INDEX_FAULT: Next = Next::Fault {
    class: STRING_INDEX_EXCEPTION,
};

/// The call is over without an answer. It counts the 1 of the step. Over, with nothing done, where no unit is left.
pub fn end(stack: &mut FrameStack, p: &Program, next: u32, left: &mut u64) -> Next
    requires place { IsNext p.now stack.old next }
    ensures { (w : World) (o : Own) → Refines end_row
        p.now w (with_own stack.old o) left.old result (with_own stack.new o) w left.new }
{
    if *left == 0 {
        return Next::Over;
    }
    stack.set_pc(next);
    *left -= 1;
    Next::Go
}

/// The call is over and answers a value. It counts the 1 of the step. Over, with nothing done, where no unit is left.
pub fn answer(stack: &mut FrameStack, p: &Program, value: Value, next: u32, left: &mut u64) -> Next
    requires place { IsNext p.now stack.old next }
    requires room { HasRoom 1 stack.old }
    ensures { (w : World) (o : Own) → Refines (value_row value)
        p.now w (with_own stack.old o) left.old result (with_own stack.new o) w left.new }
{
    if *left == 0 {
        return Next::Over;
    }
    stack.push_value(value);
    stack.set_pc(next);
    *left -= 1;
    Next::Go
}

/// The call is over and answers a value. It counts the 1 of the step and a cost besides. Over, with nothing done, where
/// fewer units are left.
pub fn answer_costly(
    stack: &mut FrameStack,
    p: &Program,
    value: Value,
    cost: u64,
    next: u32,
    left: &mut u64,
) -> Next
    requires place { IsNext p.now stack.old next }
    requires room { HasRoom 1 stack.old }
    ensures { (w : World) (o : Own) → Refines (costly_row cost value)
        p.now w (with_own stack.old o) left.old result (with_own stack.new o) w left.new }
{
    if *left <= cost {
        return Next::Over;
    }
    stack.push_value(value);
    stack.set_pc(next);
    *left -= cost + 1;
    Next::Go
}

/// A boolean as a value: 1 or 0.
pub fn truth(holds: bool) -> Value
    ensures { result ≡ working.truth holds }
{
    if holds { Value::Int(1) } else { Value::Int(0) }
}

/// The call is over and answers a new String of a text. It counts the 1 of the step, 1 for the object, a unit for each of
/// the text, and a cost besides. Over, with nothing done, where fewer are left.
pub fn answer_text<M: Memory>(
    stack: &mut FrameStack,
    memory: &mut M,
    p: &Program,
    own: &Own,
    text: Units,
    besides: u64,
    next: u32,
    left: &mut u64,
) -> Result<Next, NoMemory>
    requires program { p.now ≡ M.program memory.old }
    requires place { IsNext p.now stack.old next }
    requires room { HasRoom 1 stack.old }
    ensures made { Makes (text_row besides text) M.program M.world M.follows memory.old memory.new
        (with_own stack.old own.now) left.old result (with_own stack.new own.now) left.new }
{
    let length = text.as_slice().len() as u64;
    if *left < length + 2 || *left - (length + 2) < besides {
        return Ok(Next::Over);
    }
    *left -= length + 2;
    *left -= besides;
    let object = memory.make(Head {
        kind: Kind::Class(STRING),
        length: 0,
    })?;
    memory.put_text(object, text)?;
    stack.push_value(Value::Obj(object));
    stack.set_pc(next);
    Ok(Next::Go)
}
