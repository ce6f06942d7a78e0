//! The methods of java.lang.Throwable and of the classes below it.

ghost use Rattle.jvm_model.specs.declared.library.Native.{Native};
ghost use Rattle.vm_mem.specs.Refines.{IsReady, IsNext, Makes};
ghost use Rattle.vm_natives.specs.Rows.{with_own, throwable_row, kept_row, told_row};

use crate::working::{NULL_FAULT, answer, end};
use et_base::{NoMemory, Units};
use jvm_model::{Head, Kind, MESSAGE, Next, Own, Program, STRING, Value};
use std::alloc::Global;
use vm_frames::FrameStack;
use vm_mem::Memory;

/// This value is the message of a throwable.
pub fn keep_message<M: Memory>(
    stack: &mut FrameStack,
    memory: &mut M,
    p: &Program,
    own: &Own,
    receiver: Value,
    message: Value,
    next: u32,
    left: &mut u64,
) -> Result<Next, NoMemory>
    requires place { IsNext p.now stack.old next }
    requires row { IsReady (kept_row receiver message) p.now M.program M.world memory.old
        (with_own stack.old own.now) }
    ensures made { Makes (kept_row receiver message) M.program M.world M.follows memory.old
        memory.new (with_own stack.old own.now) left.old result (with_own stack.new own.now)
        left.new }
{
    match receiver {
        Value::Obj(object) => {
            if *left == 0 {
                return Ok(Next::Over);
            }
            memory.put_field(object, MESSAGE, message)?;
            stack.set_pc(next);
            *left -= 1;
            Ok(Next::Go)
        }
        Value::Null => Ok(NULL_FAULT),
        Value::Int(_) | Value::Long(_) | Value::Lit(_) => unreachable!(),
    }
}

/// `getMessage()`: the message, or null. It reads the message and counts 1.
#[tactic(auto, unfolding(jvm_model::specs::NativesObject::native_throwable))]
pub fn get_message<M: Memory>(
    stack: &mut FrameStack,
    memory: &mut M,
    p: &Program,
    own: &Own,
    next: u32,
    left: &mut u64,
) -> Result<Next, NoMemory>
    requires place { IsNext p.now stack.old next }
    requires row { IsReady (throwable_row Native.ThrowableGetMessage) p.now M.program M.world
        memory.old (with_own stack.old own.now) }
    ensures made { Makes (throwable_row Native.ThrowableGetMessage) M.program M.world M.follows
        memory.old memory.new (with_own stack.old own.now) left.old result
        (with_own stack.new own.now) left.new }
{
    match stack.pop_value() {
        Value::Obj(object) => {
            let message = memory.get_field(object, MESSAGE)?;
            Ok(answer(stack, p, message, next, left))
        }
        Value::Null => Ok(NULL_FAULT),
        Value::Int(_) | Value::Long(_) | Value::Lit(_) => unreachable!(),
    }
}

/// `<init>(Object)` of AssertionError: a String is the message, of null it is `null`, and of another object no message
/// is written (this project's). It reads the head of the argument.
#[tactic(auto, unfolding(jvm_model::specs::NativesObject::native_throwable))]
pub fn assertion_object<M: Memory>(
    alloc: Global,
    stack: &mut FrameStack,
    memory: &mut M,
    p: &Program,
    own: &Own,
    next: u32,
    left: &mut u64,
) -> Result<Next, NoMemory>
    requires place { IsNext p.now stack.old next }
    requires row { IsReady (throwable_row Native.AssertionInitObject) p.now M.program M.world
        memory.old (with_own stack.old own.now) }
    ensures made { Makes (throwable_row Native.AssertionInitObject) M.program M.world M.follows
        memory.old memory.new (with_own stack.old own.now) left.old result
        (with_own stack.new own.now) left.new }
{
    let argument = stack.pop_value();
    let receiver = stack.pop_value();
    match argument {
        Value::Null => {
            let text = Units::from_ascii(alloc, b"null")?;
            make_message(stack, memory, p, own, receiver, text, next, left)
        }
        Value::Lit(n) => {
            if Kind::of_constant(n).class() != STRING {
                return Ok(end(stack, p, next, left));
            }
            keep_message(stack, memory, p, own, receiver, argument, next, left)
        }
        Value::Obj(object) => {
            let head = memory.head(object)?;
            if head.kind.class() != STRING {
                return Ok(end(stack, p, next, left));
            }
            keep_message(stack, memory, p, own, receiver, argument, next, left)
        }
        Value::Int(_) | Value::Long(_) => unreachable!(),
    }
}

/// A new String of this text is the message of a throwable. It counts 2 and the text's length.
pub fn make_message<M: Memory>(
    stack: &mut FrameStack,
    memory: &mut M,
    p: &Program,
    own: &Own,
    receiver: Value,
    text: Units,
    next: u32,
    left: &mut u64,
) -> Result<Next, NoMemory>
    requires place { IsNext p.now stack.old next }
    requires row { IsReady (told_row receiver text) p.now M.program M.world memory.old
        (with_own stack.old own.now) }
    ensures made { Makes (told_row receiver text) M.program M.world M.follows memory.old memory.new
        (with_own stack.old own.now) left.old result (with_own stack.new own.now) left.new }
{
    match receiver {
        Value::Obj(object) => {
            let cost = text.as_slice().len() as u64 + 2;
            if *left < cost {
                return Ok(Next::Over);
            }
            let message = memory.make(Head {
                kind: Kind::Class(STRING),
                length: 0,
            })?;
            memory.put_text(message, text)?;
            memory.put_field(object, MESSAGE, Value::Obj(message))?;
            stack.set_pc(next);
            *left -= cost;
            Ok(Next::Go)
        }
        Value::Null => Ok(NULL_FAULT),
        Value::Int(_) | Value::Long(_) | Value::Lit(_) => unreachable!(),
    }
}
