//! The methods of java.lang.StringBuilder.

ghost use Rattle.jvm_model.specs.declared.library.Native.{Native};
ghost use Rattle.vm_frames.specs.Stack.{HasRoom};
ghost use Rattle.vm_mem.specs.Refines.{IsReady, IsNext, Makes};
ghost use Rattle.vm_natives.specs.Rows.{with_own, builder_row, begun_row, appended_row};

use crate::texts::length_of;
use crate::working::{NULL_FAULT, answer, answer_text};
use et_base::{NoMemory, Units};
use jvm_model::{Next, Own, Program, Value};
use std::alloc::Global;
use vm_frames::FrameStack;
use vm_mem::Memory;

/// `<init>()`: an empty text is written. It counts 1.
#[tactic(auto, unfolding(jvm_model::specs::NativesString::native_builder))]
pub fn init<M: Memory>(
    alloc: Global,
    stack: &mut FrameStack,
    memory: &mut M,
    p: &Program,
    own: &Own,
    next: u32,
    left: &mut u64,
) -> Result<Next, NoMemory>
    requires place { IsNext p.now stack.old next }
    requires row { IsReady (builder_row Native.BuilderInit) p.now M.program M.world memory.old
        (with_own stack.old own.now) }
    ensures made { Makes (builder_row Native.BuilderInit) M.program M.world M.follows memory.old
        memory.new (with_own stack.old own.now) left.old result (with_own stack.new own.now)
        left.new }
{
    match stack.pop_value() {
        Value::Obj(object) => {
            if *left == 0 {
                return Ok(Next::Over);
            }
            memory.put_text(object, Units::new(alloc))?;
            stack.set_pc(next);
            *left -= 1;
            Ok(Next::Go)
        }
        Value::Null => Ok(NULL_FAULT),
        Value::Int(_) | Value::Long(_) | Value::Lit(_) => unreachable!(),
    }
}

/// `<init>(String)`: the text of a String is written. It reads it, and counts 1 and its length.
#[tactic(auto, unfolding(jvm_model::specs::NativesString::native_builder))]
pub fn init_string<M: Memory>(
    alloc: Global,
    stack: &mut FrameStack,
    memory: &mut M,
    p: &Program,
    own: &Own,
    next: u32,
    left: &mut u64,
) -> Result<Next, NoMemory>
    requires place { IsNext p.now stack.old next }
    requires row { IsReady (builder_row Native.BuilderInitString) p.now M.program M.world memory.old
        (with_own stack.old own.now) }
    ensures made { Makes (builder_row Native.BuilderInitString) M.program M.world M.follows
        memory.old memory.new (with_own stack.old own.now) left.old result
        (with_own stack.new own.now) left.new }
{
    let argument = stack.pop_value();
    let receiver = stack.pop_value();
    match argument {
        Value::Lit(n) => {
            let text = Units::from_slice(alloc, p.literal(n))?;
            begin_with(stack, memory, p, own, receiver, text, next, left)
        }
        Value::Obj(object) => {
            let text = Units::from_slice(alloc, memory.get_text(object)?.as_slice())?;
            begin_with(stack, memory, p, own, receiver, text, next, left)
        }
        Value::Null => Ok(NULL_FAULT),
        Value::Int(_) | Value::Long(_) => unreachable!(),
    }
}

/// This text is written into a builder. It counts 1 and its length.
fn begin_with<M: Memory>(
    stack: &mut FrameStack,
    memory: &mut M,
    p: &Program,
    own: &Own,
    receiver: Value,
    text: Units,
    next: u32,
    left: &mut u64,
) -> Result<Next, NoMemory>
    requires place { IsNext p.now stack.old next }
    requires row { IsReady (begun_row receiver text) p.now M.program M.world memory.old
        (with_own stack.old own.now) }
    ensures made { Makes (begun_row receiver text) M.program M.world M.follows memory.old memory.new
        (with_own stack.old own.now) left.old result (with_own stack.new own.now) left.new }
{
    match receiver {
        Value::Obj(object) => {
            let cost = text.as_slice().len() as u64;
            if *left <= cost {
                return Ok(Next::Over);
            }
            memory.put_text(object, text)?;
            stack.set_pc(next);
            *left -= cost + 1;
            Ok(Next::Go)
        }
        Value::Null => Ok(NULL_FAULT),
        Value::Int(_) | Value::Long(_) | Value::Lit(_) => unreachable!(),
    }
}

/// `append(String)`: the text of a String, or `null`. It reads the text and then the builder's, and counts 1 and the
/// text's length.
#[tactic(auto, unfolding(jvm_model::specs::NativesString::native_builder))]
pub fn append_string<M: Memory>(
    alloc: Global,
    stack: &mut FrameStack,
    memory: &mut M,
    p: &Program,
    own: &Own,
    next: u32,
    left: &mut u64,
) -> Result<Next, NoMemory>
    requires place { IsNext p.now stack.old next }
    requires row { IsReady (builder_row Native.BuilderAppendString) p.now M.program M.world
        memory.old (with_own stack.old own.now) }
    ensures made { Makes (builder_row Native.BuilderAppendString) M.program M.world M.follows
        memory.old memory.new (with_own stack.old own.now) left.old result
        (with_own stack.new own.now) left.new }
{
    let argument = stack.pop_value();
    let receiver = stack.pop_value();
    match argument {
        Value::Null => {
            let more = Units::from_ascii(alloc, b"null")?;
            append(stack, memory, p, own, receiver, more.as_slice(), next, left)
        }
        Value::Lit(n) => append(stack, memory, p, own, receiver, p.literal(n), next, left),
        Value::Obj(object) => {
            let more = Units::from_slice(alloc, memory.get_text(object)?.as_slice())?;
            append(stack, memory, p, own, receiver, more.as_slice(), next, left)
        }
        Value::Int(_) | Value::Long(_) => unreachable!(),
    }
}

/// These units are appended to a builder, which is answered. It reads the builder's text, and counts 1 and a unit for
/// each that is appended.
pub fn append<M: Memory>(
    stack: &mut FrameStack,
    memory: &mut M,
    p: &Program,
    own: &Own,
    receiver: Value,
    more: &[u16],
    next: u32,
    left: &mut u64,
) -> Result<Next, NoMemory>
    requires place { IsNext p.now stack.old next }
    requires room { HasRoom 1 stack.old }
    requires row { IsReady (appended_row receiver more.now) p.now M.program M.world memory.old
        (with_own stack.old own.now) }
    ensures made { Makes (appended_row receiver more.now) M.program M.world M.follows memory.old
        memory.new (with_own stack.old own.now) left.old result (with_own stack.new own.now)
        left.new }
{
    match receiver {
        Value::Obj(object) => {
            memory.get_text(object)?;
            let cost = more.len() as u64;
            if *left <= cost {
                return Ok(Next::Over);
            }
            memory.append_text(object, more)?;
            stack.push_value(receiver);
            stack.set_pc(next);
            *left -= cost + 1;
            Ok(Next::Go)
        }
        Value::Null => Ok(NULL_FAULT),
        Value::Int(_) | Value::Long(_) | Value::Lit(_) => unreachable!(),
    }
}

/// `length()`: the number of units. It reads the text and counts 1.
#[tactic(auto, unfolding(jvm_model::specs::NativesString::native_builder))]
pub fn length<M: Memory>(
    stack: &mut FrameStack,
    memory: &mut M,
    p: &Program,
    own: &Own,
    next: u32,
    left: &mut u64,
) -> Result<Next, NoMemory>
    requires place { IsNext p.now stack.old next }
    requires row { IsReady (builder_row Native.BuilderLength) p.now M.program M.world memory.old
        (with_own stack.old own.now) }
    ensures made { Makes (builder_row Native.BuilderLength) M.program M.world M.follows memory.old
        memory.new (with_own stack.old own.now) left.old result (with_own stack.new own.now)
        left.new }
{
    match stack.pop_value() {
        Value::Obj(object) => {
            let length = length_of(memory.get_text(object)?.as_slice());
            Ok(answer(stack, p, Value::Int(length), next, left))
        }
        Value::Null => Ok(NULL_FAULT),
        Value::Int(_) | Value::Long(_) | Value::Lit(_) => unreachable!(),
    }
}

/// `toString()`: the text. It reads it; a new String counts its length and 2.
#[tactic(auto, unfolding(jvm_model::specs::NativesString::native_builder))]
pub fn to_string<M: Memory>(
    alloc: Global,
    stack: &mut FrameStack,
    memory: &mut M,
    p: &Program,
    own: &Own,
    next: u32,
    left: &mut u64,
) -> Result<Next, NoMemory>
    requires place { IsNext p.now stack.old next }
    requires row { IsReady (builder_row Native.BuilderToString) p.now M.program M.world memory.old
        (with_own stack.old own.now) }
    ensures made { Makes (builder_row Native.BuilderToString) M.program M.world M.follows memory.old
        memory.new (with_own stack.old own.now) left.old result (with_own stack.new own.now)
        left.new }
{
    match stack.pop_value() {
        Value::Obj(object) => {
            let text = Units::from_slice(alloc, memory.get_text(object)?.as_slice())?;
            answer_text(stack, memory, p, own, text, 0, next, left)
        }
        Value::Null => Ok(NULL_FAULT),
        Value::Int(_) | Value::Long(_) | Value::Lit(_) => unreachable!(),
    }
}
