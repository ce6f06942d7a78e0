//! Methods that are given a name, and perhaps a text.

ghost use Rattle.vm_frames.specs.Stack.{HasRoom};
ghost use Rattle.vm_mem.specs.Refines.{IsReady, IsNext, Makes};
ghost use Rattle.vm_natives.specs.Rows.{with_own};
ghost use Rattle.vm_natives.specs.Named.{name_row, named_row, given_row, texts_row, change_row};

use crate::files::{append_to, delete_at, exists_at, put_file, read_at};
use crate::system::{change_property, property_at};
use crate::working::NULL_FAULT;
use et_base::{NoMemory, Units};
use jvm_model::{Next, Own, Program, Value};
use std::alloc::Global;
use vm_frames::FrameStack;
use vm_mem::Memory;

/// What a method does with a name and a text.
#[derive(Clone, Copy)]
pub enum Change {
    SetProperty,
    WriteFile,
    AppendFile,
}

/// What a method does with a name. `Given` says that it is given this String besides.
#[derive(Clone, Copy)]
pub enum Named {
    GetProperty,
    ClearProperty,
    ReadFile,
    DeleteFile,
    FileExists,
    Given { change: Change, text: Value },
}

/// A method that is given two Strings: a null one throws NullPointerException before a text is read, first the second one.
#[tactic(auto, unfolding(crate::specs::Named::name_row))]
pub fn with_texts<M: Memory>(
    alloc: Global,
    stack: &mut FrameStack,
    memory: &mut M,
    p: &Program,
    own: &Own,
    change: Change,
    next: u32,
    left: &mut u64,
) -> Result<Next, NoMemory>
    requires place { IsNext p.now stack.old next }
    requires row { IsReady (texts_row change) p.now M.program M.world memory.old
        (with_own stack.old own.now) }
    ensures made { Makes (texts_row change) M.program M.world M.follows memory.old memory.new
        (with_own stack.old own.now) left.old result (with_own stack.new own.now) left.new }
{
    let text = stack.pop_value();
    let named = Named::Given { change, text };
    match text {
        Value::Lit(_) => with_name(alloc, stack, memory, p, own, named, next, left),
        Value::Obj(_) => with_name(alloc, stack, memory, p, own, named, next, left),
        Value::Null => {
            stack.pop_value();
            Ok(NULL_FAULT)
        }
        Value::Int(_) | Value::Long(_) => unreachable!(),
    }
}

/// A method that is given a String as a name: a constant's text is the program's, without a touch, another's is read. A null
/// one throws NullPointerException.
pub fn with_name<M: Memory>(
    alloc: Global,
    stack: &mut FrameStack,
    memory: &mut M,
    p: &Program,
    own: &Own,
    named: Named,
    next: u32,
    left: &mut u64,
) -> Result<Next, NoMemory>
    requires place { IsNext p.now stack.old next }
    requires row { IsReady (named_row named) p.now M.program M.world memory.old
        (with_own stack.old own.now) }
    ensures made { Makes (named_row named) M.program M.world M.follows memory.old memory.new
        (with_own stack.old own.now) left.old result (with_own stack.new own.now) left.new }
{
    match stack.pop_value() {
        Value::Lit(n) => {
            let name = Units::from_slice(alloc, p.literal(n))?;
            on_name(alloc, stack, memory, p, own, named, name, next, left)
        }
        Value::Obj(object) => {
            let name = Units::from_slice(alloc, memory.get_text(object)?.as_slice())?;
            on_name(alloc, stack, memory, p, own, named, name, next, left)
        }
        Value::Null => Ok(NULL_FAULT),
        Value::Int(_) | Value::Long(_) => unreachable!(),
    }
}

/// What it does with the name.
#[tactic(auto, unfolding(crate::specs::Named::name_row))]
fn on_name<M: Memory>(
    alloc: Global,
    stack: &mut FrameStack,
    memory: &mut M,
    p: &Program,
    own: &Own,
    named: Named,
    name: Units,
    next: u32,
    left: &mut u64,
) -> Result<Next, NoMemory>
    requires place { IsNext p.now stack.old next }
    requires room { HasRoom 1 stack.old }
    requires row { IsReady (name_row named name) p.now M.program M.world memory.old
        (with_own stack.old own.now) }
    ensures made { Makes (name_row named name) M.program M.world M.follows memory.old memory.new
        (with_own stack.old own.now) left.old result (with_own stack.new own.now) left.new }
{
    match named {
        Named::GetProperty => property_at(alloc, stack, memory, p, own, &name, next, left),
        Named::ClearProperty => {
            change_property(alloc, stack, memory, p, own, name, None, 0, next, left)
        }
        Named::ReadFile => read_at(alloc, stack, memory, p, own, &name, next, left),
        Named::DeleteFile => delete_at(stack, memory, p, own, name, next, left),
        Named::FileExists => exists_at(stack, memory, p, own, &name, next, left),
        Named::Given { change, text } => {
            with_text(alloc, stack, memory, p, own, change, name, text, next, left)
        }
    }
}

/// The text of the second String.
fn with_text<M: Memory>(
    alloc: Global,
    stack: &mut FrameStack,
    memory: &mut M,
    p: &Program,
    own: &Own,
    change: Change,
    name: Units,
    text: Value,
    next: u32,
    left: &mut u64,
) -> Result<Next, NoMemory>
    requires place { IsNext p.now stack.old next }
    requires room { HasRoom 1 stack.old }
    requires row { IsReady (given_row change name text) p.now M.program M.world memory.old
        (with_own stack.old own.now) }
    ensures made { Makes (given_row change name text) M.program M.world M.follows memory.old
        memory.new (with_own stack.old own.now) left.old result (with_own stack.new own.now)
        left.new }
{
    match text {
        Value::Lit(n) => {
            let text = Units::from_slice(alloc, p.literal(n))?;
            on_texts(alloc, stack, memory, p, own, change, name, text, next, left)
        }
        Value::Obj(object) => {
            let text = Units::from_slice(alloc, memory.get_text(object)?.as_slice())?;
            on_texts(alloc, stack, memory, p, own, change, name, text, next, left)
        }
        Value::Null => Ok(NULL_FAULT),
        Value::Int(_) | Value::Long(_) => unreachable!(),
    }
}

/// What it does with the name and the text.
#[tactic(auto, unfolding(crate::specs::Named::change_row))]
fn on_texts<M: Memory>(
    alloc: Global,
    stack: &mut FrameStack,
    memory: &mut M,
    p: &Program,
    own: &Own,
    change: Change,
    name: Units,
    text: Units,
    next: u32,
    left: &mut u64,
) -> Result<Next, NoMemory>
    requires place { IsNext p.now stack.old next }
    requires room { HasRoom 1 stack.old }
    requires row { IsReady (change_row change name text) p.now M.program M.world memory.old
        (with_own stack.old own.now) }
    ensures made { Makes (change_row change name text) M.program M.world M.follows memory.old
        memory.new (with_own stack.old own.now) left.old result (with_own stack.new own.now)
        left.new }
{
    match change {
        Change::SetProperty => {
            let units = text.as_slice().len() as u64;
            let text = Some(text);
            change_property(alloc, stack, memory, p, own, name, text, units, next, left)
        }
        // It counts 1 and a unit for each of the name and of the text.
        Change::WriteFile => {
            let cost = name.as_slice().len() as u64 + text.as_slice().len() as u64;
            put_file(stack, memory, p, own, name, text, cost, next, left)
        }
        Change::AppendFile => append_to(alloc, stack, memory, p, own, name, text, next, left),
    }
}
