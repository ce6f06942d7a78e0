//! The methods of electric.Files.

ghost use Rattle.vm_frames.specs.Stack.{HasRoom};
ghost use Rattle.vm_mem.specs.Refines.{IsReady, IsNext, Makes};
ghost use Rattle.vm_natives.specs.Rows.{with_own};
ghost use Rattle.vm_natives.specs.Named.{file_row, append_row, put_row, delete_row, exists_row};

use crate::working::{answer, answer_costly, answer_text, end, truth};
use et_base::{NoMemory, Units};
use jvm_model::{Next, Own, Program, Value};
use sim_store::Part;
use std::alloc::Global;
use vm_frames::FrameStack;
use vm_mem::Memory;

/// `read(String)`: a new String of the file's text, or null where there is no file. It counts 1, a unit for each of the
/// name, and for a new String 1 and a unit for each of its text. Over, with nothing made, where fewer units are left.
pub fn read_at<M: Memory>(
    alloc: Global,
    stack: &mut FrameStack,
    memory: &mut M,
    p: &Program,
    own: &Own,
    name: &Units,
    next: u32,
    left: &mut u64,
) -> Result<Next, NoMemory>
    requires place { IsNext p.now stack.old next }
    requires room { HasRoom 1 stack.old }
    requires row { IsReady (file_row name.now) p.now M.program M.world memory.old
        (with_own stack.old own.now) }
    ensures made { Makes (file_row name.now) M.program M.world M.follows memory.old memory.new
        (with_own stack.old own.now) left.old result (with_own stack.new own.now) left.new }
{
    let cost = name.as_slice().len() as u64;
    match memory.get_store(Part::File, name)? {
        None => Ok(answer_costly(stack, p, Value::Null, cost, next, left)),
        Some(text) => {
            let text = Units::from_slice(alloc, text.as_slice())?;
            answer_text(stack, memory, p, own, text, cost, next, left)
        }
    }
}

/// `append(String, String)`: the file has its text and this one after it; where there is no file, this one alone. It
/// counts as `write` does.
pub fn append_to<M: Memory>(
    alloc: Global,
    stack: &mut FrameStack,
    memory: &mut M,
    p: &Program,
    own: &Own,
    name: Units,
    text: Units,
    next: u32,
    left: &mut u64,
) -> Result<Next, NoMemory>
    requires place { IsNext p.now stack.old next }
    requires row { IsReady (append_row name text) p.now M.program M.world memory.old
        (with_own stack.old own.now) }
    ensures made { Makes (append_row name text) M.program M.world M.follows memory.old memory.new
        (with_own stack.old own.now) left.old result (with_own stack.new own.now) left.new }
{
    let cost = name.as_slice().len() as u64 + text.as_slice().len() as u64;
    match memory.get_store(Part::File, &name)? {
        None => put_file(stack, memory, p, own, name, text, cost, next, left),
        Some(old) => {
            let mut whole = Units::from_slice(alloc, old.as_slice())?;
            whole.extend_from_slice(text.as_slice())?;
            put_file(stack, memory, p, own, name, whole, cost, next, left)
        }
    }
}

/// A file has this text, at this cost. Over, with nothing written, where too few units are left.
pub fn put_file<M: Memory>(
    stack: &mut FrameStack,
    memory: &mut M,
    p: &Program,
    own: &Own,
    name: Units,
    text: Units,
    cost: u64,
    next: u32,
    left: &mut u64,
) -> Result<Next, NoMemory>
    requires place { IsNext p.now stack.old next }
    requires row { IsReady (put_row cost name text) p.now M.program M.world memory.old
        (with_own stack.old own.now) }
    ensures made { Makes (put_row cost name text) M.program M.world M.follows memory.old memory.new
        (with_own stack.old own.now) left.old result (with_own stack.new own.now) left.new }
{
    if *left <= cost {
        return Ok(Next::Over);
    }
    memory.put_store(Part::File, name, Some(text))?;
    *left -= cost;
    Ok(end(stack, p, next, left))
}

/// `delete(String)`: the file is taken away; whether there was one is answered. It counts 1 and a unit for each of the name.
/// Over, with nothing taken away, where fewer units are left.
pub fn delete_at<M: Memory>(
    stack: &mut FrameStack,
    memory: &mut M,
    p: &Program,
    own: &Own,
    name: Units,
    next: u32,
    left: &mut u64,
) -> Result<Next, NoMemory>
    requires place { IsNext p.now stack.old next }
    requires room { HasRoom 1 stack.old }
    requires row { IsReady (delete_row name) p.now M.program M.world memory.old
        (with_own stack.old own.now) }
    ensures made { Makes (delete_row name) M.program M.world M.follows memory.old memory.new
        (with_own stack.old own.now) left.old result (with_own stack.new own.now) left.new }
{
    let found = match memory.get_store(Part::File, &name)? {
        None => false,
        Some(_) => true,
    };
    let cost = name.as_slice().len() as u64;
    if *left <= cost {
        return Ok(Next::Over);
    }
    memory.put_store(Part::File, name, None)?;
    *left -= cost;
    Ok(answer(stack, p, truth(found), next, left))
}

/// `exists(String)`: whether there is a file. It counts 1 and a unit for each of the name. Over where fewer units are left.
pub fn exists_at<M: Memory>(
    stack: &mut FrameStack,
    memory: &mut M,
    p: &Program,
    own: &Own,
    name: &Units,
    next: u32,
    left: &mut u64,
) -> Result<Next, NoMemory>
    requires place { IsNext p.now stack.old next }
    requires room { HasRoom 1 stack.old }
    requires row { IsReady (exists_row name.now) p.now M.program M.world memory.old
        (with_own stack.old own.now) }
    ensures made { Makes (exists_row name.now) M.program M.world M.follows memory.old memory.new
        (with_own stack.old own.now) left.old result (with_own stack.new own.now) left.new }
{
    let cost = name.as_slice().len() as u64;
    let found = match memory.get_store(Part::File, name)? {
        None => false,
        Some(_) => true,
    };
    Ok(answer_costly(stack, p, truth(found), cost, next, left))
}
