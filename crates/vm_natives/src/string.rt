//! The methods of java.lang.String.

ghost use Rattle.std.specs.Prelude.{◌≡◌, ◌≢◌};
ghost use Rattle.jvm_model.specs.{declared.library.Native.Native, declared.outcome.Own.Own, declared.values.Value.TheVariants.Obj, World.World};
ghost use Rattle.vm_frames.specs.Stack.{HasRoom};
ghost use Rattle.vm_mem.specs.Refines.{IsReady, IsNext, Refines, Makes};
ghost use Rattle.vm_natives.specs.Rows.{with_own, string_row, unit_row, compared_row, same_row, concat_row, concat_text_row, cut_row, joined_row, part_row};

use crate::texts::{hash_of, length_of, part_of};
use crate::working::{INDEX_FAULT, NULL_FAULT, answer, answer_costly, answer_text, truth};
use et_base::{NoMemory, Units};
use jvm_model::{Kind, Next, Own, Program, STRING, Value};
use std::alloc::Global;
use vm_frames::FrameStack;
use vm_mem::Memory;

/// `length()`: the number of units. It reads the text and counts 1.
#[tactic(auto, unfolding(jvm_model::specs::NativesString::native_string))]
pub fn length<M: Memory>(
    stack: &mut FrameStack,
    memory: &mut M,
    p: &Program,
    own: &Own,
    next: u32,
    left: &mut u64,
) -> Result<Next, NoMemory>
    requires place { IsNext p.now stack.old next }
    requires row { IsReady (string_row Native.StringLength) p.now M.program M.world memory.old
        (with_own stack.old own.now) }
    ensures made { Makes (string_row Native.StringLength) M.program M.world M.follows memory.old
        memory.new (with_own stack.old own.now) left.old result (with_own stack.new own.now)
        left.new }
{
    match stack.pop_value() {
        Value::Lit(n) => {
            let length = length_of(p.literal(n));
            Ok(answer(stack, p, Value::Int(length), next, left))
        }
        Value::Obj(object) => {
            let length = length_of(memory.get_text(object)?.as_slice());
            Ok(answer(stack, p, Value::Int(length), next, left))
        }
        Value::Null => Ok(NULL_FAULT),
        Value::Int(_) | Value::Long(_) => unreachable!(),
    }
}

/// `isEmpty()`: whether there are no units. It reads the text and counts 1.
#[tactic(auto, unfolding(jvm_model::specs::NativesString::native_string))]
pub fn is_empty<M: Memory>(
    stack: &mut FrameStack,
    memory: &mut M,
    p: &Program,
    own: &Own,
    next: u32,
    left: &mut u64,
) -> Result<Next, NoMemory>
    requires place { IsNext p.now stack.old next }
    requires row { IsReady (string_row Native.StringIsEmpty) p.now M.program M.world memory.old
        (with_own stack.old own.now) }
    ensures made { Makes (string_row Native.StringIsEmpty) M.program M.world M.follows memory.old
        memory.new (with_own stack.old own.now) left.old result (with_own stack.new own.now)
        left.new }
{
    match stack.pop_value() {
        Value::Lit(n) => {
            let empty = p.literal(n).is_empty();
            Ok(answer(stack, p, truth(empty), next, left))
        }
        Value::Obj(object) => {
            let empty = memory.get_text(object)?.as_slice().is_empty();
            Ok(answer(stack, p, truth(empty), next, left))
        }
        Value::Null => Ok(NULL_FAULT),
        Value::Int(_) | Value::Long(_) => unreachable!(),
    }
}

/// `charAt(int)`: the unit at a place from 0. It reads the text and counts 1; a place out of range throws
/// StringIndexOutOfBoundsException after that.
#[tactic(auto, unfolding(jvm_model::specs::NativesString::native_string))]
pub fn char_at<M: Memory>(
    stack: &mut FrameStack,
    memory: &mut M,
    p: &Program,
    own: &Own,
    next: u32,
    left: &mut u64,
) -> Result<Next, NoMemory>
    requires place { IsNext p.now stack.old next }
    requires row { IsReady (string_row Native.StringCharAt) p.now M.program M.world memory.old
        (with_own stack.old own.now) }
    ensures made { Makes (string_row Native.StringCharAt) M.program M.world M.follows memory.old
        memory.new (with_own stack.old own.now) left.old result (with_own stack.new own.now)
        left.new }
{
    let place = stack.pop_int();
    match stack.pop_value() {
        Value::Lit(n) => Ok(answer_unit(stack, p, p.literal(n), place, next, left)),
        Value::Obj(object) => {
            let text = memory.get_text(object)?.as_slice();
            Ok(answer_unit(stack, p, text, place, next, left))
        }
        Value::Null => Ok(NULL_FAULT),
        Value::Int(_) | Value::Long(_) => unreachable!(),
    }
}

/// The call answers the unit of a text at a place.
fn answer_unit(
    stack: &mut FrameStack,
    p: &Program,
    text: &[u16],
    place: i32,
    next: u32,
    left: &mut u64,
) -> Next
    requires place { IsNext p.now stack.old next }
    requires room { HasRoom 1 stack.old }
    ensures { (w : World) (o : Own) → Refines (unit_row text.now place)
        p.now w (with_own stack.old o) left.old result (with_own stack.new o) w left.new }
{
    if place < 0 {
        return INDEX_FAULT;
    }
    match text.get(place as usize) {
        None => INDEX_FAULT,
        Some(unit) => answer(stack, p, Value::Int(i32::from(*unit)), next, left),
    }
}

/// `equals(Object)`: whether the argument is a String of the same text. It reads the head of an argument that isn't
/// null, and where that is a String both texts, the receiver's first; the comparison counts the receiver's length
/// besides 1.
#[tactic(auto, unfolding(jvm_model::specs::NativesString::native_string))]
pub fn equals<M: Memory>(
    alloc: Global,
    stack: &mut FrameStack,
    memory: &mut M,
    p: &Program,
    own: &Own,
    next: u32,
    left: &mut u64,
) -> Result<Next, NoMemory>
    requires place { IsNext p.now stack.old next }
    requires row { IsReady (string_row Native.StringEquals) p.now M.program M.world memory.old
        (with_own stack.old own.now) }
    ensures made { Makes (string_row Native.StringEquals) M.program M.world M.follows memory.old
        memory.new (with_own stack.old own.now) left.old result (with_own stack.new own.now)
        left.new }
{
    let argument = stack.pop_value();
    let receiver = stack.pop_value();
    match argument {
        Value::Null => Ok(answer(stack, p, truth(false), next, left)),
        Value::Lit(n) => {
            if Kind::of_constant(n).class() != STRING {
                return Ok(answer(stack, p, truth(false), next, left));
            }
            compare(alloc, stack, memory, p, own, receiver, argument, next, left)
        }
        Value::Obj(object) => {
            let head = memory.head(object)?;
            if head.kind.class() != STRING {
                return Ok(answer(stack, p, truth(false), next, left));
            }
            compare(alloc, stack, memory, p, own, receiver, argument, next, left)
        }
        Value::Int(_) | Value::Long(_) => unreachable!(),
    }
}

/// The call answers whether two Strings have the same text. A receiver that is null throws, with both operands as they
/// were.
fn compare<M: Memory>(
    alloc: Global,
    stack: &mut FrameStack,
    memory: &mut M,
    p: &Program,
    own: &Own,
    receiver: Value,
    argument: Value,
    next: u32,
    left: &mut u64,
) -> Result<Next, NoMemory>
    requires place { IsNext p.now stack.old next }
    requires room { HasRoom 2 stack.old }
    requires argument { argument ≢ Value.Null }
    requires row { IsReady (compared_row receiver argument) p.now M.program M.world memory.old
        (with_own stack.old own.now) }
    ensures made { Makes (compared_row receiver argument) M.program M.world M.follows memory.old
        memory.new (with_own stack.old own.now) left.old result (with_own stack.new own.now)
        left.new }
{
    match receiver {
        Value::Null => {
            stack.push_value(receiver);
            stack.push_value(argument);
            Ok(NULL_FAULT)
        }
        Value::Lit(n) => match argument {
            Value::Lit(m) => Ok(answer_same(stack, p, p.literal(n), p.literal(m), next, left)),
            Value::Obj(object) => {
                let other = memory.get_text(object)?.as_slice();
                Ok(answer_same(stack, p, p.literal(n), other, next, left))
            }
            _ => unreachable!(),
        },
        Value::Obj(object) => match argument {
            Value::Lit(n) => {
                let text = memory.get_text(object)?.as_slice();
                Ok(answer_same(stack, p, text, p.literal(n), next, left))
            }
            Value::Obj(argument) => {
                let text = Units::from_slice(alloc, memory.get_text(object)?.as_slice())?;
                let other = memory.get_text(argument)?.as_slice();
                Ok(answer_same(stack, p, text.as_slice(), other, next, left))
            }
            _ => unreachable!(),
        },
        _ => unreachable!(),
    }
}

/// The call answers whether two texts are the same, at the cost of the first one's length.
fn answer_same(
    stack: &mut FrameStack,
    p: &Program,
    text: &[u16],
    other: &[u16],
    next: u32,
    left: &mut u64,
) -> Next
    requires place { IsNext p.now stack.old next }
    requires room { HasRoom 1 stack.old }
    ensures { (w : World) (o : Own) → Refines (same_row text.now other.now)
        p.now w (with_own stack.old o) left.old result (with_own stack.new o) w left.new }
{
    let cost = text.len() as u64;
    answer_costly(stack, p, truth(text == other), cost, next, left)
}

/// `hashCode()`: the sum of the units, each times 31 to the power of the number of those after it, wrapped. It reads
/// the text, and counts 1 and its length.
#[tactic(auto, unfolding(jvm_model::specs::NativesString::native_string))]
pub fn hash_code<M: Memory>(
    stack: &mut FrameStack,
    memory: &mut M,
    p: &Program,
    own: &Own,
    next: u32,
    left: &mut u64,
) -> Result<Next, NoMemory>
    requires place { IsNext p.now stack.old next }
    requires row { IsReady (string_row Native.StringHashCode) p.now M.program M.world memory.old
        (with_own stack.old own.now) }
    ensures made { Makes (string_row Native.StringHashCode) M.program M.world M.follows memory.old
        memory.new (with_own stack.old own.now) left.old result (with_own stack.new own.now)
        left.new }
{
    match stack.pop_value() {
        Value::Lit(n) => {
            let text = p.literal(n);
            let hash = Value::Int(hash_of(text));
            Ok(answer_costly(stack, p, hash, text.len() as u64, next, left))
        }
        Value::Obj(object) => {
            let text = memory.get_text(object)?.as_slice();
            let hash = Value::Int(hash_of(text));
            Ok(answer_costly(stack, p, hash, text.len() as u64, next, left))
        }
        Value::Null => Ok(NULL_FAULT),
        Value::Int(_) | Value::Long(_) => unreachable!(),
    }
}

/// `substring(int)`: the units from a place on. It reads the text; a new String counts its length and 2. A place out of
/// range throws StringIndexOutOfBoundsException.
#[tactic(auto, unfolding(jvm_model::specs::NativesString::native_string))]
pub fn substring_from<M: Memory>(
    alloc: Global,
    stack: &mut FrameStack,
    memory: &mut M,
    p: &Program,
    own: &Own,
    next: u32,
    left: &mut u64,
) -> Result<Next, NoMemory>
    requires place { IsNext p.now stack.old next }
    requires row { IsReady (string_row Native.StringSubstringFrom) p.now M.program M.world
        memory.old (with_own stack.old own.now) }
    ensures made { Makes (string_row Native.StringSubstringFrom) M.program M.world M.follows
        memory.old memory.new (with_own stack.old own.now) left.old result
        (with_own stack.new own.now) left.new }
{
    let from = stack.pop_int();
    match stack.pop_value() {
        Value::Lit(n) => {
            let part = part_of(alloc, p.literal(n), from, None)?;
            answer_part(stack, memory, p, own, part, next, left)
        }
        Value::Obj(object) => {
            let part = part_of(alloc, memory.get_text(object)?.as_slice(), from, None)?;
            answer_part(stack, memory, p, own, part, next, left)
        }
        Value::Null => Ok(NULL_FAULT),
        Value::Int(_) | Value::Long(_) => unreachable!(),
    }
}

/// `substring(int, int)`: the units from the first place up to but not the second. It reads the text; a new String
/// counts its length and 2. Places out of range or in the wrong order throw StringIndexOutOfBoundsException.
#[tactic(auto, unfolding(jvm_model::specs::NativesString::native_string))]
pub fn substring<M: Memory>(
    alloc: Global,
    stack: &mut FrameStack,
    memory: &mut M,
    p: &Program,
    own: &Own,
    next: u32,
    left: &mut u64,
) -> Result<Next, NoMemory>
    requires place { IsNext p.now stack.old next }
    requires row { IsReady (string_row Native.StringSubstring) p.now M.program M.world memory.old
        (with_own stack.old own.now) }
    ensures made { Makes (string_row Native.StringSubstring) M.program M.world M.follows memory.old
        memory.new (with_own stack.old own.now) left.old result (with_own stack.new own.now)
        left.new }
{
    let to = stack.pop_int();
    let from = stack.pop_int();
    match stack.pop_value() {
        Value::Lit(n) => {
            let part = part_of(alloc, p.literal(n), from, Some(to))?;
            answer_part(stack, memory, p, own, part, next, left)
        }
        Value::Obj(object) => cut_text(alloc, stack, memory, p, own, object, from, to, next, left),
        Value::Null => Ok(NULL_FAULT),
        Value::Int(_) | Value::Long(_) => unreachable!(),
    }
}

/// The part of a String that is no constant.
fn cut_text<M: Memory>(
    alloc: Global,
    stack: &mut FrameStack,
    memory: &mut M,
    p: &Program,
    own: &Own,
    object: u64,
    from: i32,
    to: i32,
    next: u32,
    left: &mut u64,
) -> Result<Next, NoMemory>
    requires place { IsNext p.now stack.old next }
    requires room { HasRoom 1 stack.old }
    requires row { IsReady (cut_row (Obj object) from to) p.now M.program M.world memory.old
        (with_own stack.old own.now) }
    ensures made { Makes (cut_row (Obj object) from to) M.program M.world M.follows memory.old
        memory.new (with_own stack.old own.now) left.old result (with_own stack.new own.now)
        left.new }
{
    let part = part_of(alloc, memory.get_text(object)?.as_slice(), from, Some(to))?;
    answer_part(stack, memory, p, own, part, next, left)
}

/// The call answers a part of a text as a new String; where there is no such part it throws.
fn answer_part<M: Memory>(
    stack: &mut FrameStack,
    memory: &mut M,
    p: &Program,
    own: &Own,
    part: Option<Units>,
    next: u32,
    left: &mut u64,
) -> Result<Next, NoMemory>
    requires program { p.now ≡ M.program memory.old }
    requires place { IsNext p.now stack.old next }
    requires room { HasRoom 1 stack.old }
    ensures made { Makes (part_row part) M.program M.world M.follows memory.old memory.new
        (with_own stack.old own.now) left.old result (with_own stack.new own.now) left.new }
{
    match part {
        None => Ok(INDEX_FAULT),
        Some(text) => answer_text(stack, memory, p, own, text, 0, next, left),
    }
}

/// `concat(String)`: the texts of both, or the String itself where the argument is empty. It reads both texts; a new String
/// counts its length and 2.
#[tactic(auto, unfolding(jvm_model::specs::NativesString::native_string))]
pub fn concat<M: Memory>(
    alloc: Global,
    stack: &mut FrameStack,
    memory: &mut M,
    p: &Program,
    own: &Own,
    next: u32,
    left: &mut u64,
) -> Result<Next, NoMemory>
    requires place { IsNext p.now stack.old next }
    requires row { IsReady (string_row Native.StringConcat) p.now M.program M.world memory.old
        (with_own stack.old own.now) }
    ensures made { Makes (string_row Native.StringConcat) M.program M.world M.follows memory.old
        memory.new (with_own stack.old own.now) left.old result (with_own stack.new own.now)
        left.new }
{
    let argument = stack.pop_value();
    let receiver = stack.pop_value();
    match argument {
        Value::Lit(_) => concat_to(alloc, stack, memory, p, own, receiver, argument, next, left),
        Value::Obj(_) => concat_to(alloc, stack, memory, p, own, receiver, argument, next, left),
        Value::Null => Ok(NULL_FAULT),
        Value::Int(_) | Value::Long(_) => unreachable!(),
    }
}

/// The text of a String, and then that of its argument.
fn concat_to<M: Memory>(
    alloc: Global,
    stack: &mut FrameStack,
    memory: &mut M,
    p: &Program,
    own: &Own,
    receiver: Value,
    argument: Value,
    next: u32,
    left: &mut u64,
) -> Result<Next, NoMemory>
    requires place { IsNext p.now stack.old next }
    requires room { HasRoom 1 stack.old }
    requires row { IsReady (concat_row receiver argument) p.now M.program M.world memory.old
        (with_own stack.old own.now) }
    ensures made { Makes (concat_row receiver argument) M.program M.world M.follows memory.old
        memory.new (with_own stack.old own.now) left.old result (with_own stack.new own.now)
        left.new }
{
    match receiver {
        Value::Lit(n) => {
            let text = Units::from_slice(alloc, p.literal(n))?;
            concat_text(
                alloc, stack, memory, p, own, receiver, text, argument, next, left,
            )
        }
        Value::Obj(object) => {
            let text = Units::from_slice(alloc, memory.get_text(object)?.as_slice())?;
            concat_text(
                alloc, stack, memory, p, own, receiver, text, argument, next, left,
            )
        }
        Value::Null => Ok(NULL_FAULT),
        Value::Int(_) | Value::Long(_) => unreachable!(),
    }
}

/// The text of the argument.
fn concat_text<M: Memory>(
    alloc: Global,
    stack: &mut FrameStack,
    memory: &mut M,
    p: &Program,
    own: &Own,
    receiver: Value,
    text: Units,
    argument: Value,
    next: u32,
    left: &mut u64,
) -> Result<Next, NoMemory>
    requires place { IsNext p.now stack.old next }
    requires room { HasRoom 1 stack.old }
    requires row { IsReady (concat_text_row receiver text argument) p.now M.program M.world
        memory.old (with_own stack.old own.now) }
    ensures made { Makes (concat_text_row receiver text argument) M.program M.world M.follows
        memory.old memory.new (with_own stack.old own.now) left.old result
        (with_own stack.new own.now) left.new }
{
    match argument {
        Value::Lit(n) => {
            let more = Units::from_slice(alloc, p.literal(n))?;
            join(stack, memory, p, own, receiver, text, more, next, left)
        }
        Value::Obj(object) => {
            let more = Units::from_slice(alloc, memory.get_text(object)?.as_slice())?;
            join(stack, memory, p, own, receiver, text, more, next, left)
        }
        Value::Null => Ok(NULL_FAULT),
        Value::Int(_) | Value::Long(_) => unreachable!(),
    }
}

/// The texts of a String and of its argument, joined; the String itself where the latter is empty.
fn join<M: Memory>(
    stack: &mut FrameStack,
    memory: &mut M,
    p: &Program,
    own: &Own,
    receiver: Value,
    text: Units,
    more: Units,
    next: u32,
    left: &mut u64,
) -> Result<Next, NoMemory>
    requires program { p.now ≡ M.program memory.old }
    requires place { IsNext p.now stack.old next }
    requires room { HasRoom 1 stack.old }
    ensures made { Makes (joined_row receiver text more) M.program M.world M.follows memory.old
        memory.new (with_own stack.old own.now) left.old result (with_own stack.new own.now)
        left.new }
{
    match more.as_slice() {
        [] => Ok(answer(stack, p, receiver, next, left)),
        [_, ..] => {
            let mut text = text;
            text.extend_from_slice(more.as_slice())?;
            answer_text(stack, memory, p, own, text, 0, next, left)
        }
    }
}
