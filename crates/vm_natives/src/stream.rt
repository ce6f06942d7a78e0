//! The methods of java.io.PrintStream, on the stream of `System.out`. Each is over once its bytes are printed; where fewer
//! units are left than it counts it answers Over, with nothing printed.

ghost use Rattle.std.specs.Prelude.{◌≡◌, ◌<◌, [], ◌∷◌, ◌++◌, length, IfOk};
ghost use Rattle.et_base.specs.Quotes.{utf8_of};
ghost use Rattle.jvm_model.specs.{World.World, Working.char_of};
ghost use Rattle.vm_mem.specs.Refines.{IsReady, IsNext, Refines, Makes};
ghost use Rattle.vm_natives.specs.Rows.{with_own};
ghost use Rattle.vm_natives.specs.Outside as parts;
ghost use Rattle.vm_natives.specs.Outside.{bytes_row, string_print_row, value_print_row};

use crate::texts::char_unit;
use et_base::{NoMemory, Text, Units, bytes_of_units};
use jvm_model::{Next, Own, Program, Value};
use std::alloc::Global;
use vm_frames::FrameStack;
use vm_mem::Memory;

/// The call prints these bytes and is over. It counts the 1 of the step and a unit for each byte. Over, with nothing
/// printed, where fewer are left.
pub fn print(
    stack: &mut FrameStack,
    p: &Program,
    own: &mut Own,
    bytes: &[u8],
    next: u32,
    left: &mut u64,
) -> Result<Next, NoMemory>
    requires place { IsNext p.now stack.old next }
    ensures { IfOk result (λ x. (w : World) → Refines (bytes_row bytes.now)
        p.now w (with_own stack.old own.old) left.old x (with_own stack.new own.new) w left.new) }
{
    let cost = bytes.len() as u64;
    if *left <= cost {
        return Ok(Next::Over);
    }
    own.output.extend_from_slice(bytes)?;
    stack.set_pc(next);
    *left = *left - cost - 1;
    Ok(Next::Go)
}

/// Prints units in UTF-8, and then these bytes.
fn print_units(
    alloc: Global,
    stack: &mut FrameStack,
    p: &Program,
    own: &mut Own,
    units: &Units,
    end: &[u8],
    next: u32,
    left: &mut u64,
) -> Result<Next, NoMemory>
    requires place { IsNext p.now stack.old next }
    ensures { IfOk result (λ x. (w : World) → Refines (bytes_row (utf8_of units.now ++ end.now))
        p.now w (with_own stack.old own.old) left.old x (with_own stack.new own.new) w left.new) }
{
    let mut bytes = bytes_of_units(alloc, units)?;
    bytes.extend_from_slice(end)?;
    print(stack, p, own, bytes.as_slice(), next, left)
}

/// `print(String)` and `println(String)`: the text in UTF-8, or `null`, and then these bytes. It reads the text of a String
/// that is no constant, and counts 1 and a unit for each byte.
pub fn print_text<M: Memory>(
    alloc: Global,
    stack: &mut FrameStack,
    memory: &mut M,
    p: &Program,
    own: &mut Own,
    end: &[u8],
    next: u32,
    left: &mut u64,
) -> Result<Next, NoMemory>
    requires place { IsNext p.now stack.old next }
    requires row { IsReady (string_print_row end.now) p.now M.program M.world memory.old
        (with_own stack.old own.old) }
    ensures made { Makes (string_print_row end.now) M.program M.world M.follows memory.old
        memory.new (with_own stack.old own.old) left.old result (with_own stack.new own.new)
        left.new }
{
    let text = stack.pop_value();
    stack.pop_value();
    match text {
        Value::Null => {
            let mut bytes = Text::from_slice(alloc, b"null")?;
            bytes.extend_from_slice(end)?;
            print(stack, p, own, bytes.as_slice(), next, left)
        }
        Value::Lit(n) => {
            let units = Units::from_slice(alloc, p.literal(n))?;
            print_units(alloc, stack, p, own, &units, end, next, left)
        }
        Value::Obj(object) => {
            let units = memory.get_text(object)?;
            print_units(alloc, stack, p, own, units, end, next, left)
        }
        Value::Int(_) | Value::Long(_) => unreachable!(),
    }
}

/// The bytes, and a line feed behind them where they are a line.
pub fn ended(bytes: Text, line: bool) -> Result<Text, NoMemory>
    ensures { IfOk result (λ x. x ≡ parts.ended line bytes) }
{
    let mut bytes = bytes;
    if line {
        bytes.push(b'\n')?;
    }
    Ok(bytes)
}

/// Takes the stream below an argument and prints these bytes of the argument, as a line or not.
pub fn print_value(
    stack: &mut FrameStack,
    p: &Program,
    own: &mut Own,
    bytes: Text,
    line: bool,
    next: u32,
    left: &mut u64,
) -> Result<Next, NoMemory>
    requires place { IsNext p.now stack.old next }
    requires stream { 0 < length stack.old.top.stack }
    ensures { IfOk result (λ x. (w : World) → Refines (value_print_row (parts.ended line bytes))
        p.now w (with_own stack.old own.old) left.old x (with_own stack.new own.new) w left.new) }
{
    stack.pop_value();
    let bytes = ended(bytes, line)?;
    print(stack, p, own, bytes.as_slice(), next, left)
}

/// A char in UTF-8, or `?` where it is a surrogate.
pub fn char_bytes(alloc: Global, n: i32) -> Result<Text, NoMemory>
    ensures { IfOk result (λ bytes. bytes ≡ utf8_of (char_of n ∷ [])) }
{
    let units = Units::from_slice(alloc, &[char_unit(n)])?;
    Ok(Text::from_vec(bytes_of_units(alloc, &units)?))
}
