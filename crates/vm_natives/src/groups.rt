//! The built-in methods by groups.

ghost use Rattle.vm_frames.specs.Stack.{HasRoom};
ghost use Rattle.vm_mem.specs.Refines.{IsReady, IsNext, Makes};
ghost use Rattle.vm_natives.specs.Rows.{growth, with_own, object_row, string_row, builder_row, system_row, print_row, files_row, throwable_row};

use crate::named::{Change, Named, with_name, with_texts};
use crate::references::same_reference;
use crate::stream::{char_bytes, print, print_text, print_value};
use crate::texts::{boolean_text, char_unit, int_text, long_text};
use crate::working::{answer, answer_text, end, truth};
use crate::{builder, string, system, throwable};
use et_base::{NoMemory, Text, Units, decimal32, decimal64};
use jvm_model::{Native, Next, Own, Program, Value};
use std::alloc::Global;
use vm_frames::FrameStack;
use vm_mem::Memory;

/// A method of java.lang.Object. It counts 1.
#[tactic(auto, unfolding(jvm_model::specs::NativesObject::native_object))]
pub fn of_object<M: Memory>(
    stack: &mut FrameStack,
    memory: &mut M,
    p: &Program,
    own: &Own,
    which: Native,
    next: u32,
    left: &mut u64,
) -> Result<Next, NoMemory>
    requires place { IsNext p.now stack.old next }
    requires row { IsReady (object_row which) p.now M.program M.world memory.old
        (with_own stack.old own.now) }
    ensures made { Makes (object_row which) M.program M.world M.follows memory.old memory.new
        (with_own stack.old own.now) left.old result (with_own stack.new own.now) left.new }
{
    match which {
        // `<init>()`
        Native::ObjectInit => {
            stack.pop_value();
            Ok(end(stack, p, next, left))
        }
        // `equals(Object)`: whether both are the same reference
        Native::ObjectEquals => {
            let other = stack.pop_value();
            let receiver = stack.pop_value();
            let same = same_reference(receiver, other);
            Ok(answer(stack, p, truth(same), next, left))
        }
        // `hashCode()`: 0 (this project's)
        Native::ObjectHashCode => {
            stack.pop_value();
            Ok(answer(stack, p, Value::Int(0), next, left))
        }
        _ => unreachable!(),
    }
}

/// A method of java.lang.String.
#[tactic(auto, unfolding(jvm_model::specs::NativesString::native_string))]
pub fn of_string<M: Memory>(
    alloc: Global,
    stack: &mut FrameStack,
    memory: &mut M,
    p: &Program,
    own: &Own,
    which: Native,
    next: u32,
    left: &mut u64,
) -> Result<Next, NoMemory>
    requires place { IsNext p.now stack.old next }
    requires row { IsReady (string_row which) p.now M.program M.world memory.old
        (with_own stack.old own.now) }
    ensures made { Makes (string_row which) M.program M.world M.follows memory.old memory.new
        (with_own stack.old own.now) left.old result (with_own stack.new own.now) left.new }
{
    match which {
        Native::StringLength => string::length(stack, memory, p, own, next, left),
        Native::StringIsEmpty => string::is_empty(stack, memory, p, own, next, left),
        Native::StringCharAt => string::char_at(stack, memory, p, own, next, left),
        Native::StringEquals => string::equals(alloc, stack, memory, p, own, next, left),
        Native::StringHashCode => string::hash_code(stack, memory, p, own, next, left),
        Native::StringSubstringFrom => string::substring_from(
            alloc, stack, memory, p, own, next, left,
        ),
        Native::StringSubstring => string::substring(alloc, stack, memory, p, own, next, left),
        Native::StringConcat => string::concat(alloc, stack, memory, p, own, next, left),
        // `toString()`: the String itself. It counts 1.
        Native::StringToString => {
            let receiver = stack.pop_value();
            Ok(answer(stack, p, receiver, next, left))
        }
        // `valueOf(int)`: the decimal digits. A new String counts its length and 2.
        Native::StringOfInt => {
            let text = int_text(alloc, stack.pop_int())?;
            answer_text(stack, memory, p, own, text, 0, next, left)
        }
        // `valueOf(long)`: the decimal digits. A new String counts its length and 2.
        Native::StringOfLong => {
            let text = long_text(alloc, stack.pop_long())?;
            answer_text(stack, memory, p, own, text, 0, next, left)
        }
        // `valueOf(boolean)`: `true` or `false`. A new String counts its length and 2.
        Native::StringOfBoolean => {
            let text = Units::from_ascii(alloc, boolean_text(stack.pop_int()))?;
            answer_text(stack, memory, p, own, text, 0, next, left)
        }
        // `valueOf(char)`: the one unit. A new String counts its length and 2.
        Native::StringOfChar => {
            let text = Units::from_slice(alloc, &[char_unit(stack.pop_int())])?;
            answer_text(stack, memory, p, own, text, 0, next, left)
        }
        _ => unreachable!(),
    }
}

/// A method of java.lang.StringBuilder.
#[tactic(auto, unfolding(jvm_model::specs::NativesString::native_builder))]
pub fn of_builder<M: Memory>(
    alloc: Global,
    stack: &mut FrameStack,
    memory: &mut M,
    p: &Program,
    own: &Own,
    which: Native,
    next: u32,
    left: &mut u64,
) -> Result<Next, NoMemory>
    requires place { IsNext p.now stack.old next }
    requires row { IsReady (builder_row which) p.now M.program M.world memory.old
        (with_own stack.old own.now) }
    ensures made { Makes (builder_row which) M.program M.world M.follows memory.old memory.new
        (with_own stack.old own.now) left.old result (with_own stack.new own.now) left.new }
{
    match which {
        Native::BuilderInit => builder::init(alloc, stack, memory, p, own, next, left),
        Native::BuilderInitString => builder::init_string(alloc, stack, memory, p, own, next, left),
        Native::BuilderAppendString => builder::append_string(
            alloc, stack, memory, p, own, next, left,
        ),
        // `append(int)`: the decimal digits. It reads the builder's text, and counts 1 and a unit for each that is appended.
        Native::BuilderAppendInt => {
            let more = int_text(alloc, stack.pop_int())?;
            let receiver = stack.pop_value();
            builder::append(stack, memory, p, own, receiver, more.as_slice(), next, left)
        }
        // `append(long)`: the decimal digits. It reads the builder's text, and counts 1 and a unit for each that is appended.
        Native::BuilderAppendLong => {
            let more = long_text(alloc, stack.pop_long())?;
            let receiver = stack.pop_value();
            builder::append(stack, memory, p, own, receiver, more.as_slice(), next, left)
        }
        // `append(boolean)`: `true` or `false`. It reads the builder's text, and counts 1 and a unit for each that is
        // appended.
        Native::BuilderAppendBoolean => {
            let more = Units::from_ascii(alloc, boolean_text(stack.pop_int()))?;
            let receiver = stack.pop_value();
            builder::append(stack, memory, p, own, receiver, more.as_slice(), next, left)
        }
        // `append(char)`: the one unit. It reads the builder's text, and counts 2.
        Native::BuilderAppendChar => {
            let unit = char_unit(stack.pop_int());
            let receiver = stack.pop_value();
            builder::append(stack, memory, p, own, receiver, &[unit], next, left)
        }
        Native::BuilderLength => builder::length(stack, memory, p, own, next, left),
        Native::BuilderToString => builder::to_string(alloc, stack, memory, p, own, next, left),
        _ => unreachable!(),
    }
}

/// A method of java.lang.System.
#[tactic(auto, unfolding(jvm_model::specs::NativesOutside::native_system, crate::specs::Named::name_row, crate::specs::Named::change_row))]
pub fn of_system<M: Memory>(
    alloc: Global,
    stack: &mut FrameStack,
    memory: &mut M,
    p: &Program,
    own: &mut Own,
    which: Native,
    next: u32,
    left: &mut u64,
) -> Result<Next, NoMemory>
    requires place { IsNext p.now stack.old next }
    requires room { HasRoom (growth which) stack.old }
    requires row { IsReady (system_row which) p.now M.program M.world memory.old
        (with_own stack.old own.old) }
    ensures made { Makes (system_row which) M.program M.world M.follows memory.old memory.new
        (with_own stack.old own.old) left.old result (with_own stack.new own.new) left.new }
{
    match which {
        Native::SystemClock => Ok(system::clock(stack, p, own, next, left)),
        Native::SystemGetProperty => {
            with_name(alloc, stack, memory, p, own, Named::GetProperty, next, left)
        }
        Native::SystemSetProperty => {
            let change = Change::SetProperty;
            with_texts(alloc, stack, memory, p, own, change, next, left)
        }
        Native::SystemClearProperty => {
            let named = Named::ClearProperty;
            with_name(alloc, stack, memory, p, own, named, next, left)
        }
        _ => unreachable!(),
    }
}

/// A method of java.io.PrintStream.
#[tactic(auto, unfolding(jvm_model::specs::NativesOutside::native_print))]
pub fn of_stream<M: Memory>(
    alloc: Global,
    stack: &mut FrameStack,
    memory: &mut M,
    p: &Program,
    own: &mut Own,
    which: Native,
    next: u32,
    left: &mut u64,
) -> Result<Next, NoMemory>
    requires place { IsNext p.now stack.old next }
    requires row { IsReady (print_row which) p.now M.program M.world memory.old
        (with_own stack.old own.old) }
    ensures made { Makes (print_row which) M.program M.world M.follows memory.old memory.new
        (with_own stack.old own.old) left.old result (with_own stack.new own.new) left.new }
{
    match which {
        Native::PrintString => print_text(alloc, stack, memory, p, own, &[], next, left),
        Native::PrintInt => {
            let bytes = decimal32(alloc, stack.pop_int())?;
            print_value(stack, p, own, bytes, false, next, left)
        }
        Native::PrintLong => {
            let bytes = decimal64(alloc, stack.pop_long())?;
            print_value(stack, p, own, bytes, false, next, left)
        }
        Native::PrintBoolean => {
            let bytes = Text::from_slice(alloc, boolean_text(stack.pop_int()))?;
            print_value(stack, p, own, bytes, false, next, left)
        }
        Native::PrintChar => {
            let bytes = char_bytes(alloc, stack.pop_int())?;
            print_value(stack, p, own, bytes, false, next, left)
        }
        Native::PrintlnString => print_text(alloc, stack, memory, p, own, b"\n", next, left),
        Native::PrintlnInt => {
            let bytes = decimal32(alloc, stack.pop_int())?;
            print_value(stack, p, own, bytes, true, next, left)
        }
        Native::PrintlnLong => {
            let bytes = decimal64(alloc, stack.pop_long())?;
            print_value(stack, p, own, bytes, true, next, left)
        }
        Native::PrintlnBoolean => {
            let bytes = Text::from_slice(alloc, boolean_text(stack.pop_int()))?;
            print_value(stack, p, own, bytes, true, next, left)
        }
        Native::PrintlnChar => {
            let bytes = char_bytes(alloc, stack.pop_int())?;
            print_value(stack, p, own, bytes, true, next, left)
        }
        Native::Println => {
            stack.pop_value();
            print(stack, p, own, b"\n", next, left)
        }
        _ => unreachable!(),
    }
}

/// A method of electric.Files.
#[tactic(auto, unfolding(jvm_model::specs::NativesOutside::native_files, crate::specs::Named::name_row, crate::specs::Named::change_row))]
pub fn of_files<M: Memory>(
    alloc: Global,
    stack: &mut FrameStack,
    memory: &mut M,
    p: &Program,
    own: &Own,
    which: Native,
    next: u32,
    left: &mut u64,
) -> Result<Next, NoMemory>
    requires place { IsNext p.now stack.old next }
    requires row { IsReady (files_row which) p.now M.program M.world memory.old
        (with_own stack.old own.now) }
    ensures made { Makes (files_row which) M.program M.world M.follows memory.old memory.new
        (with_own stack.old own.now) left.old result (with_own stack.new own.now) left.new }
{
    match which {
        Native::FilesRead => with_name(alloc, stack, memory, p, own, Named::ReadFile, next, left),
        Native::FilesWrite => {
            with_texts(alloc, stack, memory, p, own, Change::WriteFile, next, left)
        }
        Native::FilesAppend => {
            with_texts(alloc, stack, memory, p, own, Change::AppendFile, next, left)
        }
        Native::FilesDelete => {
            with_name(alloc, stack, memory, p, own, Named::DeleteFile, next, left)
        }
        Native::FilesExists => {
            with_name(alloc, stack, memory, p, own, Named::FileExists, next, left)
        }
        _ => unreachable!(),
    }
}

/// A method of java.lang.Throwable or of AssertionError.
#[tactic(auto, unfolding(jvm_model::specs::NativesObject::native_throwable))]
pub fn of_throwable<M: Memory>(
    alloc: Global,
    stack: &mut FrameStack,
    memory: &mut M,
    p: &Program,
    own: &Own,
    which: Native,
    next: u32,
    left: &mut u64,
) -> Result<Next, NoMemory>
    requires place { IsNext p.now stack.old next }
    requires row { IsReady (throwable_row which) p.now M.program M.world memory.old
        (with_own stack.old own.now) }
    ensures made { Makes (throwable_row which) M.program M.world M.follows memory.old memory.new
        (with_own stack.old own.now) left.old result (with_own stack.new own.now) left.new }
{
    match which {
        // `<init>()`: no message is written. It counts 1.
        Native::ThrowableInit => {
            stack.pop_value();
            Ok(end(stack, p, next, left))
        }
        // `<init>(String)`: the argument is the message, null too. It writes the message and counts 1.
        Native::ThrowableInitString => {
            let message = stack.pop_value();
            let receiver = stack.pop_value();
            throwable::keep_message(stack, memory, p, own, receiver, message, next, left)
        }
        Native::ThrowableGetMessage => throwable::get_message(stack, memory, p, own, next, left),
        Native::AssertionInitObject => throwable::assertion_object(
            alloc, stack, memory, p, own, next, left,
        ),
        // `<init>(int)` of AssertionError: the decimal digits are the message. It counts 2 and the text's length.
        Native::AssertionInitInt => {
            let text = int_text(alloc, stack.pop_int())?;
            let receiver = stack.pop_value();
            throwable::make_message(stack, memory, p, own, receiver, text, next, left)
        }
        // `<init>(long)` of AssertionError: the decimal digits are the message. It counts 2 and the text's length.
        Native::AssertionInitLong => {
            let text = long_text(alloc, stack.pop_long())?;
            let receiver = stack.pop_value();
            throwable::make_message(stack, memory, p, own, receiver, text, next, left)
        }
        // `<init>(boolean)` of AssertionError: `true` or `false` is the message. It counts 2 and the text's length.
        Native::AssertionInitBoolean => {
            let text = Units::from_ascii(alloc, boolean_text(stack.pop_int()))?;
            let receiver = stack.pop_value();
            throwable::make_message(stack, memory, p, own, receiver, text, next, left)
        }
        // `<init>(char)` of AssertionError: the one unit is the message. It counts 2 and the text's length.
        Native::AssertionInitChar => {
            let text = Units::from_slice(alloc, &[char_unit(stack.pop_int())])?;
            let receiver = stack.pop_value();
            throwable::make_message(stack, memory, p, own, receiver, text, next, left)
        }
        _ => unreachable!(),
    }
}
