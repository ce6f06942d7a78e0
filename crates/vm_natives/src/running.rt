//! The built-in methods as one call.

ghost use Rattle.vm_frames.specs.Stack.{HasRoom};
ghost use Rattle.vm_mem.specs.Refines.{IsReady, IsNext, Makes};
ghost use Rattle.vm_natives.specs.Rows.{with_own, native_row, growth};

use crate::env::random;
use crate::groups::{
    of_builder, of_files, of_object, of_stream, of_string, of_system, of_throwable,
};
use crate::stream::{ended, print};
use et_base::{NoMemory, decimal32};
use jvm_model::{Native, Next, Own, Program};
use std::alloc::Global;
use vm_frames::FrameStack;
use vm_mem::Memory;

/// Runs a built-in method on the operands at the top of the calling frame, in the step that calls it, with the byte place
/// of the next instruction. Go counts the 1 of the step and the method's cost; Fault counts nothing, with the operands as
/// the method leaves them. Over, with nothing done but reads, where fewer units are left.
#[tactic(auto, unfolding(jvm_model::specs::Natives::row_native, jvm_model::specs::NativesOutside::native_env))]
pub fn native<M: Memory>(
    alloc: Global,
    stack: &mut FrameStack,
    memory: &mut M,
    p: &Program,
    own: &mut Own,
    which: Native,
    next: u32,
    left: &mut u64,
) -> Result<Next, NoMemory>
    requires place { IsNext p.now stack.old next }
    requires room { HasRoom (growth which) stack.old }
    requires row { IsReady (native_row which) p.now M.program M.world memory.old
        (with_own stack.old own.old) }
    ensures made { Makes (native_row which) M.program M.world M.follows memory.old memory.new
        (with_own stack.old own.old) left.old result (with_own stack.new own.new) left.new }
{
    match which {
        Native::ObjectInit | Native::ObjectEquals | Native::ObjectHashCode => {
            of_object(stack, memory, p, own, which, next, left)
        }
        Native::StringLength
        | Native::StringIsEmpty
        | Native::StringCharAt
        | Native::StringEquals
        | Native::StringHashCode
        | Native::StringSubstringFrom
        | Native::StringSubstring
        | Native::StringConcat
        | Native::StringToString
        | Native::StringOfInt
        | Native::StringOfLong
        | Native::StringOfBoolean
        | Native::StringOfChar => of_string(alloc, stack, memory, p, own, which, next, left),
        Native::BuilderInit
        | Native::BuilderInitString
        | Native::BuilderAppendString
        | Native::BuilderAppendInt
        | Native::BuilderAppendLong
        | Native::BuilderAppendBoolean
        | Native::BuilderAppendChar
        | Native::BuilderLength
        | Native::BuilderToString => of_builder(alloc, stack, memory, p, own, which, next, left),
        Native::SystemClock
        | Native::SystemGetProperty
        | Native::SystemSetProperty
        | Native::SystemClearProperty => of_system(alloc, stack, memory, p, own, which, next, left),
        Native::PrintString
        | Native::PrintInt
        | Native::PrintLong
        | Native::PrintBoolean
        | Native::PrintChar
        | Native::PrintlnString
        | Native::PrintlnInt
        | Native::PrintlnLong
        | Native::PrintlnBoolean
        | Native::PrintlnChar
        | Native::Println => of_stream(alloc, stack, memory, p, own, which, next, left),
        Native::FilesRead
        | Native::FilesWrite
        | Native::FilesAppend
        | Native::FilesDelete
        | Native::FilesExists => of_files(alloc, stack, memory, p, own, which, next, left),
        // `print(int)`: the decimal digits and a line feed. It counts 1 and a unit for each byte.
        Native::EnvPrint => {
            let bytes = ended(decimal32(alloc, stack.pop_int())?, true)?;
            print(stack, p, own, bytes.as_slice(), next, left)
        }
        Native::EnvRandom => Ok(random(stack, p, own, next, left)),
        Native::ThrowableInit
        | Native::ThrowableInitString
        | Native::ThrowableGetMessage
        | Native::AssertionInitObject
        | Native::AssertionInitInt
        | Native::AssertionInitLong
        | Native::AssertionInitBoolean
        | Native::AssertionInitChar => of_throwable(
            alloc, stack, memory, p, own, which, next, left,
        ),
    }
}
