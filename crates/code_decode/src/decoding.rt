//! A whole code.

ghost use Rattle.std.specs.Prelude.{◌≡◌, ◌<◌, length, IfOk, IfErr, Ok, Err, Result};
ghost use Rattle.et_base.specs.Answers.{Fails, nothing};
ghost use Rattle.class_pool.specs.{declared.fault.Fault.Fault, Reading.named, Reading.Gives};
ghost use Rattle.code_decode.specs.{declared.decoding.Code.Code, Targets.Marks, Targets.is_start, Targets.is_marked, Targets.targets_fit, Instructions.ops_at};
ghost use Rattle.code_decode.specs.CodeGrammar.{CodeText};
ghost use Rattle.code_decode.specs.Decoding.{code_at, IsOfCode, IsCodeError, Faults, Answers};

use crate::instructions::{RawOp, ops_of};
use crate::starts::{Starts, judge_targets};
use class_pool::{Fault, Pool, ReadError};
use et_base::Items;
use std::alloc::Global;

/// A code taken to instructions.
#[derive(Drop)]
pub struct Code {
    /// Its length in bytes.
    pub length: u32,
    /// Its instructions in order.
    pub ops: Items<RawOp>,
}

/// The first fault of a code. A pc is that of the instruction concerned.
#[derive(Clone, Copy, Debug, PartialEq, Eq)]
pub enum CodeFault {
    /// The instruction isn't wholly inside the code.
    CutCode { pc: u32 },
    /// The instruction is outside of the profile.
    Unsupported { pc: u32, opcode: u8 },
    /// An operand that the instruction doesn't take.
    BadOperand { pc: u32 },
    /// It leads to a place where no instruction begins.
    BadTarget { pc: u32 },
    /// Want of memory.
    NoMemory,
}

// Where these instructions begin, when each place that they lead to is such a one.
#[tactic(auto, using(crate::proofs::Marking::marked_fit))]
fn starts_of(alloc: Global, method: u32, total: usize, ops: &[RawOp]) -> Result<Starts, ReadError>
    ensures gives { Gives nothing result (targets_fit method (is_start ops.now total) ops.now) }
    ensures starts { IfOk result (λ s. Marks s ops.now total) }
{
    let starts = Starts::of(alloc, total, ops)?;
    judge_targets(method, &starts, ops)?;
    Ok(starts)
}

/// The code that these bytes are, in a method of this number, and where its instructions begin: the form
/// of [`decode`] inside of a class file. A fault names the method.
#[tactic(auto, unfolding(crate::specs::Decoding::code_at))]
pub fn code_at(
    alloc: Global,
    method: u32,
    pool: &Pool,
    bytes: &[u8],
) -> Result<(Code, Starts), ReadError>
    requires { length bytes.now < 65536 }
    ensures gives { Gives (λ x. x.0) result (code_at method pool.now bytes.now) }
    ensures starts { IfOk result (λ x. Marks x.1 x.0.ops x.0.length) }
{
    let ops = ops_of(alloc, method, pool, bytes)?;
    let starts = starts_of(alloc, method, bytes.len(), ops.as_slice())?;
    Ok((
        Code {
            length: bytes.len() as u32,
            ops,
        },
        starts,
    ))
}

// The public form of an error.
fn code_fault(error: ReadError) -> CodeFault
    requires { IsCodeError 0 error }
    ensures { (read : Result Code Fault) → Fails (named error) read → Faults result read }
{
    match error {
        ReadError::Memory => CodeFault::NoMemory,
        ReadError::Fault(Fault::CutCode { pc, .. }) => CodeFault::CutCode { pc },
        ReadError::Fault(Fault::Unsupported { pc, opcode, .. }) => CodeFault::Unsupported {
            pc,
            opcode,
        },
        ReadError::Fault(Fault::BadOperand { pc, .. }) => CodeFault::BadOperand { pc },
        ReadError::Fault(Fault::BadTarget { pc, .. }) => CodeFault::BadTarget { pc },
        ReadError::Fault(_) => unreachable!(),
    }
}

/// The code that these bytes are, all of them, in a class with this pool (JVMS 4.7.3, 4.9.1).
///
/// A fault is the first of one reading from left to right. An instruction is taken wholly (`CutCode`)
/// before its operands are judged, from left to right (`BadOperand`, or `Unsupported` for what is outside
/// of this project's profile); nothing behind an opcode outside of the profile is read. Where instructions
/// lead is judged after all of them, by pc (`BadTarget`). It takes time in proportion to the bytes and to
/// the names and descriptors that the instructions mention.
pub fn decode(alloc: Global, code: &[u8], pool: &Pool) -> Result<Code, CodeFault>
    requires some { 0 < length code.now }
    requires few { length code.now < 65536 }
    // What is decoded is spelled so.
    ensures found { IfOk result (λ c. CodeText pool.now code.now c) }
    // What is spelled so is decoded, unless memory runs out.
    ensures only { (c : Code) → CodeText pool.now code.now c → Answers result (Ok c) }
    // Which fault it is.
    ensures exact { Answers result (code_at 0 pool.now code.now) }
{
    match code_at(alloc, 0, pool, code) {
        Ok((code, _starts)) => Ok(code),
        Err(error) => Err(code_fault(error)),
    }
}
