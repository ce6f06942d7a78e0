//! The instructions of a code.

ghost use Rattle.std.specs.Prelude.{◌≡◌, ◌++◌, OnOk};
ghost use Rattle.code_decode.specs.{Opcodes.shape_of, Spelling.shaped_bytes, Spelling.op_bytes, Spelling.code_spelling};
ghost use Rattle.class_write.specs.Spelling.{run_bytes};

use crate::numbers::{put_byte, put_word};
use crate::operands::{put_args, put_wide_args};
use code_decode::{Code, RawOp, shape_of};
use et_base::NoMemory;

const WIDE: u64 = 196;

fn put_shaped(out: &mut Vec<u8>, pc: u32, opcode: u8, args: &[i32]) -> Result<(), NoMemory>
    ensures { OnOk result (out.new.items ≡ out.old.items ++ shaped_bytes pc (shape_of opcode) args.now) }
{
    match shape_of(opcode) {
        None => Ok(()),
        Some(shape) => put_args(out, pc, shape, args),
    }
}

fn put_op(out: &mut Vec<u8>, op: &RawOp) -> Result<(), NoMemory>
    ensures { OnOk result (out.new.items ≡ out.old.items ++ op_bytes op.now) }
{
    if op.wide {
        put_byte(out, WIDE)?;
        put_byte(out, op.opcode as u64)?;
        put_wide_args(out, op.opcode, op.args.as_slice())
    } else {
        put_byte(out, op.opcode as u64)?;
        put_shaped(out, op.pc, op.opcode, op.args.as_slice())
    }
}

fn put_ops(out: &mut Vec<u8>, code: &Code) -> Result<(), NoMemory>
    ensures { OnOk result (out.new.items ≡ out.old.items ++ code_spelling code.now) }
{
    for op in code.ops.as_slice() {
        put_op(out, op)?;
    }
    Ok(())
}

/// Appends the length of a code and its instructions.
pub fn put_code(out: &mut Vec<u8>, code: &Code) -> Result<(), NoMemory>
    ensures { OnOk result (out.new.items ≡ out.old.items ++ run_bytes code.now) }
{
    put_word(out, code.length as u64)?;
    put_ops(out, code)
}
