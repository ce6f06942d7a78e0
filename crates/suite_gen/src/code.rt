//! The methods' code (JVMS 4.7.3 and 6.5).

ghost use Rattle.std.specs.Prelude.{◌≡◌, ◌++◌, ◌≤◌, OnOk};
ghost use Rattle.suite_gen.specs.Bytes.{op_bytes, limits, end_bytes, setting_bytes, printing_bytes, adding_bytes, code_bytes};
ghost use Rattle.suite_gen.specs.Generated.{group_of, field_entry};

use crate::bytes::{push_short, push_word};
use et_base::{NoMemory, Text};

const GETSTATIC: u8 = 178;

const IADD: u8 = 96;

const INVOKESTATIC: u8 = 184;

const PUTSTATIC: u8 = 179;

const RETURN: u8 = 177;

const SIPUSH: u8 = 17;

/// The pool index of the method print.
const PRINT: u64 = 13;

/// How many bytes a Code attribute has besides the instructions.
const AROUND: u32 = 12;

// Appends an instruction with two bytes behind it.
fn push_op(out: &mut Text, opcode: u8, operand: u64) -> Result<(), NoMemory>
    ensures { OnOk result (out.new ≡ out.old ++ op_bytes opcode operand) }
{
    out.push(opcode)?;
    push_short(out, operand)
}

// Appends an instruction on the static int of a test's group.
fn push_field_op(out: &mut Text, opcode: u8, test: u64) -> Result<(), NoMemory>
    requires { (1 ≤ test) × (test ≤ 1024) }
    ensures { OnOk result (out.new ≡ out.old ++ op_bytes opcode (field_entry (group_of test))) }
{
    push_op(out, opcode, 16 + 3 * ((test - 1) / 4))
}

// Appends the depth of the operand stack, the number of locals, which is 0, and the length of the instructions.
fn push_limits(out: &mut Text, stack: u64, length: u32) -> Result<(), NoMemory>
    ensures { OnOk result (out.new ≡ out.old ++ limits stack length) }
{
    push_short(out, stack)?;
    push_short(out, 0)?;
    push_word(out, length)
}

// Appends the last instruction, no handlers and no attributes.
fn push_end(out: &mut Text) -> Result<(), NoMemory>
    ensures { OnOk result (out.new ≡ out.old ++ end_bytes) }
{
    out.extend_from_slice(&[RETURN, 0, 0, 0, 0])
}

// Appends the code of a test that sets the static.
fn push_setting(out: &mut Text, test: u64) -> Result<(), NoMemory>
    requires { (1 ≤ test) × (test ≤ 1024) }
    ensures { OnOk result (out.new ≡ out.old ++ setting_bytes test) }
{
    push_limits(out, 1, 7)?;
    push_op(out, SIPUSH, test)?;
    push_field_op(out, PUTSTATIC, test)?;
    push_end(out)?;
    Ok(())
}

// Appends the code of a test that prints it.
fn push_printing(out: &mut Text, test: u64) -> Result<(), NoMemory>
    requires { (1 ≤ test) × (test ≤ 1024) }
    ensures { OnOk result (out.new ≡ out.old ++ printing_bytes test) }
{
    push_limits(out, 1, 7)?;
    push_field_op(out, GETSTATIC, test)?;
    push_op(out, INVOKESTATIC, PRINT)?;
    push_end(out)?;
    Ok(())
}

// Appends the code of a test that adds to it.
fn push_adding(out: &mut Text, test: u64) -> Result<(), NoMemory>
    requires { (1 ≤ test) × (test ≤ 1024) }
    ensures { OnOk result (out.new ≡ out.old ++ adding_bytes test) }
{
    push_limits(out, 2, 11)?;
    push_field_op(out, GETSTATIC, test)?;
    push_op(out, SIPUSH, test)?;
    out.push(IADD)?;
    push_field_op(out, PUTSTATIC, test)?;
    push_end(out)?;
    Ok(())
}

/// Appends the content of the Code attribute of a test, behind its length.
pub fn push_code(out: &mut Text, test: u64) -> Result<(), NoMemory>
    requires { (1 ≤ test) × (test ≤ 1024) }
    ensures { OnOk result (out.new ≡ out.old ++ code_bytes test) }
{
    let place = (test - 1) % 4;
    if place == 0 {
        push_word(out, AROUND + 7)?;
        push_setting(out, test)
    } else if place == 2 {
        push_word(out, AROUND + 11)?;
        push_adding(out, test)
    } else {
        push_word(out, AROUND + 7)?;
        push_printing(out, test)
    }
}
