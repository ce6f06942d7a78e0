//! Arithmetic of whole numbers and conversions.
#![tactic(auto, unfolding(jvm_model::specs::Step::row, jvm_model::specs::RowsArith::row_arith))]

ghost use Rattle.std.specs.Prelude.{true, false};
ghost use Rattle.jvm_model.specs.declared.instr.Instr.TheVariants as form;
ghost use Rattle.vm_arith.specs.Pure.{HasRow, GoesOn, Ends};

use crate::operations::{divides, of_ints, of_longs, shifted, shifts};
use et_base::{add32, i2b, i2c, i2l, i2s, l2i, lcmp, neg32, neg64};
use jvm_model::{ARITHMETIC_EXCEPTION, Conv, Next, Op, Value};
use vm_frames::FrameStack;

/// Takes two ints and puts what the operation gives of them, the upper one second; division and remainder by 0 throw
/// (`iadd`, `isub`, `imul`, `idiv`, `irem`, `ishl`, `ishr`, `iushr`, `iand`, `ior`, `ixor`).
#[inline(always)]
pub fn binary_ints(stack: &mut FrameStack, op: Op) -> Next
    requires { HasRow (form.Binary op false) stack.old }
    ensures { Ends (form.Binary op false) result stack.old stack.new }
{
    let b = stack.pop_int();
    let a = stack.pop_int();
    if b == 0 && divides(op) {
        return Next::Fault {
            class: ARITHMETIC_EXCEPTION,
        };
    }
    stack.push_int(of_ints(op, a, b));
    Next::Go
}

/// Takes two longs and puts what the operation gives of them, the upper one second; division and remainder by 0 throw.
/// A shift takes its distance as an int (`ladd`, `lsub`, `lmul`, `ldiv`, `lrem`, `lshl`, `lshr`, `lushr`, `land`, `lor`,
/// `lxor`).
#[inline(always)]
pub fn binary_longs(stack: &mut FrameStack, op: Op) -> Next
    requires { HasRow (form.Binary op true) stack.old }
    ensures { Ends (form.Binary op true) result stack.old stack.new }
{
    if shifts(op) {
        let b = stack.pop_int();
        let a = stack.pop_long();
        stack.push_long(shifted(op, a, b));
        return Next::Go;
    }
    let b = stack.pop_long();
    let a = stack.pop_long();
    if b == 0 && divides(op) {
        return Next::Fault {
            class: ARITHMETIC_EXCEPTION,
        };
    }
    stack.push_long(of_longs(op, a, b));
    Next::Go
}

/// Negates the int on top (`ineg`).
pub fn neg_int(stack: &mut FrameStack)
    requires { HasRow (form.Neg false) stack.old }
    ensures { GoesOn (form.Neg false) stack.old stack.new }
{
    let a = stack.pop_int();
    stack.push_int(neg32(a));
}

/// Negates the long on top (`lneg`).
pub fn neg_long(stack: &mut FrameStack)
    requires { HasRow (form.Neg true) stack.old }
    ensures { GoesOn (form.Neg true) stack.old stack.new }
{
    let a = stack.pop_long();
    stack.push_long(neg64(a));
}

/// Adds a constant to the int in a local (`iinc`).
pub fn increase(stack: &mut FrameStack, local: u16, by: i32)
    requires { HasRow (form.Inc local by) stack.old }
    ensures { GoesOn (form.Inc local by) stack.old stack.new }
{
    let Value::Int(a) = stack.local(local) else {
        unreachable!()
    };
    stack.set_local(local, Value::Int(add32(a, by)));
}

/// Converts the number on top (`i2l`, `l2i`, `i2b`, `i2c`, `i2s`).
pub fn convert(stack: &mut FrameStack, to: Conv)
    requires { HasRow (form.Convert to) stack.old }
    ensures { GoesOn (form.Convert to) stack.old stack.new }
{
    match to {
        Conv::I2l => {
            let a = stack.pop_int();
            stack.push_long(i2l(a));
        }
        Conv::L2i => {
            let a = stack.pop_long();
            stack.push_int(l2i(a));
        }
        Conv::I2b => {
            let a = stack.pop_int();
            stack.push_int(i2b(a));
        }
        Conv::I2c => {
            let a = stack.pop_int();
            stack.push_int(i2c(a));
        }
        Conv::I2s => {
            let a = stack.pop_int();
            stack.push_int(i2s(a));
        }
    }
}

/// Takes two longs and puts an int that says how the lower one compares with the upper (`lcmp`).
pub fn compare(stack: &mut FrameStack)
    requires { HasRow form.Compare stack.old }
    ensures { GoesOn form.Compare stack.old stack.new }
{
    let b = stack.pop_long();
    let a = stack.pop_long();
    stack.push_int(lcmp(a, b));
}
