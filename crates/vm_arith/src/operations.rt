//! What the operations of whole numbers give.
#![tactic(auto)]

ghost use Rattle.std.specs.Prelude.{◌≡◌, ◌≢◌, pos, true, false};
ghost use Rattle.jvm_model.specs.RowsArith as numbers;

use et_base::{
    add32, add64, div32, div64, mul32, mul64, rem32, rem64, shl32, shl64, shr32, shr64, sub32,
    sub64, ushr32, ushr64,
};
use jvm_model::Op;

/// Whether the operation throws at a second operand of 0.
pub fn divides(op: Op) -> bool
    ensures { result ≡ numbers.divides op }
{
    match op {
        Op::Div | Op::Rem => true,
        Op::Add | Op::Sub | Op::Mul | Op::Shl | Op::Shr | Op::Ushr | Op::And | Op::Or | Op::Xor =>
            false,
    }
}

/// Whether the operation shifts.
pub fn shifts(op: Op) -> bool
    ensures { result ≡ numbers.shifts op }
{
    match op {
        Op::Shl | Op::Shr | Op::Ushr => true,
        Op::Add | Op::Sub | Op::Mul | Op::Div | Op::Rem | Op::And | Op::Or | Op::Xor => false,
    }
}

/// What an operation gives of two ints.
pub fn of_ints(op: Op, a: i32, b: i32) -> i32
    requires { numbers.divides op ≡ true → b ≢ pos 0 }
    ensures { result ≡ numbers.of_ints op a b }
{
    match op {
        Op::Add => add32(a, b),
        Op::Sub => sub32(a, b),
        Op::Mul => mul32(a, b),
        Op::Div => div32(a, b),
        Op::Rem => rem32(a, b),
        Op::Shl => shl32(a, b),
        Op::Shr => shr32(a, b),
        Op::Ushr => ushr32(a, b),
        Op::And => a & b,
        Op::Or => a | b,
        Op::Xor => a ^ b,
    }
}

/// What an operation other than a shift gives of two longs.
pub fn of_longs(op: Op, a: i64, b: i64) -> i64
    requires divisor { numbers.divides op ≡ true → b ≢ pos 0 }
    requires unshifted { numbers.shifts op ≡ false }
    ensures { result ≡ numbers.of_longs op a b }
{
    match op {
        Op::Add => add64(a, b),
        Op::Sub => sub64(a, b),
        Op::Mul => mul64(a, b),
        Op::Div => div64(a, b),
        Op::Rem => rem64(a, b),
        Op::And => a & b,
        Op::Or => a | b,
        Op::Xor => a ^ b,
        Op::Shl | Op::Shr | Op::Ushr => unreachable!(),
    }
}

/// A long shifted by an int.
pub fn shifted(op: Op, a: i64, distance: i32) -> i64
    requires { numbers.shifts op ≡ true }
    ensures { result ≡ numbers.of_longs op a distance }
{
    match op {
        Op::Shl => shl64(a, distance),
        Op::Shr => shr64(a, distance),
        Op::Ushr => ushr64(a, distance),
        Op::Add | Op::Sub | Op::Mul | Op::Div | Op::Rem | Op::And | Op::Or | Op::Xor =>
            unreachable!(),
    }
}
