//! The operands of an instruction as numbers without sign.

ghost use Rattle.std.specs.Prelude.{◌≡◌};
ghost use Rattle.code_forms.specs.Operands as operands;

use code_decode::RawOp;

/// The operand at a place; 0 where there is none.
pub(crate) fn operand(op: &RawOp, at: usize) -> i32
    ensures { result ≡ operands.operand op.now at }
{
    match op.args.as_slice().get(at) {
        None => 0,
        Some(arg) => *arg,
    }
}

/// The same without sign.
pub(crate) fn number_in(op: &RawOp, at: usize) -> u32
    ensures { result ≡ operands.number_in op.now at }
{
    operand(op, at).cast_unsigned()
}

/// The index of a pool entry that the first operand is.
pub fn index_in(op: &RawOp) -> u16
    ensures { result ≡ operands.index_in op.now }
{
    (number_in(op, 0) % 65536) as u16
}
