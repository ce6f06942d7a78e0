//! Rows of a constant and of operations on ints that run often, but for the frame's place.

ghost use Rattle.std.specs.Prelude.{◌≡◌, false};
ghost use Rattle.jvm_model.specs.declared.instr.Instr.TheVariants as form;
ghost use Rattle.jvm_model.specs.declared.instr.Op.TheVariants as op;
ghost use Rattle.jvm_model.specs.declared.instr.Sort.TheVariants as sort;
ghost use Rattle.vm_arith.specs.Pure.{GoesOn, HasRow};
ghost use Rattle.vm_frames.specs.Stack.{HasRoom};

use et_base::{add32, mul32, sub32};
use jvm_model::Value;
use vm_arith::{constant, load, store};
use vm_frames::FrameStack;

/// Puts a constant on top (`bipush`, `ldc` and the others).
#[inline(always)]
#[tactic(auto, unfolding(jvm_model::specs::Step::row, jvm_model::specs::RowsMoves::row_moves))]
pub fn push_constant(stack: &mut FrameStack, v: &Value)
    requires { HasRoom 1 stack.old }
    ensures { GoesOn (form.Const v.now) stack.old stack.new }
{
    // Most constants are ints, and a test costs less than a jump by what it is.
    if let Value::Int(n) = v {
        stack.push_int(*n);
    } else {
        constant(stack, *v);
    }
}

/// Puts the local of a slot on top (`iload`; `lload` and `aload` have the same row).
#[inline(always)]
#[tactic(auto, unfolding(jvm_model::specs::Step::row, jvm_model::specs::RowsMoves::row_moves))]
pub fn load_local(stack: &mut FrameStack, local: u16)
    requires row { HasRow (form.Load sort.Int local) stack.old }
    requires room { HasRoom 1 stack.old }
    ensures { GoesOn (form.Load sort.Int local) stack.old stack.new }
{
    load(stack, local);
}

/// Takes the operand on top into the local of a slot (`istore`; `lstore` and `astore` have the same row).
#[inline(always)]
#[tactic(auto, unfolding(jvm_model::specs::Step::row, jvm_model::specs::RowsMoves::row_moves))]
pub fn store_local(stack: &mut FrameStack, local: u16)
    requires { HasRow (form.Store sort.Int local) stack.old }
    ensures { GoesOn (form.Store sort.Int local) stack.old stack.new }
{
    store(stack, local);
}

/// Adds the two ints on top (`iadd`).
#[inline(always)]
#[tactic(auto, unfolding(jvm_model::specs::Step::row, jvm_model::specs::RowsArith::row_arith))]
pub fn add_ints(stack: &mut FrameStack)
    requires { HasRow (form.Binary op.Add false) stack.old }
    ensures { GoesOn (form.Binary op.Add false) stack.old stack.new }
{
    let b = stack.pop_int();
    let a = stack.pop_int();
    stack.push_int(add32(a, b));
}

/// Subtracts the upper one of the two ints on top from the lower one (`isub`).
#[inline(always)]
#[tactic(auto, unfolding(jvm_model::specs::Step::row, jvm_model::specs::RowsArith::row_arith))]
pub fn subtract_ints(stack: &mut FrameStack)
    requires { HasRow (form.Binary op.Sub false) stack.old }
    ensures { GoesOn (form.Binary op.Sub false) stack.old stack.new }
{
    let b = stack.pop_int();
    let a = stack.pop_int();
    stack.push_int(sub32(a, b));
}

/// Multiplies the two ints on top (`imul`).
#[inline(always)]
#[tactic(auto, unfolding(jvm_model::specs::Step::row, jvm_model::specs::RowsArith::row_arith))]
pub fn multiply_ints(stack: &mut FrameStack)
    requires { HasRow (form.Binary op.Mul false) stack.old }
    ensures { GoesOn (form.Binary op.Mul false) stack.old stack.new }
{
    let b = stack.pop_int();
    let a = stack.pop_int();
    stack.push_int(mul32(a, b));
}

/// The bits that both ints on top have (`iand`).
#[inline(always)]
#[tactic(auto, unfolding(jvm_model::specs::Step::row, jvm_model::specs::RowsArith::row_arith))]
pub fn and_ints(stack: &mut FrameStack)
    requires { HasRow (form.Binary op.And false) stack.old }
    ensures { GoesOn (form.Binary op.And false) stack.old stack.new }
{
    let b = stack.pop_int();
    let a = stack.pop_int();
    stack.push_int(a & b);
}
