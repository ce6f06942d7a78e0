//! Constants, loads, stores, moves of operands and monitors. A value of type long is one operand, in whichever number of
//! places the instruction's description counts it (JVMS 2.6.2).
#![tactic(auto, unfolding(jvm_model::specs::Step::row, jvm_model::specs::RowsMoves::row_moves))]

ghost use Rattle.std.specs.Prelude.{◌≡◌, ◌<◌, length};
ghost use Rattle.jvm_model.specs.declared.instr.Sort.{Sort};
ghost use Rattle.jvm_model.specs.declared.instr.Instr.TheVariants as form;
ghost use Rattle.jvm_model.specs.RowsMoves as moves;
ghost use Rattle.vm_frames.specs.Stack.{HasRoom};
ghost use Rattle.vm_arith.specs.Pure.{HasRow, IsThere, GoesOn, Continues, Ends};

use jvm_model::{NULL_POINTER_EXCEPTION, Next, Value};
use vm_frames::FrameStack;

/// Puts a constant on top (`aconst_null`, `iconst_<i>`, `lconst_<l>`, `bipush`, `sipush`, `ldc`, `ldc2_w`).
#[inline(always)]
pub fn constant(stack: &mut FrameStack, v: Value)
    requires { HasRoom 1 stack.old }
    ensures { GoesOn (form.Const v) stack.old stack.new }
{
    stack.push_value(v);
}

/// Puts a local on top (`iload`, `lload`, `aload`).
pub fn load(stack: &mut FrameStack, local: u16)
    requires place { local < length stack.old.top.locals }
    requires room { HasRoom 1 stack.old }
    ensures { (of : Sort) → GoesOn (form.Load of local) stack.old stack.new }
{
    stack.load(local);
}

/// Takes the top operand into a local (`istore`, `lstore`, `astore`).
pub fn store(stack: &mut FrameStack, local: u16)
    requires operand { 0 < length stack.old.top.stack }
    requires place { local < length stack.old.top.locals }
    ensures { (of : Sort) → GoesOn (form.Store of local) stack.old stack.new }
{
    stack.store(local);
}

/// Takes the top operand (`pop`).
pub fn pop(stack: &mut FrameStack)
    requires { HasRow form.Pop stack.old }
    ensures { GoesOn form.Pop stack.old stack.new }
{
    stack.pop_value();
}

/// Takes the long on top, or the two top operands (`pop2`).
pub fn pop2(stack: &mut FrameStack)
    requires { HasRow form.Pop2 stack.old }
    ensures { GoesOn form.Pop2 stack.old stack.new }
{
    let a = stack.pop_value();
    if !is_long(a) {
        stack.pop_value();
    }
}

/// Puts the top operand on top once more (`dup`).
pub fn dup(stack: &mut FrameStack)
    requires row { HasRow form.Dup stack.old }
    requires room { HasRoom 1 stack.old }
    ensures { GoesOn form.Dup stack.old stack.new }
{
    stack.dup();
}

/// Puts the top operand below the one under it as well (`dup_x1`).
#[inline(always)]
pub fn dup_x1(stack: &mut FrameStack)
    requires row { HasRow form.DupX1 stack.old }
    requires room { HasRoom 1 stack.old }
    ensures { GoesOn form.DupX1 stack.old stack.new }
{
    stack.dup_x1();
}

/// Puts the top operand below the long under it as well, or below the two operands under it (`dup_x2`).
pub fn dup_x2(stack: &mut FrameStack)
    requires row { HasRow form.DupX2 stack.old }
    requires room { HasRoom 1 stack.old }
    ensures { GoesOn form.DupX2 stack.old stack.new }
{
    let a = stack.pop_value();
    let b = stack.pop_value();
    put_under_long(stack, a, b);
}

/// Puts the long on top there once more, or the two top operands (`dup2`).
#[inline(always)]
pub fn dup2(stack: &mut FrameStack)
    requires row { HasRow form.Dup2 stack.old }
    requires room { HasRoom 2 stack.old }
    ensures { GoesOn form.Dup2 stack.old stack.new }
{
    if stack.is_long(0) {
        stack.dup();
    } else {
        stack.push_operand(1);
        stack.push_operand(1);
    }
}

/// Puts the long on top below the operand under it as well, or the two top operands (`dup2_x1`).
pub fn dup2_x1(stack: &mut FrameStack)
    requires row { HasRow form.Dup2X1 stack.old }
    requires room { HasRoom 2 stack.old }
    ensures { GoesOn form.Dup2X1 stack.old stack.new }
{
    let a = stack.pop_value();
    let b = stack.pop_value();
    if is_long(a) {
        stack.push_value(a);
    } else {
        let c = stack.pop_value();
        stack.push_value(b);
        stack.push_value(a);
        stack.push_value(c);
    }
    stack.push_value(b);
    stack.push_value(a);
}

/// Puts the long on top, or the two top operands, below the long under it as well, or below the two operands under it
/// (`dup2_x2`).
pub fn dup2_x2(stack: &mut FrameStack)
    requires row { HasRow form.Dup2X2 stack.old }
    requires room { HasRoom 2 stack.old }
    ensures { GoesOn form.Dup2X2 stack.old stack.new }
{
    let a = stack.pop_value();
    let b = stack.pop_value();
    if is_long(a) {
        put_under_long(stack, a, b);
    } else {
        put_two_under(stack, a, b);
    }
}

/// Swaps the two top operands (`swap`).
pub fn swap(stack: &mut FrameStack)
    requires { HasRow form.Swap stack.old }
    ensures { GoesOn form.Swap stack.old stack.new }
{
    let a = stack.pop_value();
    let b = stack.pop_value();
    stack.push_value(a);
    stack.push_value(b);
}

/// Takes an object; null throws (`monitorenter`, `monitorexit`).
pub fn monitor(stack: &mut FrameStack) -> Next
    requires { HasRow form.Monitor stack.old }
    ensures { Ends form.Monitor result stack.old stack.new }
{
    match stack.pop_value() {
        Value::Null => Next::Fault {
            class: NULL_POINTER_EXCEPTION,
        },
        Value::Lit(_) | Value::Obj(_) => Next::Go,
        Value::Int(_) | Value::Long(_) => unreachable!(),
    }
}

/// Whether an operand counts as two places (JVMS 2.6.2).
fn is_long(v: Value) -> bool
    ensures { result ≡ moves.is_long v }
{
    match v {
        Value::Long(_) => true,
        Value::Int(_) | Value::Null | Value::Lit(_) | Value::Obj(_) => false,
    }
}

/// Puts back `a` and `b` under it, and `a` below `b` if this is a long, else below the operand under it.
fn put_under_long(stack: &mut FrameStack, a: Value, b: Value)
    requires row { IsThere (λ p s. moves.two_under_long p s a b s.top.stack) stack.old }
    requires room { HasRoom 3 stack.old }
    ensures { Continues (λ p s. moves.two_under_long p s a b s.top.stack) stack.old stack.new }
{
    if is_long(b) {
        stack.push_value(a);
    } else {
        let c = stack.pop_value();
        stack.push_value(a);
        stack.push_value(c);
    }
    stack.push_value(b);
    stack.push_value(a);
}

/// Puts back `a` and `b` under it, and both below the long under them, else below the two operands there.
fn put_two_under(stack: &mut FrameStack, a: Value, b: Value)
    requires row { IsThere (λ p s. moves.two_under_two p s a b s.top.stack) stack.old }
    requires room { HasRoom 4 stack.old }
    ensures { Continues (λ p s. moves.two_under_two p s a b s.top.stack) stack.old stack.new }
{
    let c = stack.pop_value();
    if is_long(c) {
        stack.push_value(b);
        stack.push_value(a);
    } else {
        let d = stack.pop_value();
        stack.push_value(b);
        stack.push_value(a);
        stack.push_value(d);
    }
    stack.push_value(c);
    stack.push_value(b);
    stack.push_value(a);
}
