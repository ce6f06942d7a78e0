//! The step of a form that touches nothing.
#![tactic(auto, unfolding(jvm_model::specs::Step::row))]

ghost use Rattle.std.specs.Prelude.{◌≡◌, cond};
ghost use Rattle.vm_frames.specs.Stack.{HasRoom};
ghost use Rattle.vm_arith.specs.Pure.{HasRow, Ends, GoesFrom, IsMove, IsArithmetic, IsBranch, TouchesNothing, IsStep, growth};

use crate::branches::{if_ints, if_null, if_refs, if_zero, lookup_switch, table_switch};
use crate::moves::{
    constant, dup, dup_x1, dup_x2, dup2, dup2_x1, dup2_x2, load, monitor, pop, pop2, store, swap,
};
use crate::numbers::{binary_ints, binary_longs, compare, convert, increase, neg_int, neg_long};
use jvm_model::{Instr, Next};
use vm_frames::FrameStack;

/// Makes the step of a constant, load, store, move, monitor, operation, conversion, comparison or branch, with the byte
/// place of the next instruction. It answers Over where no unit is left, and the entries are then as before; Fault
/// counts nothing, and else 1 is counted.
pub fn arith(stack: &mut FrameStack, form: &Instr, next: u32, left: &mut u64) -> Next
    requires form { TouchesNothing form.now }
    requires row { HasRow form.now stack.old }
    requires room { HasRoom (growth form.now) stack.old }
    ensures { IsStep form.now next left.old result stack.old stack.new left.new }
{
    if *left == 0 {
        return Next::Over;
    }
    let answer = match form {
        Instr::IfZero { .. }
        | Instr::IfInts { .. }
        | Instr::IfRefs { .. }
        | Instr::IfNull { .. }
        | Instr::Goto { .. }
        | Instr::Table { .. }
        | Instr::Lookup { .. } => {
            let to = branch(stack, form, next);
            stack.set_pc(to);
            *left -= 1;
            return Next::Go;
        }
        Instr::Binary { .. }
        | Instr::Neg { .. }
        | Instr::Inc { .. }
        | Instr::Convert { .. }
        | Instr::Compare => calculate(stack, form),
        _ => move_operands(stack, form),
    };
    if let Next::Go = answer {
        stack.set_pc(next);
        *left -= 1;
    }
    answer
}

/// Constants, loads, stores, moves of operands and monitors.
#[tactic(auto, unfolding(jvm_model::specs::Step::row, jvm_model::specs::RowsMoves::row_moves))]
fn move_operands(stack: &mut FrameStack, form: &Instr) -> Next
    requires form { IsMove form.now }
    requires row { HasRow form.now stack.old }
    requires room { HasRoom (growth form.now) stack.old }
    ensures { Ends form.now result stack.old stack.new }
{
    match form {
        Instr::Nop => {}
        Instr::Const(v) => constant(stack, *v),
        Instr::Load { local, .. } => load(stack, *local),
        Instr::Store { local, .. } => store(stack, *local),
        Instr::Pop => pop(stack),
        Instr::Pop2 => pop2(stack),
        Instr::Dup => dup(stack),
        Instr::DupX1 => dup_x1(stack),
        Instr::DupX2 => dup_x2(stack),
        Instr::Dup2 => dup2(stack),
        Instr::Dup2X1 => dup2_x1(stack),
        Instr::Dup2X2 => dup2_x2(stack),
        Instr::Swap => swap(stack),
        Instr::Monitor => return monitor(stack),
        _ => unreachable!(),
    }
    Next::Go
}

/// Operations, conversions and comparison.
fn calculate(stack: &mut FrameStack, form: &Instr) -> Next
    requires form { IsArithmetic form.now }
    requires row { HasRow form.now stack.old }
    ensures { Ends form.now result stack.old stack.new }
{
    match form {
        Instr::Binary { op, wide: false } => return binary_ints(stack, *op),
        Instr::Binary { op, wide: true } => return binary_longs(stack, *op),
        Instr::Neg { wide: false } => neg_int(stack),
        Instr::Neg { wide: true } => neg_long(stack),
        Instr::Inc { local, by } => increase(stack, *local, *by),
        Instr::Convert { to } => convert(stack, *to),
        Instr::Compare => compare(stack),
        _ => unreachable!(),
    }
    Next::Go
}

/// The place where a branch or a switch goes on.
#[tactic(auto, unfolding(jvm_model::specs::Step::row, jvm_model::specs::RowsBranches::row_branches))]
fn branch(stack: &mut FrameStack, form: &Instr, next: u32) -> u32
    requires form { IsBranch form.now }
    requires row { HasRow form.now stack.old }
    ensures { GoesFrom form.now next result stack.old stack.new }
{
    match form {
        Instr::IfZero { test, to } => target(if_zero(stack, *test), *to, next),
        Instr::IfInts { test, to } => target(if_ints(stack, *test), *to, next),
        Instr::IfRefs { same, to } => target(if_refs(stack, *same), *to, next),
        Instr::IfNull { null, to } => target(if_null(stack, *null), *to, next),
        Instr::Goto { to } => *to,
        Instr::Table {
            low,
            targets,
            other,
        } => table_switch(stack, *low, targets.as_slice(), *other),
        Instr::Lookup { pairs, other } => lookup_switch(stack, pairs.as_slice(), *other),
        _ => unreachable!(),
    }
}

/// The target of a branch that is taken, else the next instruction's place.
fn target(taken: bool, to: u32, next: u32) -> u32
    ensures { result ≡ cond taken to next }
{
    if taken { to } else { next }
}
