//! Calls with ample memory.
#![tactic(auto, unfolding(jvm_model::specs::Step::row, jvm_model::specs::RowsMoves::row_moves, jvm_model::specs::RowsArith::row_arith))]

use jvm_model::{IfTest, Instr, Next, Op};
use std::alloc::Global;
use vm_arith::{arith, binary_ints, if_ints};
use vm_frames::{FrameStack, PushFault};

fn throws(alloc: Global) -> Result<bool, PushFault> {
    let mut stack = FrameStack::new(alloc);
    stack.push(7, 1, None)?;
    stack.push_int(5);
    stack.push_int(0);
    Ok(binary_ints(&mut stack, Op::Div) == Next::Fault { class: 20 })
}

#[test]
fn division_by_zero_throws(rt: HostRuntime) {
    assert!(rt; throws(rt.alloc()).unwrap_or(false));
}

fn branches(alloc: Global) -> Result<bool, PushFault> {
    let mut stack = FrameStack::new(alloc);
    stack.push(7, 1, None)?;
    stack.push_int(-5);
    stack.push_int(3);
    Ok(if_ints(&mut stack, IfTest::Lt))
}

#[test]
fn a_branch_is_taken(rt: HostRuntime) {
    assert!(rt; branches(rt.alloc()).unwrap_or(false));
}

fn counts_one(alloc: Global) -> Result<bool, PushFault> {
    let mut stack = FrameStack::new(alloc);
    let mut left = 9;
    stack.push(7, 1, None)?;
    stack.push_int(4);
    let next = arith(&mut stack, &Instr::Dup, 1, &mut left);
    Ok(next == Next::Go && left == 8 && stack.pc() == 1)
}

#[test]
fn a_step_counts_one(rt: HostRuntime) {
    assert!(rt; counts_one(rt.alloc()).unwrap_or(false));
}
