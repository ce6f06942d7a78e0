//! Calls that take memory, with ample memory.

use jvm_model::{EntryKind, Value};
use std::alloc::Global;
use vm_frames::{FrameStack, PushFault};

// Whether a method finds its arguments as its locals, and its caller is on top after it.
fn are_entered_and_left(alloc: Global) -> Result<bool, PushFault> {
    let mut stack = FrameStack::new(alloc);
    stack.push(7, 2, Some(Value::Obj(5)))?;
    stack.push_value(Value::Long(9));
    stack.push_int(3);
    stack.enter(8, 4, 2)?;
    let first = stack.local(0);
    let third = stack.local(2);
    stack.pop();
    let is_below = stack.number() == 7 && stack.kind_below() == EntryKind::Absent;
    Ok(is_below && first == Value::Long(9) && third == Value::Int(3))
}

#[test]
fn frames_are_entered_and_left(rt: HostRuntime) {
    assert!(rt; are_entered_and_left(rt.alloc()).unwrap_or(false));
}

fn is_initialised(alloc: Global) -> Result<bool, PushFault> {
    let mut stack = FrameStack::new(alloc);
    stack.push_init(3)?;
    Ok(stack.kind() == EntryKind::InClass { entered: false })
}

#[test]
fn classes_are_initialised(rt: HostRuntime) {
    assert!(rt; is_initialised(rt.alloc()).unwrap_or(false));
}
