//! Branches and switches.
#![tactic(auto, unfolding(jvm_model::specs::Step::row, jvm_model::specs::RowsBranches::row_branches))]

ghost use Rattle.std.specs.Prelude.{◌≡◌, ◌<◌, length};
ghost use Rattle.jvm_model.specs.declared.instr.Instr.TheVariants as form;
ghost use Rattle.jvm_model.specs.RowsBranches as branches;
ghost use Rattle.vm_frames.specs.Stack.{HasIntOnTop};
ghost use Rattle.vm_arith.specs.Pure.{HasIntsOnTop, Branches, GoesTo};

use jvm_model::{IfTest, Value};
use vm_frames::FrameStack;

/// Takes an int, and answers whether the branch is taken: whether the test holds of it and 0 (`if<cond>`).
pub fn if_zero(stack: &mut FrameStack, test: IfTest) -> bool
    requires { HasIntOnTop stack.old.top.stack }
    ensures { Branches (form.IfZero test) result stack.old stack.new }
{
    holds(test, stack.pop_int(), 0)
}

/// Takes two ints, and answers whether the branch is taken: whether the test holds of the lower one and the upper
/// (`if_icmp<cond>`).
pub fn if_ints(stack: &mut FrameStack, test: IfTest) -> bool
    requires { HasIntsOnTop stack.old.top.stack }
    ensures { Branches (form.IfInts test) result stack.old stack.new }
{
    let b = stack.pop_int();
    let a = stack.pop_int();
    holds(test, a, b)
}

/// Takes two references, and answers whether the branch is taken: whether they are the same, or whether they differ
/// (`if_acmp<cond>`).
pub fn if_refs(stack: &mut FrameStack, same: bool) -> bool
    requires { 1 < length stack.old.top.stack }
    ensures { Branches (form.IfRefs same) result stack.old stack.new }
{
    let b = stack.pop_value();
    let a = stack.pop_value();
    same_reference(a, b) == same
}

/// Takes a reference, and answers whether the branch is taken: whether it is null, or whether it isn't (`ifnull`,
/// `ifnonnull`).
pub fn if_null(stack: &mut FrameStack, null: bool) -> bool
    requires { 0 < length stack.old.top.stack }
    ensures { Branches (form.IfNull null) result stack.old stack.new }
{
    is_null(stack.pop_value()) == null
}

/// Takes an int, and answers its place among the targets from that of `low` on, or `other` past them (`tableswitch`).
pub fn table_switch(stack: &mut FrameStack, low: i32, targets: &[u32], other: u32) -> u32
    requires { HasIntOnTop stack.old.top.stack }
    ensures { GoesTo (form.Table low targets.now other) result stack.old stack.new }
{
    table_target(low, targets, other, stack.pop_int())
}

/// Takes an int, and answers the target that is paired with it, or `other` (`lookupswitch`).
pub fn lookup_switch(stack: &mut FrameStack, pairs: &[(i32, u32)], other: u32) -> u32
    requires { HasIntOnTop stack.old.top.stack }
    ensures { GoesTo (form.Lookup pairs.now other) result stack.old stack.new }
{
    lookup_target(pairs, other, stack.pop_int())
}

/// Whether a test holds of two ints.
fn holds(test: IfTest, a: i32, b: i32) -> bool
    ensures { result ≡ branches.holds test a b }
{
    match test {
        IfTest::Eq => a == b,
        IfTest::Ne => a != b,
        IfTest::Lt => a < b,
        IfTest::Ge => a >= b,
        IfTest::Gt => a > b,
        IfTest::Le => a <= b,
    }
}

/// Whether two references are the same.
fn same_reference(a: Value, b: Value) -> bool
    ensures { result ≡ branches.same_reference a b }
{
    match (a, b) {
        (Value::Null, Value::Null) => true,
        (Value::Lit(m), Value::Lit(n)) => m == n,
        (Value::Obj(m), Value::Obj(n)) => m == n,
        _ => false,
    }
}

/// Whether a reference is null.
fn is_null(v: Value) -> bool
    ensures { result ≡ branches.is_null v }
{
    match v {
        Value::Null => true,
        Value::Int(_) | Value::Long(_) | Value::Lit(_) | Value::Obj(_) => false,
    }
}

/// The target of a `tableswitch`.
#[tactic(auto, unfolding(jvm_model::specs::RowsBranches::table_target))]
fn table_target(low: i32, targets: &[u32], other: u32, n: i32) -> u32
    ensures { result ≡ branches.table_target low targets.now other n }
{
    if n < low {
        return other;
    }
    match targets.get(n.abs_diff(low) as usize) {
        Some(to) => *to,
        None => other,
    }
}

/// The target of a `lookupswitch`.
#[tactic(auto, unfolding(jvm_model::specs::RowsBranches::lookup_target))]
fn lookup_target(pairs: &[(i32, u32)], other: u32, n: i32) -> u32
    ensures { result ≡ branches.lookup_target pairs.now other n }
{
    for (key, to) in pairs {
        if *key == n {
            return *to;
        }
    }
    other
}
