//! Tests of the queue of chains.

use chain_deque::{Chain, ChainOwner};
use et_base::NoMemory;
use std::alloc::Global;
use std::sync::Wait;

// Whether two chains leave by either end in the order of their pushes, and leave the queue empty.
fn leave_in_order(alloc: Global, rt: &impl Wait) -> Result<bool, NoMemory> {
    let mut owner = ChainOwner::new(alloc, 2)?;
    owner.push(Chain { number: 1 });
    owner.push(Chain { number: 2 });
    let mut thief = owner.thief()?;
    let taken = [thief.steal(rt), owner.pop(), owner.pop(), thief.steal(rt)];
    owner.rejoin(thief);
    let left = owner.left();
    let first = Some(Chain { number: 1 });
    let second = Some(Chain { number: 2 });
    Ok(left == 0 && taken == [first, second, None, None])
}

#[test]
fn chains_leave_in_the_order_of_their_pushes(rt: HostRuntime) {
    assert!(rt; leave_in_order(rt.alloc(), &rt).unwrap_or(false));
}
