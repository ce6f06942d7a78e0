//! What runs in threads.

ghost use Rattle.std.specs.Prelude.{◌≡◌};

use crate::jobs::Jobs;
use crate::slots::Slot;
use outside::{Gate, Steps};
use std::marker::Brand;
use std::sync::Wait;
use std::sync::ledger::{Blank, Ledger};
use std::thread;
use std::thread::Threads;
use test_run::PoolName;

/// Takes jobs until all deques were found empty, or one said that the worker may take no more. It counts on a ledger of its
/// own.
fn work_counted<N: PoolName, J: Jobs<N>, R: Wait, G: Gate, L: Ledger>(
    rt: &R,
    jobs: &J,
    gate: &G,
    slot: &mut Slot<'_, N>,
    blank: Blank,
)
    requires name { blank.name ≡ L.name }
    requires parts { (blank.parts ≡ L.parts) × (blank.parts ≡ 1) }
{
    let mut steps = Steps::<L>::new(blank);
    for _ in rt.forever() {
        let Some(number) = slot.next_number(rt) else {
            return;
        };
        let worker = slot.worker;
        if !jobs.take(rt, gate, worker, &mut slot.machine, number, &mut steps) {
            return;
        }
    }
}

/// Takes jobs until all deques were found empty, or one said that the worker may take no more.
fn work<N: PoolName, J: Jobs<N>, R: Wait, G: Gate>(
    rt: &R,
    jobs: &J,
    gate: &G,
    slot: &mut Slot<'_, N>,
) {
    work_counted::<N, J, R, G, Brand>(rt, jobs, gate, slot, Blank::new(1))
}

/// Lets all workers work, each in a thread where one can be made, until all deques were found empty or a job said that its
/// worker may take no more. What they count is dropped.
pub fn work_all<N, J, R, G>(rt: &R, jobs: &J, gate: &G, slots: &mut [Slot<'_, N>])
where
    N: PoolName + Send + Sync,
    J: Jobs<N> + Sync,
    R: Threads + Wait + Sync,
    G: Gate + Sync,
{
    let workers = slots.len();
    if workers > 0 {
        thread::for_each_mut(
            rt,
            slots,
            workers,
            &|_, slot| { work(rt, jobs, gate, slot) },
        );
    }
}
