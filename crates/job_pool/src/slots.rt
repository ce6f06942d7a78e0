//! The workers of a pool.

ghost use Rattle.std.specs.Prelude.{◌≡◌, ◌<◌, ◌≤◌, ◌^◌, All, length, vec_len, IfOk};
ghost use Rattle.job_pool.specs.Filled.{chains_of};

use crate::machines::fresh_machine;
use chain_deque::{Chain, ChainOwner, Thief};
use et_base::{Items, NoMemory};
use std::alloc::Global;
use std::marker::PhantomData;
use std::sync::Wait;
use test_run::{Machine, PoolName};
use type_frames::Checked;
use vm_heap::RegionMemory;

/// A worker: its own deque, its thieves of the others in rising number round from its own, and its machine.
#[derive(Drop)]
pub struct Slot<'p, N: PoolName> {
    pub worker: u32,
    pub machine: Machine<'p, RegionMemory>,
    pub owner: ChainOwner,
    thieves: Vec<Thief>,
    of: PhantomData<N>,
    ghost program: { machine.program ≡ N.program },
    ghost number: { machine.worker ≡ worker },
    ghost range: { (0 < worker) × (worker ≤ N.workers) },
}

impl<'p, N: PoolName> Slot<'p, N> {
    /// A worker with jobs of these numbers and a fresh machine, and no thieves yet. The only error is want of memory.
    fn new(
        alloc: Global,
        p: &'p Checked,
        worker: u32,
        numbers: &[u32],
    ) -> Result<Slot<'p, N>, NoMemory>
        requires program { p.now ≡ N.program }
        requires worker { (0 < worker) × (worker ≤ N.workers) }
        requires short { length numbers.now < 2 ^ 32 }
        ensures worker { IfOk result (λ s. s.worker ≡ worker) }
        ensures filled { IfOk result (λ s. s.owner.seen.pushed ≡ chains_of numbers.now) }
    {
        let owner = owner_of(alloc, numbers)?;
        let machine = fresh_machine(alloc, p, worker)?;
        Ok(Slot {
            worker,
            machine,
            owner,
            thieves: Vec::new(alloc),
            of: PhantomData,
        })
    }

    /// The number of the next job: from the own deque, and then from the others in turn. None where each was found empty.
    pub fn next_number<R: Wait>(&mut self, rt: &R) -> Option<u32> {
        if let Some(chain) = self.owner.pop() {
            return Some(chain.number);
        }
        for thief in self.thieves.iter_mut() {
            if let Some(chain) = thief.steal(rt) {
                return Some(chain.number);
            }
        }
        None
    }

    /// Its machine, which may be spent.
    pub fn into_machine(self) -> Machine<'p, RegionMemory>
        ensures program { result.program ≡ N.program }
        ensures worker { result.worker ≡ self.entry.worker }
    {
        self.machine
    }
}

/// A deque onto which the chains of these numbers were pushed, in order. The only error is want of memory.
fn owner_of(alloc: Global, numbers: &[u32]) -> Result<ChainOwner, NoMemory>
    requires { length numbers.now < 2 ^ 32 }
    ensures { IfOk result (λ o. o.seen.pushed ≡ chains_of numbers.now) }
{
    let mut owner = ChainOwner::new(alloc, numbers.len() as u32)?;
    for number in numbers {
        owner.push(Chain { number: *number });
    }
    Ok(owner)
}

/// Gives each worker a thief of each other, in rising number round from its own. The only error is want of memory.
fn lend<N: PoolName>(slots: &mut Vec<Slot<'_, N>>) -> Result<(), NoMemory>
    ensures { vec_len slots.new ≡ vec_len slots.old }
{
    let workers = slots.len();
    for to in 0..workers {
        for step in 1..workers {
            let from = if step < workers - to {
                to + step
            } else {
                step - (workers - to)
            };
            let thief = slots[from].owner.thief()?;
            slots[to].thieves.push(thief)?;
        }
    }
    Ok(())
}

/// A worker for each list of numbers, with a fresh machine and thieves of all others. The only error is want of memory.
pub fn slots_of<'p, N: PoolName>(
    alloc: Global,
    p: &'p Checked,
    lists: &[Items<u32>],
) -> Result<Vec<Slot<'p, N>>, NoMemory>
    requires program { p.now ≡ N.program }
    requires workers { (length lists.now ≡ N.workers) × (N.workers < 2 ^ 32) }
    requires short { All (λ l. length l < 2 ^ 32) lists.now }
    ensures { IfOk result (λ slots. vec_len slots ≡ N.workers) }
{
    let mut slots = Vec::new(alloc);
    for index in 0..lists.len() {
        let numbers = lists[index].as_slice();
        slots.push(Slot::<N>::new(alloc, p, index as u32 + 1, numbers)?)?;
    }
    lend::<N>(&mut slots)?;
    Ok(slots)
}
