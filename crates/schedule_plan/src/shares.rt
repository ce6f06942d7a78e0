//! What each worker is given.

ghost use Rattle.std.specs.Prelude.{◌≡◌, ◌<◌, ◌+◌, ◌^◌, [], All, length, sum, replicate, IfOk, OnOk};
ghost use Rattle.schedule_plan.specs.Plans.{IsOrderOf, IsGiven, IsLeastLoaded, ArePlaced, loads_of, no_share, with_chain};

use et_base::{Items, NoMemory};
use std::alloc::Global;

/// The chains of a worker by their numbers, in the order in which they were given to it, and their units.
#[derive(Drop)]
pub struct Share {
    pub chains: Items<u32>,
    pub load: u64,
}

/// Which worker runs which chains: a share for each worker. There are fewer than 2^32 workers, and a share has fewer than
/// 2^32 chains.
#[derive(Drop)]
pub struct WorkPlan {
    pub shares: Items<Share>,
    ghost few: { length shares < 2 ^ 32 },
    ghost short: { All (λ s. length s.chains < 2 ^ 32) shares },
}

/// The shares of n workers, where each chain goes to the worker of least load.
pub fn shares_of(
    alloc: Global,
    sizes: &[u64],
    order: &[u32],
    n: u32,
) -> Result<Vec<Share>, NoMemory>
    requires workers { 0 < n }
    requires order { IsOrderOf sizes.now (length sizes.now) order.now }
    requires small { sum sizes.now < 2 ^ 64 }
    ensures { IfOk result (λ v. ArePlaced sizes.now order.now n v.items) }
{
    let mut shares = empty_shares(alloc, n)?;
    give_all(&mut shares, sizes, order)?;
    Ok(shares)
}

/// Gives each chain of a list to the worker of least load, in their order.
fn give_all(shares: &mut [Share], sizes: &[u64], order: &[u32]) -> Result<(), NoMemory>
    requires workers { 0 < length shares.old }
    requires order { IsOrderOf sizes.now (length sizes.now) order.now }
    requires small { sum sizes.now < 2 ^ 64 }
    requires none { ArePlaced sizes.now [] (length shares.old) shares.old }
    ensures { OnOk result (ArePlaced sizes.now order.now (length shares.old) shares.new) }
{
    for i in 0..order.len() {
        let chain = order[i];
        give(shares, chain, sizes[chain as usize])?;
    }
    Ok(())
}

/// So many shares with no chains.
fn empty_shares(alloc: Global, n: u32) -> Result<Vec<Share>, NoMemory>
    ensures { IfOk result (λ v. v.items ≡ replicate n no_share) }
{
    let mut shares = Vec::new(alloc);
    for _ in 0..n {
        shares.push(Share {
            chains: Items::new(alloc),
            load: 0,
        })?;
    }
    Ok(shares)
}

/// Gives a chain to the worker of least load, and of these to the first.
fn give(shares: &mut [Share], chain: u32, units: u64) -> Result<(), NoMemory>
    requires workers { 0 < length shares.old }
    requires small { loads_of shares.old + units < 2 ^ 64 }
    ensures { OnOk result (IsGiven shares.old chain units shares.new) }
{
    let worker = least_loaded(shares);
    add(&mut shares[worker], chain, units)
}

/// Adds a chain to a share.
fn add(share: &mut Share, chain: u32, units: u64) -> Result<(), NoMemory>
    requires { share.old.load + units < 2 ^ 64 }
    ensures { OnOk result (share.new ≡ with_chain share.old chain units) }
{
    share.chains.push(chain)?;
    share.load += units;
    Ok(())
}

/// The first share of least load.
fn least_loaded(shares: &[Share]) -> usize
    requires { 0 < length shares.now }
    ensures { IsLeastLoaded shares.now (length shares.now) result }
{
    let mut least = 0;
    for worker in 1..shares.len() {
        if shares[worker].load < shares[least].load {
            least = worker;
        }
    }
    least
}
