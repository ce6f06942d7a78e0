//! The units of chains.

ghost use Rattle.std.specs.Prelude.{◌≡◌, ℕ, ◌^◌, ◌<◌, ◌≤◌, length, sum, IfOk};
ghost use Rattle.order_law.specs.Conflicts.{Member, Distinct};
ghost use Rattle.schedule_plan.specs.Plans.{HasUnits, HaveUnits, units_of, chain_units};

use et_base::NoMemory;
use order_law::Chains;
use std::alloc::Global;

/// The units of each chain.
pub fn sizes_of(alloc: Global, c: &Chains, units: &[u64]) -> Result<Vec<u64>, NoMemory>
    requires listed { HaveUnits c.now.lists units.now }
    requires small { sum units.now < 2 ^ 64 }
    ensures sizes { IfOk result (λ v. v.items ≡ chain_units c.now.lists units.now) }
    ensures few { IfOk result (λ v. length v.items < 2 ^ 32) }
{
    let mut sizes = Vec::new(alloc);
    for list in c.lists.as_slice() {
        sizes.push(total(list.as_slice(), units))?;
    }
    Ok(sizes)
}

/// The units of different tests.
fn total(list: &[u32], units: &[u64]) -> u64
    requires apart { Distinct list.now }
    requires listed { HasUnits list.now units.now }
    requires small { sum units.now < 2 ^ 64 }
    ensures total { result ≡ units_of units.now list.now }
    ensures numbers { (t : ℕ) → Member t list.now → t < 2 ^ 32 }
{
    let mut total = 0;
    for i in 0..list.len() {
        total += units[list[i] as usize - 1];
    }
    total
}
