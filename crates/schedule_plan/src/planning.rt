//! Which worker runs which chains.

ghost use Rattle.std.specs.Prelude.{ℕ, ◌<◌, ◌^◌, length, sum, IfOk};
ghost use Rattle.schedule_plan.specs.Plans.{HaveUnits, IsPlanOf, AreBalanced, LawOfPlans, chain_units};

use crate::order::falling;
use crate::shares::{WorkPlan, shares_of};
use crate::sizes::sizes_of;
use et_base::{Items, NoMemory};
use order_law::Chains;
use std::alloc::Global;

/// A plan of chains for n workers, by the units of each test: chains by falling units, and of as many by their numbers;
/// each goes to the worker of least load, and of these to the first.
pub fn plan(alloc: Global, c: &Chains, units: &[u64], n: u32) -> Result<WorkPlan, NoMemory>
    requires workers { 0 < n }
    requires listed { HaveUnits c.now.lists units.now }
    requires small { sum units.now < 2 ^ 64 }
    ensures plan { IfOk result (λ p. IsPlanOf (chain_units c.now.lists units.now) n p.shares) }
    ensures balanced { IfOk result
        (λ p. AreBalanced (chain_units c.now.lists units.now) n p.shares) }
{
    let sizes = sizes_of(alloc, c, units)?;
    let order = falling(alloc, &sizes)?;
    let shares = shares_of(alloc, &sizes, &order, n)?;
    Ok(WorkPlan {
        shares: Items::from_vec(shares),
    })
}

/// There is one plan of chains of given units for so many workers.
pub fn plan_law()
    ensures { LawOfPlans }
{}
