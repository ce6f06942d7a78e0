//! Why the chains of a plan weren't run to their end.

use et_base::{Items, NoMemory};

/// Why the chains of a plan weren't run to their end.
#[derive(Debug, Drop)]
pub enum PlanFault {
    /// The units of this test, run by this worker after the list that it posted, would pass its budget.
    OverBudget {
        worker: u32,
        test: u32,
        list: Items<u32>,
    },
    /// Memory was refused.
    NoMemory,
}

impl From<NoMemory> for PlanFault {
    ghost use Rattle.std.specs.Prelude.{◌≡◌};
    ghost use Rattle.worker_pool.specs.declared.plan_fault.PlanFault.TheVariants as fault;

    ghost from_gives = { λ _ e. e ≡ fault.NoMemory };

    fn from(_refused: NoMemory) -> PlanFault {
        PlanFault::NoMemory
    }
}
