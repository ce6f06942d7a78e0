//! Why a test was not run to its end.

use et_base::NoMemory;

/// Why a test was not run to its end.
#[derive(Clone, Copy, Debug, PartialEq, Eq)]
pub enum RunFault {
    /// A step's cost would bring the units of this test above its budget.
    OverBudget { test: u32 },
    /// Memory was refused.
    NoMemory,
}

impl From<NoMemory> for RunFault {
    ghost use Rattle.std.specs.Prelude.{◌≡◌};
    ghost use Rattle.test_run.specs.declared.run_fault.RunFault.TheVariants as fault;

    ghost from_gives = { λ _ e. e ≡ fault.NoMemory };

    fn from(_refused: NoMemory) -> RunFault {
        RunFault::NoMemory
    }
}
