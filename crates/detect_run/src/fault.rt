//! Why the run of a whole suite was refused.

use et_base::NoMemory;

/// Why the run of a whole suite was refused.
#[derive(Clone, Copy, Debug, PartialEq, Eq)]
pub enum DetectFault {
    /// This test passed its budget, which is at most what was left of the suite's units.
    OverBudget { test: u32, budget: u64 },
    /// This test passed what was left of the suite's units, which is less than its budget.
    OverSuite { test: u32 },
    /// Memory was refused.
    NoMemory,
}

impl From<NoMemory> for DetectFault {
    ghost use Rattle.std.specs.Prelude.{◌≡◌};
    ghost use Rattle.detect_run.specs.declared.fault.DetectFault.TheVariants as fault;

    ghost from_gives = { λ _ e. e ≡ fault.NoMemory };

    fn from(_refused: NoMemory) -> DetectFault {
        DetectFault::NoMemory
    }
}
