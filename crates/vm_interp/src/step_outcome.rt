use jvm_model::Verdict;

/// How a step ended. `Running` says that the test goes on, `Done` that it ended with this verdict and what it printed so
/// far, and `OutOfBudget` that the step's cost is above the units left; the memory isn't used on then.
#[derive(Drop)]
pub enum StepOutcome {
    Running,
    Done(Verdict),
    OutOfBudget,
}
