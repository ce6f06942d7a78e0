//! What a run asks of a program and of its list.

ghost use Rattle.std.specs.Prelude.{◌≡◌, ◌++◌, ◌∷◌, [], IfOk};
ghost use Rattle.jvm_model.specs.State.{test_at};
ghost use Rattle.test_run.specs.Running.{IsTest};

use et_base::{Items, NoMemory};
use jvm_model::Program;
use std::alloc::Global;

/// The budget of a test.
pub(crate) fn budget_of(p: &Program, test: u32) -> u64
    requires { IsTest p.now test }
    ensures { result ≡ (test_at p.now test).budget }
{
    match p.tests.get((test - 1) as usize) {
        None => 0,
        Some(entry) => entry.budget,
    }
}

/// A copy of a list with a test at its end. The only error is want of memory.
pub(crate) fn with_last(alloc: Global, list: &[u32], test: u32) -> Result<Items<u32>, NoMemory>
    ensures { IfOk result (λ longer. longer ≡ list.now ++ test ∷ []) }
{
    let mut longer = Items::from_slice(alloc, list)?;
    longer.push(test)?;
    Ok(longer)
}
