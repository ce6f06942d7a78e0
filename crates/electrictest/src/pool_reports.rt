//! The tally of a selection that workers ran.

ghost use Rattle.std.specs.Prelude.{ℕ, ◌≤◌, length, IfOk};
ghost use Rattle.order_law.specs.{Conflicts.Member, Plan.Posted};
ghost use Rattle.run_core.specs.Run.{history};
ghost use Rattle.electrictest.specs.Tallies.{IsTallyOf};

use et_base::NoMemory;
use jvm_model::Names;
use run_core::Core;
use std::alloc::Global;
use test_run::Tally;

/// The tests of a list, which the core has posted, by their outcomes there. The only error is want of memory.
#[tactic(auto, using(crate::proofs::TallyLaws::no_tests, crate::proofs::TallyLaws::few_so_far, crate::proofs::TallyLaws::tally_more))]
pub fn tally_of(alloc: Global, names: &Names, core: &Core, tests: &[u32]) -> Result<Tally, NoMemory>
    requires few { length tests.now ≤ 1024 }
    requires numbers { (t : ℕ) → Member t tests.now → 1 ≤ t }
    requires posted { (t : ℕ) → Member t tests.now → Posted (history core.now) t }
    ensures { IfOk result (IsTallyOf names.now (history core.now) tests.now) }
{
    let mut tally = Tally::new(alloc);
    for index in 0..tests.len() {
        let test = tests[index];
        match core.outcome(test) {
            Some(outcome) => tally.add(alloc, names, test, outcome)?,
            None => unreachable!(),
        }
    }
    Ok(tally)
}
