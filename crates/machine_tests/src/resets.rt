//! A machine that is set back.

ghost use Rattle.std.specs.Prelude.{◌≡◌, ◌<◌, ◌≤◌, false, length};

use crate::memories::{Trial, passes_over, reports};
use crate::suites::{COUNTER_FILES, COUNTER_LINES, Question, is_so};
use outside::Steps;
use std::alloc::Global;
use std::marker::Brand;
use std::sync::ledger::{Blank, Ledger};
use std::test::Fail;
use suite_load::Loaded;
use test_run::{Machine, RunFault};
use vm_heap::RegionMemory;

// Whether the first test would pass so many units, so that the machine refuses it and is spent.
fn is_refused<L: Ledger>(machine: &mut Machine<'_, RegionMemory>, units: u64, blank: Blank) -> bool
    requires name { blank.name ≡ L.name }
    requires parts { blank.parts ≡ L.parts }
    requires some { 0 < blank.parts }
    requires some_test { 0 < length machine.old.program.tests }
    requires ready { machine.old.spent ≡ false }
    ensures { machine.new.program ≡ machine.old.program }
{
    let mut steps = Steps::<L>::new(blank);
    let given = machine.run_within(1, units, &mut steps);
    matches!(given, Err(RunFault::OverBudget { test: 1 })) && machine.is_spent()
}

// The tests have these lines in a report, again when the machine is set back, and once more when
// it is set back after a refusal.
#[derive(Drop)]
struct LinesAgain(&'static [u8]);

impl Trial<RegionMemory> for LinesAgain {
    fn passes(
        &self,
        alloc: Global,
        loaded: &Loaded,
        machine: &mut Machine<'_, RegionMemory>,
    ) -> Result<bool, RunFault> {
        let first = reports(alloc, loaded, machine, self.0)?;
        machine.reset();
        let again = reports(alloc, loaded, machine, self.0)?;
        if loaded.checked.program().tests.is_empty() {
            return Ok(false);
        }
        let refused = is_refused::<Brand>(machine, 2, Blank::new(1));
        machine.reset();
        let last = reports(alloc, loaded, machine, self.0)?;
        Ok(first && again && refused && last)
    }
}

impl Question for LinesAgain {
    fn holds(&self, alloc: Global, suite: &Loaded) -> Result<bool, Fail> {
        Ok(passes_over::<RegionMemory, LinesAgain>(alloc, suite, self)?)
    }
}

#[test]
fn a_machine_that_is_set_back_reports_the_same(rt: HostRuntime) -> Result<(), Fail> {
    assert!(rt; is_so(rt.alloc(), &COUNTER_FILES, &LinesAgain(COUNTER_LINES))?);
    Ok(())
}
