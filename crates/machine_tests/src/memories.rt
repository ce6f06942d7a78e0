//! The tests of a suite over each memory, and on a machine that is set back.

ghost use Rattle.std.specs.Prelude.{◌≡◌, ◌<◌, false, OnOk};

use crate::suites::{
    COUNTER_FILES, COUNTER_LINES, M_FILES, M_LINES, Question, R_FILES, R_LINES, is_so,
};
use et_base::{NoMemory, Text};
use jvm_model::{Location, Program};
use outside::Steps;
use std::alloc::Global;
use std::marker::Brand;
use std::sync::ledger::{Blank, Ledger};
use std::test::Fail;
use suite_load::Loaded;
use test_run::{Machine, RunFault, outcome_lines};
use vm_heap::RegionMemory;
use vm_mem::{Memory, Noted, PlainMemory, TraceMemory};

// Runs all tests in order, and answers their lines in a report.
fn run_all<M: Memory, L: Ledger>(
    alloc: Global,
    loaded: &Loaded,
    machine: &mut Machine<'_, M>,
    blank: Blank,
) -> Result<Text, RunFault>
    requires name { blank.name ≡ L.name }
    requires parts { blank.parts ≡ L.parts }
    requires some { 0 < blank.parts }
    requires of { machine.old.program ≡ loaded.now.checked }
    requires ready { machine.old.spent ≡ false }
    ensures of { machine.new.program ≡ loaded.now.checked }
    ensures ready { OnOk result (machine.new.spent ≡ false) }
{
    let mut steps = Steps::<L>::new(blank);
    let mut lines = Text::new(alloc);
    let count = loaded.checked.program().tests.len();
    for index in 0..count {
        let test = (index + 1) as u32;
        let piece = machine.run_test(test, &mut steps)?;
        let more = outcome_lines(alloc, &loaded.names, test, piece.outcome())?;
        lines.extend_from_slice(more.as_slice())?;
    }
    Ok(lines)
}

/// Whether all tests, run in order on a machine that is not spent, have these lines in a report.
pub fn reports<M: Memory>(
    alloc: Global,
    loaded: &Loaded,
    machine: &mut Machine<'_, M>,
    lines: &[u8],
) -> Result<bool, RunFault>
    requires of { machine.old.program ≡ loaded.now.checked }
    requires ready { machine.old.spent ≡ false }
    ensures of { machine.new.program ≡ loaded.now.checked }
    ensures ready { OnOk result (machine.new.spent ≡ false) }
{
    let report = run_all::<M, Brand>(alloc, loaded, machine, Blank::new(1))?;
    Ok(report.as_slice() == lines)
}

/// What is tried on a machine that is not spent.
pub trait Trial<M: Memory> {
    ghost use Rattle.std.specs.Prelude.{◌≡◌, false};

    /// Whether the machine of a suite does as it should.
    fn passes(
        &self,
        alloc: Global,
        loaded: &Loaded,
        machine: &mut Machine<'_, M>,
    ) -> Result<bool, RunFault>
        requires of { machine.old.program ≡ loaded.now.checked }
        requires ready { machine.old.spent ≡ false };
}

/// A memory that is made before the first test.
pub trait Opened: Memory {
    ghost use Rattle.std.specs.Prelude.{◌≡◌, IfOk};
    ghost use Rattle.jvm_model.specs.{Linked.Linked, Suite.opening};

    /// The memory of a linked program before its first test.
    fn opened(alloc: Global, p: &Program) -> Result<Self, NoMemory>
        requires { Linked p.now }
        ensures program { IfOk result (λ m. Self.program m ≡ p.now) }
        ensures world { IfOk result (λ m. Self.world m ≡ opening p.now) };
}

impl Opened for RegionMemory {
    fn opened(alloc: Global, p: &Program) -> Result<RegionMemory, NoMemory> {
        RegionMemory::opening(alloc, p)
    }
}

impl Opened for PlainMemory {
    fn opened(alloc: Global, p: &Program) -> Result<PlainMemory, NoMemory> {
        PlainMemory::opening(alloc, p)
    }
}

impl Opened for TraceMemory {
    fn opened(alloc: Global, p: &Program) -> Result<TraceMemory, NoMemory> {
        TraceMemory::opening(alloc, p)
    }
}

/// What a trial on a new machine over a memory answers. It alone owns a machine.
pub fn passes_over<M: Opened, T: Trial<M>>(
    alloc: Global,
    loaded: &Loaded,
    trial: &T,
) -> Result<bool, RunFault>
where
    M: Drop,
{
    let memory = M::opened(alloc, loaded.checked.program())?;
    let mut machine = Machine::new(alloc, &loaded.checked, 1, memory)?;
    trial.passes(alloc, loaded, &mut machine)
}

// The tests have these lines in a report.
#[derive(Drop)]
struct Lines(&'static [u8]);

impl<M: Memory> Trial<M> for Lines {
    fn passes(
        &self,
        alloc: Global,
        loaded: &Loaded,
        machine: &mut Machine<'_, M>,
    ) -> Result<bool, RunFault> {
        reports(alloc, loaded, machine, self.0)
    }
}

// Whether the tests of a suite have these lines over each memory.
fn are_over_each(alloc: Global, loaded: &Loaded, lines: &Lines) -> Result<bool, RunFault> {
    Ok(
        passes_over::<RegionMemory, Lines>(alloc, loaded, lines)?
            && passes_over::<PlainMemory, Lines>(alloc, loaded, lines)?
            && passes_over::<TraceMemory, Lines>(alloc, loaded, lines)?,
    )
}

impl Question for Lines {
    fn holds(&self, alloc: Global, suite: &Loaded) -> Result<bool, Fail> {
        Ok(are_over_each(alloc, suite, self)?)
    }
}

// Whether the tests of each suite have its lines over each memory.
fn are_of_each(alloc: Global) -> Result<bool, Fail> {
    Ok(
        is_so(alloc, &COUNTER_FILES, &Lines(COUNTER_LINES))?
            && is_so(alloc, &R_FILES, &Lines(R_LINES))?
            && is_so(alloc, &M_FILES, &Lines(M_LINES))?,
    )
}

#[test]
fn reports_are_the_same_over_each_memory(rt: HostRuntime) -> Result<(), Fail> {
    assert!(rt; are_of_each(rt.alloc())?);
    Ok(())
}

// The test and the field, where a static is touched so.
fn touched_static(noted: &Noted, write: bool) -> Option<(u32, u32)> {
    match noted.touch.location {
        Location::Static { field } if noted.touch.write == write => Some((noted.test, field)),
        _ => None,
    }
}

// Whether the first test writes a static, and the second one reads it.
fn are_of_counter(touches: &[Noted]) -> bool {
    let [set, shown] = touches else {
        return false;
    };
    match (touched_static(set, true), touched_static(shown, false)) {
        (Some((1, written)), Some((2, read))) => written == read,
        _ => false,
    }
}

// The touches of the counter's tests are noted.
#[derive(Drop)]
struct NotesCounter;

impl Trial<TraceMemory> for NotesCounter {
    fn passes(
        &self,
        alloc: Global,
        loaded: &Loaded,
        machine: &mut Machine<'_, TraceMemory>,
    ) -> Result<bool, RunFault> {
        let reported = reports(alloc, loaded, machine, COUNTER_LINES)?;
        Ok(reported && are_of_counter(machine.memory().touches()))
    }
}

impl Question for NotesCounter {
    fn holds(&self, alloc: Global, suite: &Loaded) -> Result<bool, Fail> {
        Ok(passes_over::<TraceMemory, NotesCounter>(alloc, suite, self)?)
    }
}

#[test]
fn touches_are_noted_by_test(rt: HostRuntime) -> Result<(), Fail> {
    assert!(rt; is_so(rt.alloc(), &COUNTER_FILES, &NotesCounter)?);
    Ok(())
}
