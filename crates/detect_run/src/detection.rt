//! The detection run and its record.

ghost use Rattle.std.specs.Prelude.{◌≡◌, ◌+◌, ◌-◌, [], length, sum, map, true, false, IfOk, IfErr, IsSome};
ghost use Rattle.std.specs.List.{list_all};
ghost use Rattle.jvm_model.specs.Builtin.{builtin_count};
ghost use Rattle.jvm_model.specs.Suite as suite;
ghost use Rattle.order_law.specs.{OwnRecord.edges_of, Reach.IsRecordOf, RecordForm.is_place_text};
ghost use Rattle.vm_mem.specs.Trace.{empty_trace};
ghost use Rattle.detect_run.specs.Detection.{IsDetectedRecord, IsDetection, IsOwnRun};
ghost use Rattle.detect_run.specs.SuiteRun.{IsSuiteFault};

use crate::fault::DetectFault;
use crate::suite_run::run_suite;
use access_tags::TaggedMemory;
use dep_graph::Detected;
use et_base::{Items, NoMemory};
use jvm_model::Outcome;
use order_law::{Edge, More, Prints, Record};
use outside::Steps;
use std::alloc::Global;
use std::sync::ledger::Ledger;
use test_run::Machine;
use type_frames::Checked;
use vm_mem::Memory;

// The units of these outcomes.
fn units_of(alloc: Global, outcomes: &[Outcome]) -> Result<Items<u64>, NoMemory>
    ensures { IfOk result (λ units. units ≡ map (λ o. o.units) outcomes.now) }
{
    let mut units = Items::new(alloc);
    for outcome in outcomes {
        units.push(outcome.units)?;
    }
    Ok(units)
}

// The record of a program whose whole suite ran in order on this memory, each test with these units, with these edges.
fn record_of<const WALKS: bool>(
    alloc: Global,
    p: &Checked,
    prints: &Prints,
    memory: &TaggedMemory<WALKS>,
    units: Items<u64>,
    edges: Items<Edge>,
) -> Result<Record, NoMemory>
    requires classes { length prints.now.classes ≡ length p.now.classes - builtin_count }
    requires program { ⟦<TaggedMemory<WALKS> as Memory>⟧.program memory.now ≡ p.now }
    requires ran { IsOwnRun ⟦<TaggedMemory<WALKS> as Memory>⟧.world
        ⟦<TaggedMemory<WALKS> as Memory>⟧.follows p.now memory.now units }
    requires edges { edges ≡ edges_of p.now }
    requires printed { list_all (λ e. is_place_text e.first) edges ≡ true }
    ensures kept { IfOk result (IsRecordOf p.now prints.now) }
    ensures newer { IfOk result (λ r. IsSome r.more) }
    ensures units { IfOk result (λ r. r.units ≡ units) }
{
    let reach = memory.reaches(p.program())?;
    let classes = Items::from_slice(alloc, prints.classes.as_slice())?;
    let more = More {
        suite: prints.suite,
        classes,
        reach,
    };
    Ok(Record {
        digest: prints.digest,
        units,
        edges,
        more: Some(more),
    })
}

// The same, with what is shown of each edge.
fn detected_of(
    alloc: Global,
    p: &Checked,
    prints: &Prints,
    memory: &TaggedMemory<true>,
    units: Items<u64>,
) -> Result<Detected, NoMemory>
    requires classes { length prints.now.classes ≡ length p.now.classes - builtin_count }
    requires program { ⟦<TaggedMemory<true> as Memory>⟧.program memory.now ≡ p.now }
    requires ran { IsOwnRun ⟦<TaggedMemory<true> as Memory>⟧.world
        ⟦<TaggedMemory<true> as Memory>⟧.follows p.now memory.now units }
    ensures found { IfOk result (IsDetection p.now prints.now) }
    ensures units { IfOk result (λ d. d.kept.units ≡ units) }
{
    let (edges, shown) = memory.found(p.program())?;
    let kept = record_of(alloc, p, prints, memory, units, edges)?;
    Ok(Detected { kept, shown })
}

// The record alone.
fn edges_recorded(
    alloc: Global,
    p: &Checked,
    prints: &Prints,
    memory: &TaggedMemory<false>,
    units: Items<u64>,
) -> Result<Record, NoMemory>
    requires classes { length prints.now.classes ≡ length p.now.classes - builtin_count }
    requires program { ⟦<TaggedMemory<false> as Memory>⟧.program memory.now ≡ p.now }
    requires ran { IsOwnRun ⟦<TaggedMemory<false> as Memory>⟧.world
        ⟦<TaggedMemory<false> as Memory>⟧.follows p.now memory.now units }
    ensures found { IfOk result (IsDetectedRecord p.now prints.now) }
    ensures units { IfOk result (λ r. r.units ≡ units) }
{
    let edges = memory.edges(p.program())?;
    let kept = record_of(alloc, p, prints, memory, units, edges)?;
    Ok(kept)
}

// The units of the tests of a program whose whole suite runs in order on this machine, which ran no test yet.
fn ran_on<M: Memory, L: Ledger>(
    alloc: Global,
    p: &Checked,
    machine: &mut Machine<'_, M>,
    steps: &mut Steps<L>,
) -> Result<Items<u64>, DetectFault>
    requires program { machine.old.program ≡ p.now }
    requires ready { machine.old.spent ≡ false }
    requires world { M.world machine.old.memory ≡ suite.opening p.now }
    requires follows { M.follows machine.old.memory empty_trace [] }
    ensures program { IfOk result (λ us. machine.new.program ≡ p.now) }
    ensures ran { IfOk result (IsOwnRun M.world M.follows p.now machine.new.memory) }
    ensures counted { IfOk result (λ us. steps.new ≡ steps.old + sum us) }
    ensures refused { IfErr result (IsSuiteFault p.now) }
{
    let outcomes = run_suite(alloc, p, machine, steps)?;
    let units = units_of(alloc, outcomes.as_slice())?;
    Ok(units)
}

// A machine that ran no test yet, on a memory that followed nothing.
fn opened<'p, const WALKS: bool>(
    alloc: Global,
    p: &'p Checked,
) -> Result<Machine<'p, TaggedMemory<WALKS>>, NoMemory>
    ensures program { IfOk result (λ m. m.program ≡ p.now) }
    ensures ready { IfOk result (λ m. m.spent ≡ false) }
    ensures world { IfOk result (λ m.
        ⟦<TaggedMemory<WALKS> as Memory>⟧.world m.memory ≡ suite.opening p.now) }
    ensures follows { IfOk result (λ m.
        ⟦<TaggedMemory<WALKS> as Memory>⟧.follows m.memory empty_trace []) }
{
    let memory = TaggedMemory::opening(alloc, p.program())?;
    let machine = Machine::new(alloc, p, 0, memory)?;
    Ok(machine)
}

// What is found of a program whose whole suite runs in order on this machine, which ran no test yet.
fn found_on<L: Ledger>(
    alloc: Global,
    p: &Checked,
    prints: &Prints,
    machine: &mut Machine<'_, TaggedMemory<true>>,
    steps: &mut Steps<L>,
) -> Result<Detected, DetectFault>
    requires classes { length prints.now.classes ≡ length p.now.classes - builtin_count }
    requires program { machine.old.program ≡ p.now }
    requires ready { machine.old.spent ≡ false }
    requires world { ⟦<TaggedMemory<true> as Memory>⟧.world machine.old.memory
        ≡ suite.opening p.now }
    requires follows { ⟦<TaggedMemory<true> as Memory>⟧.follows machine.old.memory empty_trace [] }
    ensures found { IfOk result (IsDetection p.now prints.now) }
    ensures counted { IfOk result (λ d. steps.new ≡ steps.old + sum d.kept.units) }
    ensures refused { IfErr result (IsSuiteFault p.now) }
{
    let units = ran_on(alloc, p, machine, steps)?;
    let found = detected_of(alloc, p, prints, machine.memory(), units)?;
    Ok(found)
}

// The record alone of such a program.
fn record_on<L: Ledger>(
    alloc: Global,
    p: &Checked,
    prints: &Prints,
    machine: &mut Machine<'_, TaggedMemory<false>>,
    steps: &mut Steps<L>,
) -> Result<Record, DetectFault>
    requires classes { length prints.now.classes ≡ length p.now.classes - builtin_count }
    requires program { machine.old.program ≡ p.now }
    requires ready { machine.old.spent ≡ false }
    requires world { ⟦<TaggedMemory<false> as Memory>⟧.world machine.old.memory
        ≡ suite.opening p.now }
    requires follows { ⟦<TaggedMemory<false> as Memory>⟧.follows machine.old.memory empty_trace [] }
    ensures found { IfOk result (IsDetectedRecord p.now prints.now) }
    ensures counted { IfOk result (λ r. steps.new ≡ steps.old + sum r.units) }
    ensures refused { IfErr result (IsSuiteFault p.now) }
{
    let units = ran_on(alloc, p, machine, steps)?;
    let found = edges_recorded(alloc, p, prints, machine.memory(), units)?;
    Ok(found)
}

/// Runs the whole suite of a checked program in order on one heap, and answers its record of version 2 with these prints,
/// and of each edge the first 8 locations with the reads by which the later test came to them. It counts the tests'
/// units. It asks for one sum for each given class.
///
/// # Errors
///
/// `OverBudget` and `OverSuite` name the first test that passes the smaller of its budget and the rest of the suite's 2^26
/// units: its budget where that is at most the rest. `NoMemory` where an allocation is refused.
pub fn detect<L: Ledger>(
    alloc: Global,
    p: &Checked,
    prints: &Prints,
    steps: &mut Steps<L>,
) -> Result<Detected, DetectFault>
    requires { length prints.now.classes ≡ length p.now.classes - builtin_count }
    ensures found { IfOk result (IsDetection p.now prints.now) }
    ensures counted { IfOk result (λ d. steps.new ≡ steps.old + sum d.kept.units) }
    ensures refused { IfErr result (IsSuiteFault p.now) }
{
    let mut machine = opened::<true>(alloc, p)?;
    let found = found_on(alloc, p, prints, &mut machine, steps);
    drop(machine);
    found
}

/// The record of such a run alone, by a run that keeps no more than the record asks for.
///
/// # Errors
///
/// Those of `detect`.
pub fn detect_record<L: Ledger>(
    alloc: Global,
    p: &Checked,
    prints: &Prints,
    steps: &mut Steps<L>,
) -> Result<Record, DetectFault>
    requires { length prints.now.classes ≡ length p.now.classes - builtin_count }
    ensures found { IfOk result (IsDetectedRecord p.now prints.now) }
    ensures counted { IfOk result (λ r. steps.new ≡ steps.old + sum r.units) }
    ensures refused { IfErr result (IsSuiteFault p.now) }
{
    let mut machine = opened::<false>(alloc, p)?;
    let found = record_on(alloc, p, prints, &mut machine, steps);
    drop(machine);
    found
}
