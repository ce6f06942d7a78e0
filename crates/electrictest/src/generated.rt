//! Generated suites, run on workers.

ghost use Rattle.std.specs.Prelude.{◌≡◌, ◌+◌, ◌<◌, ◌≤◌, ◌^◌, ◌++◌, All, codes, count_by, length, sum, OnOk, IfOk, IfErr};
ghost use Rattle.electrictest.specs.{Generated.IsWholeRequest, Generated.Sums, Loads.IsSuite, Pools.IsPooled, Records.beginning, Running.RunRefused};
ghost use Rattle.electrictest.specs.Generated as generated;
ghost use Rattle.electrictest.specs.Selections.{IsTestOf};
ghost use Rattle.electrictest.specs.declared.status.Status.TheVariants as ends;
ghost use Rattle.generated_law.specs.GeneratedRecord.{is_raw, is_waw, is_war};
ghost use Rattle.generated_law.specs.GeneratedSuite.{generated_suite, suite_files};
ghost use Rattle.worker_pool.specs.Plans.{units_of};

use crate::detections::recorded;
use crate::loading::status_of;
use crate::pool_reports::tally_of;
use crate::pool_runs::{RunResult, run_pool};
use crate::recorded::Request;
use crate::reports::Report;
use crate::selections::all_tests;
use crate::status::Status;
use et_base::{NoMemory, Text, push_decimal};
use generated_law::{chain_law, load_law, record_law, run_law};
use order_law::{Edge, EdgeKind};
use outside::{Gate, QuietDepot, Steps};
use std::alloc::Global;
use std::sync::Wait;
use std::sync::ledger::Ledger;
use std::thread::Threads;
use suite_gen::generate;
use suite_load::{Loaded, load};
use test_run::{Tally, count_line};

/// How many conflicts there are of each kind.
#[derive(Clone, Copy)]
struct KindCounts {
    raw: u64,
    waw: u64,
    war: u64,
}

fn counts_of(edges: &[Edge]) -> KindCounts
    ensures raw { result.raw ≡ count_by is_raw edges.now }
    ensures waw { result.waw ≡ count_by is_waw edges.now }
    ensures war { result.war ≡ count_by is_war edges.now }
{
    let mut raw = 0;
    let mut waw = 0;
    let mut war = 0;
    for edge in edges {
        match edge.kind {
            EdgeKind::Raw => raw += 1,
            EdgeKind::Waw => waw += 1,
            EdgeKind::War => war += 1,
        }
    }
    KindCounts { raw, waw, war }
}

// The units of all tests.
fn total(units: &[u64]) -> u64
    requires { sum units.now < 2 ^ 64 }
    ensures { result ≡ sum units.now }
{
    let mut total = 0;
    for index in 0..units.len() {
        total += units[index];
    }
    total
}

// The files of a generated suite.
fn depot_of(alloc: Global, tests: u32) -> Result<QuietDepot, NoMemory>
    requires some { 0 < tests }
    requires few { tests ≤ 1024 }
    ensures { IfOk result (λ depot. depot ≡ suite_files tests) }
{
    let (text, class) = generate(alloc, tests)?;
    let mut files = Vec::new(alloc);
    files.push((Text::from_slice(alloc, b"gen")?, text.into_vec()))?;
    files.push((Text::from_slice(alloc, b"Gen.class")?, class))?;
    Ok(QuietDepot::new(alloc, files))
}

// The generated suite of so many tests.
fn load_suite(alloc: Global, tests: u32) -> Result<Loaded, Status>
    requires some { 0 < tests }
    requires few { tests ≤ 1024 }
    ensures loads { IfOk result (λ l. l ≡ generated_suite tests) }
    ensures suite { IfOk result IsSuite }
    ensures refused { IfErr result (λ s. s ≡ ends.NoMemory) }
{
    load_law();
    let mut depot = depot_of(alloc, tests)?;
    let name = Text::from_slice(alloc, b"gen")?;
    match load(alloc, &mut depot, &name) {
        Ok(loaded) => Ok(loaded),
        Err(fault) => Err(status_of(fault)),
    }
}

// All tests of a suite, and the record of its own run.
fn begun_of<L: Ledger>(
    alloc: Global,
    loaded: &Loaded,
    steps: &mut Steps<L>,
) -> Result<Request, Status>
    requires suite { IsSuite loaded.now }
    ensures whole { IfOk result (IsWholeRequest loaded.now) }
    ensures tests { IfOk result (λ b. All (IsTestOf loaded.now.names) b.tests) }
    ensures counted { IfOk result (λ b. steps.new ≡ steps.old + sum b.record.units) }
    ensures refused { IfErr result (RunRefused loaded.now) }
{
    let record = recorded(alloc, loaded, steps)?;
    let tests = all_tests(alloc, loaded.names.tests.len() as u32)?;
    Ok(Request { tests, record })
}

// Appends a word and a number.
fn push_counted(out: &mut Text, word: &[u8], number: u64) -> Result<(), NoMemory>
    ensures { OnOk result (out.new ≡ out.old ++ generated.counted word.now number) }
{
    out.extend_from_slice(word)?;
    push_decimal(out, number)
}

// Appends the line of a suite's tests, conflicts and chains.
fn push_conflicts(
    out: &mut Text,
    tests: u32,
    counts: KindCounts,
    chains: u64,
) -> Result<(), NoMemory>
    ensures { let line = generated.conflict_line tests counts.raw counts.waw counts.war chains in
        OnOk result (out.new ≡ out.old ++ line) }
{
    push_counted(out, b"tests ", tests as u64)?;
    push_counted(out, b" raw ", counts.raw)?;
    push_counted(out, b" waw ", counts.waw)?;
    push_counted(out, b" war ", counts.war)?;
    push_counted(out, b" chains ", chains)?;
    out.push(b'\n')
}

// Appends the start of the line of workers.
fn push_workers(out: &mut Text, workers: u32, units: u64) -> Result<(), NoMemory>
    ensures { OnOk result (out.new ≡ out.old ++ (generated.counted (codes "workers ") workers
        ++ (generated.counted (codes " units ") units ++ codes " "))) }
{
    push_counted(out, b"workers ", workers as u64)?;
    push_counted(out, b" units ", units)?;
    out.push(b' ')
}

// The summary of a run of all tests.
#[tactic(auto, unfolding(crate::specs::Generated::summary_text))]
fn summary_of(
    alloc: Global,
    tests: u32,
    workers: u32,
    begun: &Request,
    pooled: &RunResult,
    tally: &Tally,
) -> Result<Text, NoMemory>
    ensures { IfOk result (λ text. text ≡ generated.summary_by tests workers (begun.now.record)
        (length pooled.now.chosen.chains.lists) tally.now) }
{
    let units = total(begun.record.units.as_slice());
    let chains = pooled.chosen.chains.lists.len() as u64;
    let mut text = Text::from_slice(alloc, b"electric-gen 1\n")?;
    let kinds = counts_of(begun.record.edges.as_slice());
    push_conflicts(&mut text, tests, kinds, chains)?;
    push_workers(&mut text, workers, units)?;
    let counted = count_line(
        alloc,
        tally.counts.passed,
        tally.counts.failed,
        tally.counts.error,
    )?;
    text.extend_from_slice(counted.as_slice())?;
    Ok(text)
}

// The summary of what ran.
fn summed(
    alloc: Global,
    loaded: &Loaded,
    tests: u32,
    workers: u32,
    begun: &Request,
    pooled: &RunResult,
) -> Result<Report, NoMemory>
    requires few { length loaded.now.checked.tests ≤ 1024 }
    requires pooled { IsPooled loaded.now (beginning begun.now) workers pooled.now }
    ensures { IfOk result (λ r.
        generated.IsSummed loaded.now (beginning begun.now) (begun.now.record)
        tests workers r.passed r.text (units_of pooled.now.core.events)) }
{
    let chosen = pooled.chosen.set.as_slice();
    let tally = tally_of(alloc, &loaded.names, &pooled.core, chosen)?;
    let text = summary_of(alloc, tests, workers, begun, pooled, &tally)?;
    Ok(Report {
        text,
        passed: tally.counts.all_passed,
    })
}

/// The summary of the generated suite of so many tests, in a depot of its own: the conflicts of its own run, and what its tests
/// gave on so many workers by the record of that run. Each test passes.
///
/// `NoMemory` comes where memory is refused, and no other status.
pub fn summary_for<R: Threads + Wait + Sync, G: Gate + Sync, L: Ledger>(
    rt: &R,
    alloc: Global,
    tests: u32,
    workers: u32,
    gate: &G,
    steps: &mut Steps<L>,
) -> Result<Report, Status>
    requires some { 0 < tests }
    requires few { tests ≤ 1024 }
    requires workers { 0 < workers }
    ensures reports { IfOk result (λ r. Sums tests workers r.passed r.text steps.old steps.new) }
    ensures refused { IfErr result (λ s. s ≡ ends.NoMemory) }
{
    run_law();
    record_law();
    chain_law();
    let loaded = load_suite(alloc, tests)?;
    let begun = begun_of(alloc, &loaded, steps)?;
    // It is typed, and so linked.
    let _program = loaded.checked.program();
    let pooled = run_pool(rt, alloc, &loaded, &begun, workers, gate, steps)?;
    let report = summed(alloc, &loaded, tests, workers, &begun, &pooled)?;
    Ok(report)
}
