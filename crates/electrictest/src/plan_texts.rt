//! The text of a plan.

ghost use Rattle.std.specs.Prelude.{◌≡◌, ℕ, ◌<◌, ◌^◌, ◌++◌, ◌+◌, map, sum, IfOk, OnOk};
ghost use Rattle.order_law.specs.{Conflicts.Distinct, Plan.chain_at};
ghost use Rattle.dep_record.specs.RecordText.{numbers_text, more_numbers};
ghost use Rattle.schedule_plan.specs.Plans.{HasUnits, HaveUnits, units_of};
ghost use Rattle.electrictest.specs.PlanTexts as lines;

use et_base::{Items, NoMemory, Text, push_decimal};
use order_law::Chains;
use schedule_plan::{Share, WorkPlan};
use std::alloc::Global;

// Appends the numbers after the first, with a comma before each; `more` is added to each.
fn push_more(out: &mut Text, numbers: &[u32], more: u32) -> Result<(), NoMemory>
    ensures { OnOk result (out.new ≡ out.old ++ more_numbers (map (λ n. n + more) numbers.now)) }
{
    for number in numbers {
        out.push(b',')?;
        push_decimal(out, *number as u64 + more as u64)?;
    }
    Ok(())
}

// Appends numbers joined by commas; `more` is added to each.
fn push_numbers(out: &mut Text, numbers: &[u32], more: u32) -> Result<(), NoMemory>
    ensures { OnOk result (out.new ≡ out.old ++ numbers_text (map (λ n. n + more) numbers.now)) }
{
    match numbers {
        [] => Ok(()),
        [first, rest @ ..] => {
            push_decimal(out, *first as u64 + more as u64)?;
            push_more(out, rest, more)
        }
    }
}

// Appends the units at the end of a line.
fn push_units(out: &mut Text, units: u64) -> Result<(), NoMemory>
    ensures { OnOk result (out.new ≡ out.old ++ lines.units_end units) }
{
    out.extend_from_slice(b" units ")?;
    push_decimal(out, units)?;
    out.push(b'\n')
}

// The units of a chain.
fn chain_units(units: &[u64], tests: &[u32]) -> u64
    requires apart { Distinct tests.now }
    requires listed { HasUnits tests.now units.now }
    requires small { sum units.now < 2 ^ 64 }
    ensures { result ≡ units_of units.now tests.now }
{
    let mut total = 0;
    for i in 0..tests.len() {
        total += units[tests[i] as usize - 1];
    }
    total
}

// Appends the line of a chain.
fn push_chain(out: &mut Text, units: &[u64], number: u64, tests: &[u32]) -> Result<(), NoMemory>
    requires apart { Distinct tests.now }
    requires listed { HasUnits tests.now units.now }
    requires small { sum units.now < 2 ^ 64 }
    ensures { OnOk result (out.new ≡ out.old ++ lines.chain_line units.now number tests.now) }
{
    out.extend_from_slice(b"chain ")?;
    push_decimal(out, number)?;
    out.extend_from_slice(b" tests ")?;
    push_numbers(out, tests, 0)?;
    push_units(out, chain_units(units, tests))
}

// Appends the lines of all chains.
fn push_chains(out: &mut Text, units: &[u64], lists: &[Items<u32>]) -> Result<(), NoMemory>
    requires apart { (i : ℕ) → Distinct (chain_at lists.now i) }
    requires listed { HaveUnits lists.now units.now }
    requires small { sum units.now < 2 ^ 64 }
    ensures { OnOk result (out.new ≡ out.old ++ lines.chain_lines units.now 1 lists.now) }
{
    for index in 0..lists.len() {
        push_chain(out, units, (index + 1) as u64, lists[index].as_slice())?;
    }
    Ok(())
}

// Appends the numbers of a worker's chains, or that it has none.
fn push_share(out: &mut Text, chains: &[u32]) -> Result<(), NoMemory>
    ensures { OnOk result (out.new ≡ out.old ++ lines.share_text chains.now) }
{
    match chains {
        [] => out.push(b'-'),
        chains => push_numbers(out, chains, 1),
    }
}

// Appends the line of a worker.
fn push_worker(out: &mut Text, number: u64, share: &Share) -> Result<(), NoMemory>
    ensures { OnOk result (out.new ≡ out.old ++ lines.worker_line number share.now) }
{
    out.extend_from_slice(b"worker ")?;
    push_decimal(out, number)?;
    out.extend_from_slice(b" chains ")?;
    push_share(out, share.chains.as_slice())?;
    push_units(out, share.load)
}

// Appends the lines of all workers.
fn push_workers(out: &mut Text, shares: &[Share]) -> Result<(), NoMemory>
    ensures { OnOk result (out.new ≡ out.old ++ lines.worker_lines 1 shares.now) }
{
    for index in 0..shares.len() {
        push_worker(out, (index + 1) as u64, &shares[index])?;
    }
    Ok(())
}

/// The text of a plan of chains, by the units of the tests. The only error is want of memory.
#[tactic(auto, unfolding(crate::specs::PlanTexts::plan_text))]
pub fn plan_text(
    alloc: Global,
    chains: &Chains,
    units: &[u64],
    plan: &WorkPlan,
) -> Result<Text, NoMemory>
    requires listed { HaveUnits chains.now.lists units.now }
    requires small { sum units.now < 2 ^ 64 }
    ensures { IfOk result
        (λ text. text ≡ lines.plan_text chains.now.lists units.now plan.now.shares) }
{
    let mut out = Text::new(alloc);
    out.extend_from_slice(b"electric-plan 1\n")?;
    push_chains(&mut out, units, chains.lists.as_slice())?;
    push_workers(&mut out, plan.shares.as_slice())?;
    out.extend_from_slice(b"end\n")?;
    Ok(out)
}
