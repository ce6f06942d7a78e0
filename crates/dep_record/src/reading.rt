//! Reading a record.

ghost use Rattle.std.specs.Prelude.{◌≡◌, ◌<◌, ◌≤◌, ◌+◌, None, Ok, true, length, option_map, IfOk, IfSome};
ghost use Rattle.std.specs.Option.{option_copied};
ghost use Rattle.et_base.specs.Answers.{tested, nothing};
ghost use Rattle.dep_record.specs.Fields as field;
ghost use Rattle.dep_record.specs.RecordReading as reading;
ghost use Rattle.dep_record.specs.RecordReading.{Gives, same, pieces, lines_by};
ghost use Rattle.order_law.specs.declared.records.Record.{Record};
ghost use Rattle.dep_record.specs.RecordText.{said, record_text, has_hashes};

use crate::line_forms::{EdgeLine, edge_of, is_before, is_edge};
use crate::lines::{class_at, count_at, found, hash_at, header_at, next_line, reach_at, units_at};
use crate::refusal::RecordRefusal;
use et_base::{Items, NoMemory, Text};
use order_law::{Edge, More, Reach, Record};
use std::alloc::Global;

// The sums of so many class files, from line 6 on.
fn classes_at(
    alloc: Global,
    count: u32,
    text: &[u8],
) -> Result<(Items<[u8; 32]>, &[u8]), RecordRefusal>
    requires { count ≤ 1024 }
    ensures { Gives (λ x. (x.0, pieces x.1.now)) result (lines_by field.class_of count 1 6 (pieces text.now)) }
{
    let mut classes = Items::new(alloc);
    let mut left = text;
    for index in 0..count {
        let (class, rest) = class_at(index + 1, 6 + index, left)?;
        classes.push(class)?;
        left = rest;
    }
    Ok((classes, left))
}

// The units of so many tests, from line `first` on.
fn all_units_at(
    alloc: Global,
    tests: u32,
    first: u32,
    text: &[u8],
) -> Result<(Items<u64>, &[u8]), RecordRefusal>
    requires tests { tests ≤ 1024 }
    requires first { first ≤ 5000 }
    ensures { Gives (λ x. (x.0, pieces x.1.now)) result (lines_by field.units_of tests 1 first (pieces text.now)) }
{
    let mut units = Items::new(alloc);
    let mut left = text;
    for index in 0..tests {
        let (of_test, rest) = units_at(index + 1, first + index, left)?;
        units.push(of_test)?;
        left = rest;
    }
    Ok((units, left))
}

// The reach of so many tests, from line `first` on.
fn all_reach_at(
    alloc: Global,
    most: u32,
    tests: u32,
    first: u32,
    text: &[u8],
) -> Result<(Items<Reach>, &[u8]), RecordRefusal>
    requires tests { tests ≤ 1024 }
    requires first { first ≤ 5000 }
    ensures { Gives (λ x. (x.0, pieces x.1.now)) result (lines_by (field.reach_of most) tests 1 first (pieces text.now)) }
{
    let mut reach = Items::new(alloc);
    let mut left = text;
    for index in 0..tests {
        let (of_test, rest) = reach_at(alloc, most, index + 1, first + index, left)?;
        reach.push(of_test)?;
        left = rest;
    }
    Ok((reach, left))
}

// Whether a conflict may follow the one before it.
fn follows(before: Option<&Edge>, e: EdgeLine<'_>) -> bool
    ensures { result ≡ field.follows (option_copied before.entry) (field.edge_said e.entry.earlier e.entry.later e.entry.kind e.entry.count e.entry.first.now) }
{
    match before {
        None => true,
        Some(before) => is_before(before, e),
    }
}

// The next conflict of so many tests after those before it, if the line says one.
#[tactic(auto, unfolding(crate::specs::Fields::next_edge))]
fn edge_in(
    alloc: Global,
    tests: u32,
    before: Option<&Edge>,
    line: &[u8],
) -> Result<Option<Edge>, NoMemory>
    ensures { IfOk result (λ edge. edge ≡ field.next_edge tests (option_copied before.entry) line.now) }
{
    let Some(e) = edge_of(line) else {
        return Ok(None);
    };
    if !is_edge(tests, e) || !follows(before, e) {
        return Ok(None);
    }
    Ok(Some(Edge {
        earlier: e.earlier,
        later: e.later,
        kind: e.kind,
        count: e.count,
        first: Text::from_slice(alloc, e.first)?,
    }))
}

// That nothing is left at line `n`.
#[tactic(auto, using(crate::proofs::EdgeLaws::over_is))]
fn over_at(n: u32, text: &[u8]) -> Result<(), RecordRefusal>
    ensures { Gives nothing result (tested (reading.is_over (pieces text.now)) n) }
{
    if text.is_empty() {
        Ok(())
    } else {
        Err(RecordRefusal::RecordFault { line: n })
    }
}

// The next conflict and the text after its line, or the end. Each conflict comes after the one before it, so 1,024 tests
// have fewer than 4,000,000.
#[tactic(auto, unfolding(crate::specs::RecordReading::next_step))]
fn step_at<'a>(
    alloc: Global,
    tests: u32,
    edges: &[Edge],
    first: u32,
    text: &'a [u8],
) -> Result<Option<(Edge, &'a [u8])>, RecordRefusal>
    requires first { first ≤ 5000 }
    requires few { length edges.now ≤ 4000000 }
    ensures gives { Gives (option_map (λ x. (x.0, pieces x.1.now))) result
        (reading.next_step tests (reading.last_of edges.now) (first + length edges.now) (pieces text.now)) }
    ensures shorter { IfOk result (λ o. IfSome o (λ x. length x.1.now < length text.now)) }
{
    let n = first + edges.len() as u32;
    let (line, rest) = next_line(n, text)?;
    if line == b"end".as_slice() {
        over_at(n + 1, rest)?;
        return Ok(None);
    }
    let edge = edge_in(alloc, tests, edges.last(), line)?;
    let edge = found(n, edge)?;
    Ok(Some((edge, rest)))
}

// The conflicts of so many tests, from line `first` on, to the end of the text.
fn edges_at(
    alloc: Global,
    tests: u32,
    first: u32,
    text: &[u8],
) -> Result<Items<Edge>, RecordRefusal>
    requires tests { tests ≤ 1024 }
    requires first { first ≤ 5000 }
    ensures { Gives same result (reading.edges_from tests None first (pieces text.now)) }
{
    let mut edges = Items::new(alloc);
    let mut left = text;
    while let Some((edge, rest)) = step_at(alloc, tests, edges.as_slice(), first, left)? {
        edges.push(edge)?;
        left = rest;
    }
    Ok(edges)
}

// The lines of version 1 after the third.
#[tactic(auto, unfolding(crate::specs::RecordReading::older_in))]
fn older_at(
    alloc: Global,
    digest: [u8; 32],
    tests: u32,
    text: &[u8],
) -> Result<Record, RecordRefusal>
    requires { tests ≤ 1024 }
    ensures { Gives said result (reading.older_in digest tests (pieces text.now)) }
{
    let (units, rest) = all_units_at(alloc, tests, 4, text)?;
    let edges = edges_at(alloc, tests, 4 + tests, rest)?;
    Ok(Record {
        digest,
        units,
        edges,
        more: None,
    })
}

// The lines of version 2 after the fifth, with so many class files.
#[tactic(auto, unfolding(crate::specs::RecordReading::classes_in))]
fn with_classes_at(
    alloc: Global,
    digest: [u8; 32],
    tests: u32,
    suite: [u8; 32],
    count: u32,
    text: &[u8],
) -> Result<Record, RecordRefusal>
    requires tests { tests ≤ 1024 }
    requires count { count ≤ 1024 }
    ensures { Gives said result (reading.classes_in digest tests suite count (pieces text.now)) }
{
    let (classes, rest) = classes_at(alloc, count, text)?;
    let (units, rest) = all_units_at(alloc, tests, 6 + count, rest)?;
    let (reach, rest) = all_reach_at(alloc, count, tests, 6 + count + tests, rest)?;
    let edges = edges_at(alloc, tests, 6 + count + tests + tests, rest)?;
    Ok(Record {
        digest,
        units,
        edges,
        more: Some(More {
            suite,
            classes,
            reach,
        }),
    })
}

// The lines of version 2 after the third.
#[tactic(auto, unfolding(crate::specs::RecordReading::newer_in))]
fn newer_at(
    alloc: Global,
    digest: [u8; 32],
    tests: u32,
    text: &[u8],
) -> Result<Record, RecordRefusal>
    requires { tests ≤ 1024 }
    ensures { Gives said result (reading.newer_in digest tests (pieces text.now)) }
{
    let (suite, rest) = hash_at(4, b"suite", text)?;
    let (count, rest) = count_at(5, b"classes", rest)?;
    with_classes_at(alloc, digest, tests, suite, count, rest)
}

// What the lines of a record say.
#[tactic(auto, unfolding(crate::specs::RecordReading::said_in))]
fn said_by(alloc: Global, bytes: &[u8]) -> Result<Record, RecordRefusal>
    ensures { Gives said result (reading.said_in bytes.now) }
{
    let (newer, rest) = header_at(1, bytes)?;
    let (digest, rest) = hash_at(2, b"digest", rest)?;
    let (tests, rest) = count_at(3, b"tests", rest)?;
    if newer {
        newer_at(alloc, digest, tests, rest)
    } else {
        older_at(alloc, digest, tests, rest)
    }
}

/// What the text of a record says. A record of version 2 has `more`, one of version 1 has none.
///
/// # Errors
///
/// `RecordFault` exactly where the text isn't that of a record, with its first faulty line in the grammar of its first line; a line that is
/// missing has the number after the last. `NoMemory` where an allocation is refused.
pub fn read_record(alloc: Global, bytes: &[u8]) -> Result<Record, RecordRefusal>
    // Line by line, and the first faulty line.
    ensures exact { Gives said result (reading.said_in bytes.now) }
    // What is read has this text.
    ensures found { IfOk result (λ r. record_text r ≡ bytes.now) }
    // The text of a record is read as that record.
    ensures only { (r : Record) → has_hashes (said r) ≡ true → record_text r ≡ bytes.now → Gives said result (Ok (said r)) }
{
    said_by(alloc, bytes)
}
