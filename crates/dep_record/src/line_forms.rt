//! What each line of a record's text says, if it is one.

ghost use Rattle.std.specs.Prelude.{◌≡◌, ◌≤◌, ◌<◌, ◌^◌, length, map, IfOk, IfSome, option_map};
ghost use Rattle.std.specs.List.{list_all};
ghost use Rattle.order_law.specs.RecordForm as form;
ghost use Rattle.dep_record.specs.Fields as field;

use crate::cut::{after, cut};
use crate::hash_text::hash_of;
use crate::numbers::{number_of, number_up_to, numbers_in};
use et_base::{Items, NoMemory};
use itoa::Buffer;
use order_law::{Edge, EdgeKind, Reach};
use std::alloc::Global;

/// The most units of a test.
const MOST_UNITS: u64 = 67_108_864;

/// The most bytes of a location's text.
const MOST_PLACE: usize = 203;

/// The most locations of a conflict.
const MOST_COUNT: u32 = 268_435_456;

/// The first line: whether the record is of version 2.
#[tactic(auto, unfolding(crate::specs::Fields::header_of))]
pub fn header_of(line: &[u8]) -> Option<bool>
    ensures { result ≡ field.header_of line.now }
{
    if line == b"electric-record 2".as_slice() {
        return Some(true);
    }
    if line == b"electric-record 1".as_slice() {
        return Some(false);
    }
    None
}

/// A word and a sum.
#[tactic(auto, unfolding(crate::specs::Fields::hash_after))]
pub fn hash_after(word: &[u8], line: &[u8]) -> Option<[u8; 32]>
    ensures { result ≡ field.hash_after word.now line.now }
{
    hash_of(after(word, line)?)
}

/// A word and a number of at most this.
#[tactic(auto, unfolding(crate::specs::Fields::number_after))]
pub fn number_after(most: u64, word: &[u8], line: &[u8]) -> Option<u64>
    ensures value { result ≡ field.number_after most word.now line.now }
    ensures within { IfSome result (λ n. n ≤ most) }
{
    number_up_to(most, after(word, line)?)
}

// What follows this word and this number.
fn after_number<'a>(word: &[u8], number: u32, line: &'a [u8]) -> Option<&'a [u8]>
    ensures { option_map (λ rest. rest.now) result ≡ field.after_number word.now number line.now }
{
    let rest = after(word, line)?;
    after(Buffer::new().format(number).as_bytes(), rest)
}

/// The sum of the j-th class file.
#[tactic(auto, unfolding(crate::specs::Fields::class_of))]
pub fn class_of(j: u32, line: &[u8]) -> Option<[u8; 32]>
    ensures { result ≡ field.class_of j line.now }
{
    hash_of(after_number(b"class", j, line)?)
}

/// The units of the i-th test.
#[tactic(auto, unfolding(crate::specs::Fields::units_of))]
pub fn units_of(i: u32, line: &[u8]) -> Option<u64>
    ensures { result ≡ field.units_of i line.now }
{
    number_up_to(MOST_UNITS, after_number(b"units", i, line)?)
}

// Settled or open.
#[tactic(auto, unfolding(crate::specs::Fields::state_of))]
fn state_of(word: &[u8]) -> Option<bool>
    ensures { result ≡ field.state_of word.now }
{
    if word == b"settled".as_slice() {
        return Some(true);
    }
    if word == b"open".as_slice() {
        return Some(false);
    }
    None
}

// Whether a number is below the next one, if there is one.
fn is_below(number: u32, rest: &[u32]) -> bool
    ensures { result ≡ field.is_below number rest.now }
{
    match rest {
        [] => true,
        [next, ..] => number < *next,
    }
}

fn ascend(numbers: &[u32]) -> bool
    ensures { result ≡ form.numbers_ascend numbers.now }
{
    let mut left = numbers;
    while let [number, rest @ ..] = left {
        if !is_below(*number, rest) {
            return false;
        }
        left = rest;
    }
    true
}

fn are_within(most: u32, numbers: &[u32]) -> bool
    ensures { result ≡ list_all (field.is_within most) numbers.now }
{
    numbers.iter().all(|number| 1 <= *number && *number <= most)
}

// A reach of classes up to `most`.
fn reach_if(most: u32, settled: bool, classes: Items<u32>) -> Option<Reach>
    ensures { result ≡ field.reach_if most (record { settled = settled; classes = classes }) }
{
    let is_reach = 1 <= classes.len()
        && are_within(most, classes.as_slice())
        && ascend(classes.as_slice());
    if is_reach {
        Some(Reach { settled, classes })
    } else {
        None
    }
}

// What a reach line says after the test's number.
#[tactic(auto, unfolding(crate::specs::Fields::reach_from))]
fn reach_from(alloc: Global, most: u32, text: &[u8]) -> Result<Option<Reach>, NoMemory>
    ensures { IfOk result (λ reach. reach ≡ field.reach_from most text.now) }
{
    let Some((word, list)) = cut(b' ', text) else {
        return Ok(None);
    };
    let Some(settled) = state_of(word) else {
        return Ok(None);
    };
    match numbers_in(alloc, list)? {
        None => Ok(None),
        Some(classes) => Ok(reach_if(most, settled, classes)),
    }
}

/// The reach of the i-th test, of classes up to `most`.
#[tactic(auto, unfolding(crate::specs::Fields::reach_of))]
pub fn reach_of(alloc: Global, most: u32, i: u32, line: &[u8]) -> Result<Option<Reach>, NoMemory>
    ensures { IfOk result (λ reach. reach ≡ field.reach_of most i line.now) }
{
    match after_number(b"reach", i, line) {
        None => Ok(None),
        Some(text) => reach_from(alloc, most, text),
    }
}

#[tactic(auto, unfolding(crate::specs::Fields::kind_of))]
fn kind_of(word: &[u8]) -> Option<EdgeKind>
    ensures { result ≡ field.kind_of word.now }
{
    if word == b"raw".as_slice() {
        return Some(EdgeKind::Raw);
    }
    if word == b"waw".as_slice() {
        return Some(EdgeKind::Waw);
    }
    if word == b"war".as_slice() {
        return Some(EdgeKind::War);
    }
    None
}

// A number, and what follows it and a space.
#[tactic(auto, unfolding(crate::specs::Fields::number_first))]
fn number_first(text: &[u8]) -> Option<(u32, &[u8])>
    ensures { option_map (λ x. (x.0, x.1.now)) result ≡ field.number_first text.now }
{
    let (digits, rest) = cut(b' ', text)?;
    let number = number_of(digits)?;
    Some((number, rest))
}

/// What a line says of a conflict.
#[derive(Clone, Copy)]
pub struct EdgeLine<'a> {
    pub earlier: u32,
    pub later: u32,
    pub kind: EdgeKind,
    pub count: u32,
    pub first: &'a [u8],
}

/// What a line says of a conflict: the location is all that follows the fourth space.
#[tactic(auto, unfolding(crate::specs::Fields::edge_of))]
pub fn edge_of(line: &[u8]) -> Option<EdgeLine<'_>>
    ensures { option_map (λ e. field.edge_said e.earlier e.later e.kind e.count e.first.now) result ≡ field.edge_of line.now }
{
    let (word, rest) = cut(b' ', line)?;
    let kind = kind_of(word)?;
    let (earlier, rest) = number_first(rest)?;
    let (later, rest) = number_first(rest)?;
    let (count, first) = number_first(rest)?;
    Some(EdgeLine {
        earlier,
        later,
        kind,
        count,
        first,
    })
}

/// Whether all bytes are printable ASCII.
pub fn are_printable(text: &[u8]) -> bool
    ensures { result ≡ list_all field.is_printable text.now }
{
    text.iter().all(|b| *b >= 0x20 && *b <= 0x7e)
}

// 1 to 203 printable bytes.
fn is_place_text(text: &[u8]) -> bool
    ensures { result ≡ form.is_place_text text.now }
{
    1 <= text.len() && text.len() <= MOST_PLACE && are_printable(text)
}

/// Whether a conflict is one of so many tests.
pub fn is_edge(tests: u32, e: EdgeLine<'_>) -> bool
    ensures { result ≡ form.is_edge tests (field.edge_said e.entry.earlier e.entry.later e.entry.kind e.entry.count e.entry.first.now) }
{
    1 <= e.earlier
        && e.earlier < e.later
        && e.later <= tests
        && 1 <= e.count
        && e.count <= MOST_COUNT
        && is_place_text(e.first)
}

// The place of a kind among those of two tests.
fn kind_number(kind: EdgeKind) -> u8
    ensures { result ≡ form.kind_number kind }
{
    match kind {
        EdgeKind::Raw => 0,
        EdgeKind::Waw => 1,
        EdgeKind::War => 2,
    }
}

/// Whether a conflict comes before another: by the later test, then the earlier one, then the kind.
pub fn is_before(before: &Edge, e: EdgeLine<'_>) -> bool
    ensures { result ≡ form.edge_before before.now (field.edge_said e.entry.earlier e.entry.later e.entry.kind e.entry.count e.entry.first.now) }
{
    before.later < e.later
        || (before.later == e.later
            && (before.earlier < e.earlier
                || (before.earlier == e.earlier && kind_number(before.kind) < kind_number(e.kind))))
}
