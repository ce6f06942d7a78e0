//! Writing a record.
//!
//! Each `push_` function appends lines to a text; after a refusal part of them may stand there.

ghost use Rattle.std.specs.Prelude.{◌≡◌, ◌++◌, ◌∷◌, [], map, decimal, OnOk, IfOk};
ghost use Rattle.hex.specs.Hex.{encode_lower};
ghost use Rattle.dep_record.specs.RecordText as line;

use et_base::{NoMemory, Text, push_decimal};
use order_law::{Edge, EdgeKind, More, Reach, Record};
use std::alloc::Global;

/// Most lines of conflicts have no more bytes.
const COMMON_LINE: usize = 32;

// Appends a sum as 64 digits.
fn push_hash(out: &mut Text, hash: &[u8; 32]) -> Result<(), NoMemory>
    ensures { OnOk result (out.new ≡ out.old ++ encode_lower hash.now) }
{
    let mut digits = [0; 64];
    let _fits = hex::encode_to_slice(hash.as_slice(), &mut digits);
    out.extend_from_slice(&digits)
}

// Appends a word, a space, and the text of a number.
fn push_worded(out: &mut Text, word: &[u8], number: u64) -> Result<(), NoMemory>
    ensures { OnOk result (out.new ≡ out.old ++ line.worded word.now (decimal number)) }
{
    out.extend_from_slice(word)?;
    out.push(b' ')?;
    push_decimal(out, number)
}

// Appends the line of a word and a sum.
fn push_hash_line(out: &mut Text, word: &[u8], hash: &[u8; 32]) -> Result<(), NoMemory>
    ensures { OnOk result (out.new ≡ out.old ++ line.ended (line.worded word.now (encode_lower hash.now))) }
{
    out.extend_from_slice(word)?;
    out.push(b' ')?;
    push_hash(out, hash)?;
    out.push(b'\n')
}

// Appends the line of a word and a number.
fn push_number_line(out: &mut Text, word: &[u8], number: u64) -> Result<(), NoMemory>
    ensures { OnOk result (out.new ≡ out.old ++ line.ended (line.worded word.now (decimal number))) }
{
    push_worded(out, word, number)?;
    out.push(b'\n')
}

// Appends the line of the j-th class file.
fn push_class_line(out: &mut Text, j: u64, hash: &[u8; 32]) -> Result<(), NoMemory>
    ensures { OnOk result (out.new ≡ out.old ++ line.ended (line.class_line j hash.now)) }
{
    push_worded(out, b"class", j)?;
    out.push(b' ')?;
    push_hash(out, hash)?;
    out.push(b'\n')
}

fn push_class_lines(out: &mut Text, classes: &[[u8; 32]]) -> Result<(), NoMemory>
    ensures { OnOk result (out.new ≡ out.old ++ line.text_of (line.numbered line.class_line 1 classes.now)) }
{
    for index in 0..classes.len() {
        push_class_line(out, (index + 1) as u64, &classes[index])?;
    }
    Ok(())
}

// Appends the line of the i-th test's units.
fn push_units_line(out: &mut Text, i: u64, units: u64) -> Result<(), NoMemory>
    ensures { OnOk result (out.new ≡ out.old ++ line.ended (line.units_line i units)) }
{
    push_worded(out, b"units", i)?;
    out.push(b' ')?;
    push_decimal(out, units)?;
    out.push(b'\n')
}

fn push_units_lines(out: &mut Text, units: &[u64]) -> Result<(), NoMemory>
    ensures { OnOk result (out.new ≡ out.old ++ line.text_of (line.numbered line.units_line 1 units.now)) }
{
    for index in 0..units.len() {
        push_units_line(out, (index + 1) as u64, units[index])?;
    }
    Ok(())
}

// Appends numbers, with a comma before each.
fn push_more_numbers(out: &mut Text, numbers: &[u32]) -> Result<(), NoMemory>
    ensures { OnOk result (out.new ≡ out.old ++ line.more_numbers numbers.now) }
{
    for number in numbers {
        out.push(b',')?;
        push_decimal(out, *number as u64)?;
    }
    Ok(())
}

// Appends numbers joined by commas.
fn push_numbers(out: &mut Text, numbers: &[u32]) -> Result<(), NoMemory>
    ensures { OnOk result (out.new ≡ out.old ++ line.numbers_text numbers.now) }
{
    match numbers {
        [] => Ok(()),
        [first, rest @ ..] => {
            push_decimal(out, *first as u64)?;
            push_more_numbers(out, rest)
        }
    }
}

fn push_state(out: &mut Text, settled: bool) -> Result<(), NoMemory>
    ensures { OnOk result (out.new ≡ out.old ++ line.state_word settled) }
{
    if settled {
        out.extend_from_slice(b"settled")
    } else {
        out.extend_from_slice(b"open")
    }
}

// Appends the line of the i-th test's reach.
fn push_reach_line(out: &mut Text, i: u64, reach: &Reach) -> Result<(), NoMemory>
    ensures { OnOk result (out.new ≡ out.old ++ line.ended (line.reach_line i reach.now)) }
{
    push_worded(out, b"reach", i)?;
    out.push(b' ')?;
    push_state(out, reach.settled)?;
    out.push(b' ')?;
    push_numbers(out, reach.classes.as_slice())?;
    out.push(b'\n')
}

fn push_reach_lines(out: &mut Text, reach: &[Reach]) -> Result<(), NoMemory>
    ensures { OnOk result (out.new ≡ out.old ++ line.text_of (line.numbered line.reach_line 1 reach.now)) }
{
    for index in 0..reach.len() {
        push_reach_line(out, (index + 1) as u64, &reach[index])?;
    }
    Ok(())
}

/// The word for a kind of conflict.
pub fn kind_word(kind: EdgeKind) -> &'static [u8]
    ensures { result.now ≡ line.kind_word kind }
{
    match kind {
        EdgeKind::Raw => b"raw",
        EdgeKind::Waw => b"waw",
        EdgeKind::War => b"war",
    }
}

// Appends a number and a space.
fn push_number_field(out: &mut Text, number: u32) -> Result<(), NoMemory>
    ensures { OnOk result (out.new ≡ out.old ++ (decimal number ++ 32 ∷ [])) }
{
    push_decimal(out, number as u64)?;
    out.push(b' ')
}

// Appends what follows the first word of a conflict's line.
fn push_edge_fields(out: &mut Text, edge: &Edge) -> Result<(), NoMemory>
    ensures { OnOk result (out.new ≡ out.old ++ line.edge_fields edge.now) }
{
    push_number_field(out, edge.earlier)?;
    push_number_field(out, edge.later)?;
    push_number_field(out, edge.count)?;
    out.extend_from_slice(edge.first.as_slice())
}

// Appends the line of a conflict.
fn push_edge_line(out: &mut Text, edge: &Edge) -> Result<(), NoMemory>
    ensures { OnOk result (out.new ≡ out.old ++ line.ended (line.edge_line edge.now)) }
{
    out.extend_from_slice(kind_word(edge.kind))?;
    out.push(b' ')?;
    push_edge_fields(out, edge)?;
    out.push(b'\n')
}

fn push_edge_lines(out: &mut Text, edges: &[Edge]) -> Result<(), NoMemory>
    ensures { OnOk result (out.new ≡ out.old ++ line.text_of (map line.edge_line edges.now)) }
{
    for edge in edges {
        push_edge_line(out, edge)?;
    }
    Ok(())
}

// Appends the lines of the suite text and the class files.
fn push_files(out: &mut Text, more: &More) -> Result<(), NoMemory>
    ensures { OnOk result (out.new ≡ out.old ++ line.text_of (line.file_lines more.now)) }
{
    push_hash_line(out, b"suite", &more.suite)?;
    push_number_line(out, b"classes", more.classes.len() as u64)?;
    push_class_lines(out, more.classes.as_slice())?;
    Ok(())
}

// Appends what version 2 adds before the units.
fn push_suite_lines(out: &mut Text, more: &Option<More>) -> Result<(), NoMemory>
    ensures { OnOk result (out.new ≡ out.old ++ line.text_of (line.suite_lines more.now)) }
{
    match more {
        None => Ok(()),
        Some(more) => push_files(out, more),
    }
}

// Appends what version 2 adds after the units.
fn push_more_lines(out: &mut Text, more: &Option<More>) -> Result<(), NoMemory>
    ensures { OnOk result (out.new ≡ out.old ++ line.text_of (line.reach_lines more.now)) }
{
    match more {
        None => Ok(()),
        Some(more) => push_reach_lines(out, more.reach.as_slice()),
    }
}

// Appends the first three lines.
fn push_head(out: &mut Text, kept: &Record) -> Result<(), NoMemory>
    ensures { OnOk result (out.new ≡ out.old ++ line.text_of (line.head_lines (line.said kept.now))) }
{
    match kept.more {
        None => out.extend_from_slice(b"electric-record 1\n")?,
        Some(_) => out.extend_from_slice(b"electric-record 2\n")?,
    }
    push_hash_line(out, b"digest", &kept.digest)?;
    push_number_line(out, b"tests", kept.units.len() as u64)?;
    Ok(())
}

/// The text of a record: of version 2 where it has `more`, else of version 1.
///
/// # Errors
///
/// `NoMemory` where an allocation is refused.
#[tactic(auto, unfolding(crate::specs::RecordText::lines_of))]
pub fn write_record(alloc: Global, kept: &Record) -> Result<Text, NoMemory>
    ensures { IfOk result (λ text. text ≡ line.record_text kept.now) }
{
    let room = kept.edges.len().saturating_mul(COMMON_LINE);
    let mut out = Text::with_capacity(alloc, room)?;
    push_head(&mut out, kept)?;
    push_suite_lines(&mut out, &kept.more)?;
    push_units_lines(&mut out, kept.units.as_slice())?;
    push_more_lines(&mut out, &kept.more)?;
    push_edge_lines(&mut out, kept.edges.as_slice())?;
    out.extend_from_slice(b"end\n")?;
    Ok(out)
}
