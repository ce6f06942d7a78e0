//! Taking a text line by line.

ghost use Rattle.std.specs.Prelude.{◌≡◌, ◌<◌, ◌≤◌, length, IfOk};
ghost use Rattle.std.specs.Option.{ok_or};
ghost use Rattle.dep_record.specs.Fields as field;
ghost use Rattle.dep_record.specs.RecordReading as reading;
ghost use Rattle.dep_record.specs.RecordReading.{Gives, same, pieces, line_by};

use crate::cut::cut;
use crate::line_forms::{class_of, hash_after, header_of, number_after, reach_of, units_of};
use crate::refusal::RecordRefusal;
use order_law::Reach;
use std::alloc::Global;

/// Line `n`, and the text after it.
#[tactic(auto, using(crate::proofs::LineLaws::next_line_is))]
pub fn next_line(n: u32, text: &[u8]) -> Result<(&[u8], &[u8]), RecordRefusal>
    ensures gives { Gives (λ x. (x.0.now, pieces x.1.now)) result (reading.next_line n (pieces text.now)) }
    ensures shorter { IfOk result (λ x. length x.1.now < length text.now) }
{
    match cut(b'\n', text) {
        Some((line, rest)) => Ok((line, rest)),
        None => Err(RecordRefusal::RecordFault { line: n }),
    }
}

/// What line `n` says, if it says something.
pub fn found<T>(n: u32, value: Option<T>) -> Result<T, RecordRefusal>
    ensures { Gives same result (ok_or value n) }
{
    match value {
        Some(value) => Ok(value),
        None => Err(RecordRefusal::RecordFault { line: n }),
    }
}

/// The header, at line `n`.
pub fn header_at(n: u32, text: &[u8]) -> Result<(bool, &[u8]), RecordRefusal>
    ensures { Gives (λ x. (x.0, pieces x.1.now)) result (line_by field.header_of n (pieces text.now)) }
{
    let (line, rest) = next_line(n, text)?;
    let newer = found(n, header_of(line))?;
    Ok((newer, rest))
}

/// A word and a sum, at line `n`.
pub fn hash_at<'a>(
    n: u32,
    word: &[u8],
    text: &'a [u8],
) -> Result<([u8; 32], &'a [u8]), RecordRefusal>
    ensures { Gives (λ x. (x.0, pieces x.1.now)) result (line_by (field.hash_after word.now) n (pieces text.now)) }
{
    let (line, rest) = next_line(n, text)?;
    let hash = found(n, hash_after(word, line))?;
    Ok((hash, rest))
}

/// A word and a number of at most 1,024, at line `n`.
pub fn count_at<'a>(n: u32, word: &[u8], text: &'a [u8]) -> Result<(u32, &'a [u8]), RecordRefusal>
    ensures gives { Gives (λ x. (x.0, pieces x.1.now)) result (line_by (field.number_after 1024 word.now) n (pieces text.now)) }
    ensures within { IfOk result (λ x. x.0 ≤ 1024) }
{
    let (line, rest) = next_line(n, text)?;
    let count = found(n, number_after(1024, word, line))?;
    Ok((count as u32, rest))
}

/// The sum of the j-th class file, at line `n`.
pub fn class_at(j: u32, n: u32, text: &[u8]) -> Result<([u8; 32], &[u8]), RecordRefusal>
    ensures { Gives (λ x. (x.0, pieces x.1.now)) result (line_by (field.class_of j) n (pieces text.now)) }
{
    let (line, rest) = next_line(n, text)?;
    let hash = found(n, class_of(j, line))?;
    Ok((hash, rest))
}

/// The units of the i-th test, at line `n`.
pub fn units_at(i: u32, n: u32, text: &[u8]) -> Result<(u64, &[u8]), RecordRefusal>
    ensures { Gives (λ x. (x.0, pieces x.1.now)) result (line_by (field.units_of i) n (pieces text.now)) }
{
    let (line, rest) = next_line(n, text)?;
    let units = found(n, units_of(i, line))?;
    Ok((units, rest))
}

/// The reach of the i-th test, of classes up to `most`, at line `n`.
pub fn reach_at(
    alloc: Global,
    most: u32,
    i: u32,
    n: u32,
    text: &[u8],
) -> Result<(Reach, &[u8]), RecordRefusal>
    ensures { Gives (λ x. (x.0, pieces x.1.now)) result (line_by (field.reach_of most i) n (pieces text.now)) }
{
    let (line, rest) = next_line(n, text)?;
    let reach = reach_of(alloc, most, i, line)?;
    let reach = found(n, reach)?;
    Ok((reach, rest))
}
