//! The entries of a constant pool, as they are read (JVMS 4.4).

ghost use Rattle.std.specs.Prelude.{◌≡◌, ◌-◌, ◌^◌, ◌<◌, length};
ghost use Rattle.et_base.specs.{Utf.group, Utf.utf, UtfReading.units_read};
ghost use Rattle.class_pool.specs.Reading.{Gives};
ghost use Rattle.class_pool.specs.Pool.{units_or, text_at, handle_at, twins_at, singles_at, numbers_at, body_at, entry_at, is_wide, slot_by, slots_at, slot_len};

use crate::fault::{Fault, ReadError};
use crate::fields::{run_at, u8_at, u16_at, u32_at, u64_at};
use et_base::{Items, Units, UtfFault, units_of_modified};
use std::alloc::Global;

/// An entry of a constant pool (JVMS 4.4). Indices count from 1, as in the class file.
#[derive(Drop)]
pub enum Entry {
    Utf8(Units),
    Integer(i32),
    /// The bits of a float.
    Float(u32),
    Long(i64),
    /// The bits of a double.
    Double(u64),
    Class { name: u16 },
    Str { text: u16 },
    Field { class: u16, pair: u16 },
    Method { class: u16, pair: u16 },
    InterfaceMethod { class: u16, pair: u16 },
    NameAndType { name: u16, descriptor: u16 },
    MethodHandle { kind: u8, index: u16 },
    MethodType { descriptor: u16 },
    InvokeDynamic { bootstrap: u16, pair: u16 },
}

// The units of a run at which so much is left.
fn units_of(alloc: Global, left: usize, run: &[u8]) -> Result<Units, ReadError>
    requires { length run.now < 2 ^ 32 }
    ensures { Gives (λ x. x) result (units_or left (units_read run.now)) }
{
    match units_of_modified(alloc, run) {
        Ok(units) => Ok(units),
        Err(UtfFault::BadUtf { at }) => Err(ReadError::Fault(Fault::BadUtf(left.saturating_sub(
            at as usize,
        )))),
        Err(UtfFault::NoMemory) => Err(ReadError::Memory),
    }
}

#[tactic(auto, unfolding(crate::specs::Pool::text_at))]
fn text_of(alloc: Global, bytes: &[u8]) -> Result<(Entry, &[u8]), ReadError>
    ensures { Gives (λ x. (x.0, x.1.now)) result (text_at bytes.now) }
{
    let (len, start) = u16_at(bytes)?;
    let (run, rest) = run_at(len as usize, start)?;
    let units = units_of(alloc, start.len(), run)?;
    Ok((Entry::Utf8(units), rest))
}

#[tactic(auto, unfolding(crate::specs::Pool::handle_at))]
fn handle_of(bytes: &[u8]) -> Result<(Entry, &[u8]), ReadError>
    ensures { Gives (λ x. (x.0, x.1.now)) result (handle_at bytes.now) }
{
    let (kind, rest) = u8_at(bytes)?;
    let (index, rest) = u16_at(rest)?;
    Ok((Entry::MethodHandle { kind, index }, rest))
}

#[tactic(auto, unfolding(crate::specs::Pool::twins_at))]
fn twins_of(tag: u8, left: usize, bytes: &[u8]) -> Result<(Entry, &[u8]), ReadError>
    ensures { Gives (λ x. (x.0, x.1.now)) result (twins_at tag left bytes.now) }
{
    match tag {
        9 => {
            let (class, rest) = u16_at(bytes)?;
            let (pair, rest) = u16_at(rest)?;
            Ok((Entry::Field { class, pair }, rest))
        }
        10 => {
            let (class, rest) = u16_at(bytes)?;
            let (pair, rest) = u16_at(rest)?;
            Ok((Entry::Method { class, pair }, rest))
        }
        11 => {
            let (class, rest) = u16_at(bytes)?;
            let (pair, rest) = u16_at(rest)?;
            Ok((Entry::InterfaceMethod { class, pair }, rest))
        }
        12 => {
            let (name, rest) = u16_at(bytes)?;
            let (descriptor, rest) = u16_at(rest)?;
            Ok((Entry::NameAndType { name, descriptor }, rest))
        }
        18 => {
            let (bootstrap, rest) = u16_at(bytes)?;
            let (pair, rest) = u16_at(rest)?;
            Ok((Entry::InvokeDynamic { bootstrap, pair }, rest))
        }
        _ => Err(ReadError::Fault(Fault::BadTag(left, tag))),
    }
}

#[tactic(auto, unfolding(crate::specs::Pool::singles_at))]
fn singles_of(tag: u8, left: usize, bytes: &[u8]) -> Result<(Entry, &[u8]), ReadError>
    ensures { Gives (λ x. (x.0, x.1.now)) result (singles_at tag left bytes.now) }
{
    match tag {
        7 => {
            let (name, rest) = u16_at(bytes)?;
            Ok((Entry::Class { name }, rest))
        }
        8 => {
            let (text, rest) = u16_at(bytes)?;
            Ok((Entry::Str { text }, rest))
        }
        16 => {
            let (descriptor, rest) = u16_at(bytes)?;
            Ok((Entry::MethodType { descriptor }, rest))
        }
        _ => twins_of(tag, left, bytes),
    }
}

#[tactic(auto, unfolding(crate::specs::Pool::numbers_at))]
fn numbers_of(tag: u8, slots: usize, left: usize, bytes: &[u8]) -> Result<(Entry, &[u8]), ReadError>
    ensures { Gives (λ x. (x.0, x.1.now)) result (numbers_at tag slots left bytes.now) }
{
    match tag {
        3 => {
            let (number, rest) = u32_at(bytes)?;
            Ok((Entry::Integer(number.cast_signed()), rest))
        }
        4 => {
            let (bits, rest) = u32_at(bytes)?;
            Ok((Entry::Float(bits), rest))
        }
        5 if 0 < slots => {
            let (number, rest) = u64_at(bytes)?;
            Ok((Entry::Long(number.cast_signed()), rest))
        }
        6 if 0 < slots => {
            let (bits, rest) = u64_at(bytes)?;
            Ok((Entry::Double(bits), rest))
        }
        _ => singles_of(tag, left, bytes),
    }
}

#[tactic(auto, unfolding(crate::specs::Pool::body_at))]
fn body_of(
    alloc: Global,
    tag: u8,
    slots: usize,
    left: usize,
    bytes: &[u8],
) -> Result<(Entry, &[u8]), ReadError>
    ensures { Gives (λ x. (x.0, x.1.now)) result (body_at tag slots left bytes.now) }
{
    match tag {
        1 => text_of(alloc, bytes),
        15 => handle_of(bytes),
        _ => numbers_of(tag, slots, left, bytes),
    }
}

#[tactic(auto, unfolding(crate::specs::Pool::entry_at))]
fn entry_of(alloc: Global, slots: usize, bytes: &[u8]) -> Result<(Entry, &[u8]), ReadError>
    ensures { Gives (λ x. (x.0, x.1.now)) result (entry_at slots bytes.now) }
{
    let (tag, rest) = u8_at(bytes)?;
    body_of(alloc, tag, slots, bytes.len(), rest)
}

fn is_wide(slot: &Option<Entry>) -> bool
    ensures { result ≡ is_wide slot.now }
{
    match slot {
        Some(Entry::Long(_)) => true,
        Some(Entry::Double(_)) => true,
        _ => false,
    }
}

#[tactic(auto, unfolding(crate::specs::Pool::slot_by))]
fn slot_of(
    alloc: Global,
    second: bool,
    slots: usize,
    bytes: &[u8],
) -> Result<(Option<Entry>, &[u8]), ReadError>
    ensures { Gives (λ x. (x.0, x.1.now)) result (slot_by second slots bytes.now) }
{
    if second {
        return Ok((None, bytes));
    }
    let (entry, rest) = entry_of(alloc, slots, bytes)?;
    Ok((Some(entry), rest))
}

/// The slots of a pool with this count, and the bytes after them. Nothing is asked of what their
/// entries name.
pub(crate) fn slots_of(
    alloc: Global,
    count: u16,
    bytes: &[u8],
) -> Result<(Items<Option<Entry>>, &[u8]), ReadError>
    ensures { Gives (λ x. (x.0, x.1.now)) result (slots_at count bytes.now) }
{
    let mut slots = Items::new(alloc);
    let mut rest = bytes;
    let mut second = false;
    let most = count.saturating_sub(1) as usize;
    for i in 0..most {
        let (slot, next) = slot_of(alloc, second, most - (i + 1), rest)?;
        second = is_wide(&slot);
        slots.push(slot)?;
        rest = next;
    }
    Ok((slots, rest))
}

#[tactic(auto, unfolding(et_base::specs::Utf::group))]
fn group_len(unit: u16) -> usize
    ensures { result ≡ length (group unit) }
{
    if 1 <= unit && unit < 128 {
        1
    } else if unit < 2048 {
        2
    } else {
        3
    }
}

/// What is left after the bytes of these units.
pub(crate) fn after_units(left: usize, units: &[u16]) -> usize
    ensures { result ≡ left - length (utf units.now) }
{
    let mut now = left;
    for unit in units {
        now = now.saturating_sub(group_len(*unit));
    }
    now
}

/// What is left after a slot.
pub(crate) fn after_slot(left: usize, slot: &Option<Entry>) -> usize
    ensures { result ≡ left - slot_len slot.now }
{
    match slot {
        None => left,
        Some(Entry::Utf8(units)) => after_units(left.saturating_sub(3), units.as_slice()),
        Some(Entry::Integer(_)) => left.saturating_sub(5),
        Some(Entry::Float(_)) => left.saturating_sub(5),
        Some(Entry::Long(_)) => left.saturating_sub(9),
        Some(Entry::Double(_)) => left.saturating_sub(9),
        Some(Entry::Class { .. }) => left.saturating_sub(3),
        Some(Entry::Str { .. }) => left.saturating_sub(3),
        Some(Entry::Field { .. }) => left.saturating_sub(5),
        Some(Entry::Method { .. }) => left.saturating_sub(5),
        Some(Entry::InterfaceMethod { .. }) => left.saturating_sub(5),
        Some(Entry::NameAndType { .. }) => left.saturating_sub(5),
        Some(Entry::MethodHandle { .. }) => left.saturating_sub(4),
        Some(Entry::MethodType { .. }) => left.saturating_sub(3),
        Some(Entry::InvokeDynamic { .. }) => left.saturating_sub(5),
    }
}
