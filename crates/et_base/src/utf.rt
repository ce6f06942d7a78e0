//! Modified UTF-8 (JVMS 4.4.7), the form that names and strings have in class files.

ghost use Rattle.std.specs.Prelude.{◌≡◌, ℕ, ◌<◌, ◌^◌, ◌++◌, length, OnOk, IfOk, IfErr, if◌then◌else◌, option_map};
ghost use Rattle.et_base.specs.Utf.{is_one, group, utf, IsUnits, ExplainsUtf};
ghost use Rattle.et_base.specs.UtfReading.{is_more, is_two, is_three, two, three, unit_at};

use crate::{Items, NoMemory, Units};
use std::alloc::Global;

/// Why no units were read.
#[derive(Clone, Copy, Debug, PartialEq, Eq)]
pub enum UtfFault {
    /// The bytes are no modified UTF-8: their first group that is wrong or cut begins at this offset.
    BadUtf {
        /// From the first of the bytes.
        at: u32,
    },
    /// An allocation was refused.
    NoMemory,
}

impl From<NoMemory> for UtfFault {
    ghost use Rattle.std.specs.Prelude.{◌≡◌};
    ghost use Rattle.et_base.specs.declared.utf.UtfFault.TheVariants as faults;

    ghost from_gives = { λ _ e. e ≡ faults.NoMemory };

    fn from(_refused: NoMemory) -> UtfFault {
        UtfFault::NoMemory
    }
}

// A unit that is one byte.
fn is_one(a: u8) -> bool
    ensures { result ≡ is_one a }
{
    1 <= a && a < 128
}

// A byte of a group after its first.
fn is_more(b: u8) -> bool
    ensures { result ≡ is_more b }
{
    128 <= b && b < 192
}

// The unit that two bytes stand for.
fn second(a: u8, b: u8) -> Option<u16>
    ensures { result ≡ (if is_two a b then Some (two a b) else None) }
{
    if 192 <= a && a < 224 && is_more(b) {
        let unit = (a - 192) as u16 * 64 + (b - 128) as u16;
        if unit == 0 || 128 <= unit {
            return Some(unit);
        }
    }
    None
}

// The unit that three bytes stand for.
fn third(a: u8, b: u8, c: u8) -> Option<u16>
    ensures { result ≡ (if is_three a b c then Some (three a b c) else None) }
{
    if 224 <= a && a < 240 && is_more(b) && is_more(c) {
        let unit = (a - 224) as u16 * 4096 + (b - 128) as u16 * 64 + (c - 128) as u16;
        if 2048 <= unit {
            return Some(unit);
        }
    }
    None
}

// The unit at the front, and the bytes after its group.
#[tactic(auto, unfolding(crate::specs::UtfReading::unit_at))]
fn unit_of(bytes: &[u8]) -> Option<(u16, &[u8])>
    ensures { option_map (λ x. (x.0, x.1.now)) result ≡ unit_at bytes.now }
{
    match bytes {
        [] => None,
        [a, rest @ ..] => {
            if is_one(*a) {
                return Some((*a as u16, rest));
            }
            match rest {
                [] => None,
                [b, rest @ ..] => {
                    if let Some(unit) = second(*a, *b) {
                        return Some((unit, rest));
                    }
                    match rest {
                        [] => None,
                        [c, rest @ ..] => third(*a, *b, *c).map(|unit| (unit, rest)),
                    }
                }
            }
        }
    }
}

/// The units that modified UTF-8 stands for. The error `BadUtf` comes exactly where the bytes are no
/// modified UTF-8: a byte 0, an overlong form, a byte past EF, or a group that ends too early (JVMS 4.4.7).
pub fn units_of_modified(alloc: Global, bytes: &[u8]) -> Result<Units, UtfFault>
    requires { length bytes.now < 2 ^ 32 }
    ensures spelled { IfOk result (λ units. bytes.now ≡ utf units) }
    ensures units { IfOk result (λ units. IsUnits units) }
    ensures fault { IfErr result (ExplainsUtf bytes.now) }
{
    let mut units = Items::new(alloc);
    let mut rest = bytes;
    while !rest.is_empty() {
        let Some((unit, next)) = unit_of(rest) else {
            return Err(UtfFault::BadUtf {
                at: (bytes.len() - rest.len()) as u32,
            });
        };
        units.push(unit)?;
        rest = next;
    }
    Ok(units)
}

// Appends the group of a unit.
#[tactic(auto, unfolding(crate::specs::Utf::group))]
fn push_group(out: &mut Vec<u8>, unit: u16) -> Result<(), NoMemory>
    ensures { OnOk result (out.new.items ≡ out.old.items ++ group unit) }
{
    if 1 <= unit && unit < 128 {
        out.push(unit as u8)?;
    } else if unit < 2048 {
        out.push((192 + unit / 64) as u8)?;
        out.push((128 + unit % 64) as u8)?;
    } else {
        out.push((224 + unit / 4096) as u8)?;
        out.push((128 + unit / 64 % 64) as u8)?;
        out.push((128 + unit % 64) as u8)?;
    }
    Ok(())
}

/// Appends units in modified UTF-8 (JVMS 4.4.7). After a refusal part of it may stand there.
pub fn push_modified(out: &mut Vec<u8>, units: &[u16]) -> Result<(), NoMemory>
    ensures { OnOk result (out.new.items ≡ out.old.items ++ utf units.now) }
{
    for unit in units {
        push_group(out, *unit)?;
    }
    Ok(())
}

/// Units in modified UTF-8 (JVMS 4.4.7).
pub fn modified_of_units(alloc: Global, units: &Units) -> Result<Vec<u8>, NoMemory>
    ensures { IfOk result (λ v. v.items ≡ utf units.now) }
{
    let mut out = Vec::new(alloc);
    push_modified(&mut out, units.as_slice())?;
    Ok(out)
}
