//! Works on the texts of strings.

ghost use Rattle.std.specs.Prelude.{◌≡◌, ◌<◌, ◌≤◌, ◌-◌, IfOk, pos, length, take, drop};
ghost use Rattle.std.specs.Fmt.{signed_decimal};
ghost use Rattle.et_base.specs.Numbers as numbers;
ghost use Rattle.jvm_model.specs.NativesString as natives;
ghost use Rattle.jvm_model.specs.Working as working;
ghost use Rattle.vm_natives.specs.Parts as parts;

use et_base::letters::BOOLEAN;
use et_base::{NoMemory, Units, decimal32, decimal64, l2i};
use jvm_model::narrow_int;
use std::alloc::Global;

/// The length of a text as an int.
#[tactic(auto, unfolding(et_base::specs::Numbers::l2i))]
pub fn length_of(text: &[u16]) -> i32
    ensures { result ≡ numbers.l2i (pos (length text.now)) }
{
    l2i(text.len() as i64)
}

/// The sum of the units, each times 31 to the power of the number of those after it, wrapped.
#[tactic(auto, using(crate::proofs::Hashes::wrapped_step, crate::proofs::Hashes::hashed))]
pub fn hash_of(text: &[u16]) -> i32
    ensures { result ≡ natives.hash_of text.now }
{
    let mut hash: u32 = 0;
    for unit in text {
        hash = hash.wrapping_mul(31).wrapping_add(u32::from(*unit));
    }
    hash.cast_signed()
}

/// The units from the first place up to but not the second, or to the end; None where places are out of range or in the
/// wrong order.
pub fn part_of(
    alloc: Global,
    text: &[u16],
    from: i32,
    to: Option<i32>,
) -> Result<Option<Units>, NoMemory>
    ensures { IfOk result (λ part. part ≡ parts.part_of text.now from (parts.end_of text.now to)) }
{
    let end = match to {
        None => text.len(),
        Some(to) if to < 0 => return Ok(None),
        Some(to) => to as usize,
    };
    if from < 0 || end < from as usize || text.len() < end {
        return Ok(None);
    }
    Ok(Some(Units::from_slice(alloc, &text[from as usize..end])?))
}

/// An int in decimal digits, with `-` before one below 0.
pub fn int_text(alloc: Global, number: i32) -> Result<Units, NoMemory>
    ensures { IfOk result (λ text. text ≡ signed_decimal number) }
{
    let digits = decimal32(alloc, number)?;
    Units::from_ascii(alloc, digits.as_slice())
}

/// A long in decimal digits, with `-` before one below 0.
pub fn long_text(alloc: Global, number: i64) -> Result<Units, NoMemory>
    ensures { IfOk result (λ text. text ≡ signed_decimal number) }
{
    let digits = decimal64(alloc, number)?;
    Units::from_ascii(alloc, digits.as_slice())
}

/// The text of a boolean: by its lowest bit.
pub fn boolean_text(n: i32) -> &'static [u8]
    ensures { result.now ≡ working.boolean_text n }
{
    if narrow_int(BOOLEAN, n) == 0 {
        b"false"
    } else {
        b"true"
    }
}

/// The unit of a char: its low 16 bits.
#[tactic(auto, unfolding(et_base::specs::Numbers::i2c))]
pub fn char_unit(n: i32) -> u16
    ensures { result ≡ working.char_of n }
{
    n.rem_euclid(1 << 16) as u16
}
