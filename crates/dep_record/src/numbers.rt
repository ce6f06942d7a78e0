//! Decimal numbers.

ghost use Rattle.std.specs.Prelude.{◌≡◌, ◌≤◌, ◌<◌, ◌^◌, IfOk, IfSome};
ghost use Rattle.dep_record.specs.Fields as field;

use crate::cut::cut;
use et_base::{Items, NoMemory};
use std::alloc::Global;

/// The value of bytes that are a decimal number without sign or leading zero, if it is at most `most`.
#[tactic(auto, unfolding(crate::specs::Fields::number_up_to))]
pub fn number_up_to(most: u64, bytes: &[u8]) -> Option<u64>
    ensures value { result ≡ field.number_up_to most bytes.now }
    ensures within { IfSome result (λ n. n ≤ most) }
{
    if bytes.is_empty() || (bytes[0] == b'0' && bytes.len() != 1) {
        return None;
    }
    digits_up_to(most, bytes)
}

// The value of digits, if it is at most `most`.
fn digits_up_to(most: u64, bytes: &[u8]) -> Option<u64>
    ensures value { result ≡ field.digits_up_to most bytes.now }
    ensures within { IfSome result (λ n. n ≤ most) }
{
    let mut value = 0;
    for b in bytes {
        value = with_digit(most, value, *b)?;
    }
    Some(value)
}

// The value with one more digit, if it is at most `most`.
fn with_digit(most: u64, value: u64, b: u8) -> Option<u64>
    ensures { result ≡ field.with_digit most value b }
{
    if !b.is_ascii_digit() {
        return None;
    }
    let digit = u64::from(b - b'0');
    if digit > most || value > (most - digit) / 10 {
        return None;
    }
    Some(value * 10 + digit)
}

/// A number that 32 bits hold.
pub fn number_of(bytes: &[u8]) -> Option<u32>
    ensures { result ≡ field.number_of bytes.now }
{
    let number = number_up_to(u32::MAX as u64, bytes)?;
    Some(number as u32)
}

/// Numbers that are joined by commas.
pub fn numbers_in(alloc: Global, text: &[u8]) -> Result<Option<Items<u32>>, NoMemory>
    ensures { IfOk result (λ numbers. numbers ≡ field.numbers_in text.now) }
{
    let mut numbers = Items::new(alloc);
    let mut left = text;
    while let Some((piece, rest)) = cut(b',', left) {
        match number_of(piece) {
            None => return Ok(None),
            Some(number) => numbers.push(number)?,
        }
        left = rest;
    }
    match number_of(left) {
        None => Ok(None),
        Some(number) => {
            numbers.push(number)?;
            Ok(Some(numbers))
        }
    }
}
