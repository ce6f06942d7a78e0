//! UTF-8 of code units.

ghost use Rattle.std.specs.Prelude.{◌≡◌, ◌&&◌, ◌++◌, ◌<◌, OnOk, IfOk, IfNone, IfSome, IsTrue, length, encode_utf8, unwrap_or};
ghost use Rattle.std.specs.Char.Utf16.{is_high_surrogate, is_low_surrogate, surrogate_pair_char, lone_unit_char};
ghost use Rattle.et_base.specs.Quotes.{utf8_of};

use crate::{NoMemory, Units};
use std::alloc::Global;

// Whether two units are the surrogates of one character.
fn is_pair(high: u16, low: u16) -> bool
    ensures { result ≡ (is_high_surrogate high && is_low_surrogate low) }
{
    0xD800 <= high && high < 0xDC00 && 0xDC00 <= low && low < 0xE000
}

// The character of a pair.
fn pair_char(high: u16, low: u16) -> char
    requires { IsTrue (is_high_surrogate high && is_low_surrogate low) }
    ensures { result ≡ surrogate_pair_char high low }
{
    let code = 0x1_0000 + (high - 0xD800) as u32 * 0x400 + (low - 0xDC00) as u32;
    char::from_u32(code).unwrap_or('?')
}

// The character of a unit alone.
fn lone_char(unit: u16) -> char
    ensures { result ≡ unwrap_or (lone_unit_char unit) 63 }
{
    char::from_u32(unit as u32).unwrap_or('?')
}

// The character at the front, and the units after it.
fn first_char(units: &[u16]) -> Option<(char, &[u16])>
    ensures none { IfNone result (length units.now ≡ 0) }
    ensures first { IfSome result (λ x. utf8_of units.now ≡ encode_utf8 x.0 ++ utf8_of x.1.now) }
    ensures shorter { IfSome result (λ x. length x.1.now < length units.now) }
{
    match units {
        [] => None,
        [high, rest @ ..] => {
            if let [low, after @ ..] = rest {
                if is_pair(*high, *low) {
                    return Some((pair_char(*high, *low), after));
                }
            }
            Some((lone_char(*high), rest))
        }
    }
}

/// Units in UTF-8. Two surrogates that make a pair are one character of four bytes, and a lone surrogate becomes `?`.
pub fn bytes_of_units(alloc: Global, units: &Units) -> Result<Vec<u8>, NoMemory>
    ensures { IfOk result (λ v. v.items ≡ utf8_of units.now) }
{
    let mut out = Vec::new(alloc);
    let mut rest = units.as_slice();
    while let Some((next, after)) = first_char(rest) {
        out.extend_from_slice(next.encode_utf8(&mut [0; 4]).as_bytes())?;
        rest = after;
    }
    Ok(out)
}
