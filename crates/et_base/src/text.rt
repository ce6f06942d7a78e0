//! Numbers, names and quoted texts as this project's reports have them.
//!
//! Each `push_` function appends to a text; after a refusal part of it may stand there.

ghost use Rattle.std.specs.Prelude.{◌≡◌, ◌++◌, ◌<◌, OnOk, IfOk};
ghost use Rattle.std.specs.{List.flat_map, Fmt.decimal, Fmt.signed_decimal};
ghost use Rattle.et_base.specs.Quotes as quotes;

use crate::{NoMemory, Text, Units};
use itoa::Buffer;
use std::alloc::Global;

/// Appends a number in decimal digits.
pub fn push_decimal(out: &mut Text, number: u64) -> Result<(), NoMemory>
    ensures { OnOk result (out.new ≡ out.old ++ decimal number) }
{
    out.extend_from_slice(Buffer::new().format(number).as_bytes())
}

/// Appends a number in decimal digits, with `-` before one below 0.
pub fn push_signed(out: &mut Text, number: i64) -> Result<(), NoMemory>
    ensures { OnOk result (out.new ≡ out.old ++ signed_decimal number) }
{
    out.extend_from_slice(Buffer::new().format(number).as_bytes())
}

/// The decimal digits of a number.
pub fn decimal_u64(alloc: Global, number: u64) -> Result<Text, NoMemory>
    ensures { IfOk result (λ text. text ≡ decimal number) }
{
    let mut out = Text::new(alloc);
    push_decimal(&mut out, number)?;
    Ok(out)
}

/// The decimal digits of an `int`, with `-` before one below 0.
pub fn decimal32(alloc: Global, number: i32) -> Result<Text, NoMemory>
    ensures { IfOk result (λ text. text ≡ signed_decimal number) }
{
    decimal64(alloc, number as i64)
}

/// The decimal digits of a `long`, with `-` before one below 0.
pub fn decimal64(alloc: Global, number: i64) -> Result<Text, NoMemory>
    ensures { IfOk result (λ text. text ≡ signed_decimal number) }
{
    let mut out = Text::new(alloc);
    push_signed(&mut out, number)?;
    Ok(out)
}

// A digit below 16, in lower case.
fn hex_digit(digit: u8) -> u8
    requires { digit < 16 }
    ensures { result ≡ quotes.hex_digit digit }
{
    if digit < 10 {
        b'0' + digit
    } else {
        b'a' - 10 + digit
    }
}

// Appends `\u` and four digits.
#[tactic(auto, unfolding(crate::specs::Quotes::unit_escape))]
fn push_unit_escape(out: &mut Text, unit: u16) -> Result<(), NoMemory>
    ensures { OnOk result (out.new ≡ out.old ++ quotes.unit_escape unit) }
{
    out.extend_from_slice(&[
        b'\\',
        b'u',
        hex_digit((unit / 4096) as u8),
        hex_digit((unit / 256 % 16) as u8),
        hex_digit((unit / 16 % 16) as u8),
        hex_digit((unit % 16) as u8),
    ])
}

// Appends `\x` and two digits.
#[tactic(auto, unfolding(crate::specs::Quotes::byte_escape))]
fn push_byte_escape(out: &mut Text, byte: u8) -> Result<(), NoMemory>
    ensures { OnOk result (out.new ≡ out.old ++ quotes.byte_escape byte) }
{
    out.extend_from_slice(&[b'\\', b'x', hex_digit(byte / 16), hex_digit(byte % 16)])
}

#[tactic(auto, unfolding(crate::specs::Quotes::quoted_unit))]
fn push_quoted_unit(out: &mut Text, unit: u16) -> Result<(), NoMemory>
    ensures { OnOk result (out.new ≡ out.old ++ quotes.quoted_unit unit) }
{
    match unit {
        34 | 92 => out.extend_from_slice(&[b'\\', unit as u8]),
        10 => out.extend_from_slice(b"\\n"),
        32..=126 => out.push(unit as u8),
        _ => push_unit_escape(out, unit),
    }
}

#[tactic(auto, unfolding(crate::specs::Quotes::quoted_byte))]
fn push_quoted_byte(out: &mut Text, byte: u8) -> Result<(), NoMemory>
    ensures { OnOk result (out.new ≡ out.old ++ quotes.quoted_byte byte) }
{
    match byte {
        b'"' | b'\\' => out.extend_from_slice(&[b'\\', byte]),
        b'\n' => out.extend_from_slice(b"\\n"),
        b' '..=b'~' => out.push(byte),
        _ => push_byte_escape(out, byte),
    }
}

/// Appends units between double quotes. From space to `~` they stand for themselves, with a backslash before
/// `"` and `\`; a line feed is `\n`, and every other unit is `\u` and four lower-case hexadecimal digits.
pub fn push_quoted_units(out: &mut Text, units: &[u16]) -> Result<(), NoMemory>
    ensures { OnOk result (out.new ≡ out.old ++ quotes.quoted_units units.now) }
{
    out.push(b'"')?;
    for unit in units {
        push_quoted_unit(out, *unit)?;
    }
    out.push(b'"')
}

/// Appends bytes between double quotes, as `push_quoted_units` does units, with `\x` and two lower-case
/// hexadecimal digits for every other byte.
pub fn push_quoted_bytes(out: &mut Text, bytes: &[u8]) -> Result<(), NoMemory>
    ensures { OnOk result (out.new ≡ out.old ++ quotes.quoted_bytes bytes.now) }
{
    out.push(b'"')?;
    for byte in bytes {
        push_quoted_byte(out, *byte)?;
    }
    out.push(b'"')
}

#[tactic(auto, unfolding(crate::specs::Quotes::name_unit))]
fn push_name_unit(out: &mut Text, unit: u16) -> Result<(), NoMemory>
    ensures { OnOk result (out.new ≡ out.old ++ quotes.name_unit unit) }
{
    match unit {
        97..=122 | 65..=90 | 48..=57 | 36 | 45 | 60 | 62 | 95 => out.push(unit as u8),
        47 => out.push(b'.'),
        _ => push_unit_escape(out, unit),
    }
}

/// Appends a name of a class or member: letters, digits, `_`, `$`, `<`, `>` and `-` stand for themselves, `/`
/// becomes `.`, and every other unit is `\u` and four lower-case hexadecimal digits.
pub fn push_name(out: &mut Text, units: &[u16]) -> Result<(), NoMemory>
    ensures { OnOk result (out.new ≡ out.old ++ quotes.name_of units.now) }
{
    for unit in units {
        push_name_unit(out, *unit)?;
    }
    Ok(())
}

/// Units between double quotes, in the form of `push_quoted_units`.
pub fn quote_units(alloc: Global, units: &Units) -> Result<Text, NoMemory>
    ensures { IfOk result (λ text. text ≡ quotes.quoted_units units.now) }
{
    let mut out = Text::new(alloc);
    push_quoted_units(&mut out, units.as_slice())?;
    Ok(out)
}

/// Bytes between double quotes, in the form of `push_quoted_bytes`.
pub fn quote_bytes(alloc: Global, bytes: &[u8]) -> Result<Text, NoMemory>
    ensures { IfOk result (λ text. text ≡ quotes.quoted_bytes bytes.now) }
{
    let mut out = Text::new(alloc);
    push_quoted_bytes(&mut out, bytes)?;
    Ok(out)
}

/// A name, in the form of `push_name`.
pub fn name_text(alloc: Global, units: &Units) -> Result<Text, NoMemory>
    ensures { IfOk result (λ text. text ≡ quotes.name_of units.now) }
{
    let mut out = Text::new(alloc);
    push_name(&mut out, units.as_slice())?;
    Ok(out)
}
