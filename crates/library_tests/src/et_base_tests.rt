use crate::texts::is_text;
use et_base::{
    NoMemory, Text, Units, UtfFault, bytes_of_units, decimal_u64, decimal32, decimal64, div32, i2b,
    l2i, modified_of_units, name_text, quote_bytes, quote_units, rem32, shl32, units_of_modified,
    ushr64,
};
use std::alloc::Global;

#[test]
fn numbers(rt: HostRuntime) {
    assert!(rt; div32(-2147483648, -1) == -2147483648 && rem32(-7, 2) == -1);
    assert!(rt; shl32(1, 33) == 2 && ushr64(-1, 60) == 15);
    assert!(rt; l2i(4294967297) == 1 && i2b(200) == -56);
}

// Whether the null is two bytes.
fn spells_null(alloc: Global) -> Result<bool, UtfFault> {
    let null = units_of_modified(alloc, &[0xC0, 0x80])?;
    let bytes = modified_of_units(alloc, &null)?;
    Ok(null.as_slice() == [0].as_slice() && bytes.as_slice() == [0xC0, 0x80].as_slice())
}

#[test]
fn modified_utf8(rt: HostRuntime) {
    assert!(rt; spells_null(rt.alloc()).unwrap_or(false));
    let cut = units_of_modified(rt.alloc(), &[0x41, 0xE0]).err();
    assert!(rt; cut == Some(UtfFault::BadUtf { at: 1 }));
}

fn quoted(alloc: Global, units: &[u16]) -> Result<Text, NoMemory> {
    let units = Units::from_slice(alloc, units)?;
    quote_units(alloc, &units)
}

#[test]
fn quotes(rt: HostRuntime) {
    let alloc = rt.alloc();
    assert!(rt; is_text(quoted(alloc, &[0x22, 0x0A, 0x7F]), b"\"\\\"\\n\\u007f\""));
    assert!(rt; is_text(quote_bytes(alloc, b"\\~\xAB"), b"\"\\\\~\\xab\""));
}

fn named(alloc: Global, units: &[u16]) -> Result<Text, NoMemory> {
    let units = Units::from_slice(alloc, units)?;
    name_text(alloc, &units)
}

fn in_utf8(alloc: Global, units: &[u16]) -> Result<Text, NoMemory> {
    let units = Units::from_slice(alloc, units)?;
    Ok(Text::from_vec(bytes_of_units(alloc, &units)?))
}

#[test]
fn names_and_utf8(rt: HostRuntime) {
    let alloc = rt.alloc();
    assert!(rt; is_text(named(alloc, &[0x61, 0x2F, 0x3C, 0x3B]), b"a.<\\u003b"));
    assert!(rt;
        is_text(
            in_utf8(alloc, &[0xD83D, 0xDE00, 0xD800]),
            b"\xF0\x9F\x98\x80?"
        )
    );
}

#[test]
fn decimals(rt: HostRuntime) {
    let alloc = rt.alloc();
    assert!(rt;
        is_text(
            decimal64(alloc, -9223372036854775808),
            b"-9223372036854775808"
        )
    );
    assert!(rt; is_text(decimal32(alloc, -1), b"-1"));
    assert!(rt; is_text(decimal_u64(alloc, 0), b"0"));
}
