//! Numbers, high byte first.

ghost use Rattle.std.specs.Prelude.{◌≡◌, ◌++◌, ◌^◌, OnOk};
ghost use Rattle.std.specs.Int.{w8, w16, w32, cast_unsigned, to_be_bytes};

use et_base::NoMemory;

/// Appends the low byte of a number.
pub fn put_byte(out: &mut Vec<u8>, n: u64) -> Result<(), NoMemory>
    ensures { OnOk result (out.new.items ≡ out.old.items ++ to_be_bytes w8 n) }
{
    out.extend_from_slice(&n.to_be_bytes()[7..])?;
    Ok(())
}

/// Appends the low two bytes of a number.
pub fn put_short(out: &mut Vec<u8>, n: u64) -> Result<(), NoMemory>
    ensures { OnOk result (out.new.items ≡ out.old.items ++ to_be_bytes w16 n) }
{
    out.extend_from_slice(&n.to_be_bytes()[6..])?;
    Ok(())
}

/// Appends the low four bytes of a number.
pub fn put_word(out: &mut Vec<u8>, n: u64) -> Result<(), NoMemory>
    ensures { OnOk result (out.new.items ≡ out.old.items ++ to_be_bytes w32 n) }
{
    out.extend_from_slice(&n.to_be_bytes()[4..])?;
    Ok(())
}

/// A signed number in two's complement, where there are `full` numbers of its width.
pub fn complement(z: i64, full: u64) -> u64
    ensures one { full ≡ 2 ^ 8 → result ≡ cast_unsigned w8 z }
    ensures two { full ≡ 2 ^ 16 → result ≡ cast_unsigned w16 z }
    ensures four { full ≡ 2 ^ 32 → result ≡ cast_unsigned w32 z }
{
    if z < 0 {
        full.saturating_sub(z.unsigned_abs())
    } else {
        z.unsigned_abs()
    }
}
