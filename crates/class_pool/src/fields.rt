//! Numbers and runs of bytes at the front of a list of bytes. Each reader gives what it read and
//! the bytes after it. Numbers are big-endian (JVMS 4).

ghost use Rattle.std.specs.Prelude.{◌≡◌};
ghost use Rattle.std.specs.Int.{w8, w16, w32, w64};
ghost use Rattle.class_pool.specs.Reading.{Gives, number_or, number_at, run_or, run_at};

use crate::fault::{Fault, ReadError};
use byteorder::{BigEndian, ByteOrder};

/// One byte, or this fault where there is none.
pub fn u8_or(fault: Fault, bytes: &[u8]) -> Result<(u8, &[u8]), ReadError>
    ensures { Gives (λ x. (x.0, x.1.now)) result (number_or fault w8 bytes.now) }
{
    if bytes.len() < 1 {
        return Err(ReadError::Fault(fault));
    }
    let (front, rest) = bytes.split_at(1);
    let number = u8::from_be_bytes([front[0]]);
    Ok((number, rest))
}

/// One byte; `Truncated` where there is none.
pub fn u8_at(bytes: &[u8]) -> Result<(u8, &[u8]), ReadError>
    ensures { Gives (λ x. (x.0, x.1.now)) result (number_at w8 bytes.now) }
{
    u8_or(Fault::Truncated(bytes.len()), bytes)
}

/// A number of two bytes, or this fault where they aren't there.
pub fn u16_or(fault: Fault, bytes: &[u8]) -> Result<(u16, &[u8]), ReadError>
    ensures { Gives (λ x. (x.0, x.1.now)) result (number_or fault w16 bytes.now) }
{
    if bytes.len() < 2 {
        return Err(ReadError::Fault(fault));
    }
    let (front, rest) = bytes.split_at(2);
    Ok((BigEndian::read_u16(front), rest))
}

/// A number of two bytes; `Truncated` where they aren't there.
pub fn u16_at(bytes: &[u8]) -> Result<(u16, &[u8]), ReadError>
    ensures { Gives (λ x. (x.0, x.1.now)) result (number_at w16 bytes.now) }
{
    u16_or(Fault::Truncated(bytes.len()), bytes)
}

/// A number of four bytes, or this fault where they aren't there.
pub fn u32_or(fault: Fault, bytes: &[u8]) -> Result<(u32, &[u8]), ReadError>
    ensures { Gives (λ x. (x.0, x.1.now)) result (number_or fault w32 bytes.now) }
{
    if bytes.len() < 4 {
        return Err(ReadError::Fault(fault));
    }
    let (front, rest) = bytes.split_at(4);
    Ok((BigEndian::read_u32(front), rest))
}

/// A number of four bytes; `Truncated` where they aren't there.
pub fn u32_at(bytes: &[u8]) -> Result<(u32, &[u8]), ReadError>
    ensures { Gives (λ x. (x.0, x.1.now)) result (number_at w32 bytes.now) }
{
    u32_or(Fault::Truncated(bytes.len()), bytes)
}

/// A number of eight bytes, or this fault where they aren't there.
pub fn u64_or(fault: Fault, bytes: &[u8]) -> Result<(u64, &[u8]), ReadError>
    ensures { Gives (λ x. (x.0, x.1.now)) result (number_or fault w64 bytes.now) }
{
    if bytes.len() < 8 {
        return Err(ReadError::Fault(fault));
    }
    let (front, rest) = bytes.split_at(8);
    Ok((BigEndian::read_u64(front), rest))
}

/// A number of eight bytes; `Truncated` where they aren't there.
pub fn u64_at(bytes: &[u8]) -> Result<(u64, &[u8]), ReadError>
    ensures { Gives (λ x. (x.0, x.1.now)) result (number_at w64 bytes.now) }
{
    u64_or(Fault::Truncated(bytes.len()), bytes)
}

/// A run of so many bytes, or this fault where they aren't there.
pub fn run_or(fault: Fault, len: usize, bytes: &[u8]) -> Result<(&[u8], &[u8]), ReadError>
    ensures { Gives (λ x. (x.0.now, x.1.now)) result (run_or fault len bytes.now) }
{
    if bytes.len() < len {
        return Err(ReadError::Fault(fault));
    }
    Ok(bytes.split_at(len))
}

/// A run of so many bytes; `Truncated` where they aren't there.
pub fn run_at(len: usize, bytes: &[u8]) -> Result<(&[u8], &[u8]), ReadError>
    ensures { Gives (λ x. (x.0.now, x.1.now)) result (run_at len bytes.now) }
{
    run_or(Fault::Truncated(bytes.len()), len, bytes)
}
