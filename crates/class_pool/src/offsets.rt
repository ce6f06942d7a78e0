//! Pools read at an offset, with faults by their offsets.

ghost use Rattle.std.specs.Prelude.{◌≡◌, ℕ, ◌^◌, ◌<◌, ◌+◌, ◌-◌, ◌++◌, List, length, drop, IfOk, Ok, Option};
ghost use Rattle.class_pool.specs.{declared.pool.Entry.Entry, PoolGrammar.PoolText};
ghost use Rattle.class_pool.specs.Offsets.{IsPoolFault, place, pool_fault, read_from, SpelledFrom, PoolGives};

use crate::constant_pool::{Pool, pool_at};
use crate::fault::{Fault, ReadError};
use std::alloc::Global;

/// Why no pool was read: the first fault of one reading from left to right, the two passes after it.
/// Each offset is that of the field concerned, in the bytes.
#[derive(Clone, Copy, Debug, PartialEq, Eq)]
pub enum PoolFault {
    /// A number or a run of bytes isn't wholly there.
    Truncated { at: u32 },
    /// A tag that is none of JVMS 4.4, or a long or double in the last slot.
    BadTag { at: u32, tag: u8 },
    /// An index that names no entry, or one of a kind that isn't allowed in its place.
    BadIndex { at: u32 },
    /// A group of bytes that is no code unit in modified UTF-8 (JVMS 4.4.7).
    BadUtf { at: u32 },
    /// An index that names a name or descriptor in no form of JVMS 4.2 and 4.3 that is allowed in its
    /// place.
    BadDescriptor { at: u32 },
    /// An allocation was refused.
    NoMemory,
}

// The offset of a place at which so much is left, where `total` is left at `at`.
fn place(at: u32, total: usize, left: usize) -> u32
    requires { at + total < 2 ^ 32 }
    ensures { result ≡ place at total left }
{
    at + total.saturating_sub(left) as u32
}

fn placed_fault(at: u32, total: usize, fault: Fault) -> PoolFault
    requires room { at + total < 2 ^ 32 }
    requires sort { IsPoolFault fault }
    ensures { result ≡ pool_fault (place at total) fault }
{
    match fault {
        Fault::Truncated(left) => PoolFault::Truncated {
            at: place(at, total, left),
        },
        Fault::BadTag(left, tag) => PoolFault::BadTag {
            at: place(at, total, left),
            tag,
        },
        Fault::BadIndex(left) => PoolFault::BadIndex {
            at: place(at, total, left),
        },
        Fault::BadUtf(left) => PoolFault::BadUtf {
            at: place(at, total, left),
        },
        Fault::BadDescriptor(left) => PoolFault::BadDescriptor {
            at: place(at, total, left),
        },
        _ => unreachable!(),
    }
}

// The bytes from an offset on, none where it is past the end.
fn bytes_from(bytes: &[u8], at: u32) -> &[u8]
    ensures { result.now ≡ drop at bytes.now }
{
    bytes.split_at(bytes.len().min(at as usize)).1
}

fn read_exactly(alloc: Global, bytes: &[u8], at: u32) -> Result<(Pool, u32), PoolFault>
    requires { length bytes.now < 2 ^ 32 }
    ensures { PoolGives result (read_from bytes.now at) }
{
    let start = bytes_from(bytes, at);
    match pool_at(alloc, start) {
        Ok((pool, rest)) => Ok((pool, place(at, start.len(), rest.len()))),
        Err(ReadError::Memory) => Err(PoolFault::NoMemory),
        Err(ReadError::Fault(fault)) => Err(placed_fault(at, start.len(), fault)),
    }
}

/// The pool that begins at this offset, and the offset after it. Where none begins there the fault is
/// the first one; an offset past the end is `Truncated` there.
pub fn read_pool(alloc: Global, bytes: &[u8], at: u32) -> Result<(Pool, u32), PoolFault>
    requires { length bytes.now < 2 ^ 32 }
    // What is read is spelled so.
    ensures found { IfOk result (λ x. SpelledFrom bytes.now at x.0 x.1) }
    // What is spelled so is read, unless memory runs out.
    ensures only { (slots : List (Option Entry)) (after : ℕ) →
        SpelledFrom bytes.now at slots after → PoolGives result (Ok (slots, after)) }
    // Which fault it is.
    ensures exact { PoolGives result (read_from bytes.now at) }
{
    read_exactly(alloc, bytes, at)
}
