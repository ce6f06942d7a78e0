//! Pools, written as bytes.

ghost use Rattle.std.specs.Prelude.{◌≡◌, ◌++◌, ◌∷◌, ◌^◌, ◌<◌, length, OnOk, IfOk, Ok, Some};
ghost use Rattle.std.specs.Int.{w8, w16, to_be_bytes};
ghost use Rattle.et_base.specs.Utf.{utf};
ghost use Rattle.class_pool.specs.PoolGrammar.{EntryFits, twin_bytes, slot_bytes, IsPool, pool_spelling, PoolText};
ghost use Rattle.class_pool.specs.Offsets.{read_from};

use crate::constant_pool::Pool;
use crate::pool::{Entry, after_units};
use et_base::{NoMemory, push_modified};
use std::alloc::Global;

// How many bytes these units take, where they are below 65,536.
fn utf_len(units: &[u16]) -> u16
    requires { length (utf units.now) < 2 ^ 16 }
    ensures { result ≡ length (utf units.now) }
{
    (65535 - after_units(65535, units)) as u16
}

// A tag and an index.
fn put_single(out: &mut Vec<u8>, tag: u8, index: u16) -> Result<(), NoMemory>
    ensures { OnOk result (out.new.items ≡ out.old.items ++ tag ∷ to_be_bytes w16 index) }
{
    out.push(tag)?;
    out.extend_from_slice(&index.to_be_bytes())?;
    Ok(())
}

// A tag and two indices.
fn put_twin(out: &mut Vec<u8>, tag: u8, first: u16, second: u16) -> Result<(), NoMemory>
    ensures { OnOk result (out.new.items ≡ out.old.items ++ twin_bytes tag first second) }
{
    out.push(tag)?;
    out.extend_from_slice(&first.to_be_bytes())?;
    out.extend_from_slice(&second.to_be_bytes())?;
    Ok(())
}

// A tag and the bytes of a number.
fn put_number(out: &mut Vec<u8>, tag: u8, number: &[u8]) -> Result<(), NoMemory>
    ensures { OnOk result (out.new.items ≡ out.old.items ++ tag ∷ number.now) }
{
    out.push(tag)?;
    out.extend_from_slice(number)?;
    Ok(())
}

fn put_text(out: &mut Vec<u8>, units: &[u16]) -> Result<(), NoMemory>
    requires { length (utf units.now) < 2 ^ 16 }
    ensures { OnOk result (out.new.items ≡ out.old.items ++ 1 ∷ to_be_bytes w16 (length (utf units.now)) ++ utf units.now) }
{
    put_single(out, 1, utf_len(units))?;
    push_modified(out, units)
}

fn put_handle(out: &mut Vec<u8>, kind: u8, index: u16) -> Result<(), NoMemory>
    ensures { OnOk result (out.new.items ≡ out.old.items ++ 15 ∷ to_be_bytes w8 kind ++ to_be_bytes w16 index) }
{
    out.push(15)?;
    out.push(kind)?;
    out.extend_from_slice(&index.to_be_bytes())?;
    Ok(())
}

fn put_entry(out: &mut Vec<u8>, entry: &Entry) -> Result<(), NoMemory>
    requires { EntryFits entry.now }
    ensures { OnOk result (out.new.items ≡ out.old.items ++ slot_bytes (Some entry.now)) }
{
    match entry {
        Entry::Utf8(units) => put_text(out, units.as_slice()),
        Entry::Integer(number) => put_number(out, 3, &number.to_be_bytes()),
        Entry::Float(bits) => put_number(out, 4, &bits.to_be_bytes()),
        Entry::Long(number) => put_number(out, 5, &number.to_be_bytes()),
        Entry::Double(bits) => put_number(out, 6, &bits.to_be_bytes()),
        Entry::Class { name } => put_single(out, 7, *name),
        Entry::Str { text } => put_single(out, 8, *text),
        Entry::Field { class, pair } => put_twin(out, 9, *class, *pair),
        Entry::Method { class, pair } => put_twin(out, 10, *class, *pair),
        Entry::InterfaceMethod { class, pair } => put_twin(out, 11, *class, *pair),
        Entry::NameAndType { name, descriptor } => put_twin(out, 12, *name, *descriptor),
        Entry::MethodHandle { kind, index } => put_handle(out, *kind, *index),
        Entry::MethodType { descriptor } => put_single(out, 16, *descriptor),
        Entry::InvokeDynamic { bootstrap, pair } => put_twin(out, 18, *bootstrap, *pair),
    }
}

fn put_slots(out: &mut Vec<u8>, slots: &[Option<Entry>]) -> Result<(), NoMemory>
    requires { IsPool slots.now }
    ensures { OnOk result (out.new.items ≡ out.old.items ++ pool_spelling slots.now) }
{
    out.extend_from_slice(&(slots.len() as u16 + 1).to_be_bytes())?;
    for slot in slots {
        if let Some(entry) = slot {
            put_entry(out, entry)?;
        }
    }
    Ok(())
}

/// Appends the spelling of a pool. After a refusal part of it may stand there.
pub fn put_pool(out: &mut Vec<u8>, pool: &Pool) -> Result<(), NoMemory>
    ensures { OnOk result (out.new.items ≡ out.old.items ++ pool_spelling pool.now) }
{
    put_slots(out, pool.slots())
}

/// The spelling of a pool, which is read again as the same pool, all of it.
pub fn write_pool(alloc: Global, pool: &Pool) -> Result<Vec<u8>, NoMemory>
    ensures bytes { IfOk result (λ v. v.items ≡ pool_spelling pool.now) }
    ensures spelled { IfOk result (λ v. PoolText v.items pool.now) }
    ensures again { IfOk result (λ v. read_from v.items 0 ≡ Ok (pool.now, length v.items)) }
{
    let mut out = Vec::new(alloc);
    put_slots(&mut out, pool.slots())?;
    Ok(out)
}
