//! Attributes (JVMS 4.7).

ghost use Rattle.std.specs.Prelude.{◌≡◌, ◌<◌, length, IfOk, None, List, Option};
ghost use Rattle.class_pool.specs.{Pool.entry_of, Reading.Gives, Loops.folded};
ghost use Rattle.class_reader.specs.{Names.is_text_of, Names.is_code, Names.is_constant_value, Names.is_stack_map, Maps.map_at};
ghost use Rattle.class_reader.specs.Class.{other_at, once_at, attribute_at, attributes_at, skipped_at, all_skipped_at, constant_at, run_code_at, part_at, code_attribute_at};

use crate::handlers::handlers_of;
use crate::maps::Maps;
use crate::names::{fitting_at, is_text_of, text_at};
use crate::parts::{CodePart, MapPart};
use crate::reading::Reads;
use class_pool::fault::wants;
use class_pool::fields::{run_at, u16_at, u32_at};
use class_pool::{Fault, Pool, ReadError};
use code_decode::code_at;
use std::alloc::Global;

#[tactic(auto, unfolding(crate::specs::Class::other_at))]
fn after_other(bytes: &[u8]) -> Result<((), &[u8]), ReadError>
    ensures { Gives (λ x. (tt, x.1.now)) result (other_at bytes.now) }
{
    let (len, rest) = u32_at(bytes)?;
    let (_run, rest) = run_at(len as usize, rest)?;
    Ok(((), rest))
}

// ---- places where no attribute is read

#[tactic(auto, unfolding(crate::specs::Class::skipped_at))]
fn after_skipped<'a>(pool: &Pool, bytes: &'a [u8]) -> Result<((), &'a [u8]), ReadError>
    ensures { Gives (λ x. (tt, x.1.now)) result (skipped_at pool.now bytes.now) }
{
    let (_name, rest) = text_at(pool, bytes)?;
    after_other(rest)
}

fn after_count<'a>(pool: &Pool, count: u16, bytes: &'a [u8]) -> Result<((), &'a [u8]), ReadError>
    ensures { Gives (λ x. (tt, x.1.now)) result (folded (λ _ b. skipped_at pool.now b) tt count bytes.now) }
{
    let mut rest = bytes;
    for i in 0..count {
        let (_, next) = after_skipped(pool, rest)?;
        rest = next;
    }
    Ok(((), rest))
}

/// Skips the attributes of a place where none is read.
#[tactic(auto, unfolding(crate::specs::Class::all_skipped_at))]
pub fn after_all<'a>(pool: &Pool, bytes: &'a [u8]) -> Result<((), &'a [u8]), ReadError>
    ensures { Gives (λ x. (tt, x.1.now)) result (all_skipped_at pool.now bytes.now) }
{
    let (count, rest) = u16_at(bytes)?;
    after_count(pool, count, rest)
}

// ---- places where one kind of attribute is read

// An attribute behind its name, left bytes before the end: one that is wanted stands once.
#[tactic(auto, unfolding(crate::specs::Class::once_at))]
fn once_of<'a, R: Reads>(
    reader: &R,
    wanted: bool,
    found: Option<R::Part>,
    left: usize,
    bytes: &'a [u8],
) -> Result<(Option<R::Part>, &'a [u8]), ReadError>
    ensures { Gives (λ x. (x.0, x.1.now)) result (once_at wanted (R.reads reader.now) found left bytes.now) }
{
    if wanted {
        wants(found.is_none(), Fault::Repeated(left))?;
        let (part, rest) = reader.read(bytes)?;
        Ok((Some(part), rest))
    } else {
        let (_, rest) = after_other(bytes)?;
        Ok((found, rest))
    }
}

#[tactic(auto, unfolding(crate::specs::Class::attribute_at))]
fn attribute_of<'a, R: Reads>(
    name: &[u8],
    reader: &R,
    pool: &Pool,
    found: Option<R::Part>,
    bytes: &'a [u8],
) -> Result<(Option<R::Part>, &'a [u8]), ReadError>
    ensures { Gives (λ x. (x.0, x.1.now)) result (attribute_at (is_text_of name.now) (R.reads reader.now) pool.now found bytes.now) }
{
    let (index, rest) = text_at(pool, bytes)?;
    let wanted = is_text_of(pool, index, name);
    once_of(reader, wanted, found, bytes.len(), rest)
}

fn folded_of<'a, R: Reads>(
    name: &[u8],
    reader: &R,
    pool: &Pool,
    count: u16,
    bytes: &'a [u8],
) -> Result<(Option<R::Part>, &'a [u8]), ReadError>
    ensures { Gives (λ x. (x.0, x.1.now)) result (folded (λ found b. attribute_at (is_text_of name.now) (R.reads reader.now) pool.now found b) None count bytes.now) }
{
    let mut found = None;
    let mut rest = bytes;
    for i in 0..count {
        let (now, next) = attribute_of(name, reader, pool, found, rest)?;
        found = now;
        rest = next;
    }
    Ok((found, rest))
}

// The attributes of one place: what is read of the one of this name, where there is one.
#[tactic(auto, unfolding(crate::specs::Class::attributes_at))]
fn attributes_of<'a, R: Reads>(
    name: &[u8],
    reader: &R,
    pool: &Pool,
    bytes: &'a [u8],
) -> Result<(Option<R::Part>, &'a [u8]), ReadError>
    ensures { Gives (λ x. (x.0, x.1.now)) result (attributes_at (is_text_of name.now) (R.reads reader.now) pool.now bytes.now) }
{
    let (count, rest) = u16_at(bytes)?;
    folded_of(name, reader, pool, count, rest)
}

// ---- ConstantValue (JVMS 4.7.2)

// What reads one behind its name, for a field of this descriptor.
#[derive(Drop)]
struct Constants<'p> {
    pool: &'p Pool,
    descriptor: u16,
}

impl<'p> Reads for Constants<'p> {
    type Part = u16;

    ghost reads = { λ constants. constant_at constants.pool.now constants.descriptor };

    #[tactic(auto, unfolding(crate::specs::Class::constant_at))]
    fn read<'a>(&self, bytes: &'a [u8]) -> Result<(u16, &'a [u8]), ReadError> {
        let (len, rest) = u32_at(bytes)?;
        wants(len == 2, Fault::BadLength(bytes.len()))?;
        fitting_at(self.pool, self.descriptor, rest)
    }
}

/// The attributes of a field of this descriptor: its constant value, where there is one.
pub fn field_attributes<'a>(
    pool: &Pool,
    descriptor: u16,
    bytes: &'a [u8],
) -> Result<(Option<u16>, &'a [u8]), ReadError>
    ensures { Gives (λ x. (x.0, x.1.now)) result (attributes_at is_constant_value (constant_at pool.now descriptor) pool.now bytes.now) }
{
    let constants = Constants { pool, descriptor };
    attributes_of(b"ConstantValue", &constants, pool, bytes)
}

// ---- Code (JVMS 4.7.3)

#[tactic(auto, unfolding(crate::specs::Class::run_code_at))]
fn run_of_code(bytes: &[u8]) -> Result<(&[u8], &[u8]), ReadError>
    ensures gives { Gives (λ x. (x.0.now, x.1.now)) result (run_code_at bytes.now) }
    ensures length { IfOk result (λ x. length x.0.now < 65536) }
{
    let (len, rest) = u32_at(bytes)?;
    wants(0 < len && len < 65536, Fault::BadLength(bytes.len()))?;
    run_at(len as usize, rest)
}

// The attributes of a code: its stack map, where there is one.
fn code_attributes<'a>(
    alloc: Global,
    pool: &Pool,
    bytes: &'a [u8],
) -> Result<(Option<MapPart>, &'a [u8]), ReadError>
    ensures { Gives (λ x. (x.0, x.1.now)) result (attributes_at is_stack_map (map_at pool.now) pool.now bytes.now) }
{
    attributes_of(b"StackMapTable", &Maps { alloc, pool }, pool, bytes)
}

// What reads a Code attribute behind its name, in the method of this number.
#[derive(Drop)]
struct Codes<'p> {
    alloc: Global,
    method: u32,
    pool: &'p Pool,
}

impl<'p> Codes<'p> {
    #[tactic(auto, unfolding(crate::specs::Class::part_at))]
    fn part_of<'a>(&self, bytes: &'a [u8]) -> Result<(CodePart, &'a [u8]), ReadError>
        ensures { Gives (λ x. (x.0, x.1.now)) result (part_at self.now.method self.now.pool.now bytes.now) }
    {
        let (alloc, method, pool) = (self.alloc, self.method, self.pool);
        let (max_stack, rest) = u16_at(bytes)?;
        let (max_locals, rest) = u16_at(rest)?;
        let (run, rest) = run_of_code(rest)?;
        let (code, starts) = code_at(alloc, method, pool, run)?;
        let (handlers, rest) = handlers_of(alloc, method, pool, &code, &starts, rest)?;
        let (map, rest) = code_attributes(alloc, pool, rest)?;
        Ok((
            CodePart {
                max_stack,
                max_locals,
                code,
                handlers,
                map,
            },
            rest,
        ))
    }
}

impl<'p> Reads for Codes<'p> {
    type Part = CodePart;

    ghost reads = { λ codes. code_attribute_at codes.method codes.pool.now };

    #[tactic(auto, unfolding(crate::specs::Class::code_attribute_at))]
    fn read<'a>(&self, bytes: &'a [u8]) -> Result<(CodePart, &'a [u8]), ReadError> {
        let (len, start) = u32_at(bytes)?;
        let (part, rest) = self.part_of(start)?;
        wants(
            start.len().saturating_sub(rest.len()) == len as usize,
            Fault::BadLength(bytes.len()),
        )?;
        Ok((part, rest))
    }
}

/// The attributes of the method of this number: its code, where there is one.
pub fn method_attributes<'a>(
    alloc: Global,
    method: u32,
    pool: &Pool,
    bytes: &'a [u8],
) -> Result<(Option<CodePart>, &'a [u8]), ReadError>
    ensures { Gives (λ x. (x.0, x.1.now)) result (attributes_at is_code (code_attribute_at method pool.now) pool.now bytes.now) }
{
    let codes = Codes {
        alloc,
        method,
        pool,
    };
    attributes_of(b"Code", &codes, pool, bytes)
}
