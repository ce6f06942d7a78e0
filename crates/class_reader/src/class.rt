//! Class files (JVMS 4.1).

ghost use Rattle.std.specs.Prelude.{◌≡◌, ◌<◌, ◌^◌, length, IfOk, Ok, List, Option};
ghost use Rattle.class_pool.specs.{Pool.is_class, Reading.Gives};
ghost use Rattle.class_reader.specs.{declared.parts.ClassParts.ClassParts, Indices.index_at, ClassGrammar.class_bytes};
ghost use Rattle.class_reader.specs.Class.{head_at, interfaces_at, members_at, body_at, class_at};
ghost use Rattle.class_reader.specs.Faults.{shown, class_of, Answers};

use crate::attributes::after_all;
use crate::fault::{ClassFault, shown};
use crate::members::{fields_of, methods_of};
use crate::names::{class_at, own_class_at};
use crate::parts::{ClassFile, ClassParts, MemberPart};
use crate::reading::{Reads, counted};
use crate::texts::Texts;
use class_pool::fault::wants;
use class_pool::fields::{u16_at, u32_at};
use class_pool::{Fault, Pool, ReadError};
use et_base::Items;
use std::alloc::Global;

#[tactic(auto, unfolding(crate::specs::Class::head_at))]
fn head_of(bytes: &[u8]) -> Result<((u16, u16), &[u8]), ReadError>
    ensures { Gives (λ x. ((x.0.0, x.0.1), x.1.now)) result (head_at bytes.now) }
{
    let (magic, rest) = u32_at(bytes)?;
    wants(magic == 0xCAFE_BABE, Fault::BadMagic)?;
    let (minor, rest) = u16_at(rest)?;
    let (major, rest) = u16_at(rest)?;
    wants(50 <= major && major <= 52, Fault::BadVersion(major))?;
    Ok(((minor, major), rest))
}

// What reads indices that name classes.
#[derive(Drop)]
struct Classes<'p> {
    pool: &'p Pool,
}

impl<'p> Reads for Classes<'p> {
    type Part = u16;

    ghost reads = { λ classes. index_at is_class classes.pool.now };

    fn read<'a>(&self, bytes: &'a [u8]) -> Result<(u16, &'a [u8]), ReadError> {
        class_at(self.pool, bytes)
    }
}

#[tactic(auto, unfolding(crate::specs::Class::interfaces_at))]
fn interfaces_of<'a>(
    alloc: Global,
    pool: &Pool,
    bytes: &'a [u8],
) -> Result<(Items<u16>, &'a [u8]), ReadError>
    ensures { Gives (λ x. (x.0, x.1.now)) result (interfaces_at pool.now bytes.now) }
{
    let (count, rest) = u16_at(bytes)?;
    counted(alloc, &Classes { pool }, count, rest)
}

#[tactic(auto, unfolding(crate::specs::Class::members_at))]
fn members_of<'a>(
    alloc: Global,
    pool: &Pool,
    bytes: &'a [u8],
) -> Result<((Items<MemberPart>, Items<MemberPart>), &'a [u8]), ReadError>
    ensures { Gives (λ x. ((x.0.0, x.0.1), x.1.now)) result (members_at pool.now bytes.now) }
{
    let texts = Texts::new(alloc, pool)?;
    let (fields, rest) = fields_of(alloc, &texts, bytes)?;
    let (methods, rest) = methods_of(alloc, &texts, rest)?;
    let (_, rest) = after_all(pool, rest)?;
    Ok(((fields, methods), rest))
}

#[tactic(auto, unfolding(crate::specs::Class::body_at))]
fn body_of(
    alloc: Global,
    minor: u16,
    major: u16,
    pool: Pool,
    bytes: &[u8],
) -> Result<(ClassParts, &[u8]), ReadError>
    ensures { Gives (λ x. (x.0, x.1.now)) result (body_at (minor, major) pool bytes.now) }
{
    let (flags, rest) = u16_at(bytes)?;
    let (this_class, rest) = own_class_at(&pool, rest)?;
    let (super_class, rest) = class_at(&pool, rest)?;
    let (interfaces, rest) = interfaces_of(alloc, &pool, rest)?;
    let ((fields, methods), rest) = members_of(alloc, &pool, rest)?;
    Ok((
        ClassParts {
            minor,
            major,
            pool,
            flags,
            this_class,
            super_class,
            interfaces,
            fields,
            methods,
        },
        rest,
    ))
}

#[tactic(auto, unfolding(crate::specs::Class::class_at))]
fn parts_of(alloc: Global, bytes: &[u8]) -> Result<ClassParts, ReadError>
    ensures { Gives (λ x. x) result (class_at bytes.now) }
{
    let ((minor, major), rest) = head_of(bytes)?;
    let (pool, rest) = class_pool::pool_at(alloc, rest)?;
    let (parts, rest) = body_of(alloc, minor, major, pool, rest)?;
    wants(rest.len() == 0, Fault::Trailing(rest.len()))?;
    Ok(parts)
}

/// The class file that the bytes spell, all of the bytes. Else it answers the first fault from left
/// to right, or `NoMemory`.
pub fn read_class(alloc: Global, bytes: &[u8]) -> Result<ClassFile, ClassFault>
    // So each place fits.
    requires { length bytes.now < 2 ^ 32 }
    // What is read is spelled so.
    ensures found { IfOk result (λ c. class_bytes bytes.now c) }
    // What is spelled so is read, unless memory runs out.
    ensures only { (c : ClassParts) → class_bytes bytes.now c → Answers result (Ok c) }
    // Which fault it is.
    ensures exact { Answers result (class_of bytes.now) }
{
    match parts_of(alloc, bytes) {
        Ok(parts) => Ok(ClassFile::new(parts)),
        Err(ReadError::Memory) => Err(ClassFault::NoMemory),
        Err(ReadError::Fault(fault)) => Err(shown(bytes.len(), fault)),
    }
}
