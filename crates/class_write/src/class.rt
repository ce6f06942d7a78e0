//! Class files (JVMS 4.1).

ghost use Rattle.std.specs.Prelude.{◌≡◌, ◌++◌, Ok, OnOk, IfOk};
ghost use Rattle.class_reader.specs.{ClassGrammar.class_bytes, Faults.class_of};
ghost use Rattle.class_write.specs.Spelling.{short_bytes, listed_bytes, field_bytes, method_bytes, head_bytes, members_bytes, body_bytes, class_spelling};

use crate::attributes::{put_code_part, put_constant};
use crate::names::{Names, names_of};
use crate::numbers::{put_short, put_word};
use class_pool::put_pool;
use class_reader::{ClassFile, ClassParts, MemberPart};
use et_base::NoMemory;
use std::alloc::Global;

// What stands before the attributes of a member.
fn put_head(out: &mut Vec<u8>, member: &MemberPart) -> Result<(), NoMemory>
    ensures { OnOk result (out.new.items ≡ out.old.items ++ (short_bytes member.now.flags ++ (short_bytes member.now.name ++ short_bytes member.now.descriptor))) }
{
    put_short(out, member.flags as u64)?;
    put_short(out, member.name as u64)?;
    put_short(out, member.descriptor as u64)
}

fn put_field(out: &mut Vec<u8>, names: Names, field: &MemberPart) -> Result<(), NoMemory>
    ensures { OnOk result (out.new.items ≡ out.old.items ++ field_bytes names field.now) }
{
    put_head(out, field)?;
    put_constant(out, names, field.constant)
}

fn put_fields(out: &mut Vec<u8>, names: Names, fields: &[MemberPart]) -> Result<(), NoMemory>
    ensures { OnOk result (out.new.items ≡ out.old.items ++ listed_bytes (field_bytes names) fields.now) }
{
    put_short(out, fields.len() as u64)?;
    for field in fields {
        put_field(out, names, field)?;
    }
    Ok(())
}

fn put_method(
    alloc: Global,
    out: &mut Vec<u8>,
    names: Names,
    method: &MemberPart,
) -> Result<(), NoMemory>
    ensures { OnOk result (out.new.items ≡ out.old.items ++ method_bytes names method.now) }
{
    put_head(out, method)?;
    put_code_part(alloc, out, names, &method.code)
}

fn put_methods(
    alloc: Global,
    out: &mut Vec<u8>,
    names: Names,
    methods: &[MemberPart],
) -> Result<(), NoMemory>
    ensures { OnOk result (out.new.items ≡ out.old.items ++ listed_bytes (method_bytes names) methods.now) }
{
    put_short(out, methods.len() as u64)?;
    for method in methods {
        put_method(alloc, out, names, method)?;
    }
    Ok(())
}

fn put_interfaces(out: &mut Vec<u8>, interfaces: &[u16]) -> Result<(), NoMemory>
    ensures { OnOk result (out.new.items ≡ out.old.items ++ listed_bytes short_bytes interfaces.now) }
{
    put_short(out, interfaces.len() as u64)?;
    for index in interfaces {
        put_short(out, *index as u64)?;
    }
    Ok(())
}

// Fields, methods, and no attributes of the class.
fn put_members(
    alloc: Global,
    out: &mut Vec<u8>,
    names: Names,
    parts: &ClassParts,
) -> Result<(), NoMemory>
    ensures { OnOk result (out.new.items ≡ out.old.items ++ members_bytes names parts.now) }
{
    put_fields(out, names, parts.fields.as_slice())?;
    put_methods(alloc, out, names, parts.methods.as_slice())?;
    put_short(out, 0)
}

// What stands behind the pool.
fn put_body(alloc: Global, out: &mut Vec<u8>, parts: &ClassParts) -> Result<(), NoMemory>
    ensures { OnOk result (out.new.items ≡ out.old.items ++ body_bytes parts.now) }
{
    let names = names_of(&parts.pool);
    put_short(out, parts.flags as u64)?;
    put_short(out, parts.this_class as u64)?;
    put_short(out, parts.super_class as u64)?;
    put_interfaces(out, parts.interfaces.as_slice())?;
    put_members(alloc, out, names, parts)
}

// The magic number and the version.
fn put_version(out: &mut Vec<u8>, parts: &ClassParts) -> Result<(), NoMemory>
    ensures { OnOk result (out.new.items ≡ out.old.items ++ head_bytes parts.now) }
{
    put_word(out, 0xCAFE_BABE)?;
    put_short(out, parts.minor as u64)?;
    put_short(out, parts.major as u64)
}

fn spelling(alloc: Global, parts: &ClassParts) -> Result<Vec<u8>, NoMemory>
    ensures { IfOk result (λ v. v.items ≡ class_spelling parts.now) }
{
    let mut out = Vec::new(alloc);
    put_version(&mut out, parts)?;
    put_pool(&mut out, &parts.pool)?;
    put_body(alloc, &mut out, parts)?;
    Ok(out)
}

/// The bytes of a class file (JVMS 4.1), with its pool as it is. Of attributes there are Code,
/// ConstantValue and StackMapTable, all that a `ClassFile` has; each is named by the first entry of the
/// pool that is its name. Padding in code is written as zeros. It takes time in proportion to the bytes
/// and to the pool.
pub fn write_class(alloc: Global, class: &ClassFile) -> Result<Vec<u8>, NoMemory>
    // What is written is this spelling.
    ensures bytes { IfOk result (λ v. v.items ≡ class_spelling class.now) }
    // It spells the class file.
    ensures written { IfOk result (λ v. class_bytes v.items class.now) }
    // So reading it gives the same.
    ensures again { IfOk result (λ v. class_of v.items ≡ Ok class.now) }
{
    spelling(alloc, class.parts())
}
