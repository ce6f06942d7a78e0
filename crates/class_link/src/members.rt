//! The records of fields and methods.

ghost use Rattle.std.specs.Prelude.{◌≡◌, ◌<◌, ◌+◌, ◌++◌, length, map, option_map, IfOk, OnOk};
ghost use Rattle.class_pool.specs.Pool.{entry_of};
ghost use Rattle.jvm_model.specs.Classes.{is_static};
ghost use Rattle.class_link.specs.Assembly.{constant_opening, opening, field_rec, field_recs, method_rec, method_recs, bare_body};

use crate::entries::text_at;
use crate::literals::Literals;
use class_pool::Entry;
use class_pool::lookup::entry_at;
use class_reader::{ClassFile, CodePart, MemberPart};
use et_base::{Items, NoMemory};
use jvm_model::{Body, FieldRec, MethodRec, Value, default_of};
use std::alloc::Global;

const STATIC: u16 = 0x0008;

/// Whether a member is static (JVMS tables 4.5-A and 4.6-A).
pub(crate) fn is_static(flags: u16) -> bool
    ensures { result ≡ is_static flags }
{
    flags / STATIC % 2 == 1
}

// The value that a ConstantValue gives to a field of this type (JVMS 4.7.2).
fn constant_opening(
    texts: &Literals,
    slots: &[Option<Entry>],
    descriptor: &[u16],
    index: u16,
) -> Value
    ensures { result ≡ constant_opening texts.now slots.now descriptor.now (entry_of slots.now index) }
{
    match entry_at(slots, index) {
        Some(Entry::Integer(number)) => Value::Int(*number).narrowed(descriptor),
        Some(Entry::Long(number)) => Value::Long(*number),
        Some(Entry::Str { text }) => Value::Lit(texts.number(text_at(slots, *text))),
        _ => default_of(descriptor),
    }
}

// What a field opens with.
#[tactic(auto, unfolding(crate::specs::Assembly::opening))]
fn opening(texts: &Literals, slots: &[Option<Entry>], part: &MemberPart) -> Value
    ensures { result ≡ opening texts.now slots.now part.now }
{
    let descriptor = text_at(slots, part.descriptor);
    match part.constant {
        Some(index) if is_static(part.flags) => constant_opening(texts, slots, descriptor, index),
        _ => default_of(descriptor),
    }
}

fn field_record(
    alloc: Global,
    texts: &Literals,
    slots: &[Option<Entry>],
    class: u32,
    part: &MemberPart,
) -> Result<FieldRec, NoMemory>
    ensures { IfOk result (λ made. made ≡ field_rec texts.now slots.now class part.now) }
{
    Ok(FieldRec {
        class,
        name: Items::from_slice(alloc, text_at(slots, part.name))?,
        descriptor: Items::from_slice(alloc, text_at(slots, part.descriptor))?,
        flags: part.flags,
        opening: opening(texts, slots, part),
    })
}

// Appends the records of a class's fields.
fn push_fields(
    alloc: Global,
    made: &mut Items<FieldRec>,
    texts: &Literals,
    class: u32,
    slots: &[Option<Entry>],
    parts: &[MemberPart],
) -> Result<(), NoMemory>
    ensures { OnOk result (made.new ≡ made.old ++ map (field_rec texts.now slots.now class) parts.now) }
{
    for part in parts {
        made.push(field_record(alloc, texts, slots, class, part)?)?;
    }
    Ok(())
}

/// Appends the records of the fields of class files, the first of which has the number `class`.
pub(crate) fn push_all_fields(
    alloc: Global,
    made: &mut Items<FieldRec>,
    texts: &Literals,
    class: u32,
    files: &[ClassFile],
) -> Result<(), NoMemory>
    requires { class + length files.now < 4294967296 }
    ensures { OnOk result (made.new ≡ made.old ++ field_recs texts.now class files.now) }
{
    let mut number = class;
    for file in files {
        let parts = file.parts();
        push_fields(
            alloc,
            made,
            texts,
            number,
            parts.pool.slots(),
            parts.fields.as_slice(),
        )?;
        number += 1;
    }
    Ok(())
}

// A body without instructions, handlers and frames.
fn bare_body(alloc: Global, code: &CodePart) -> Body
    ensures { result ≡ bare_body code.now }
{
    Body {
        max_stack: code.max_stack,
        max_locals: code.max_locals,
        length: code.code.length,
        code: Items::new(alloc),
        handlers: Items::new(alloc),
        frames: Items::new(alloc),
        malformed: false,
    }
}

fn bare(alloc: Global, code: &Option<CodePart>) -> Option<Body>
    ensures { result ≡ option_map bare_body code.now }
{
    match code {
        Some(code) => Some(bare_body(alloc, code)),
        None => None,
    }
}

fn method_record(
    alloc: Global,
    slots: &[Option<Entry>],
    class: u32,
    part: &MemberPart,
) -> Result<MethodRec, NoMemory>
    ensures { IfOk result (λ made. made ≡ method_rec bare_body slots.now class part.now) }
{
    Ok(MethodRec {
        class,
        name: Items::from_slice(alloc, text_at(slots, part.name))?,
        descriptor: Items::from_slice(alloc, text_at(slots, part.descriptor))?,
        flags: part.flags,
        native: None,
        body: bare(alloc, &part.code),
    })
}

// Appends the records of a class's methods.
fn push_methods(
    alloc: Global,
    made: &mut Items<MethodRec>,
    class: u32,
    slots: &[Option<Entry>],
    parts: &[MemberPart],
) -> Result<(), NoMemory>
    ensures { OnOk result (made.new ≡ made.old ++ map (method_rec bare_body slots.now class) parts.now) }
{
    for part in parts {
        made.push(method_record(alloc, slots, class, part)?)?;
    }
    Ok(())
}

/// Appends the records of the methods of class files, the first of which has the number `class`, with bare bodies.
pub(crate) fn push_all_methods(
    alloc: Global,
    made: &mut Items<MethodRec>,
    class: u32,
    files: &[ClassFile],
) -> Result<(), NoMemory>
    requires { class + length files.now < 4294967296 }
    ensures { OnOk result (made.new ≡ made.old ++ method_recs (λ _ code. bare_body code) class files.now) }
{
    let mut number = class;
    for file in files {
        let parts = file.parts();
        push_methods(
            alloc,
            made,
            number,
            parts.pool.slots(),
            parts.methods.as_slice(),
        )?;
        number += 1;
    }
    Ok(())
}
