//! The records of classes.

ghost use Rattle.std.specs.Prelude.{◌≡◌, ◌<◌, ◌+◌, ◌*◌, ◌≤◌, ◌++◌, length, map, IfOk, OnOk};
ghost use Rattle.class_link.specs.ClassNames.{name_at, number_or_first};
ghost use Rattle.class_link.specs.Assembly.{is_initialiser, initialiser_from, class_rec, class_recs};

use crate::entries::{name_at, text_at};
use crate::members::is_static;
use crate::mentions::mentions;
use crate::names::ClassNames;
use builtin_lib::numbers;
use class_pool::Entry;
use class_reader::{ClassFile, ClassParts, MemberPart};
use et_base::{Items, NoMemory, is_ascii_text};
use jvm_model::ClassRec;
use std::alloc::Global;

// The numbers of the classes that these indices name.
fn numbers_at(
    alloc: Global,
    names: &ClassNames,
    slots: &[Option<Entry>],
    indices: &[u16],
) -> Result<Items<u32>, NoMemory>
    ensures { IfOk result (λ made. made ≡ map (λ i. number_or_first names.now (name_at slots.now i)) indices.now) }
{
    let mut made = Items::new(alloc);
    for index in indices {
        made.push(names.number_or_first(name_at(slots, *index)))?;
    }
    Ok(made)
}

// Whether a method is the class's own static `<clinit>` with `()V` and code (JVMS 2.9).
fn is_initialiser(slots: &[Option<Entry>], part: &MemberPart) -> bool
    ensures { result ≡ is_initialiser slots.now part.now }
{
    is_static(part.flags)
        && (is_ascii_text(text_at(slots, part.name), b"<clinit>")
            && (is_ascii_text(text_at(slots, part.descriptor), b"()V") && part.code.is_some()))
}

// The number of that method, where the first of these has the number `first`.
fn initialiser_from(first: u32, slots: &[Option<Entry>], parts: &[MemberPart]) -> Option<u32>
    requires { first + length parts.now < 4294967296 }
    ensures { result ≡ initialiser_from first slots.now parts.now }
{
    let mut number = first;
    for part in parts {
        if is_initialiser(slots, part) {
            return Some(number);
        }
        number += 1;
    }
    None
}

// The record of a class whose fields and methods have the numbers from `field` and `method` on.
fn class_record(
    alloc: Global,
    names: &ClassNames,
    field: u32,
    method: u32,
    class: &ClassParts,
) -> Result<ClassRec, NoMemory>
    requires fields { field + length class.now.fields < 4294967296 }
    requires methods { method + length class.now.methods < 4294967296 }
    ensures { IfOk result (λ made. made ≡ class_rec names.now field method class.now) }
{
    let slots = class.pool.slots();
    Ok(ClassRec {
        name: Items::from_slice(alloc, name_at(slots, class.this_class))?,
        version: class.major,
        flags: class.flags,
        superclass: Some(names.number_or_first(name_at(slots, class.super_class))),
        interfaces: numbers_at(alloc, names, slots, class.interfaces.as_slice())?,
        fields: numbers(alloc, field, class.fields.len() as u32)?,
        methods: numbers(alloc, method, class.methods.len() as u32)?,
        initialiser: initialiser_from(method, slots, class.methods.as_slice()),
        mentions: mentions(alloc, names, slots)?,
    })
}

/// Appends the records of class files, whose fields and methods have the numbers from `field` and `method` on.
pub(crate) fn push_classes(
    alloc: Global,
    made: &mut Items<ClassRec>,
    names: &ClassNames,
    field: u32,
    method: u32,
    classes: &[ClassFile],
) -> Result<(), NoMemory>
    requires few { length classes.now ≤ 1024 }
    requires fields { field < 65536 }
    requires methods { method < 65536 }
    ensures { OnOk result (made.new ≡ made.old ++ class_recs names.now field method classes.now) }
{
    let mut field = field;
    let mut method = method;
    for class in classes {
        let parts = class.parts();
        made.push(class_record(alloc, names, field, method, parts)?)?;
        field += parts.fields.len() as u32;
        method += parts.methods.len() as u32;
    }
    Ok(())
}
