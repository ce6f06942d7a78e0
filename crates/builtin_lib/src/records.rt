//! The records of the built-in classes, with which every program begins.

ghost use Rattle.std.specs.Prelude.{◌≡◌, ◌∷◌, [], ◌++◌, ◌+◌, ◌<◌, IfOk, OnOk, length, map};
ghost use Rattle.std.specs.List.{range_with_len};
ghost use Rattle.jvm_model.specs.Library.{
  builtin_classes,
  builtin_fields,
  builtin_methods,
  class_recs,
  field_rec,
  field_recs,
  method_rec,
  method_recs,
  number_in,
  superclass_in,
};
ghost use Rattle.builtin_lib.specs.Rows.{class_of, field_of, method_of, field_count, method_count};

use crate::rows::{ClassRow, FieldRow, MethodRow};
use crate::tables::class_rows;
use et_base::{Items, NoMemory, Units};
use jvm_model::{ClassRec, FieldRec, MethodRec};
use std::alloc::Global;

/// The records of the built-in classes and of all their fields and methods. Each record's number is its place.
#[derive(Drop)]
pub struct BuiltinRecords {
    pub classes: Items<ClassRec>,
    pub fields: Items<FieldRec>,
    pub methods: Items<MethodRec>,
}

/// So many numbers, from the given one on.
pub fn numbers(alloc: Global, from: u32, count: u32) -> Result<Items<u32>, NoMemory>
    requires in_range { from + count < 4294967296 }
    ensures { IfOk result (λ made. made ≡ range_with_len from count) }
{
    let mut made = Vec::new(alloc);
    for place in 0..count {
        made.push(from + place)?;
    }
    Ok(Items::from_vec(made))
}

// The number of the first class with this name, where the first row has the number `first`.
fn number_of(first: u32, rows: &[ClassRow], name: &[u8]) -> Option<u32>
    requires in_range { first + length rows.now < 4294967296 }
    ensures { result ≡ number_in first (map class_of rows.now) name.now }
{
    match rows {
        [] => None,
        [row, rows @ ..] => {
            if row.name == name {
                Some(first)
            } else {
                number_of(first + 1, rows, name)
            }
        }
    }
}

fn superclass_number(all: &[ClassRow], row: &ClassRow) -> Option<u32>
    requires in_range { length all.now < 4294967296 }
    ensures { result ≡ superclass_in (map class_of all.now) (class_of row.now).superclass }
{
    match row.superclass {
        None => None,
        Some(name) => number_of(0, all, name),
    }
}

// The record of a class whose fields and methods have the numbers from `field` and `method` on.
fn class_record(
    alloc: Global,
    all: &[ClassRow],
    row: &ClassRow,
    field: u32,
    method: u32,
) -> Result<ClassRec, NoMemory>
    requires classes_in_range { length all.now < 4294967296 }
    requires fields_in_range { field + length row.now.fields.now < 4294967296 }
    requires methods_in_range { method + length row.now.methods.now < 4294967296 }
    ensures { IfOk result (λ made. made ∷ [] ≡ class_recs (map class_of all.now) field method (class_of row.now ∷ [])) }
{
    Ok(ClassRec {
        name: Units::from_ascii(alloc, row.name)?,
        version: 52,
        flags: row.flags,
        superclass: superclass_number(all, row),
        interfaces: Items::new(alloc),
        fields: numbers(alloc, field, row.fields.len() as u32)?,
        methods: numbers(alloc, method, row.methods.len() as u32)?,
        initialiser: None,
        mentions: Items::new(alloc),
    })
}

fn class_records(alloc: Global, rows: &[ClassRow]) -> Result<Items<ClassRec>, NoMemory>
    requires classes_in_range { length rows.now < 4294967296 }
    requires fields_in_range { field_count (map class_of rows.now) < 4294967296 }
    requires methods_in_range { method_count (map class_of rows.now) < 4294967296 }
    ensures { IfOk result (λ made. made ≡ class_recs (map class_of rows.now) 0 0 (map class_of rows.now)) }
{
    let mut made = Vec::new(alloc);
    let mut field = 0;
    let mut method = 0;
    for row in rows {
        made.push(class_record(alloc, rows, row, field, method)?)?;
        field += row.fields.len() as u32;
        method += row.methods.len() as u32;
    }
    Ok(Items::from_vec(made))
}

fn field_record(alloc: Global, class: u32, row: &FieldRow) -> Result<FieldRec, NoMemory>
    ensures { IfOk result (λ made. made ≡ field_rec class (field_of row.now)) }
{
    Ok(FieldRec {
        class,
        name: Units::from_ascii(alloc, row.name)?,
        descriptor: Units::from_ascii(alloc, row.descriptor)?,
        flags: row.flags,
        opening: row.opening,
    })
}

// Appends the records of a class's fields.
fn push_fields(
    alloc: Global,
    made: &mut Vec<FieldRec>,
    class: u32,
    rows: &[FieldRow],
) -> Result<(), NoMemory>
    ensures { OnOk result (made.new.items ≡ made.old.items ++ map (λ x. field_rec class x) (map field_of rows.now)) }
{
    for row in rows {
        made.push(field_record(alloc, class, row)?)?;
    }
    Ok(())
}

fn field_records(alloc: Global, rows: &[ClassRow]) -> Result<Items<FieldRec>, NoMemory>
    requires in_range { length rows.now < 4294967296 }
    ensures { IfOk result (λ made. made ≡ field_recs 0 (map class_of rows.now)) }
{
    let mut made = Vec::new(alloc);
    let mut class = 0;
    for row in rows {
        push_fields(alloc, &mut made, class, row.fields)?;
        class += 1;
    }
    Ok(Items::from_vec(made))
}

fn method_record(alloc: Global, class: u32, row: &MethodRow) -> Result<MethodRec, NoMemory>
    ensures { IfOk result (λ made. made ≡ method_rec class (method_of row.now)) }
{
    Ok(MethodRec {
        class,
        name: Units::from_ascii(alloc, row.name)?,
        descriptor: Units::from_ascii(alloc, row.descriptor)?,
        flags: row.flags,
        native: Some(row.native),
        body: None,
    })
}

// Appends the records of a class's methods.
fn push_methods(
    alloc: Global,
    made: &mut Vec<MethodRec>,
    class: u32,
    rows: &[MethodRow],
) -> Result<(), NoMemory>
    ensures { OnOk result (made.new.items ≡ made.old.items ++ map (λ x. method_rec class x) (map method_of rows.now)) }
{
    for row in rows {
        made.push(method_record(alloc, class, row)?)?;
    }
    Ok(())
}

fn method_records(alloc: Global, rows: &[ClassRow]) -> Result<Items<MethodRec>, NoMemory>
    requires in_range { length rows.now < 4294967296 }
    ensures { IfOk result (λ made. made ≡ method_recs 0 (map class_of rows.now)) }
{
    let mut made = Vec::new(alloc);
    let mut class = 0;
    for row in rows {
        push_methods(alloc, &mut made, class, row.methods)?;
        class += 1;
    }
    Ok(Items::from_vec(made))
}

/// The records of the built-in classes, of their fields and of their methods, as every program begins with them.
pub fn builtin_records(alloc: Global) -> Result<BuiltinRecords, NoMemory>
    ensures classes { IfOk result (λ made. made.classes ≡ builtin_classes) }
    ensures fields { IfOk result (λ made. made.fields ≡ builtin_fields) }
    ensures methods { IfOk result (λ made. made.methods ≡ builtin_methods) }
{
    let rows = class_rows();
    Ok(BuiltinRecords {
        classes: class_records(alloc, rows)?,
        fields: field_records(alloc, rows)?,
        methods: method_records(alloc, rows)?,
    })
}
