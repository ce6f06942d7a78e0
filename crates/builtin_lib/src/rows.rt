//! Rows of the tables of built-in classes, and what they stand for.

ghost use Rattle.std.specs.Prelude.{◌≡◌, IfOk, map};
ghost use Rattle.builtin_lib.specs.Rows.{class_of, field_of, method_of, class_row, native_row};

use et_base::{Items, NoMemory, Units, is_ascii_text};
use jvm_model::{ClassDef, FieldDef, MethodDef, Native, Value};
use std::alloc::Global;

/// A field of a built-in class.
#[derive(Clone, Copy)]
pub struct FieldRow {
    pub name: &'static [u8],
    pub descriptor: &'static [u8],
    pub flags: u16,
    pub opening: Value,
}

/// A method of a built-in class.
#[derive(Clone, Copy)]
pub struct MethodRow {
    pub name: &'static [u8],
    pub descriptor: &'static [u8],
    pub flags: u16,
    pub native: Native,
}

/// A built-in class. None implements an interface.
#[derive(Clone, Copy)]
pub struct ClassRow {
    pub name: &'static [u8],
    pub flags: u16,
    pub superclass: Option<&'static [u8]>,
    pub fields: &'static [FieldRow],
    pub methods: &'static [MethodRow],
}

fn field(alloc: Global, row: &FieldRow) -> Result<FieldDef, NoMemory>
    ensures { IfOk result (λ made. made ≡ field_of row.now) }
{
    Ok(FieldDef {
        name: Units::from_ascii(alloc, row.name)?,
        descriptor: Units::from_ascii(alloc, row.descriptor)?,
        flags: row.flags,
        opening: row.opening,
    })
}

fn fields(alloc: Global, rows: &[FieldRow]) -> Result<Items<FieldDef>, NoMemory>
    ensures { IfOk result (λ made. made ≡ map field_of rows.now) }
{
    let mut made = Vec::new(alloc);
    for row in rows {
        made.push(field(alloc, row)?)?;
    }
    Ok(Items::from_vec(made))
}

fn method(alloc: Global, row: &MethodRow) -> Result<MethodDef, NoMemory>
    ensures { IfOk result (λ made. made ≡ method_of row.now) }
{
    Ok(MethodDef {
        name: Units::from_ascii(alloc, row.name)?,
        descriptor: Units::from_ascii(alloc, row.descriptor)?,
        flags: row.flags,
        native: row.native,
    })
}

fn methods(alloc: Global, rows: &[MethodRow]) -> Result<Items<MethodDef>, NoMemory>
    ensures { IfOk result (λ made. made ≡ map method_of rows.now) }
{
    let mut made = Vec::new(alloc);
    for row in rows {
        made.push(method(alloc, row)?)?;
    }
    Ok(Items::from_vec(made))
}

fn superclass(alloc: Global, row: &ClassRow) -> Result<Option<Units>, NoMemory>
    ensures { IfOk result (λ made. made ≡ (class_of row.now).superclass) }
{
    match row.superclass {
        None => Ok(None),
        Some(name) => Ok(Some(Units::from_ascii(alloc, name)?)),
    }
}

fn class(alloc: Global, row: &ClassRow) -> Result<ClassDef, NoMemory>
    ensures { IfOk result (λ made. made ≡ class_of row.now) }
{
    Ok(ClassDef {
        name: Units::from_ascii(alloc, row.name)?,
        flags: row.flags,
        superclass: superclass(alloc, row)?,
        interfaces: Items::new(alloc),
        fields: fields(alloc, row.fields)?,
        methods: methods(alloc, row.methods)?,
    })
}

/// The classes that the rows stand for, in order.
pub fn classes(alloc: Global, rows: &[ClassRow]) -> Result<Items<ClassDef>, NoMemory>
    ensures { IfOk result (λ made. made ≡ map class_of rows.now) }
{
    let mut made = Vec::new(alloc);
    for row in rows {
        made.push(class(alloc, row)?)?;
    }
    Ok(Items::from_vec(made))
}

/// The native of the first row with this name and descriptor.
pub fn native(rows: &[MethodRow], name: &[u16], descriptor: &[u16]) -> Option<Native>
    ensures { result ≡ native_row rows.now name.now descriptor.now }
{
    match rows {
        [] => None,
        [row, rows @ ..] => {
            if is_ascii_text(name, row.name) && is_ascii_text(descriptor, row.descriptor) {
                Some(row.native)
            } else {
                native(rows, name, descriptor)
            }
        }
    }
}

/// The native of a method of the first class with this name.
pub fn class_native(
    rows: &[ClassRow],
    class: &[u16],
    name: &[u16],
    descriptor: &[u16],
) -> Option<Native>
    ensures { result ≡ class_row rows.now class.now name.now descriptor.now }
{
    match rows {
        [] => None,
        [row, rows @ ..] => {
            if is_ascii_text(class, row.name) {
                native(row.methods, name, descriptor)
            } else {
                class_native(rows, class, name, descriptor)
            }
        }
    }
}
