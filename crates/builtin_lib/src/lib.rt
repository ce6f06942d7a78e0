//! The built-in classes: those of the Java library that the machine serves, and `electric/Files`
//! and `electric/Env`.
//!
//! Begin with `jvm_model/specs/Library.antt`, which lists the classes with their fields and
//! methods, then `tables.rt`, the same as data, and `rows.rt`, which reads the data.
//!
//! - `builtins` gives the classes, each after its superclass.
//! - `native_of` gives the built-in method of a class, name and descriptor, `None` exactly where
//!   none is.
//! - `builtin_records` gives the records with which every program begins.
//!
//! Constants with references aren't exported to proofs, so the tables are lent by `class_rows`,
//! whose clause says what they stand for. Built-in classes have fixed numbers: one that is added
//! moves the numbers of all given classes.
#![tactic(auto)]

ghost use Rattle.std.specs.Prelude.{◌≡◌, IfOk};
ghost use Rattle.jvm_model.specs.Library.{builtin_defs};
ghost use Rattle.builtin_lib.specs.Rows.{native_among};

mod records;
mod rows;
mod tables;

use et_base::{Items, NoMemory, Units};
use jvm_model::{ClassDef, Native};
pub use records::{BuiltinRecords, builtin_records, numbers};
use std::alloc::Global;
use tables::class_rows;

/// The built-in classes with their fields and methods, each after its superclass.
pub fn builtins(alloc: Global) -> Result<Items<ClassDef>, NoMemory>
    ensures { IfOk result (λ classes. classes ≡ builtin_defs) }
{
    rows::classes(alloc, class_rows())
}

/// The built-in method of a class, name and descriptor, `None` exactly where the built-in classes lack it. It takes no
/// memory.
pub fn native_of(class: &Units, name: &Units, descriptor: &Units) -> Option<Native>
    ensures { result ≡ native_among builtin_defs class.now name.now descriptor.now }
{
    rows::class_native(
        class_rows(),
        class.as_slice(),
        name.as_slice(),
        descriptor.as_slice(),
    )
}
