//! The forms of instructions that work on objects (JVMS 6.5): one function for each form, over the
//! stack and any memory.
//!
//! Begin with `jvm_model/specs/RowsFields.antt` and its kin for statics, arrays, casts and new
//! objects, then `specs/Forms.antt`, the rows of groups and parts as contracts name them; then
//! `field_access.rt`, the simplest, and `static_access.rt`, which uses a class first.
//!
//! - `fields`, `statics`, `arrays`, `create` and `casts` make the step of a form of their group,
//!   with its touches and its cost.
//! - `get_field`, `new_object` and the others are one form each, as the hot loop takes them.
//!
//! What comes once a class may be used is a function of its own, and `proofs/Using` says once what
//! that says of the whole row. Of the forms that the hot loop takes, what has to be inlined is
//! marked so.
#![tactic(auto)]

mod array_access;
mod casting;
mod creation;
mod field_access;
mod nesting;
mod static_access;

pub use array_access::{array_length, array_load, array_store, array_store_number, arrays};
pub use casting::{casts, check_cast, instance_of};
pub use creation::{create, new_array, new_object};
pub use field_access::{fields, get_field, put_field};
pub use nesting::multi_new_array;
pub use static_access::{get_static, put_static, statics};
