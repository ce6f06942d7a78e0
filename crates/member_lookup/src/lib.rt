//! The look-up of fields and methods and the ancestors of classes (JVMS 5.4.3), over a program
//! alone.
//!
//! Linking and the selection of methods at calls both look members up here. Begin with
//! `jvm_model/specs/Lookup.antt`, what a look-up finds, and `specs/Ancestors.antt`, the classes
//! above a class; then `lookup.rt`, and `walk.rt` and `cycles.rt` for the ancestors.
//!
//! - `find_field` and `find_method` give the number of the member that the look-up finds, or none.
//! - `declared_upwards` gives the first method that a class or a superclass declares.
//! - `first_cycle` gives the first class that is its own ancestor, or none.
//!
//! No definition computes the first class that is its own ancestor: it is a relation. The search
//! notes each class once, so it ends since classes are finitely many.
#![tactic(auto)]

mod cycles;
mod lookup;
mod walk;

pub use cycles::first_cycle;
pub use lookup::{declared_upwards, find_field, find_method};
