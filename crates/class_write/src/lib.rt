//! Class files, written: what is written spells the class file, and is read as the same.
//!
//! JVMS 4.1. Begin with `specs/Spelling.antt`, whose `class_spelling` is the bytes of a class file;
//! then `class.rt`, and `attributes.rt` and `instructions.rt` for its parts.
//!
//! - `write_class` gives the bytes of a class file, with its pool as it is and Code, ConstantValue
//!   and StackMapTable for its attributes.
//!
//! The spelling is a function, and each function of the code appends its part of it, so none asks
//! for anything: that counts and lengths fit their fields is a law about the grammar. It rests on
//! the class file having been spelled by some bytes, of which only skipped attributes are gone. An
//! attribute's content goes into a buffer of its own, since its length stands before it.
#![tactic(auto)]

mod attributes;
mod class;
mod instructions;
mod maps;
mod names;
mod numbers;
mod operands;

pub use class::write_class;
