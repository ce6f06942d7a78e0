//! Class files, read exactly: what is read is spelled so, and else the first fault is named.
//!
//! JVMS chapter 4. Begin with `specs/ClassGrammar.antt`, which bytes spell which class file, then
//! `specs/Class.antt`, how it is read from left to right; then `class.rt`, and `members.rt`,
//! `attributes.rt` and `maps.rt` for its parts.
//!
//! - `read_class` gives the class file that all of the bytes spell, else the first fault, with its
//!   offset in the file or the method and the place in its code.
//! - `ClassFile::parts` lends its parts; contracts see a class file as these.
//!
//! The order of faults is a promise: a row of a handler table is judged as it is read, a wrong name
//! of a member after its index. Equal texts are found by hashes, as nothing asks for an order.
#![tactic(auto)]

mod attributes;
mod class;
mod fault;
mod handlers;
mod maps;
mod members;
mod names;
mod parts;
mod reading;
mod texts;

pub use class::read_class;
pub use code_decode::{Code, RawOp};
pub use fault::ClassFault;
pub use parts::{
    ClassFile, ClassParts, CodePart, MapFrame, MapPart, MapType, MemberPart, RawHandler,
};
