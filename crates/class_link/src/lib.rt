//! Linking: class files and tests to one program whose references are numbers, or the first fault
//! of linking.
//!
//! JVMS 5.3 and 5.4.3. Begin with `specs/Link.antt`, the whole and the order of faults, then
//! `specs/Faults.antt`, each by itself, and `specs/Assembly.antt`, the records; then `linking.rt`.
//!
//! - `link` gives the program of class files, tests and opening files, or the first fault.
//! - `links_once` says that class files and lines have exactly one such answer.
//!
//! Linking is a relation, as it looks for the first class that is its own ancestor. References are
//! looked up in a skeleton, the program whose bodies have no instructions yet; a lemma for each
//! look-up says that it finds the same in the whole. The skeleton has the number 0 for a missing
//! name, and a program is handed out only after the faults were looked for.
#![tactic(auto)]

mod assembly;
mod bodies;
mod class_records;
mod entries;
mod fault;
mod laws;
mod lines;
mod link_environment;
mod linking;
mod literals;
mod members;
mod mentions;
mod names;
mod reference_faults;
mod supertypes;
mod targets;
mod tests_of;
mod text_set;
mod uses;

pub use fault::LinkFault;
pub use laws::links_once;
pub use lines::{TestLine, TestLines};
pub use linking::link;
