//! Calls and returns (JVMS 6.5): the four invoke forms with the selection of methods, and the
//! returns.
//!
//! Begin with `jvm_model/specs/RowsCalls.antt`, `jvm_model/specs/RowsReturn.antt` and
//! `jvm_model/specs/Selection.antt`, then `specs/Calls.antt`; then `invoking.rt`, `returning.rt`
//! and `selections.rt`.
//!
//! - `call` makes the row of an invoke form over any memory; a built-in method is still to run
//!   then.
//! - `give_back` pops the entry and gives the value, narrowed, to the frame below.
//! - `Selections::dispatch` gives what the definition selects on an instance of a class.
//!
//! `Selections` keeps up to 4,096 answers, and its invariant is that each is the definition's, so
//! no clause speaks of hits. The forms that the hot loop takes are `inline(always)`.
#![tactic(auto)]

mod choice;
mod entering;
mod invoking;
mod returning;
mod selecting;
mod selections;

pub use choice::Choice;
pub use invoking::{call, invoke_on_object, invoke_special, invoke_static};
pub use returning::give_back;
pub use selections::Selections;
