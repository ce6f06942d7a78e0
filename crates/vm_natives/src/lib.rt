//! The built-in methods (this project's): each runs in the step that calls it.
//!
//! Begin with `jvm_model/specs/NativesString.antt` and its kin, the rows, and `specs/Rows.antt`,
//! the same as contracts name them; then `running.rt`, `groups.rt` and a file of methods, say
//! `string.rt`.
//!
//! - `native` runs a built-in method on the operands of the calling frame: its answer, its costs
//!   and its touches are the row's, over any memory.
//!
//! A method is its operands taken, a look at what they are, and one of the ends of `working.rt`,
//! each a small row of its own; works on texts are total functions (`texts.rt`). A name or text is
//! copied where it is read, since a memory lends it only until its next call. A method that is
//! added needs its row in `jvm_model`, its typing cases in `check_sound` and its pairing in
//! `order_law`.
#![tactic(auto)]

mod builder;
mod env;
mod files;
mod groups;
mod named;
mod references;
mod running;
mod stream;
mod string;
mod system;
mod texts;
mod throwable;
mod working;

pub use running::native;
