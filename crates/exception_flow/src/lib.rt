//! Raising throwables: the handler of a frame, or the frame is left (JVMS 2.10).
//!
//! Begin with `jvm_model/specs/Raising.antt`, one step for each entry that is looked at, then
//! `specs/Raise.antt`, its row as contracts name it; then `raising.rt` and `handlers.rt`.
//!
//! - `raise` makes that row over any memory: the frame goes on at its handler with the throwable as
//!   its one operand, or is popped and the throwable goes to the entry below.
//! - `handler_of` gives the place of the first handler that serves, or none.
//!
//! Handlers are searched on the program itself, in the definition's order, as this is asked only
//! when something was thrown. What a throwable does to an initialisation entry is `class_init`'s.
#![tactic(auto)]

mod handlers;
mod raising;

pub use handlers::handler_of;
pub use raising::raise;
