//! The history of a run of chains by workers: who claimed which chain, and who posted what.
//!
//! Begin with `order_law/specs/Plan.antt`, legal histories, and `specs/Refusal.antt`, why an event
//! may not follow one; then `events.rt` and `history.rt`.
//!
//! - `Core::new` takes room for all events that may come, so that `step` takes no memory.
//! - `Core::step` appends an event where it may follow, else hands it back with the first reason.
//! - `Core::history` lends the events, in the order in which they came.
//!
//! That the history is legal is the invariant of `Core`. Its tables are kept as facts on that
//! history, so that each event owes one lemma. Events number workers and chains from 1, as the log
//! does; the laws number chains from 0.
#![tactic(auto)]

mod events;
mod history;
mod lists;
mod tables;

pub use events::{Event, Refused, Rejected, RunName};
pub use history::Core;
pub use tables::Open;
