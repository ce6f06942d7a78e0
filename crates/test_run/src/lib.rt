//! A machine that runs tests one after the other on its own memory, and the lines of a report on
//! tests.
//!
//! Begin with `jvm_model/specs/Suite.antt` and `specs/Running.antt`, what a machine keeps, then
//! `machine.rt`, `piece.rt`, `lines.rt` and `tallies.rt`.
//!
//! - `Machine::run_test` runs one more test: its outcome is the definition's after the tests before
//!   it, or `OverBudget` comes where its units would pass its budget.
//! - `Machine::run_list` does so for each test of a list, and names the first that is refused; the
//!   units of the tests before it are counted.
//! - `Machine::reset` sets it back to the opening world, also after a refusal; it takes no memory.
//!
//! A machine is spent while a test runs, and fresh again once the outcome is there, so that each
//! early return leaves it spent. A `Piece` keeps that its outcome is that of its list's last test.
#![tactic(auto)]

mod lines;
mod machine;
mod parts;
mod piece;
mod pool_name;
mod run_fault;
mod single;
mod tallies;

pub use lines::{count_line, outcome_lines};
pub use machine::Machine;
pub use piece::Piece;
pub use pool_name::PoolName;
pub use run_fault::RunFault;
pub use tallies::{Counts, Tally, push_head};
