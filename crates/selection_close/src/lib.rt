//! The closure of a selection of tests, and whether a list of tests keeps to the order of a record.
//!
//! Begin with `order_law/specs/Conflicts.antt` and `order_law/specs/OrderFault.antt`, then
//! `specs/Closed.antt` and `specs/Faults.antt`; then `closing.rt` and `faults.rt`.
//!
//! - `close` gives the least set that holds a selection and with each test its raw writers,
//!   ascending.
//! - `check_order` gives Ok where a list is lawful by the record's edges, else its first fault; it
//!   takes no memory.
//! - `ascending` gives the different numbers of a list in rising order.
//!
//! The order of faults is a promise: a repeated test first, then a missing writer, then an
//! inversion. `order_fault_law` says that there is a fault exactly where a list isn't lawful.
#![tactic(auto)]

mod closing;
mod faults;
mod inversions;
mod repeats;
mod rest;
mod writers;

pub use closing::close;
pub use faults::{OrderFault, check_order};
pub use rest::ascending;
