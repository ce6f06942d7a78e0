//! Which tests have to stay together, and which worker runs which of these chains.
//!
//! Begin with `order_law/specs/Plan.antt`, what chains are, and `specs/Plans.antt`, what a plan is;
//! then `chaining.rt` and `planning.rt`.
//!
//! - `chains` gives the classes of the least equivalence that joins two tests of a set where one is
//!   before the other.
//! - `plan` gives chains to n workers: by falling units, each to the worker of least load.
//! - `plan_law` says that there is one such plan.
//!
//! A plan is a relation with one answer, and says nothing of the order in which code gives chains
//! to workers. Chains are found by labels: of each pair of tests of which one is before the other,
//! the greater label gives way.
#![tactic(auto)]

mod chaining;
mod classes;
mod labels;
mod order;
mod planning;
mod shares;
mod sizes;

pub use chaining::chains;
pub use planning::{plan, plan_law};
pub use shares::{Share, WorkPlan};
