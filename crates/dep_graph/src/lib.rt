//! The graph of a record: which tests are before which, and the raw writers of each.
//!
//! Begin with `order_law/specs/Conflicts.antt`, what edges and `Before` are, and
//! `specs/Graphs.antt`, what a graph keeps of them; then `graph.rt` and `sets.rt`.
//!
//! - `Graph::of` makes the graph of a record, of whatever edges.
//! - `Graph::before` says whether a test is before another, by paths of edges of any kind.
//! - `Graph::raw_of` gives the raw writers of a test, ascending.
//!
//! The closure is made in one pass, since the form of a record has its edges by their later tests;
//! the contract knows nothing of this. The record's edges are kept in a `Snapshot`, which has no
//! bytes, so that contracts can speak of them. A `TestSet` has room for all tests of a record and
//! takes no memory.
#![tactic(auto)]

mod detected;
mod graph;
mod rows;
mod sets;
mod sources;

pub use detected::Detected;
pub use graph::Graph;
pub use sets::TestSet;
