//! Conflicts between tests, as the edges of a record.

use et_base::Text;

/// Why one test has to come before another. `Raw`: the later one reads what the earlier one wrote last; `Waw`: both write,
/// and no test between them; `War`: the later one writes what the earlier one read (this project's kinds).
#[derive(Clone, Copy, PartialEq, Eq)]
pub enum EdgeKind {
    Raw,
    Waw,
    War,
}

/// The conflicts of one kind between two tests, numbered from 1: how many locations they are at, and the text of the one
/// that the later test touched first.
#[derive(Drop)]
pub struct Edge {
    pub earlier: u32,
    pub later: u32,
    pub kind: EdgeKind,
    pub count: u32,
    pub first: Text,
}
