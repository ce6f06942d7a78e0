//! Raw writers that aren't listed.

ghost use Rattle.std.specs.Prelude.{◌≡◌, ℕ, ◌<◌, ◌↔◌, true, MatchOption};
ghost use Rattle.order_law.specs.{Conflicts.Member, Conflicts.HasEdge, OrderFault.HasWriters, OrderFault.IsMissing};
ghost use Rattle.dep_graph.specs.Sets.{holds};
ghost use Rattle.selection_close.specs.Faults.{HasAll, IsLeastOutside, HoldsList, gained};

use dep_graph::{Graph, TestSet};

/// A listed test, and a raw writer of it that isn't listed.
#[derive(Clone, Copy)]
pub struct Missing {
    pub test: u32,
    pub writer: u32,
}

/// The first listed test with a raw writer outside the list, and its least such writer.
pub fn unlisted(g: &Graph, list: &[u32]) -> Option<Missing>
    ensures { MatchOption result ((t : ℕ) → Member t list.now → HasWriters g.now list.now t)
        (λ m. IsMissing g.now list.now m.test m.writer) }
{
    g.goes_up();
    let members = set_of(list);
    for i in 0..list.len() {
        let test = list[i];
        if let Some(writer) = outside(g, test, &members) {
            return Some(Missing { test, writer });
        }
    }
    None
}

/// The least raw writer of a test that a set lacks.
fn outside(g: &Graph, test: u32, members: &TestSet) -> Option<u32>
    ensures { MatchOption result (HasAll g.now members.now test)
        (λ u. IsLeastOutside g.now members.now test u) }
{
    let writers = g.raw_of(test);
    for i in 0..writers.len() {
        let writer = writers[i];
        if !members.has(writer) {
            return Some(writer);
        }
    }
    None
}

/// The set of the tests of a list.
pub fn set_of(list: &[u32]) -> TestSet
    ensures { HoldsList result list.now }
{
    let mut set = TestSet::new();
    for i in 0..list.len() {
        add(&mut set, list[i]);
    }
    set
}

/// Adds a test, where a set has room for its number.
pub fn add(set: &mut TestSet, test: u32)
    ensures { (u : ℕ) → u < 1088 → holds set.new u ≡ gained set.old test u }
{
    if test < 1088 {
        set.insert(test);
    }
}
