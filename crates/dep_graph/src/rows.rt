//! The rows of a graph: of each test, the tests that are before it.

ghost use Rattle.std.specs.Prelude.{◌≡◌, ℕ, ◌+◌, ◌<◌, ◌≤◌, length, false, nat_eq, ◌&&◌, ◌||◌, IfOk};
ghost use Rattle.dep_graph.specs.Graphs.{AreOrdered, AreRows, has_row};

use crate::sets::TestSet;
use et_base::NoMemory;
use order_law::Edge;
use std::alloc::Global;

/// The rows of these edges. Each edge adds one row to another: as edges stand by their later tests, the row of its
/// earlier test is whole by then.
pub fn rows_of(alloc: Global, tests: usize, edges: &[Edge]) -> Result<Vec<TestSet>, NoMemory>
    requires few { tests ≤ 1024 }
    requires ordered { AreOrdered tests edges.now }
    ensures { IfOk result (λ rows. AreRows (tests + 1) edges.now rows.items) }
{
    let mut rows = empty_rows(alloc, tests + 1)?;
    for edge in edges {
        add_edge(&mut rows, edge.earlier, edge.later);
    }
    Ok(rows)
}

/// So many rows with no test in them.
fn empty_rows(alloc: Global, count: usize) -> Result<Vec<TestSet>, NoMemory>
    ensures { IfOk result (λ rows. (length rows.items ≡ count)
        × ((u t : ℕ) → has_row rows.items u t ≡ false)) }
{
    let mut rows = Vec::new(alloc);
    for _ in 0..count {
        rows.push(TestSet::new())?;
    }
    Ok(rows)
}

/// Adds to the row of the later test the earlier one and its row.
fn add_edge(rows: &mut Vec<TestSet>, earlier: u32, later: u32)
    requires up { earlier < later }
    requires within { later < length rows.old.items }
    requires few { length rows.old.items ≤ 1025 }
    ensures many { length rows.new.items ≡ length rows.old.items }
    ensures added { (u t : ℕ) → has_row rows.new.items u t
        ≡ (has_row rows.old.items u t
        || (nat_eq t later && (nat_eq u earlier || has_row rows.old.items u earlier))) }
{
    let mut row = rows[later as usize];
    row.join(&rows[earlier as usize]);
    row.insert(earlier);
    rows[later as usize] = row;
}
