//! The raw writers of each test.

ghost use Rattle.std.specs.Prelude.{◌≡◌, ℕ, ◌+◌, ◌<◌, ◌≤◌, [], ◌∷◌, ◌++◌, length, get_or, slice_set, IfOk, OnOk};
ghost use Rattle.dep_graph.specs.Graphs.{AreOrdered, AreSources};

use et_base::{Items, NoMemory};
use order_law::{Edge, EdgeKind};
use std::alloc::Global;

/// The raw writers of each test, by these edges.
pub fn sources_of(alloc: Global, tests: usize, edges: &[Edge]) -> Result<Vec<Items<u32>>, NoMemory>
    requires few { tests ≤ 1024 }
    requires ordered { AreOrdered tests edges.now }
    ensures { IfOk result (λ lists. AreSources (tests + 1) edges.now lists.items) }
{
    let mut lists = empty_lists(alloc, tests + 1)?;
    for edge in edges {
        match edge.kind {
            EdgeKind::Raw => push_to(&mut lists, edge.later as usize, edge.earlier)?,
            EdgeKind::Waw => {}
            EdgeKind::War => {}
        }
    }
    Ok(lists)
}

/// Appends a number to one of the lists.
fn push_to(lists: &mut Vec<Items<u32>>, at: usize, number: u32) -> Result<(), NoMemory>
    requires { at < length lists.old.items }
    ensures { OnOk result (lists.new.items
        ≡ slice_set lists.old.items at (get_or lists.old.items at [] ++ number ∷ [])) }
{
    lists[at].push(number)
}

/// So many lists with nothing in them.
fn empty_lists(alloc: Global, count: usize) -> Result<Vec<Items<u32>>, NoMemory>
    ensures { IfOk result (λ lists. (length lists.items ≡ count)
        × ((t : ℕ) → get_or lists.items t [] ≡ [])) }
{
    let mut lists = Vec::new(alloc);
    for _ in 0..count {
        lists.push(Items::new(alloc))?;
    }
    Ok(lists)
}
