//! Tests that stand in the wrong order.

ghost use Rattle.std.specs.Prelude.{◌<◌, length, MatchOption};
ghost use Rattle.order_law.specs.{Conflicts.InOrder, OrderFault.IsInverted};
ghost use Rattle.selection_close.specs.Faults.{IsBeforeNone, IsFirstAfter};

use dep_graph::Graph;

/// A test, and one that stands earlier in the list though the first is before it.
#[derive(Clone, Copy)]
pub struct Inversion {
    pub first: u32,
    pub second: u32,
}

/// The test at the least place that is before one which stands earlier, and the earliest such one.
pub fn inverted(g: &Graph, list: &[u32]) -> Option<Inversion>
    ensures { MatchOption result (InOrder g.now list.now)
        (λ x. IsInverted g.now list.now x.first x.second) }
{
    for i in 0..list.len() {
        if let Some(q) = first_after(g, list, i) {
            return Some(Inversion {
                first: list[i],
                second: list[q],
            });
        }
    }
    None
}

/// The earliest place below this one whose test the one here is before.
fn first_after(g: &Graph, list: &[u32], place: usize) -> Option<usize>
    requires { place < length list.now }
    ensures { MatchOption result (IsBeforeNone g.now list.now place place)
        (λ q. IsFirstAfter g.now list.now place q) }
{
    let test = list[place];
    for q in 0..place {
        if g.before(test, list[q]) {
            return Some(q);
        }
    }
    None
}
