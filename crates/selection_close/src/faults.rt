//! The first reason why a list isn't lawful.

ghost use Rattle.std.specs.Prelude.{MatchResult};
ghost use Rattle.order_law.specs.{Conflicts.Lawful, OrderFault.IsOrderFault};
ghost use Rattle.selection_close.specs.Faults.{fault_of};

use crate::inversions::inverted;
use crate::repeats::repeated;
use crate::writers::unlisted;
use dep_graph::Graph;

/// Why a list of tests isn't lawful: `Twice` names the test at the least place that repeats an earlier one;
/// `MissingWriter` the first listed test with a raw writer outside the list, and its least such writer; `Inverted` the
/// test at the least place that is before one which stands earlier, and the earliest such one.
#[derive(Clone, Copy, Debug, PartialEq, Eq)]
pub enum OrderFault {
    Twice { test: u32 },
    MissingWriter { test: u32, writer: u32 },
    Inverted { first: u32, second: u32 },
}

/// Whether a list is lawful by the edges of a record; else its first fault, in the order in which the faults are
/// declared. Takes no memory.
pub fn check_order(g: &Graph, list: &[u32]) -> Result<(), OrderFault>
    ensures { MatchResult result (λ _. Lawful g.now list.now)
        (λ fault. IsOrderFault g.now list.now (fault_of fault)) }
{
    if let Some(test) = repeated(list) {
        return Err(OrderFault::Twice { test });
    }
    if let Some(found) = unlisted(g, list) {
        return Err(OrderFault::MissingWriter {
            test: found.test,
            writer: found.writer,
        });
    }
    if let Some(found) = inverted(g, list) {
        return Err(OrderFault::Inverted {
            first: found.first,
            second: found.second,
        });
    }
    Ok(())
}
