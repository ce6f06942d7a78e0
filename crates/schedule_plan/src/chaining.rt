//! The chains of a set of tests.

ghost use Rattle.std.specs.Prelude.{ℕ, IfOk};
ghost use Rattle.order_law.specs.{Conflicts.Member, Plan.AreListedChainsOf};

use crate::classes::classes_of;
use crate::labels::labels_of;
use dep_graph::Graph;
use et_base::NoMemory;
use order_law::Chains;
use selection_close::ascending;
use std::alloc::Global;

/// The chains of a set of tests: the classes of the least equivalence that joins two of them where one is before the
/// other, each in suite order, and by their first tests.
pub fn chains(alloc: Global, g: &Graph, set: &[u32]) -> Result<Chains, NoMemory>
    ensures { IfOk result (λ c. AreListedChainsOf g.now (λ t. Member t set.now) c.lists) }
{
    g.goes_up();
    let tests = ascending(alloc, set)?;
    let labels = labels_of(alloc, g, tests.as_slice())?;
    let lists = classes_of(alloc, tests.as_slice(), &labels)?;
    Ok(Chains { lists })
}
