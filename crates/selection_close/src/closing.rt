//! The read-after-write closure of a selection.

ghost use Rattle.std.specs.Prelude.{◌≡◌, ◌⊎◌, ℕ, ◌<◌, ◌↔◌, true, [], ◌∷◌, ◌++◌, cond, length, IfOk, OnOk};
ghost use Rattle.order_law.specs.Conflicts.{Member};
ghost use Rattle.dep_graph.specs.Sets.{holds};
ghost use Rattle.selection_close.specs.Closed.{IsClosure, IsClosedSet, HasGrown, IsListed};

use crate::rest::push_rest;
use crate::writers::{add, set_of};
use dep_graph::{Graph, TestSet};
use et_base::{Items, NoMemory};
use std::alloc::Global;

/// The least set of tests that holds a selection and, with each of its tests, the raw writers of that test; ascending.
pub fn close(alloc: Global, g: &Graph, sel: &[u32]) -> Result<Items<u32>, NoMemory>
    ensures { IfOk result (λ l. IsClosure g.now sel.now l) }
{
    g.goes_up();
    let mut set = set_of(sel);
    close_set(g, &mut set);
    let list = listed(alloc, &set)?;
    push_rest(list, sel, 1088)
}

/// Adds to a set the raw writers of its tests, and theirs. Those of a test are below it, so one walk downward does.
fn close_set(g: &Graph, set: &mut TestSet)
    ensures { IsClosedSet g.now set.old set.new }
{
    g.goes_up();
    for k in 0..1088 {
        close_at(g, set, 1087 - k);
    }
}

/// Adds the raw writers of a test, where the set holds it.
fn close_at(g: &Graph, set: &mut TestSet, test: u32)
    ensures { HasGrown g.now set.old set.new test }
{
    if set.has(test) {
        let writers = g.raw_of(test);
        add_all(set, writers);
    }
}

/// Adds the tests of a list, where a set has room for their numbers.
fn add_all(set: &mut TestSet, tests: &[u32])
    ensures { (u : ℕ) → u < 1088
        → (holds set.new u ≡ true) ↔ ((holds set.old u ≡ true) ⊎ Member u tests.now) }
{
    for i in 0..tests.len() {
        add(set, tests[i]);
    }
}

/// The tests of a set, ascending.
fn listed(alloc: Global, set: &TestSet) -> Result<Items<u32>, NoMemory>
    ensures { IfOk result (λ l. IsListed set.now 1088 l) }
{
    let mut list = Items::new(alloc);
    for t in 0..1088 {
        push_held(&mut list, set, t)?;
    }
    Ok(list)
}

/// Appends a test, where the set holds it.
fn push_held(list: &mut Items<u32>, set: &TestSet, test: u32) -> Result<(), NoMemory>
    ensures { OnOk result (list.new ≡ cond (holds set.now test) (list.old ++ test ∷ []) list.old) }
{
    if set.has(test) {
        list.push(test)?;
    }
    Ok(())
}
