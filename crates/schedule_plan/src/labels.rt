//! Labels of the places of a list of tests: two places have one label where their tests are joined.

ghost use Rattle.std.specs.Prelude.{◌≡◌, ℕ, ◌<◌, length, nat_eq, cond, IfOk};
ghost use Rattle.order_law.specs.Conflicts.{Before};
ghost use Rattle.schedule_plan.specs.Grouping.{AreLabels, Keeps, IsJoinedTo, AreJoined, at};

use dep_graph::Graph;
use et_base::NoMemory;
use std::alloc::Global;

/// The labels of tests, by the order of a graph. A label is the least place of its class.
pub fn labels_of(alloc: Global, g: &Graph, tests: &[u32]) -> Result<Vec<usize>, NoMemory>
    ensures { IfOk result (λ v. AreLabels g.now tests.now v.items
        × AreJoined g.now tests.now v.items (length tests.now)) }
{
    let mut labels = places(alloc, tests.len())?;
    join_all(g, tests, &mut labels);
    Ok(labels)
}

/// The numbers below this one, in order.
fn places(alloc: Global, count: usize) -> Result<Vec<usize>, NoMemory>
    ensures many { IfOk result (λ v. length v.items ≡ count) }
    ensures own { IfOk result (λ v. (k : ℕ) → k < count → at v.items k ≡ k) }
{
    let mut labels = Vec::new(alloc);
    for i in 0..count {
        labels.push(i)?;
    }
    Ok(labels)
}

/// Joins each place to the earlier ones whose tests are before its own.
fn join_all(g: &Graph, tests: &[u32], labels: &mut [usize])
    requires { AreLabels g.now tests.now labels.old }
    ensures labels { AreLabels g.now tests.now labels.new }
    ensures joined { AreJoined g.now tests.now labels.new (length tests.now) }
{
    for i in 0..tests.len() {
        join_place(g, tests, labels, i);
    }
}

/// Joins a place to the earlier ones whose tests are before its own.
fn join_place(g: &Graph, tests: &[u32], labels: &mut [usize], place: usize)
    requires within { place < length tests.now }
    requires labels { AreLabels g.now tests.now labels.old }
    ensures labels { AreLabels g.now tests.now labels.new }
    ensures kept { Keeps labels.old labels.new }
    ensures joined { IsJoinedTo g.now tests.now labels.new place place }
{
    for k in 0..place {
        join(g, tests, labels, k, place);
    }
}

/// Joins two places, where the test of the earlier one is before that of the other and they aren't joined yet.
fn join(g: &Graph, tests: &[u32], labels: &mut [usize], earlier: usize, place: usize)
    requires earlier { earlier < place }
    requires within { place < length tests.now }
    requires labels { AreLabels g.now tests.now labels.old }
    ensures labels { AreLabels g.now tests.now labels.new }
    ensures kept { Keeps labels.old labels.new }
    ensures joined { Before g.now (at tests.now earlier) (at tests.now place)
        → at labels.new earlier ≡ at labels.new place }
{
    let a = labels[earlier];
    let b = labels[place];
    if a == b || !g.before(tests[earlier], tests[place]) {
        return;
    }
    if a < b {
        relabel(labels, b, a);
    } else {
        relabel(labels, a, b);
    }
}

/// Writes one label over another.
fn relabel(labels: &mut [usize], old: usize, new: usize)
    ensures many { length labels.new ≡ length labels.old }
    ensures each { (k : ℕ) → k < length labels.old
        → at labels.new k ≡ cond (nat_eq (at labels.old k) old) new (at labels.old k) }
{
    for i in 0..labels.len() {
        labels[i] = relabelled(labels[i], old, new);
    }
}

/// A label, where one is written over another.
fn relabelled(label: usize, old: usize, new: usize) -> usize
    ensures { result ≡ cond (nat_eq label old) new label }
{
    if label == old { new } else { label }
}
