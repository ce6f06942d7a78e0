//! The lists of the tests with one label.

ghost use Rattle.std.specs.Prelude.{◌≡◌, ◌+◌, ◌<◌, [], ◌∷◌, ◌++◌, cond, length, IfOk, OnOk};
ghost use Rattle.order_law.specs.Plan.{Ascending};
ghost use Rattle.schedule_plan.specs.Grouping.{NameNoLater, IsClassOf, AreClasses};

use et_base::{Items, NoMemory};
use std::alloc::Global;

/// The tests of each label, by their least places.
pub fn classes_of(
    alloc: Global,
    tests: &[u32],
    labels: &[usize],
) -> Result<Items<Items<u32>>, NoMemory>
    requires many { length labels.now ≡ length tests.now }
    requires ascending { Ascending tests.now }
    requires low { NameNoLater tests.now labels.now }
    ensures { IfOk result (λ lists. AreClasses tests.now labels.now (length tests.now) lists) }
{
    let mut lists = Items::new(alloc);
    for root in 0..tests.len() {
        push_class(alloc, &mut lists, tests, labels, root)?;
    }
    Ok(lists)
}

/// Appends the tests with a label, where it is its own place.
fn push_class(
    alloc: Global,
    lists: &mut Items<Items<u32>>,
    tests: &[u32],
    labels: &[usize],
    root: usize,
) -> Result<(), NoMemory>
    requires within { root < length tests.now }
    requires many { length labels.now ≡ length tests.now }
    requires ascending { Ascending tests.now }
    requires low { NameNoLater tests.now labels.now }
    requires before { AreClasses tests.now labels.now root lists.old }
    ensures { OnOk result (AreClasses tests.now labels.now (root + 1) lists.new) }
{
    if labels[root] != root {
        return Ok(());
    }
    let class = class_of(alloc, tests, labels, root)?;
    lists.push(class)
}

/// The tests with a label, in their order: none of them stands before the place that the label names.
fn class_of(
    alloc: Global,
    tests: &[u32],
    labels: &[usize],
    label: usize,
) -> Result<Items<u32>, NoMemory>
    requires within { label < length tests.now }
    requires many { length labels.now ≡ length tests.now }
    requires ascending { Ascending tests.now }
    requires low { NameNoLater tests.now labels.now }
    ensures { IfOk result (λ list. IsClassOf tests.now labels.now label (length tests.now) list) }
{
    let mut list = Items::new(alloc);
    for i in label..tests.len() {
        push_where(&mut list, tests[i], labels[i] == label)?;
    }
    Ok(list)
}

/// Appends a test, where it is to be.
fn push_where(list: &mut Items<u32>, test: u32, is_listed: bool) -> Result<(), NoMemory>
    ensures { OnOk result (list.new ≡ cond is_listed (list.old ++ test ∷ []) list.old) }
{
    if is_listed {
        list.push(test)?;
    }
    Ok(())
}
