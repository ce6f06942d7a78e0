//! The changed class files, and the tests that are run again.

ghost use Rattle.std.specs.Prelude.{◌≡◌, ◌≤◌, ◌++◌, ◌∷◌, [], ◌&&◌, ◌||◌, not, cond, length, true, IfOk, IfSome, OnOk};
ghost use Rattle.std.specs.List.{list_all};
ghost use Rattle.impact_pick.specs.Form.{are_within, fits_prints};
ghost use Rattle.impact_pick.specs.Pick as pick;

use crate::hits::{is_changed, is_hit};
use et_base::{Items, NoMemory};
use jvm_model::Program;
use order_law::{More, Prints, Record, puts_out};
use std::alloc::Global;
use type_frames::Checked;

// Appends a number, where it is to be listed.
fn push_where(list: &mut Items<u32>, number: u32, is_listed: bool) -> Result<(), NoMemory>
    ensures { OnOk result (list.new ≡ cond is_listed (list.old ++ number ∷ []) list.old) }
{
    if is_listed {
        list.push(number)?;
    }
    Ok(())
}

fn changed_since(alloc: Global, m: &More, prints: &Prints) -> Result<Items<u32>, NoMemory>
    requires few { length m.now.classes ≤ 1024 }
    requires many { length m.now.classes ≡ length prints.now.classes }
    ensures { IfOk result (λ js. js ≡ pick.changed m.now prints.now) }
{
    let mut files = Items::new(alloc);
    for i in 0..prints.classes.len() {
        let class = i as u32 + 1;
        push_where(&mut files, class, is_changed(m, prints, class))?;
    }
    Ok(files)
}

// Whether a test is run again: it is hit, or it may depend on others and stands behind one that is hit.
fn is_again(hit: bool, settled: bool, puts: bool, after: bool) -> bool
    ensures { result ≡ (hit || ((not settled || puts) && after)) }
{
    hit || ((!settled || puts) && after)
}

// Whether one of two holds.
fn either(one: bool, other: bool) -> bool
    ensures { result ≡ (one || other) }
{
    one || other
}

fn picked(alloc: Global, m: &More, p: &Program, prints: &Prints) -> Result<Items<u32>, NoMemory>
    requires few { length m.now.reach ≤ 1024 }
    requires within { list_all (λ r. are_within (length m.now.classes) r.classes) m.now.reach ≡ true }
    requires many { length m.now.classes ≡ length prints.now.classes }
    ensures { IfOk result (λ ts. ts ≡ pick.picked m.now p.now prints.now) }
{
    let puts = puts_out(p);
    let mut tests = Items::new(alloc);
    let mut after = false;
    for i in 0..m.reach.len() {
        let reach = &m.reach.as_slice()[i];
        let hit = is_hit(m, prints, reach);
        let again = is_again(hit, reach.settled, puts, after);
        push_where(&mut tests, i as u32 + 1, again)?;
        after = either(after, hit);
    }
    Ok(tests)
}

/// The class files that aren't those of a version 2 record, by their numbers from 1, ascending: where the sums differ. There
/// are as many sums as the record has class files.
///
/// # Errors
///
/// `NoMemory` where an allocation is refused.
pub fn changed(alloc: Global, r: &Record, prints: &Prints) -> Result<Items<u32>, NoMemory>
    requires fits { fits_prints r.now.more prints.now ≡ true }
    ensures { IfOk result (λ js. IfSome r.now.more (λ m. js ≡ pick.changed m prints.now)) }
{
    match &r.more {
        None => Ok(Items::new(alloc)),
        Some(m) => changed_since(alloc, m, prints),
    }
}

/// The tests of a version 2 record whose report lines may differ now, by their numbers from 1, ascending: those that reach a
/// changed class file, and behind the first of them those that may depend on others. There are as many sums as the record
/// has class files.
///
/// # Errors
///
/// `NoMemory` where an allocation is refused.
pub fn impact(
    alloc: Global,
    r: &Record,
    p: &Checked,
    prints: &Prints,
) -> Result<Items<u32>, NoMemory>
    requires fits { fits_prints r.now.more prints.now ≡ true }
    ensures { IfOk result (λ ts. IfSome r.now.more (λ m. ts ≡ pick.picked m p.now prints.now)) }
{
    match &r.more {
        None => Ok(Items::new(alloc)),
        Some(m) => picked(alloc, m, p.program(), prints),
    }
}
