//! Classes that are their own ancestors.

ghost use Rattle.std.specs.Prelude.{◌≡◌, ◌+◌, ◌^◌, ◌≤◌, ◌<◌, ◌↔◌, [], IsTrue, IfOk, OnOk, length, take, nat_eq};
ghost use Rattle.indexmap.specs.IndexSet.{insert_all};
ghost use Rattle.jvm_model.specs.{Builtin.builtin_count, Library.builtin_classes, Linked.IsAncestor};
ghost use Rattle.member_lookup.specs.{Ancestors.AreAncestors, Ancestors.directs, Ancestors.IsFirstCycle};

use et_base::NoMemory;
use indexmap::IndexSet;
use jvm_model::{BUILTIN_COUNT, Program};
use std::alloc::Global;

// Notes numbers that aren't noted yet.
fn note_all(seen: &mut IndexSet<u32>, classes: &[u32]) -> Result<(), NoMemory>
    ensures { OnOk result (seen.new.keys ≡ insert_all nat_eq seen.old.keys classes.now) }
{
    for class in classes {
        seen.insert(*class)?;
    }
    Ok(())
}

// Notes the superclass and the direct superinterfaces of a class.
fn note_direct(p: &Program, class: u32, seen: &mut IndexSet<u32>) -> Result<(), NoMemory>
    ensures { OnOk result (seen.new.keys ≡ insert_all nat_eq seen.old.keys (directs p.now class)) }
{
    let Some(record) = p.class(class) else {
        return Ok(());
    };
    if let Some(superclass) = record.superclass {
        seen.insert(superclass)?;
    }
    note_all(seen, record.interfaces.as_slice())
}

// The ancestors of a class.
fn ancestors(alloc: Global, p: &Program, class: u32) -> Result<IndexSet<u32>, NoMemory>
    ensures { IfOk result (λ seen. AreAncestors p.now class seen.keys) }
{
    let mut seen = IndexSet::new(alloc);
    note_direct(p, class, &mut seen)?;
    let mut place = 0;
    while place < seen.len() {
        let next = seen.as_slice()[place];
        note_direct(p, next, &mut seen)?;
        place += 1;
    }
    Ok(seen)
}

fn is_own_ancestor(alloc: Global, p: &Program, class: u32) -> Result<bool, NoMemory>
    ensures { IfOk result (λ own. IsTrue own ↔ IsAncestor p.now class class) }
{
    let found = ancestors(alloc, p, class)?;
    Ok(found.contains(&class))
}

/// The first class that is its own ancestor, by its place behind the built-in classes, with which the program begins.
pub fn first_cycle(alloc: Global, p: &Program) -> Result<Option<usize>, NoMemory>
    requires builtins { take builtin_count p.now.classes ≡ builtin_classes }
    requires few { length p.now.classes < 2 ^ 32 }
    ensures { IfOk result (λ cycle. IsFirstCycle p.now cycle) }
{
    for class in BUILTIN_COUNT as usize..p.classes.len() {
        if is_own_ancestor(alloc, p, class as u32)? {
            return Ok(Some(class - BUILTIN_COUNT as usize));
        }
    }
    Ok(None)
}
