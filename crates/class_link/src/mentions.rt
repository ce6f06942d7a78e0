//! The classes that a pool names.

ghost use Rattle.std.specs.Prelude.{◌≡◌, ℕ, List, ◌++◌, length, IfOk};
ghost use Rattle.std.specs.{List.flat_map, Option.option_to_list};
ghost use Rattle.class_link.specs.{Assembly.mentioned_by, Assembly.mentions, Marks.Lists};

use crate::entries::text_at;
use crate::names::{ClassNames, needed_class};
use crate::supertypes::unlisted;
use class_pool::Entry;
use et_base::{Items, NoMemory};
use jvm_model::BUILTIN_COUNT;
use std::alloc::Global;

// The class that an entry names, where it is there.
fn mentioned_by(names: &ClassNames, slots: &[Option<Entry>], slot: &Option<Entry>) -> Option<u32>
    ensures { option_to_list result ≡ mentioned_by names.now slots.now slot.now }
{
    match slot {
        Some(Entry::Class { name }) => names.number(needed_class(text_at(slots, *name))?),
        _ => None,
    }
}

// Lists a number too, where it is below the table's size.
fn list(table: &mut Vec<bool>, number: Option<u32>)
    ensures { (n : ℕ) (is : List ℕ) → Lists table.old.items n is → Lists table.new.items n (is ++ option_to_list number) }
{
    if let Some(number) = number {
        let place = number as usize;
        if place < table.len() {
            table[place] = true;
        }
    }
}

// Which classes the Class entries of a pool name.
fn named_in(
    alloc: Global,
    names: &ClassNames,
    slots: &[Option<Entry>],
) -> Result<Vec<bool>, NoMemory>
    ensures { IfOk result (λ table. Lists table.items (length names.now)
        (flat_map (mentioned_by names.now slots.now) slots.now)) }
{
    let mut table = unlisted(alloc, names.len() as usize)?;
    for slot in slots {
        list(&mut table, mentioned_by(names, slots, slot));
    }
    Ok(table)
}

/// The given classes that the Class entries of a pool name, in rising order.
pub(crate) fn mentions(
    alloc: Global,
    names: &ClassNames,
    slots: &[Option<Entry>],
) -> Result<Items<u32>, NoMemory>
    ensures { IfOk result (λ made. made ≡ mentions names.now slots.now) }
{
    let table = named_in(alloc, names, slots)?;
    let mut mentions = Items::new(alloc);
    for class in BUILTIN_COUNT..names.len() {
        if table[class as usize] {
            mentions.push(class)?;
        }
    }
    Ok(mentions)
}
