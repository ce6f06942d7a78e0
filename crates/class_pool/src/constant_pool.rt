//! The constant pool as a type that keeps the conditions of its grammar.

ghost use Rattle.std.specs.Prelude.{◌≡◌, ◌↔◌, List, Option, IsSome, option_copied};
ghost use Rattle.class_pool.specs.{Reading.Gives, PoolGrammar.IsPool, Pool.entry_of, Pool.NamesEntry, Pool.pool_at};

use crate::fault::ReadError;
use crate::fields::u16_at;
use crate::lookup::entry_at;
use crate::passes::{all_indices, all_names};
use crate::pool::{Entry, slots_of};
use et_base::Items;
use std::alloc::Global;
use std::marker::Model;

/// A constant pool (JVMS 4.4). Contracts see it as its slots from index 1 on, with none in the second
/// slot of a long or double. Each entry names entries of the kinds that it may name, and names and
/// descriptors have their forms.
#[derive(Drop)]
pub struct Pool {
    slots: Items<Option<Entry>>,
}

impl Model for Pool {
    ghost use Rattle.std.specs.Prelude.{List, Option};
    ghost use Rattle.class_pool.specs.PoolGrammar.{IsPool};
    ghost use Rattle.class_pool.specs.declared.pool.Entry.{Entry};

    ghost Value = { List (Option Entry) };

    ghost view = { λ p. p.slots };

    ghost invariant = { λ p. IsPool p.slots };
}

impl Pool {
    /// The pool of these slots, from index 1 on, with none in the second slot of a long or double. It
    /// takes no memory.
    pub fn new(entries: Vec<Option<Entry>>) -> Pool
        requires { IsPool entries.items }
        ensures { result ≡ entries.items }
    {
        Pool {
            slots: Items::from_vec(entries),
        }
    }

    /// The entry that this index names; none exactly where it is 0, past the end, or the second slot
    /// of a long or double.
    pub fn entry(&self, index: u16) -> Option<&Entry>
        ensures entry { option_copied result ≡ entry_of self.now index }
        ensures named { IsSome result ↔ NamesEntry self.now index }
    {
        entry_at(self.slots.as_slice(), index)
    }

    /// Its slots, from index 1 on.
    pub fn slots(&self) -> &[Option<Entry>]
        ensures gives { result.now ≡ self.now }
        ensures kept { IsPool self.now }
    {
        self.slots.as_slice()
    }
}

// The slots at the front of the bytes, after the two passes, and the bytes after them.
#[tactic(auto, unfolding(crate::specs::Pool::pool_at))]
fn checked_slots(alloc: Global, bytes: &[u8]) -> Result<(Items<Option<Entry>>, &[u8]), ReadError>
    ensures { Gives (λ x. (x.0, x.1.now)) result (pool_at bytes.now) }
{
    let (count, start) = u16_at(bytes)?;
    let (slots, rest) = slots_of(alloc, count, start)?;
    all_indices(slots.as_slice(), start.len())?;
    all_names(alloc, slots.as_slice(), start.len())?;
    Ok((slots, rest))
}

/// The pool at the front of the bytes, and the bytes after it. A fault is the first of one reading from
/// left to right, the two passes after it; its place is the number of bytes left at the field.
pub fn pool_at(alloc: Global, bytes: &[u8]) -> Result<(Pool, &[u8]), ReadError>
    ensures { Gives (λ x. (x.0, x.1.now)) result (pool_at bytes.now) }
{
    let (slots, rest) = checked_slots(alloc, bytes)?;
    Ok((Pool::new(slots.into_vec()), rest))
}
