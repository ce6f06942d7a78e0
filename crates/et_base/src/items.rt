//! A growable list that contracts see as the list of its items.

ghost use Rattle.std.specs.Prelude.{◌≡◌, ◌<◌, ◌^◌, List, [], ◌∷◌, ◌++◌, length, OnOk, OnErr, IfOk, IsTrue, ◌↔◌, option_copied, slice_get};
ghost use Rattle.std.specs.{Str.bytes_eq, Slice.IsItemAt, Slice.Iter.iter_rest, Slice.Iter.iter_steps, Iterator.Runs.EveryRun, Iterator.Runs.ItemsMapTo};
ghost use Rattle.std.specs.Iterator.Adapters.{IterYieldsInOrder};

use crate::NoMemory;
use std::alloc::Global;
use std::marker::Model;
use std::slice::Iter;

/// A list of items in order. Contracts see it as that list.
#[derive(Debug, Drop)]
pub struct Items<T> {
    items: Vec<T>,
}

/// Bytes, mostly those of a printed line or a name.
pub type Text = Items<u8>;

/// 16-bit code units, as the names and strings of class files have them (JVMS 4.4.7).
pub type Units = Items<u16>;

impl<T> Model for Items<T> {
    ghost Value = { List T };

    ghost view = { λ s. s.items.items };
}

impl<T> Items<T> {
    /// No items. It takes no memory until the first push.
    pub fn new(alloc: Global) -> Items<T>
        ensures { result ≡ [] }
    {
        Items {
            items: Vec::new(alloc),
        }
    }

    /// No items, with room for so many.
    pub fn with_capacity(alloc: Global, capacity: usize) -> Result<Items<T>, NoMemory>
        ensures { IfOk result (λ items. items ≡ []) }
    {
        Ok(Items {
            items: Vec::with_capacity(alloc, capacity)?,
        })
    }

    /// The items of a vector; it takes no memory.
    pub fn from_vec(items: Vec<T>) -> Items<T>
        ensures { result ≡ items.items }
    {
        Items { items }
    }

    /// The items as a vector; it takes no memory.
    pub fn into_vec(self) -> Vec<T>
        ensures { result.items ≡ self }
    {
        let Items { items } = self;
        items
    }

    /// Appends an item. After a refusal the list is as before.
    pub fn push(&mut self, item: T) -> Result<(), NoMemory>
    where
        T: Drop,
        ensures pushed { OnOk result (self.new ≡ self.old ++ item ∷ []) }
        ensures kept { OnErr result (self.new ≡ self.old) }
    {
        self.items.push(item)?;
        Ok(())
    }

    /// The items in order.
    pub fn as_slice(&self) -> &[T]
        ensures { result.now ≡ self.now }
    {
        self.items.as_slice()
    }

    /// The item at this index, from 0 on; none past the end.
    pub fn get(&self, index: usize) -> Option<&T>
        ensures value { option_copied result ≡ slice_get self.now index }
        ensures item { IsItemAt self.now index result }
    {
        self.items.as_slice().get(index)
    }

    /// An iterator over the items in order.
    pub fn iter(&self) -> Iter<'_, T>
        ensures rest { iter_rest result ≡ self.now }
        ensures len { length (iter_rest result) ≡ length self.now }
        ensures bound { length (iter_rest result) < 2 ^ 64 }
        ensures runs { IterYieldsInOrder T }
    {
        self.items.as_slice().iter()
    }

    /// How many items there are.
    pub fn len(&self) -> usize
        ensures { result ≡ length self.now }
    {
        self.items.len()
    }

    /// Whether there are no items.
    pub fn is_empty(&self) -> bool
        ensures { IsTrue result ↔ (self.now ≡ []) }
    {
        self.items.is_empty()
    }
}

impl<T: Copy> Items<T> {
    /// A copy of these items.
    pub fn from_slice(alloc: Global, items: &[T]) -> Result<Items<T>, NoMemory>
        ensures { IfOk result (λ copy. copy ≡ items.now) }
    {
        Ok(Items {
            items: Vec::from_slice(alloc, items)?,
        })
    }

    /// Appends items. After a refusal the list is as before.
    pub fn extend_from_slice(&mut self, items: &[T]) -> Result<(), NoMemory>
        ensures pushed { OnOk result (self.new ≡ self.old ++ items.now) }
        ensures kept { OnErr result (self.new ≡ self.old) }
    {
        self.items.extend_from_slice(items)?;
        Ok(())
    }
}

impl<'a, T> IntoIterator for &'a Items<T> {
    type Item = &'a T;

    type IntoIter = Iter<'a, T>;

    ghost into_iter_gives = { λ items r. (iter_rest r ≡ items.now) × (length (iter_rest r) < 2 ^ 64) × EveryRun (iter_steps {A = T}) (λ p. ItemsMapTo p (λ y. y.now) (iter_rest p.from)) };

    fn into_iter(self) -> Iter<'a, T> {
        self.iter()
    }
}

impl Items<u16> {
    /// The code units of an ASCII text.
    pub fn from_ascii(alloc: Global, text: &[u8]) -> Result<Units, NoMemory>
        ensures { IfOk result (λ units. units ≡ text.now) }
    {
        let mut units = Vec::new(alloc);
        for byte in text {
            units.push(u16::from(*byte))?;
        }
        Ok(Items::from_vec(units))
    }
}

/// Whether these code units are this ASCII text.
pub fn is_ascii_text(units: &[u16], text: &[u8]) -> bool
    ensures { result ≡ bytes_eq units.now text.now }
{
    match (units, text) {
        ([], []) => true,
        ([unit, units @ ..], [byte, text @ ..]) => {
            *unit == u16::from(*byte) && is_ascii_text(units, text)
        }
        _ => false,
    }
}
