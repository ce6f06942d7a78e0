//! The conflicts of a test, counted by the earlier test and the kind.

ghost use Rattle.std.specs.Prelude.{◌≡◌, ◌*◌, ◌<◌, ◌++◌, ◌∷◌, [], List, length, IfOk, OnOk};
ghost use Rattle.access_tags.specs.Rows.{rows_to};

use crate::conflict::{Conflict, LocationKey};
use crate::rows::Row;
use et_base::{Items, NoMemory};
use std::alloc::Global;

/// A row for each kind and each test before the one with the number `later`.
#[derive(Drop)]
pub struct Table {
    later: u32,
    rows: Vec<Row>,
    alloc: Global,
    ghost full: { length rows.items ≡ 3 * later },
}

impl Table {
    ghost use Rattle.access_tags.specs.declared.conflict.LocationKey.{LocationKey as Part};
    ghost use Rattle.access_tags.specs.declared.conflict.Conflict.{Conflict as Found};
    ghost use Rattle.access_tags.specs.Counted.{Counts, HaveCounted};

    /// No conflicts of a test with this number.
    pub fn new(alloc: Global, later: u32) -> Result<Table, NoMemory>
        ensures later { IfOk result (λ x. x.later ≡ later) }
        ensures counts { IfOk result (λ x. Counts x []) }
    {
        Ok(Table {
            later,
            rows: Row::table(alloc, later)?,
            alloc,
        })
    }

    /// No conflicts of the test with the number 0. Takes no memory.
    pub fn none(alloc: Global) -> Table
        ensures { Counts result [] }
    {
        Table {
            later: 0,
            rows: Vec::new(alloc),
            alloc,
        }
    }

    /// No conflicts of a test with this number, in the memory of these where it isn't before theirs.
    pub fn until(self, later: u32) -> Result<Table, NoMemory>
        requires { Counts self [] }
        ensures later { IfOk result (λ x. x.later ≡ later) }
        ensures counts { IfOk result (λ x. Counts x []) }
    {
        if later < self.later {
            return Table::new(self.alloc, later);
        }
        let Table {
            later: first,
            mut rows,
            alloc,
        } = self;
        Row::grow(&mut rows, first, later)?;
        Ok(Table { later, rows, alloc })
    }

    /// One more conflict, which is left out where it is with no earlier test.
    #[inline(always)]
    pub fn add(&mut self, conflict: Conflict<LocationKey>) -> Result<(), NoMemory>
        ensures { OnOk result (HaveCounted self.old self.new (conflict ∷ [])) }
    {
        Row::count(&mut self.rows, self.alloc, conflict, self.later)
    }

    /// Moves the rows that have a location to the end of these, by the earlier test and then the kind. No conflicts stay.
    pub fn hand_on(&mut self, rows: &mut Items<Row>) -> Result<(), NoMemory>
        requires { 0 < self.old.later }
        ensures rows { OnOk result ((hs : List (Found Part)) → Counts self.old hs
            → rows.new ≡ rows.old ++ rows_to self.old.later hs) }
        ensures none { OnOk result ((hs : List (Found Part)) → Counts self.old hs → Counts self.new []) }
    {
        if rows.is_empty() {
            *rows = Items::with_capacity(self.alloc, self.filled())?;
        }
        for earlier in 1..self.later {
            Row::hand_three_on(&mut self.rows, earlier, rows)?;
        }
        Row::clear_first(&mut self.rows);
        Ok(())
    }

    /// How many rows have a location.
    fn filled(&self) -> usize {
        self.rows.iter().filter(|row| row.count > 0).count()
    }
}
