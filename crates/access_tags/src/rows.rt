//! The conflicts of a test by the earlier test and the kind.

ghost use Rattle.std.specs.Prelude.{◌≡◌, ◌+◌, ◌*◌, ◌<◌, ◌≤◌, ◌++◌, ◌∷◌, [], ℕ, List, length, get_or, IfOk, OnOk};
ghost use Rattle.access_tags.specs.Tag.{kind_number};

use crate::conflict::{Conflict, LocationKey};
use crate::spots::Spots;
use et_base::{Items, NoMemory};
use order_law::EdgeKind;
use std::alloc::Global;
use std::mem;

/// How many locations a row shows at most.
const SHOWN: u32 = 8;

/// The conflicts of one kind of a test with an earlier one: how many locations they are at, and the first 8 of these in
/// the order in which the test touched them first.
#[derive(Drop)]
pub struct Row {
    pub kind: EdgeKind,
    pub earlier: u32,
    pub count: u32,
    pub spots: Spots,
}

impl Row {
    ghost use Rattle.order_law.specs.declared.edges.EdgeKind.{EdgeKind as Kind};
    ghost use Rattle.access_tags.specs.declared.conflict.LocationKey.{LocationKey as Part};
    ghost use Rattle.access_tags.specs.declared.conflict.Conflict.{Conflict as Found};
    ghost use Rattle.access_tags.specs.Rows.{row_with, row_of, rows_between, HasRows, IsTable, key};

    /// No conflicts yet.
    fn none(kind: EdgeKind, earlier: u32) -> Row
        ensures { result ≡ row_with kind earlier [] }
    {
        Row {
            kind,
            earlier,
            count: 0,
            spots: Spots::new(),
        }
    }

    /// One more location.
    #[inline(always)]
    fn add(&mut self, alloc: Global, spot: LocationKey) -> Result<(), NoMemory>
        ensures { OnOk result ((k : Kind) (u : ℕ) (xs : List Part) → self.old ≡ row_with k u xs → self.new ≡ row_with k u (xs ++ spot ∷ [])) }
    {
        let Some(count) = self.count.checked_add(1) else {
            return Err(NoMemory {});
        };
        if self.count < SHOWN {
            // a copy, so that the place stays in registers where the row shows no more
            let shown = spot;
            self.spots.push(alloc, shown)?;
        }
        self.count = count;
        Ok(())
    }

    /// Rows of no conflicts, of each kind and each test before this one.
    pub fn table(alloc: Global, later: u32) -> Result<Vec<Row>, NoMemory>
        ensures len { IfOk result (λ rows. length rows.items ≡ 3 * later) }
        ensures table { IfOk result (λ rows. IsTable later [] rows.items) }
    {
        let mut rows = Vec::with_capacity(alloc, 3 * later as usize)?;
        Row::grow(&mut rows, 0, later)?;
        Ok(rows)
    }

    /// Rows of no conflicts more, of each kind and each test from `first` and before `later`, behind those of the tests
    /// before `first`.
    pub fn grow(rows: &mut Vec<Row>, first: u32, later: u32) -> Result<(), NoMemory>
        requires le { first ≤ later }
        requires len { length rows.old.items ≡ 3 * first }
        ensures len { OnOk result (length rows.new.items ≡ 3 * later) }
        ensures table { OnOk result (IsTable first [] rows.old.items → IsTable later [] rows.new.items) }
    {
        for earlier in first..later {
            rows.push(Row::none(EdgeKind::Raw, earlier))?;
            rows.push(Row::none(EdgeKind::Waw, earlier))?;
            rows.push(Row::none(EdgeKind::War, earlier))?;
        }
        Ok(())
    }

    /// One more conflict, which is left out where it is with no earlier test.
    #[inline(always)]
    pub fn count(
        rows: &mut Vec<Row>,
        alloc: Global,
        conflict: Conflict<LocationKey>,
        later: u32,
    ) -> Result<(), NoMemory>
        requires { length rows.old.items ≡ 3 * later }
        ensures len { length rows.new.items ≡ length rows.old.items }
        ensures table { OnOk result ((hs : List (Found Part)) → IsTable later hs rows.old.items → IsTable later (hs ++ conflict ∷ []) rows.new.items) }
    {
        if conflict.earlier >= later {
            return Ok(());
        }
        let row = &mut rows[3 * conflict.earlier as usize + number(conflict.kind)];
        row.add(alloc, conflict.place)?;
        Ok(())
    }

    /// Moves a row that has a location to the end of these.
    fn hand_on(&mut self, rows: &mut Items<Row>) -> Result<(), NoMemory>
        ensures rows { OnOk result ((k : Kind) (u : ℕ) (xs : List Part) → self.old ≡ row_with k u xs → rows.new ≡ rows.old ++ row_of k u xs) }
        ensures none { OnOk result ((k : Kind) (u : ℕ) (xs : List Part) → self.old ≡ row_with k u xs → self.new ≡ row_with k u []) }
    {
        if self.count == 0 {
            return Ok(());
        }
        let none = Row::none(self.kind, self.earlier);
        rows.push(mem::replace(self, none))
    }

    /// Leaves out the conflicts with the test that has the number 0.
    pub fn clear_first(table: &mut Vec<Row>)
        requires { 2 < length table.old.items }
        ensures len { length table.new.items ≡ length table.old.items }
        ensures later { (i : ℕ) (d : Row) → 3 ≤ i → get_or table.new.items i d ≡ get_or table.old.items i d }
        ensures none { HasRows 0 [] table.new.items }
    {
        table[0] = Row::none(EdgeKind::Raw, 0);
        table[1] = Row::none(EdgeKind::Waw, 0);
        table[2] = Row::none(EdgeKind::War, 0);
    }

    /// Moves the rows of an earlier test that have a location to the end of these.
    pub fn hand_three_on(
        table: &mut Vec<Row>,
        earlier: u32,
        rows: &mut Items<Row>,
    ) -> Result<(), NoMemory>
        requires { 3 * earlier + 2 < length table.old.items }
        ensures len { length table.new.items ≡ length table.old.items }
        ensures later { OnOk result ((i : ℕ) (d : Row) → 3 * (earlier + 1) ≤ i → get_or table.new.items i d ≡ get_or table.old.items i d) }
        ensures before { OnOk result ((i : ℕ) (d : Row) → i < 3 * earlier → get_or table.new.items i d ≡ get_or table.old.items i d) }
        ensures rows { OnOk result ((hs : List (Found Part)) → HasRows earlier hs table.old.items → rows.new ≡ rows.old ++ rows_between earlier hs) }
        ensures none { OnOk result ((hs : List (Found Part)) → HasRows earlier hs table.old.items → HasRows earlier [] table.new.items) }
    {
        let first = 3 * earlier as usize;
        table[first].hand_on(rows)?;
        table[first + 1].hand_on(rows)?;
        table[first + 2].hand_on(rows)?;
        Ok(())
    }
}

/// The place of a kind among the three.
fn number(kind: EdgeKind) -> usize
    ensures { result ≡ kind_number kind }
{
    match kind {
        EdgeKind::Raw => 0,
        EdgeKind::Waw => 1,
        EdgeKind::War => 2,
    }
}
