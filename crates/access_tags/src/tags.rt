//! The tags of a memory's locations.

ghost use Rattle.std.specs.Prelude.{◌≡◌, ◌+◌, ◌<◌, ◌≤◌, ◌^◌, ◌++◌, ◌∷◌, [], ℕ, suc, ◌-◌, List, length, cond, map, nat_eq, true, false, not, ◌&&◌, ◌||◌, IfOk, OnOk};
ghost use Rattle.std.specs.List.{list_all};
ghost use Rattle.jvm_model.specs.declared.values.Location.{Location};
ghost use Rattle.jvm_model.specs.World.{same};
ghost use Rattle.access_tags.specs.Tag.{Tag, covers, ended, conflicts_at, is_new, noted, made_tag};
ghost use Rattle.access_tags.specs.{Counted.Counts, Counted.HaveCounted, HaveEnded.HaveEnded, Shelf.tag_in, Shelf.count, Within.room, Within.AreWithin, Unread.AreUnread};
ghost use Rattle.access_tags.specs.Numbering.{Numbering, are_alone, conflicts_in, is_alone, is_name, tag_at};
ghost use Rattle.access_tags.specs.Intervals.{part_at, parts, parts_of};

use crate::access_log::AccessLog;
use crate::cells::Cells;
use crate::conflict::{LocationKey, Touched};
use crate::interval::{Interval, Sort};
use crate::mark::Mark;
use crate::rows::Row;
use crate::table::Table;
use et_base::{Items, NoMemory};
use std::alloc::Global;
use std::mem;

/// How many parts an interval has at least that is looked at as a whole.
const MANY: u32 = 16;

/// The tags of statics, class states and the parts of objects, those of files and properties, what the running test touched
/// in the order of first touch, and whether it may have an exposed read.
#[derive(Drop)]
pub struct Tags {
    cells: Cells,
    named: Cells,
    touched: AccessLog,
    reads: bool,
    table: Table,
    ghost within: { AreWithin cells named (parts touched.intervals) },
    ghost unread: { reads ≡ false → AreUnread (tag_in cells) (tag_in named) (parts touched.intervals) },
    ghost counted: { Counts table [] },
}

impl Tags {
    ghost use Rattle.jvm_model.specs.declared.values.Touch.{Touch};
    ghost use Rattle.order_law.specs.Histories.{Touches};
    ghost use Rattle.access_tags.specs.Tag as tag;
    ghost use Rattle.access_tags.specs.Numbering.{located, with_cells, with_names, IsPlaced};
    ghost use Rattle.jvm_model.specs.declared.values.Location.TheVariants as place;
    ghost use Rattle.order_law.specs.Exposed.{exposed};
    ghost use Rattle.access_tags.specs.Stands.{HasTouched, Stands};
    ghost use Rattle.access_tags.specs.Written.{HaveWritten};
    ghost use Rattle.access_tags.specs.declared.conflict.LocationKey.TheVariants as spots;
    ghost use Rattle.access_tags.specs.Rows.{edges_at, shown_by, with_places};
    ghost use Rattle.access_tags.specs.declared.rows.Row.{Row as Found};
    ghost use Rattle.jvm_model.specs.declared.program.Program.{Program};

    /// No locations, before the first test.
    pub fn new(alloc: Global) -> Tags
        ensures cells { count result.cells ≡ 0 }
        ensures named { count result.named ≡ 0 }
        ensures stands { (n : Numbering) (T : Touches) → Stands n T 0 [] result }
    {
        Tags {
            cells: Cells::new(alloc),
            named: Cells::new(alloc),
            touched: AccessLog::new(alloc),
            reads: false,
            table: Table::none(alloc),
        }
    }

    /// So many locations more of statics, class states and parts of objects, which no test touched.
    #[tactic(auto, using(crate::proofs::Unread::kept_unread))]
    pub fn grow(&mut self, more: u64) -> Result<(), NoMemory>
        ensures cells { OnOk result (count self.new.cells ≡ count self.old.cells + more) }
        ensures room { OnOk result (count self.new.cells < 2 ^ 64) }
        ensures named { OnOk result (count self.new.named ≡ count self.old.named) }
        ensures stands { OnOk result ((n : Numbering) (T : Touches) (t : ℕ) (ts : List Touch) (ls : List Location) → length n.cells ≡ count self.old.cells → Stands n T t ts self.old
            → Stands (with_cells n ls) T t ts self.new) }
    {
        self.cells.grow(more)?;
        Ok(())
    }

    /// One more file or property, which no test touched.
    #[tactic(auto, using(crate::proofs::Unread::kept_unread))]
    pub fn grow_names(&mut self) -> Result<(), NoMemory>
        ensures cells { OnOk result (count self.new.cells ≡ count self.old.cells) }
        ensures named { OnOk result (count self.new.named ≡ count self.old.named + 1) }
        ensures room { OnOk result (count self.new.named < 2 ^ 64) }
        ensures stands { OnOk result ((n : Numbering) (T : Touches) (t : ℕ) (ts : List Touch) (ls : List Location) → length n.names ≡ count self.old.named → Stands n T t ts self.old
            → Stands (with_names n ls) T t ts self.new) }
    {
        self.named.grow(1)?;
        Ok(())
    }

    /// How many locations there are of the spot's sort. Takes no memory.
    fn room(&self, spot: LocationKey) -> u64
        ensures { result ≡ room self.now.cells self.now.named spot }
    {
        match spot {
            LocationKey::Named { .. } => self.named.len(),
            _ => self.cells.len(),
        }
    }

    /// How many locations there are of statics, class states and parts of objects. Takes no memory.
    pub fn len(&self) -> u64
        ensures { result ≡ count self.now.cells }
    {
        self.cells.len()
    }

    /// Whether one more touch of a part by the running test is known to leave its tag as it is; of files and properties it
    /// isn't. Takes no memory.
    #[inline(always)]
    pub fn covers(&self, spot: LocationKey, at: u64, write: bool) -> bool
        ensures { result ≡ true → covers write (tag_at (tag_in self.now.cells) (tag_in self.now.named) (record { spot = spot; at = at })).mark ≡ true }
    {
        match spot {
            LocationKey::Named { .. } => false,
            _ => at < self.cells.len() && self.cells.mark(at).covers(write),
        }
    }

    /// One more touch of a part by the running test. There is no memory for a part past the locations.
    #[inline(always)]
    pub fn note(&mut self, spot: LocationKey, at: u64, write: bool) -> Result<(), NoMemory>
        ensures cells { count self.new.cells ≡ count self.old.cells }
        ensures named { count self.new.named ≡ count self.old.named }
        ensures stands { OnOk result (HasTouched self.old self.new spot at write) }
    {
        if self.covers(spot, at, write) {
            return Ok(());
        }
        match (spot, write) {
            (LocationKey::Field { object, field }, false) => {
                self.note_field_read(object, field, at)
            }
            (LocationKey::Elem { object, index }, false) => self.note_elem_read(object, index, at),
            _ => self.note_change(spot, at, write),
        }
    }

    /// One more read of a field, which may change its tag. Its numbers are arguments, so that no location stands in memory.
    #[inline(never)]
    fn note_field_read(&mut self, object: u64, field: u32, at: u64) -> Result<(), NoMemory>
        ensures cells { count self.new.cells ≡ count self.old.cells }
        ensures named { count self.new.named ≡ count self.old.named }
        ensures stands { OnOk result (HasTouched self.old self.new (spots.Field object field) at false) }
    {
        self.note_first(LocationKey::Field { object, field }, at, false)
    }

    /// One more read of an element, which may change its tag. Its numbers are arguments, so that no location stands in memory.
    #[inline(never)]
    fn note_elem_read(&mut self, object: u64, index: u32, at: u64) -> Result<(), NoMemory>
        ensures cells { count self.new.cells ≡ count self.old.cells }
        ensures named { count self.new.named ≡ count self.old.named }
        ensures stands { OnOk result (HasTouched self.old self.new (spots.Elem object index) at false) }
    {
        self.note_first(LocationKey::Elem { object, index }, at, false)
    }

    /// One more touch of a part, which may change its tag.
    #[inline(never)]
    fn note_change(&mut self, spot: LocationKey, at: u64, write: bool) -> Result<(), NoMemory>
        ensures cells { count self.new.cells ≡ count self.old.cells }
        ensures named { count self.new.named ≡ count self.old.named }
        ensures stands { OnOk result (HasTouched self.old self.new spot at write) }
    {
        self.note_first(spot, at, write)
    }

    /// The same of a part that is most likely touched for the first time, as each one of a new object is.
    #[inline(always)]
    pub fn note_first(&mut self, spot: LocationKey, at: u64, write: bool) -> Result<(), NoMemory>
        ensures cells { count self.new.cells ≡ count self.old.cells }
        ensures named { count self.new.named ≡ count self.old.named }
        ensures stands { OnOk result (HasTouched self.old self.new spot at write) }
    {
        if at >= self.room(spot) {
            return Err(NoMemory {});
        }
        self.reads = reads_after(self.reads, write);
        let is_first = note(&mut self.cells, &mut self.named, spot, at, write);
        if is_first {
            self.touched.push(Touched { spot, at })?;
        }
        Ok(())
    }

    /// Writes of all elements of an array, of which the first one has the number `at`. Where the running test touched one of
    /// them before, and where the array or a number is past what there is, it answers no, and all is as before.
    pub fn note_elems(&mut self, object: u64, at: u64, many: u32) -> Result<bool, NoMemory>
        ensures cells { count self.new.cells ≡ count self.old.cells }
        ensures named { count self.new.named ≡ count self.old.named }
        ensures kept { IfOk result (λ b. b ≡ false → self.new ≡ self.old) }
        ensures stands { IfOk result (λ b. b ≡ true → HaveWritten self.old self.new object at many) }
    {
        let Some(interval) = Interval::elems(object, at, many) else {
            return Ok(false);
        };
        let first = interval.at as u64;
        let end = first + many as u64;
        if end > self.cells.len() || !self.cells.are_new(first, end) {
            return Ok(false);
        }
        self.cells.write_all(first, end);
        self.touched.push_interval(interval)?;
        Ok(true)
    }

    /// Adds the rows of the running test, with this number: they are its edges in the record's order, each with its first
    /// 8 locations.
    pub fn push_rows(&self, alloc: Global, test: u32, rows: &mut Items<Row>) -> Result<(), NoMemory>
        requires { 0 < test }
        ensures { OnOk result ((n : Numbering) (T : Touches) (t : ℕ) (ts : List Touch) (p : Program) (by : ℕ → ℕ × ℕ) → test ≡ suc t → T test ≡ ts → Stands n T t ts self.now
            → (xs : List Found) × (rows.new ≡ rows.old ++ xs) × (map (shown_by p by n.names test) xs ≡ map (with_places T test) (edges_at p T by test))) }
    {
        let mut table = Table::new(alloc, test)?;
        count_all(&self.cells, &self.named, &self.touched, &mut table)?;
        table.hand_on(rows)?;
        Ok(())
    }

    /// Whether each exposed read of the running test is of this static. Takes no memory.
    pub fn reads_static_alone(&self, field: u32) -> bool
        ensures { (n : Numbering) (T : Touches) (t : ℕ) (ts : List Touch) → Stands n T t ts self.now
            → result ≡ list_all (λ L. not (exposed ts L) || same L (place.Static field)) (tag.places ts) }
    {
        if !self.reads {
            return true;
        }
        for i in 0..self.touched.len() {
            if !reads_alone(&self.cells, &self.named, self.touched.get(i), field) {
                return false;
            }
        }
        true
    }

    /// The running test, with this number, ended: its rows are added as `push_rows` adds them.
    pub fn end_test(
        &mut self,
        alloc: Global,
        test: u32,
        rows: &mut Items<Row>,
    ) -> Result<(), NoMemory>
        requires { 0 < test }
        ensures cells { count self.new.cells ≡ count self.old.cells }
        ensures named { count self.new.named ≡ count self.old.named }
        ensures rows { OnOk result ((n : Numbering) (T : Touches) (t : ℕ) (ts : List Touch) (p : Program) (by : ℕ → ℕ × ℕ) → test ≡ suc t → T test ≡ ts → Stands n T t ts self.old
            → (xs : List Found) × (rows.new ≡ rows.old ++ xs) × (map (shown_by p by n.names test) xs ≡ map (with_places T test) (edges_at p T by test))) }
        ensures stands { OnOk result ((n : Numbering) (T : Touches) (t : ℕ) (ts : List Touch) → test ≡ suc t → T test ≡ ts → Stands n T t ts self.old → Stands n T test [] self.new) }
    {
        self.reads = true;
        let kept = mem::replace(&mut self.table, Table::none(alloc));
        let mut table = kept.until(test)?;
        end_all(
            &mut self.cells,
            &mut self.named,
            &self.touched,
            test,
            &mut table,
        )?;
        table.hand_on(rows)?;
        self.table = table;
        self.touched.clear();
        self.reads = false;
        Ok(())
    }
}

/// Whether there may be an exposed read after one more touch, where that is known of those before it.
#[inline(always)]
fn reads_after(reads: bool, write: bool) -> bool
    ensures { result ≡ (reads || not write) }
{
    reads || !write
}

/// One more touch of a part. Answers whether it is the first.
fn note(cells: &mut Cells, named: &mut Cells, spot: LocationKey, at: u64, write: bool) -> bool
    requires { at < room cells.old named.old spot }
    ensures first { result ≡ is_new (tag_at (tag_in cells.old) (tag_in named.old) (record { spot = spot; at = at })).mark }
    ensures cells_count { count cells.new ≡ count cells.old }
    ensures named_count { count named.new ≡ count named.old }
    ensures cells { (l : ℕ) → tag_in cells.new l
        ≡ cond (not (is_name spot) && nat_eq l at) (noted write (tag_in cells.old at)) (tag_in cells.old l) }
    ensures named { (l : ℕ) → tag_in named.new l
        ≡ cond (is_name spot && nat_eq l at) (noted write (tag_in named.old at)) (tag_in named.old l) }
{
    match spot {
        LocationKey::Named { .. } => named.note(at, write),
        _ => cells.note(at, write),
    }
}

/// Counts the conflicts at the part of an interval with an index; then what the test did there joins what earlier tests did.
#[inline(always)]
fn end_part(
    cells: &mut Cells,
    named: &mut Cells,
    interval: Interval,
    index: u32,
    test: u32,
    table: &mut Table,
) -> Result<(), NoMemory>
    requires order { interval.first ≤ index }
    requires within { let part = part_at interval index in
        part.at < room cells.old named.old part.spot }
    ensures cells_count { count cells.new ≡ count cells.old }
    ensures named_count { count named.new ≡ count named.old }
    ensures counted { let part = part_at interval index in
        let tag = tag_at (tag_in cells.old) (tag_in named.old) part in
        OnOk result (HaveCounted table.old table.new (conflicts_at part.spot tag)) }
    ensures cells { let part = part_at interval index in let old = tag_in cells.old in
        OnOk result ((l : ℕ) → tag_in cells.new l
        ≡ cond (not (is_name part.spot) && nat_eq l part.at) (ended test (old part.at)) (old l)) }
    ensures named { let part = part_at interval index in let old = tag_in named.old in
        OnOk result ((l : ℕ) → tag_in named.new l
        ≡ cond (is_name part.spot && nat_eq l part.at) (ended test (old part.at)) (old l)) }
{
    let at = interval.number(index);
    match interval.sort {
        Sort::Named => named.end_at(at, interval, index, test, table),
        _ => cells.end_at(at, interval, index, test, table),
    }
}

/// What a test did at a part.
fn mark(cells: &Cells, named: &Cells, part: Touched) -> Mark
    requires { part.at < room cells.now named.now part.spot }
    ensures { result ≡ (tag_at (tag_in cells.now) (tag_in named.now) part).mark }
{
    match part.spot {
        LocationKey::Named { .. } => named.mark(part.at),
        _ => cells.mark(part.at),
    }
}

/// Whether a test has no exposed read of a part, or the part is this static.
fn reads_alone_at(cells: &Cells, named: &Cells, part: Touched, field: u32) -> bool
    requires { part.at < room cells.now named.now part.spot }
    ensures { result ≡ is_alone (tag_in cells.now) (tag_in named.now) field part }
{
    let mark = mark(cells, named, part);
    !mark.exposed || part.spot.is_static(field)
}

/// Whether each exposed read of a test among the parts of an interval is of this static.
#[tactic(auto, using(crate::proofs::Spanned::all_to))]
fn reads_alone(cells: &Cells, named: &Cells, interval: Interval, field: u32) -> bool
    requires within { AreWithin cells.now named.now (parts_of interval) }
    requires order { interval.first ≤ interval.end }
    ensures { result ≡ are_alone (tag_in cells.now) (tag_in named.now) field (parts_of interval) }
{
    for index in interval.first..interval.end {
        if !reads_alone_at(cells, named, interval.part(index), field) {
            return false;
        }
    }
    true
}

/// Counts the conflicts at the part of an interval with an index.
#[inline(always)]
fn count_part(
    cells: &Cells,
    named: &Cells,
    interval: Interval,
    index: u32,
    table: &mut Table,
) -> Result<(), NoMemory>
    requires order { interval.first ≤ index }
    requires within { let part = part_at interval index in
        part.at < room cells.now named.now part.spot }
    ensures { let part = part_at interval index in
        let tag = tag_at (tag_in cells.now) (tag_in named.now) part in
        OnOk result (HaveCounted table.old table.new (conflicts_at part.spot tag)) }
{
    let at = interval.number(index);
    match interval.sort {
        Sort::Named => named.count_at(at, interval, index, table),
        _ => cells.count_at(at, interval, index, table),
    }
}

/// Whether it is known that no test which ended touched a part of an interval; of files and properties it isn't.
#[inline(always)]
fn are_fresh(cells: &Cells, interval: Interval) -> bool
    ensures { result ≡ true → (d : ℕ → Tag) → conflicts_in (tag_in cells.now) d (parts_of interval) ≡ [] }
{
    if interval.sort.is_named() {
        return false;
    }
    cells.is_fresh(interval.at as u64)
}

/// Counts the conflicts at the parts of an interval.
fn count_interval(
    cells: &Cells,
    named: &Cells,
    interval: Interval,
    table: &mut Table,
) -> Result<(), NoMemory>
    requires within { AreWithin cells.now named.now (parts_of interval) }
    requires order { interval.first ≤ interval.end }
    ensures { OnOk result (HaveCounted table.old table.new
        (conflicts_in (tag_in cells.now) (tag_in named.now) (parts_of interval))) }
{
    if are_fresh(cells, interval) {
        return Ok(());
    }
    for index in interval.first..interval.end {
        count_part(cells, named, interval, index, table)?;
    }
    Ok(())
}

/// Counts the conflicts at the parts that a test touched.
fn count_all(
    cells: &Cells,
    named: &Cells,
    touched: &AccessLog,
    table: &mut Table,
) -> Result<(), NoMemory>
    requires { AreWithin cells.now named.now (parts touched.now.intervals) }
    ensures { OnOk result (HaveCounted table.old table.new
        (conflicts_in (tag_in cells.now) (tag_in named.now) (parts touched.now.intervals))) }
{
    for i in 0..touched.len() {
        count_interval(cells, named, touched.get(i), table)?;
    }
    Ok(())
}

/// Counts the conflicts at the parts of an interval, and what a test did there joins what earlier tests did.
fn end_interval(
    cells: &mut Cells,
    named: &mut Cells,
    interval: Interval,
    test: u32,
    table: &mut Table,
) -> Result<(), NoMemory>
    requires within { AreWithin cells.old named.old (parts_of interval) }
    requires order { interval.first ≤ interval.end }
    ensures cells_count { count cells.new ≡ count cells.old }
    ensures named_count { count named.new ≡ count named.old }
    ensures later { OnOk result (table.new.later ≡ table.old.later) }
    ensures ended { OnOk result (HaveEnded test (tag_in cells.old) (tag_in named.old)
        (tag_in cells.new) (tag_in named.new) table.old table.new (parts_of interval)) }
{
    if is_made(cells, interval) {
        return cells.end_made(interval.at as u64, interval.number(interval.end), test);
    }
    for index in interval.first..interval.end {
        end_part(cells, named, interval, index, test, table)?;
    }
    Ok(())
}

/// Whether the running test wrote each part of an interval of many before any test touched it; of files and properties it isn't.
fn is_made(cells: &Cells, interval: Interval) -> bool
    requires { interval.first ≤ interval.end }
    ensures named { result ≡ true → (i : ℕ) → is_name (part_at interval i).spot ≡ false }
    ensures many { result ≡ true → interval.first < interval.end }
    ensures within { result ≡ true → interval.at + (interval.end - interval.first) ≤ count cells.now }
    ensures made { result ≡ true → (i : ℕ) → interval.first ≤ i → i < interval.end
        → tag_in cells.now (part_at interval i).at ≡ made_tag }
{
    let end = interval.number(interval.end);
    if interval.sort.is_named() || interval.end - interval.first < MANY || end > cells.len() {
        return false;
    }
    cells.are_made(interval.at as u64, end)
}

/// Counts the conflicts at the parts that a test touched, and what it did there joins what earlier tests did.
fn end_all(
    cells: &mut Cells,
    named: &mut Cells,
    touched: &AccessLog,
    test: u32,
    table: &mut Table,
) -> Result<(), NoMemory>
    requires { AreWithin cells.old named.old (parts touched.now.intervals) }
    ensures cells_count { count cells.new ≡ count cells.old }
    ensures named_count { count named.new ≡ count named.old }
    ensures later { OnOk result (table.new.later ≡ table.old.later) }
    ensures ended { OnOk result (HaveEnded test (tag_in cells.old) (tag_in named.old)
        (tag_in cells.new) (tag_in named.new) table.old table.new (parts touched.now.intervals)) }
{
    for i in 0..touched.len() {
        end_interval(cells, named, touched.get(i), test, table)?;
    }
    Ok(())
}
