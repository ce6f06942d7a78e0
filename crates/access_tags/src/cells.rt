//! The tags of numbered locations.

ghost use Rattle.std.specs.Prelude.{◌≡◌, ◌+◌, ◌<◌, ◌≤◌, ◌^◌, ℕ, [], ◌∷◌, ◌++◌, length, get_or, map, reverse, cond, nat_eq, IfOk, OnOk, OnErr, true};
ghost use Rattle.order_law.specs.declared.edges.EdgeKind.TheVariants as kinds;
ghost use Rattle.access_tags.specs.Tag.{conflict, conflicts_at, no_mark, with_writer};
ghost use Rattle.access_tags.specs.Counted.{HaveCounted};
ghost use Rattle.access_tags.specs.Intervals.{part_at};
ghost use Rattle.access_tags.specs.Cells.{AreCells, AreDown, AreFresh, IsLinked, chain, no_past, tag_by};

use crate::conflict::{Conflict, LocationKey};
use crate::interval::Interval;
use crate::mark::{Mark, Past, Reader};
use crate::table::Table;
use cell_region::Region;
use et_base::NoMemory;
use order_law::EdgeKind;
use std::alloc::Global;

/// A tag each for locations that are numbered from 0: what the running test did there, the last writer, and the readers
/// since, as a chain through one region of readers.
#[derive(Drop)]
pub struct Cells {
    marks: Region<Mark>,
    pasts: Region<Past>,
    readers: Region<Reader>,
    ghost sound: { AreCells pasts readers marks },
}

impl Cells {
    ghost use Rattle.access_tags.specs.Tag.{no_tag, noted, ended, is_new, made_tag, with_changed};
    ghost use Rattle.access_tags.specs.Shelf.{tag_in, count};

    /// No locations. It takes no memory until it grows.
    pub fn new(alloc: Global) -> Cells
        ensures count { count result ≡ 0 }
        ensures tags { (l : ℕ) → tag_in result l ≡ no_tag }
    {
        Cells {
            marks: Region::new(alloc),
            pasts: Region::new(alloc),
            readers: Region::new(alloc),
        }
    }

    /// How many locations there are.
    pub fn len(&self) -> u64
        ensures { result ≡ count self.now }
    {
        self.marks.len()
    }

    /// What the running test did at a location.
    #[inline(always)]
    pub fn mark(&self, at: u64) -> Mark
        requires { at < count self.now }
        ensures { result ≡ (tag_in self.now at).mark }
    {
        self.marks.get(at)
    }

    /// So many locations more, which no test touched.
    #[tactic(auto, using(crate::proofs::Grown::more_cells, crate::proofs::Grown::more_look))]
    pub fn grow(&mut self, more: u64) -> Result<(), NoMemory>
        ensures count { OnOk result (count self.new ≡ count self.old + more) }
        ensures kept { count self.old ≤ count self.new }
        ensures room { OnOk result (count self.new < 2 ^ 64) }
        ensures tags { (l : ℕ) → tag_in self.new l ≡ tag_in self.old l }
    {
        self.marks.grow(more, Mark::NONE)?;
        Ok(())
    }

    /// Whether it is known that no test which ended touched this location or one behind it.
    #[inline(always)]
    pub fn is_fresh(&self, at: u64) -> bool
        ensures { result ≡ true → AreFresh (tag_in self.now) at }
    {
        at >= self.pasts.len()
    }

    /// One more touch of a location by the running test. Answers whether it is the first.
    #[inline(always)]
    #[tactic(auto, using(crate::proofs::Settle::marked_look, crate::proofs::Settle::marked_cells, crate::proofs::Stood::covered_there, crate::proofs::Stood::covered_new))]
    pub fn note(&mut self, at: u64, write: bool) -> bool
        requires { at < count self.old }
        ensures first { result ≡ is_new (tag_in self.old at).mark }
        ensures count { count self.new ≡ count self.old }
        ensures tags { (l : ℕ) → tag_in self.new l
            ≡ cond (nat_eq l at) (noted write (tag_in self.old at)) (tag_in self.old l) }
    {
        let old = self.marks.get(at);
        if old.covers(write) {
            return false;
        }
        self.marks.set(at, old.after(write));
        old.is_new()
    }

    /// Whether the running test touched none of the locations from a number up to but not another.
    pub fn are_new(&self, first: u64, end: u64) -> bool
        requires { end ≤ count self.now }
        ensures { result ≡ true → (l : ℕ) → first ≤ l → l < end → is_new (tag_in self.now l).mark ≡ true }
    {
        are_marked(&self.marks, first, end, Mark::NONE)
    }

    /// The running test writes the locations from a number up to but not another, none of which it touched before.
    #[tactic(auto, using(crate::proofs::Filled::written_all, crate::proofs::Filled::marks_cells))]
    pub fn write_all(&mut self, first: u64, end: u64)
        requires order { first ≤ end }
        requires within { end ≤ count self.old }
        requires new { (l : ℕ) → first ≤ l → l < end → is_new (tag_in self.old l).mark ≡ true }
        ensures count { count self.new ≡ count self.old }
        ensures tags { (l : ℕ) → tag_in self.new l ≡ with_changed (noted true) (tag_in self.old) first end l }
    {
        self.marks.fill(first, end, Mark::WRITTEN);
    }

    /// Whether the running test wrote each location from a number up to but not another before any test touched it.
    pub fn are_made(&self, first: u64, end: u64) -> bool
        requires { end ≤ count self.now }
        ensures { result ≡ true → (l : ℕ) → first ≤ l → l < end → tag_in self.now l ≡ made_tag }
    {
        are_marked(&self.marks, first, end, Mark::WRITTEN)
            && are_untouched(&self.pasts, first, end.min(self.pasts.len()))
    }

    /// The running test, with this number, ended: what it did at the locations from a number up to but not another, each of
    /// which it wrote before any test touched it, joins what earlier tests did.
    #[tactic(auto, using(crate::proofs::Filled::ended_all, crate::proofs::Filled::ended_cells))]
    pub fn end_made(&mut self, first: u64, end: u64, test: u32) -> Result<(), NoMemory>
        requires order { first < end }
        requires within { end ≤ count self.old }
        requires made { (l : ℕ) → first ≤ l → l < end → tag_in self.old l ≡ made_tag }
        ensures count { count self.new ≡ count self.old }
        ensures tags { OnOk result ((l : ℕ) → tag_in self.new l
            ≡ with_changed (ended test) (tag_in self.old) first end l) }
    {
        self.reach(end - 1)?;
        self.marks.fill(first, end, Mark::NONE);
        let past = Past {
            writer: test,
            readers: 0,
        };
        self.pasts.fill(first, end, past);
        Ok(())
    }

    /// Counts the conflicts at a location, which is shown as the part of an interval with an index.
    #[inline(always)]
    pub fn count_at(
        &self,
        at: u64,
        interval: Interval,
        index: u32,
        table: &mut Table,
    ) -> Result<(), NoMemory>
        requires { at < count self.now }
        ensures { let place = (part_at interval index).spot in let tag = tag_in self.now at in
            OnOk result (HaveCounted table.old table.new (conflicts_at place tag)) }
    {
        if at >= self.pasts.len() {
            return Ok(());
        }
        let past = self.pasts.get(at);
        let mark = self.marks.get(at);
        count_past(table, &self.readers, mark, past, interval, index)
    }

    /// The running test, with this number, ended: its conflicts at a location, which is shown as the part of an interval with
    /// an index, are counted, and what it did there joins what earlier tests did.
    #[inline(always)]
    pub fn end_at(
        &mut self,
        at: u64,
        interval: Interval,
        index: u32,
        test: u32,
        table: &mut Table,
    ) -> Result<(), NoMemory>
        requires { at < count self.old }
        ensures counted { let place = (part_at interval index).spot in let tag = tag_in self.old at in
            OnOk result (HaveCounted table.old table.new (conflicts_at place tag)) }
        ensures count { count self.new ≡ count self.old }
        ensures tags { OnOk result ((l : ℕ) → tag_in self.new l
            ≡ cond (nat_eq l at) (ended test (tag_in self.old at)) (tag_in self.old l)) }
    {
        self.reach(at)?;
        let mark = self.marks.get(at);
        let past = self.pasts.get(at);
        count_past(table, &self.readers, mark, past, interval, index)?;
        self.settle(at, test, mark, past)?;
        Ok(())
    }

    /// Makes room for what tests that ended did at a location: where there is none, for all locations.
    #[inline(always)]
    #[tactic(auto, using(crate::proofs::Grown::more_pasts, crate::proofs::Grown::past_look))]
    fn reach(&mut self, at: u64) -> Result<(), NoMemory>
        requires { at < count self.old }
        ensures room { OnOk result (at < length self.new.pasts) }
        ensures count { count self.new ≡ count self.old }
        ensures tags { OnOk result ((l : ℕ) → tag_in self.new l ≡ tag_in self.old l) }
    {
        let len = self.pasts.len();
        if at < len {
            return Ok(());
        }
        self.pasts.grow(self.marks.len() - len, Past::NONE)?;
        Ok(())
    }

    /// What the running test did at a location joins what earlier tests did there, where there is room for it: its mark
    /// there is `mark`, and what the earlier ones did `past`.
    #[inline(always)]
    #[tactic(auto, using(crate::proofs::Settle::written_look, crate::proofs::Settle::exposed_look, crate::proofs::Settle::clear_look, crate::proofs::Settle::written_cells, crate::proofs::Settle::exposed_cells, crate::proofs::Settle::marked_cells))]
    fn settle(&mut self, at: u64, test: u32, mark: Mark, past: Past) -> Result<(), NoMemory>
        requires room { at < length self.old.pasts }
        requires there { at < count self.old }
        requires mark { mark ≡ get_or self.old.marks at no_mark }
        requires past { past ≡ get_or self.old.pasts at no_past }
        ensures count { count self.new ≡ count self.old }
        ensures tags { OnOk result ((l : ℕ) → tag_in self.new l
            ≡ cond (nat_eq l at) (ended test (tag_in self.old at)) (tag_in self.old l)) }
    {
        self.marks.set(at, Mark::NONE);
        if mark.written {
            self.pasts.set(
                at,
                Past {
                    writer: test,
                    readers: 0,
                },
            );
            return Ok(());
        }
        if mark.exposed {
            let reader = Reader {
                test,
                next: past.readers,
            };
            let readers = link(&mut self.readers, reader)?;
            self.pasts.set(
                at,
                Past {
                    writer: past.writer,
                    readers,
                },
            );
            return Ok(());
        }
        Ok(())
    }
}

/// Whether all marks from a place up to but not another are this one.
fn are_marked(marks: &Region<Mark>, first: u64, end: u64, mark: Mark) -> bool
    requires { end ≤ length marks.now }
    ensures { result ≡ true → (l : ℕ) → first ≤ l → l < end → get_or marks.now l no_mark ≡ mark }
{
    let mut at = first;
    while at < end {
        let run = marks.run(at, end);
        if !all_are(run, mark) {
            return false;
        }
        at += run.len() as u64;
    }
    true
}

/// Whether all marks are this one.
fn all_are(marks: &[Mark], mark: Mark) -> bool
    ensures { result ≡ true → (i : ℕ) → i < length marks.now → get_or marks.now i no_mark ≡ mark }
{
    for i in 0..marks.len() {
        if marks[i] != mark {
            return false;
        }
    }
    true
}

/// Whether no test that ended touched the locations from a place up to but not another.
fn are_untouched(pasts: &Region<Past>, first: u64, end: u64) -> bool
    requires { end ≤ length pasts.now }
    ensures { result ≡ true → (l : ℕ) → first ≤ l → l < end → get_or pasts.now l no_past ≡ no_past }
{
    let mut at = first;
    while at < end {
        let run = pasts.run(at, end);
        if !all_none(run) {
            return false;
        }
        at += run.len() as u64;
    }
    true
}

/// Whether no test wrote or read where these pasts are.
fn all_none(pasts: &[Past]) -> bool
    ensures { result ≡ true → (i : ℕ) → i < length pasts.now → get_or pasts.now i no_past ≡ no_past }
{
    for i in 0..pasts.len() {
        if !pasts[i].is_none() {
            return false;
        }
    }
    true
}

/// Counts the conflicts at the part of an interval with an index, of a test that left this mark there with the tests before
/// it. The part is made only where there are such tests.
#[inline(always)]
fn count_past(
    table: &mut Table,
    readers: &Region<Reader>,
    mark: Mark,
    past: Past,
    interval: Interval,
    index: u32,
) -> Result<(), NoMemory>
    requires down { AreDown readers.now }
    requires first { past.readers ≤ length readers.now }
    ensures { let place = (part_at interval index).spot in
        let tag = tag_by past (reverse readers.now) mark in
        OnOk result (HaveCounted table.old table.new (conflicts_at place tag)) }
{
    if past.is_none() {
        return Ok(());
    }
    let place = interval.spot(index);
    if mark.exposed {
        count_writer(table, EdgeKind::Raw, place, past.writer)?;
    }
    if mark.written {
        count_writer(table, EdgeKind::Waw, place, past.writer)?;
        // a copy, so that the place stays in registers where nothing was written
        let shown = place;
        count_readers(table, readers, past.readers, shown)?;
    }
    Ok(())
}

/// Counts the conflict with a location's last writer, where there is one.
#[inline(always)]
fn count_writer(
    table: &mut Table,
    kind: EdgeKind,
    place: LocationKey,
    writer: u32,
) -> Result<(), NoMemory>
    ensures { OnOk result (HaveCounted table.old table.new (with_writer kind place writer)) }
{
    if writer == 0 {
        return Ok(());
    }
    table.add(Conflict {
        kind,
        earlier: writer,
        place,
    })
}

/// Counts the conflicts with the readers of a chain, which begins at this number.
#[inline(never)]
fn count_readers(
    table: &mut Table,
    readers: &Region<Reader>,
    first: u32,
    place: LocationKey,
) -> Result<(), NoMemory>
    requires down { AreDown readers.now }
    requires first { first ≤ length readers.now }
    ensures { OnOk result (HaveCounted table.old table.new
        (map (conflict kinds.War place) (chain (reverse readers.now) first))) }
{
    let mut at = first;
    while at > 0 {
        let reader = readers.get(at as u64 - 1);
        table.add(Conflict {
            kind: EdgeKind::War,
            earlier: reader.test,
            place,
        })?;
        at = reader.next;
    }
    Ok(())
}

/// Answers the number of a reader, which is added where it isn't the last of them: the locations that one test reads behind
/// the same reader share it. More than 2^32 - 1 readers are refused as want of memory, and after a refusal the readers are
/// as before.
#[tactic(auto, using(crate::proofs::Settle::linked_new, crate::proofs::Settle::linked_last))]
fn link(readers: &mut Region<Reader>, reader: Reader) -> Result<u32, NoMemory>
    requires down { AreDown readers.old }
    requires next { reader.next ≤ length readers.old }
    requires few { length readers.old < 2 ^ 32 }
    ensures linked { IfOk result (λ n. IsLinked readers.old reader readers.new n) }
    ensures kept { OnErr result (readers.new ≡ readers.old) }
{
    let last = readers.len();
    if last > 0 && readers.get(last - 1) == reader {
        return Ok(last as u32);
    }
    if last >= u32::MAX as u64 {
        return Err(NoMemory {});
    }
    readers.push(reader)?;
    Ok(last as u32 + 1)
}
