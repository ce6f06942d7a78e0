//! The memory of a detection run: it stands for the world, and keeps beside each location who wrote and read it.

ghost use Rattle.std.specs.Prelude.{◌≡◌, ℕ, ◌+◌, ◌<◌, ◌++◌, List, [], ◌∷◌, length, get_or, slice_get, false, true, None, Some, IfOk, OnOk};
ghost use Rattle.jvm_model.specs.declared.values.Touch.{Touch};
ghost use Rattle.vm_mem.specs.Stores.{place_in};
ghost use Rattle.jvm_model.specs.Linked.{Linked};
ghost use Rattle.jvm_model.specs.Suite as suite;
ghost use Rattle.order_law.specs.{Histories.Touches, OwnRecord.edges_in, Pairing.PairedList, Reach.IsReachIn, RecordForm.is_place_text, Walk.IsShownIn};
ghost use Rattle.std.specs.List.{list_all};
ghost use Rattle.vm_mem.specs.Trace.{Trace, Extends, empty_trace};
ghost use Rattle.access_tags.specs.Followed.{Follows, HasNoted, IsEnded, IsNamed};
ghost use Rattle.access_tags.specs.{HasDiscovered.HasDiscovered, Numbering.Numbering, Numbering.located, Paths.HaveRowsWalks, Settled.reads_out_alone};
ghost use Rattle.access_tags.specs.{Shelf.count, Stands.Stands, Worlds.states_of, Worlds.statics_of};
ghost use Rattle.access_tags.specs.Ran.{HaveWalks, kinds_in, owner_by, trace_to, touched_by};

use crate::conflict::LocationKey;
use crate::discovery_tree::DiscoveryTree;
use crate::ended::Ended;
use crate::found::{edges_of, made_of, shown_of_edges};
use crate::heads::Heads;
use crate::names::Names;
use crate::noting::{elements, note_made, note_part};
use crate::numbers::Numbers;
use crate::reaches::reaches_of;
use crate::rows::Row;
use crate::tags::Tags;
use et_base::{Items, NoMemory, Units};
use jvm_model::{Head, InitState, Kind, Program, Value};
use order_law::{Edge, OUT, Reach, Shown};
use sim_store::Part;
use std::alloc::Global;
use vm_heap::RegionMemory;
use vm_mem::Memory;

/// The world, and beside each location the last test that wrote it and the tests that read it since. It follows the tests
/// that run on it, and with `WALKS` keeps how they came to the objects at places of conflict. More than 2^32 - 1 readers,
/// each of one or more locations, or 2^32 names of files and properties are refused as want of memory.
#[derive(Drop)]
pub struct TaggedMemory<const WALKS: bool> {
    memory: RegionMemory,
    tags: Tags,
    numbers: Numbers,
    names: Names,
    discovery_tree: DiscoveryTree,
    heads: Heads,
    ended: Items<Ended>,
    test: u32,
    alloc: Global,
}

impl<const WALKS: bool> TaggedMemory<WALKS> {
    ghost use Rattle.order_law.specs.declared.records.Reach.{Reach as Reached};
    ghost use Rattle.jvm_model.specs.declared.values.Kind.{Kind as KindOf};
    ghost use Rattle.access_tags.specs.declared.conflict.LocationKey.TheVariants as spots;

    /// The memory of a linked program before its first test, with no touches.
    pub fn opening(alloc: Global, p: &Program) -> Result<TaggedMemory<WALKS>, NoMemory>
        requires { Linked p.now }
        ensures program { IfOk result (λ m. ⟦<TaggedMemory<WALKS> as Memory>⟧.program m ≡ p.now) }
        ensures world { IfOk result (λ m. ⟦<TaggedMemory<WALKS> as Memory>⟧.world m ≡ suite.opening p.now) }
        ensures follows { IfOk result (λ m. ⟦<TaggedMemory<WALKS> as Memory>⟧.follows m empty_trace []) }
    {
        let tags = opening_tags(alloc, p)?;
        let numbers = Numbers::of(alloc, p)?;
        let memory = RegionMemory::opening(alloc, p)?;
        Ok(TaggedMemory {
            memory,
            tags,
            numbers,
            names: Names::new(alloc),
            discovery_tree: DiscoveryTree::new(alloc),
            heads: Heads::new(alloc, p.classes.len() as u32),
            ended: Items::new(alloc),
            test: 0,
            alloc,
        })
    }

    /// The edges of a run of the tests of a program in order. Where the memory follows such a run, they are those of the
    /// touches, in the record's order. The text of each edge is in the form of a record.
    pub fn edges(&self, p: &Program) -> Result<Items<Edge>, NoMemory>
        ensures edges { IfOk result (λ x. (T : Touches) → ⟦<TaggedMemory<WALKS> as Memory>⟧.follows self.now (trace_to T (length p.now.tests)) (touched_by T (length p.now.tests))
            → x ≡ edges_in p.now T (owner_by p.now T)) }
        ensures printed { IfOk result (λ x. list_all (λ e. is_place_text e.first) x ≡ true) }
    {
        if self.test == 0 {
            return Ok(Items::new(self.alloc));
        }
        let last = self.summary()?;
        let ended = self.ended.as_slice();
        let made = made_of(self.alloc, ended, last.size)?;
        let names = self.names.as_slice();
        let edges = edges_of(self.alloc, p, &made, names, ended, &last)?;
        Ok(edges)
    }

    /// The reach of each test of a program, where the memory follows a run of its tests in order: the least set of classes
    /// that holds the test's own, those of the objects whose heads it touched, and with each class all that it mentions;
    /// and whether the test is settled. It asks for the memory's own program.
    pub fn reaches(&self, p: &Program) -> Result<Items<Reach>, NoMemory>
        requires program { ⟦<TaggedMemory<WALKS> as Memory>⟧.program self.now ≡ p.now }
        requires linked { Linked p.now }
        ensures each { IfOk result (λ rs. length rs ≡ length p.now.tests) }
        ensures reach { IfOk result (λ rs. (T : Touches) → ⟦<TaggedMemory<WALKS> as Memory>⟧.follows self.now (trace_to T (length p.now.tests)) (touched_by T (length p.now.tests))
            → (i : ℕ) (r : Reached) → slice_get rs i ≡ Some r
            → IsReachIn p.now T (kinds_in (⟦<TaggedMemory<WALKS> as Memory>⟧.world self.now)) (i + 1) r) }
    {
        let alone = self.alone()?;
        let reaches = reaches_of(self.alloc, p, &self.heads, &alone)?;
        Ok(reaches)
    }

    /// Of each test that began whether its exposed reads are of the static `System.out` alone.
    fn alone(&self) -> Result<Vec<bool>, NoMemory>
        ensures { IfOk result (λ xs. (T : Touches) (n : ℕ) → Follows self.now (trace_to T n) (touched_by T n) → (i : ℕ) → i < n → get_or xs.items i false ≡ reads_out_alone T (i + 1)) }
    {
        let mut alone = Vec::new(self.alloc);
        for test in self.ended.as_slice() {
            alone.push(test.alone)?;
        }
        alone.push(self.tags.reads_static_alone(OUT))?;
        Ok(alone)
    }

    /// Notes one more touch of a part that is there, but a file or property: with the object that a read gave, and of a head
    /// with the kind of its object. It makes no object.
    #[inline(always)]
    fn note(
        &mut self,
        spot: LocationKey,
        write: bool,
        gave: Option<u64>,
        kind: Option<Kind>,
    ) -> Result<(), NoMemory>
        ensures memory { self.new.memory ≡ self.old.memory }
        ensures told { OnOk result (HasNoted self.old self.new spot write gave kind) }
    {
        note_part(&self.numbers, &mut self.tags, spot, write)?;
        let tree = &mut self.discovery_tree;
        discover(tree, WALKS, self.test, spot, write, gave)?;
        self.heads.note_touch(self.test, kind)?;
        Ok(())
    }

    /// Whether it is known that one more touch of an object's head by the running test leaves all that is kept as it is.
    #[inline(always)]
    fn has_noted_head(&self, object: u64) -> bool
        ensures { result ≡ true → (kind : KindOf) → HasNoted self.now self.now (spots.Head object) false None (Some kind) }
    {
        let head = LocationKey::Head { object };
        match self.numbers.number(head) {
            Some(at) => self.tags.covers(head, at, false),
            None => false,
        }
    }

    /// Notes one more touch of the head of an object of a kind.
    #[inline(never)]
    fn note_head(&mut self, object: u64, kind: Kind) -> Result<(), NoMemory>
        ensures memory { self.new.memory ≡ self.old.memory }
        ensures told { OnOk result (HasNoted self.old self.new (spots.Head object) false None (Some kind)) }
    {
        self.note(LocationKey::Head { object }, false, None, Some(kind))
    }

    /// The number of a file or property among the names, of which it is then one. More than 2^32 names are refused as want
    /// of memory.
    fn name_number(&mut self, part: Part, name: &Units) -> Result<u32, NoMemory>
        ensures memory { self.new.memory ≡ self.old.memory }
        ensures number { IfOk result (λ k. IsNamed self.new.names (place_in part name.now) k) }
        ensures told { OnOk result ((h : Trace) (ts : List Touch) → Follows self.old h ts → Follows self.new h ts) }
    {
        let at = self.names.find(part, name);
        if at > u32::MAX as usize {
            return Err(NoMemory {});
        }
        if at < self.names.len() {
            return Ok(at as u32);
        }
        self.tags.grow_names()?;
        self.names.push(part, name)?;
        Ok(at as u32)
    }

    /// Notes one more touch of a file or property.
    fn note_name(&mut self, part: Part, name: &Units, write: bool) -> Result<(), NoMemory>
        ensures memory { self.new.memory ≡ self.old.memory }
        ensures told { OnOk result (Extends Follows self.old self.new (record { write = write; location = place_in part name.now; gave = None } ∷ [])) }
    {
        let number = self.name_number(part, name)?;
        self.tags
            .note(LocationKey::Named { name: number }, number as u64, write)?;
        Ok(())
    }

    /// The walks to the objects of the parts that rows of the running test show, where walks are kept; else none.
    fn walks(&self, rows: &[Row]) -> Result<Items<Items<Items<LocationKey>>>, NoMemory>
        ensures { IfOk result (λ ws. (ts : List Touch) → WALKS ≡ true → 0 < self.now.test → HasDiscovered self.now.test ts self.now.discovery_tree → HaveRowsWalks ts rows.now ws) }
    {
        if !WALKS {
            return Ok(Items::new(self.alloc));
        }
        self.discovery_tree
            .walks_of_rows(self.alloc, self.test, rows)
    }

    /// What is kept of the running test when it ends.
    fn summary(&self) -> Result<Ended, NoMemory>
        requires { 0 < self.now.test }
        ensures { IfOk result (λ x. (h : Trace) (ts : List Touch) (T : Touches) → Follows self.now h ts → h ≡ trace_to T h.test → T h.test ≡ ts → IsEnded WALKS T self.now.names h.test x) }
    {
        let mut rows = Items::new(self.alloc);
        self.tags.push_rows(self.alloc, self.test, &mut rows)?;
        let walks = self.walks(rows.as_slice())?;
        Ok(Ended {
            rows,
            walks,
            size: self.numbers.objects(),
            alone: self.tags.reads_static_alone(OUT),
        })
    }
}

impl TaggedMemory<true> {
    /// What is shown of each of these edges.
    fn shown(&self, p: &Program) -> Result<Items<Shown>, NoMemory>
        ensures { IfOk result (λ x. (T : Touches) → ⟦<TaggedMemory<true> as Memory>⟧.follows self.now (trace_to T (length p.now.tests)) (touched_by T (length p.now.tests))
            → HaveWalks p.now T → PairedList (IsShownIn p.now T (owner_by p.now T)) (edges_in p.now T (owner_by p.now T)) x) }
    {
        if self.test == 0 {
            return Ok(Items::new(self.alloc));
        }
        let last = self.summary()?;
        let ended = self.ended.as_slice();
        let made = made_of(self.alloc, ended, last.size)?;
        let names = self.names.as_slice();
        let shown = shown_of_edges(self.alloc, p, &made, names, ended, &last)?;
        Ok(shown)
    }

    /// The edges of such a run, and of each its first 8 locations. Where to each object at a place of conflict there is a
    /// walk of reads, it is shown.
    pub fn found(&self, p: &Program) -> Result<(Items<Edge>, Items<Shown>), NoMemory>
        ensures edges { IfOk result (λ x. (T : Touches) → ⟦<TaggedMemory<true> as Memory>⟧.follows self.now (trace_to T (length p.now.tests)) (touched_by T (length p.now.tests))
            → x.0 ≡ edges_in p.now T (owner_by p.now T)) }
        ensures printed { IfOk result (λ x. list_all (λ e. is_place_text e.first) x.0 ≡ true) }
        ensures shown { IfOk result (λ x. (T : Touches) → ⟦<TaggedMemory<true> as Memory>⟧.follows self.now (trace_to T (length p.now.tests)) (touched_by T (length p.now.tests))
            → HaveWalks p.now T → PairedList (IsShownIn p.now T (owner_by p.now T)) x.0 x.1) }
    {
        let edges = self.edges(p)?;
        let shown = self.shown(p)?;
        Ok((edges, shown))
    }
}

impl<const WALKS: bool> Memory for TaggedMemory<WALKS> {
    ghost program = { λ m. m.memory.program };

    ghost world = { λ m. m.memory.world };

    ghost follows = { λ m h ts. Follows m h ts };

    fn begin_test(&mut self, test: u32) -> Result<(), NoMemory> {
        if self.test == 0 {
            self.test = test;
            return Ok(());
        }
        let alone = self.tags.reads_static_alone(OUT);
        let mut rows = Items::new(self.alloc);
        self.tags.end_test(self.alloc, self.test, &mut rows)?;
        let walks = self.walks(rows.as_slice())?;
        self.ended.push(Ended {
            rows,
            walks,
            size: self.numbers.objects(),
            alone,
        })?;
        self.test = test;
        Ok(())
    }

    fn get_static(&mut self, field: u32) -> Result<Value, NoMemory> {
        let v = self.memory.get_static(field)?;
        self.note(LocationKey::Static { field }, false, v.object(), None)?;
        Ok(v)
    }

    fn put_static(&mut self, field: u32, v: Value) -> Result<(), NoMemory> {
        self.memory.put_static(field, v)?;
        self.note(LocationKey::Static { field }, true, None, None)?;
        Ok(())
    }

    fn get_init(&mut self, class: u32) -> Result<InitState, NoMemory> {
        let s = self.memory.get_init(class)?;
        self.note(LocationKey::Init { class }, false, None, None)?;
        Ok(s)
    }

    fn put_init(&mut self, class: u32, s: InitState) -> Result<(), NoMemory> {
        self.memory.put_init(class, s)?;
        self.note(LocationKey::Init { class }, true, None, None)?;
        Ok(())
    }

    #[inline(always)]
    fn head(&mut self, object: u64) -> Result<Head, NoMemory> {
        let head = self.memory.head(object)?;
        if self.has_noted_head(object) {
            return Ok(head);
        }
        self.note_head(object, head.kind)?;
        Ok(head)
    }

    #[inline(always)]
    fn get_field(&mut self, object: u64, field: u32) -> Result<Value, NoMemory> {
        let v = self.memory.get_field(object, field)?;
        self.note(
            LocationKey::Field { object, field },
            false,
            v.object(),
            None,
        )?;
        Ok(v)
    }

    fn put_field(&mut self, object: u64, field: u32, v: Value) -> Result<(), NoMemory> {
        self.memory.put_field(object, field, v)?;
        self.note(LocationKey::Field { object, field }, true, None, None)?;
        Ok(())
    }

    fn get_elem(&mut self, object: u64, index: u32) -> Result<Value, NoMemory> {
        let v = self.memory.get_elem(object, index)?;
        self.note(LocationKey::Elem { object, index }, false, v.object(), None)?;
        Ok(v)
    }

    fn put_elem(&mut self, object: u64, index: u32, v: Value) -> Result<(), NoMemory> {
        self.memory.put_elem(object, index, v)?;
        self.note(LocationKey::Elem { object, index }, true, None, None)?;
        Ok(())
    }

    fn get_text(&mut self, object: u64) -> Result<&Units, NoMemory> {
        self.note(LocationKey::Text { object }, false, None, None)?;
        self.memory.get_text(object)
    }

    fn put_text(&mut self, object: u64, u: Units) -> Result<(), NoMemory> {
        self.memory.put_text(object, u)?;
        self.note(LocationKey::Text { object }, true, None, None)?;
        Ok(())
    }

    fn append_text(&mut self, object: u64, more: &[u16]) -> Result<(), NoMemory> {
        self.memory.append_text(object, more)?;
        self.note(LocationKey::Text { object }, true, None, None)?;
        Ok(())
    }

    fn get_store(&mut self, part: Part, name: &Units) -> Result<Option<&Units>, NoMemory> {
        self.note_name(part, name, false)?;
        self.memory.get_store(part, name)
    }

    fn put_store(
        &mut self,
        part: Part,
        name: Units,
        content: Option<Units>,
    ) -> Result<(), NoMemory> {
        self.note_name(part, &name, true)?;
        self.memory.put_store(part, name, content)?;
        Ok(())
    }

    fn make(&mut self, head: Head) -> Result<u64, NoMemory> {
        let object = self.memory.make(head)?;
        let first = self.tags.len();
        let cells = 2 + elements(head) as u64;
        let Some(parts) = cells.checked_add(self.numbers.fields(head.kind).len() as u64) else {
            return Err(NoMemory {});
        };
        self.tags.grow(parts)?;
        self.numbers.push(first)?;
        self.heads.note(self.test, head.kind)?;
        note_made(&self.numbers, &mut self.tags, object, head)?;
        Ok(object)
    }
}

/// The tags of a program's statics and class states, which no test touched.
fn opening_tags(alloc: Global, p: &Program) -> Result<Tags, NoMemory>
    ensures cells { IfOk result (λ s. count s.cells ≡ length p.now.fields + length p.now.classes) }
    ensures named { IfOk result (λ s. count s.named ≡ 0) }
    ensures stands { IfOk result (λ s. (T : Touches) (n : Numbering) → n.cells ≡ statics_of (suite.opening p.now) ++ states_of (suite.opening p.now) → Stands n T 0 [] s) }
{
    let mut tags = Tags::new(alloc);
    tags.grow(p.fields.len() as u64)?;
    tags.grow(p.classes.len() as u64)?;
    Ok(tags)
}

/// The running test touched a part: where walks are kept, how it came to an object.
fn discover(
    tree: &mut DiscoveryTree,
    keeps_walks: bool,
    test: u32,
    spot: LocationKey,
    write: bool,
    gave: Option<u64>,
) -> Result<(), NoMemory>
    ensures { OnOk result ((ts : List Touch) (x : Touch) → keeps_walks ≡ true → x.write ≡ write → x.location ≡ located [] spot → x.gave ≡ gave
        → HasDiscovered test ts tree.old → HasDiscovered test (ts ++ x ∷ []) tree.new) }
{
    if !keeps_walks {
        return Ok(());
    }
    tree.note(test, spot, write, gave)
}
