//! How the running test came to objects that earlier tests made.

ghost use Rattle.std.specs.Prelude.{◌≡◌, ◌<◌, ◌++◌, ◌∷◌, [], ℕ, List, map, is_some, IfOk, OnOk};
ghost use Rattle.order_law.specs.Walk.{Walk};
ghost use Rattle.access_tags.specs.{Numbering.located, ParentEdges.location_of, ParentEdges.met_by};
ghost use Rattle.access_tags.specs.Paths.{AreWalks, HaveRowsWalks, IsWalkTo, object_of};

use crate::conflict::LocationKey;
use crate::room::make_room;
use crate::rows::Row;
use cell_region::Region;
use et_base::{Items, NoMemory};
use std::alloc::Global;

/// The first read that gave an object, in the last test where one did: the number of that test, 0 for none, and what was
/// read.
#[derive(Clone, Copy)]
pub struct ParentEdge {
    pub test: u32,
    pub from: LocationKey,
}

impl ParentEdge {
    const NONE: ParentEdge = ParentEdge {
        test: 0,
        from: LocationKey::Static { field: 0 },
    };
}

/// Of each object the read by which a test first met it. Only the meetings of the running test count; those of earlier
/// tests stay until a later one meets the object.
#[derive(Drop)]
pub struct DiscoveryTree {
    met: Region<ParentEdge>,
}

impl DiscoveryTree {
    ghost use Rattle.jvm_model.specs.declared.values.Touch.{Touch};
    ghost use Rattle.access_tags.specs.HasDiscovered.{HasDiscovered};

    /// No meetings. It takes no memory until the first.
    pub fn new(alloc: Global) -> DiscoveryTree
        ensures { (t : ℕ) → HasDiscovered t [] result }
    {
        DiscoveryTree {
            met: Region::new(alloc),
        }
    }

    /// The running test, with this number, touched a part, and a read of it gave an object.
    pub fn note(
        &mut self,
        test: u32,
        spot: LocationKey,
        write: bool,
        gave: Option<u64>,
    ) -> Result<(), NoMemory>
        ensures { OnOk result ((ts : List Touch) (x : Touch) → x.write ≡ write → x.location ≡ located [] spot → x.gave ≡ gave
            → HasDiscovered test ts self.old → HasDiscovered test (ts ++ x ∷ []) self.new) }
    {
        let Some(object) = gave else {
            return Ok(());
        };
        if write || self.has_met(test, object) {
            return Ok(());
        }
        make_room(&mut self.met, object, ParentEdge::NONE)?;
        self.met.set(object, ParentEdge { test, from: spot });
        Ok(())
    }

    /// Whether the running test, with this number, met an object. Takes no memory.
    fn has_met(&self, test: u32, object: u64) -> bool
        ensures { 0 < test → result ≡ is_some (met_by self.now.met test object) }
    {
        self.first(test, object).is_some()
    }

    /// What the running test, with this number, read when it first met an object. Takes no memory.
    fn first(&self, test: u32, object: u64) -> Option<LocationKey>
        ensures { 0 < test → result ≡ met_by self.now.met test object }
    {
        if object >= self.met.len() {
            return None;
        }
        let met = self.met.get(object);
        if met.test == test {
            Some(met.from)
        } else {
            None
        }
    }

    /// The walk by which the running test, with this number, came to an object, from a static on. An object to which it
    /// came by none has none.
    pub fn walk(
        &self,
        alloc: Global,
        test: u32,
        object: u64,
    ) -> Result<Items<LocationKey>, NoMemory>
        ensures { IfOk result (λ xs. (ts ys : List Touch) → 0 < test → HasDiscovered test ts self.now → Walk ts object ys
            → map (located []) xs ≡ map location_of ys) }
    {
        let mut reads = Vec::new(alloc);
        let mut at = object;
        for step in 0..self.met.len() {
            let Some(from) = self.first(test, at) else {
                return Ok(Items::new(alloc));
            };
            reads.push(from)?;
            let Some(holder) = from.holder() else {
                reads.reverse();
                return Ok(Items::from_vec(reads));
            };
            at = holder;
        }
        Ok(Items::new(alloc))
    }

    /// The walk to the object of a part; one of no object has none.
    fn walk_to(
        &self,
        alloc: Global,
        test: u32,
        spot: LocationKey,
    ) -> Result<Items<LocationKey>, NoMemory>
        ensures { IfOk result (λ xs. (ts : List Touch) → 0 < test → HasDiscovered test ts self.now → IsWalkTo ts (object_of spot) xs) }
    {
        match spot.object() {
            None => Ok(Items::new(alloc)),
            Some(object) => self.walk(alloc, test, object),
        }
    }

    /// The walks to the objects of parts.
    pub fn walks(
        &self,
        alloc: Global,
        test: u32,
        spots: &[LocationKey],
    ) -> Result<Items<Items<LocationKey>>, NoMemory>
        ensures { IfOk result (λ ws. (ts : List Touch) → 0 < test → HasDiscovered test ts self.now → AreWalks ts spots.now ws) }
    {
        let mut walks = Items::new(alloc);
        for spot in spots {
            walks.push(self.walk_to(alloc, test, *spot)?)?;
        }
        Ok(walks)
    }

    /// The walks to the objects of the parts that rows show.
    pub fn walks_of_rows(
        &self,
        alloc: Global,
        test: u32,
        rows: &[Row],
    ) -> Result<Items<Items<Items<LocationKey>>>, NoMemory>
        ensures { IfOk result (λ ws. (ts : List Touch) → 0 < test → HasDiscovered test ts self.now → HaveRowsWalks ts rows.now ws) }
    {
        let mut walks = Items::new(alloc);
        for row in rows {
            walks.push(self.walks(alloc, test, row.spots.as_slice())?)?;
        }
        Ok(walks)
    }
}
