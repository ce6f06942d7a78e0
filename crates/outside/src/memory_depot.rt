//! A depot in memory that fails at chosen calls.

ghost use Rattle.std.specs.Prelude.{◌≡◌, ◌<◌, ◌≤◌, ◌↔◌, [], length, IfOk, IsOk, IsSomeAnd, IsErrOf, Contains};
ghost use Rattle.outside.specs.{Counts.Rose, Counts.raised, Depot.content, Depot.files_of};

use crate::counts::{is_listed, raise};
use crate::files::read_file;
use crate::{Depot, DepotRefusal};
use et_base::{NoMemory, Text};
use std::alloc::Global;
use std::marker::Model;
use std::snapshot::Snapshot;

/// Files in memory. The calls whose numbers, from 1, are listed fail, and no other call does.
#[derive(Drop)]
pub struct MemoryDepot {
    alloc: Global,
    files: Vec<(Text, Vec<u8>)>,
    fail: Vec<u64>,
    calls: u64,
    faults: u64,
    // No bytes: the name is kept for contracts alone.
    last_failed: Option<Snapshot<Text>>,
}

impl Model for MemoryDepot {
    ghost use Rattle.std.specs.Option.{option_map};
    ghost use Rattle.outside.specs.Depot.{files_of};
    ghost use Rattle.outside.specs.MemoryDepot.{MemoryDepotState};

    ghost Value = { MemoryDepotState };

    ghost view = { λ d. record {
      files = files_of d.files.items;
      fail = d.fail.items;
      calls = d.calls;
      faults = d.faults;
      last_failed = option_map (λ name. name.value) d.last_failed;
    } };
}

impl MemoryDepot {
    /// A depot of these files, whose listed calls fail. It takes no memory.
    pub fn new(
        alloc: Global,
        files: Vec<(Text, Vec<u8>)>,
        fail: Vec<u64>,
    ) -> Result<MemoryDepot, NoMemory>
        ensures made { IsOk result }
        ensures state { IfOk result (λ depot. depot ≡ record {
          files = files_of files.items;
          fail = fail.items;
          calls = 0;
          faults = 0;
          last_failed = None;
        }) }
    {
        Ok(MemoryDepot {
            alloc,
            files,
            fail,
            calls: 0,
            faults: 0,
            last_failed: None,
        })
    }
}

impl Depot for MemoryDepot {
    ghost use Rattle.outside.specs.Depot.{all_files};

    ghost shown = { λ d. record { told = all_files d.files; faults = d.faults; last_failed = d.last_failed } };

    fn read(&mut self, name: &Text, limit: u64) -> Result<Vec<u8>, DepotRefusal>
        ensures files { self.new.files ≡ self.old.files }
        ensures fail { self.new.fail ≡ self.old.fail }
        ensures calls { self.new.calls ≡ raised self.old.calls }

        ensures within { IfOk result (λ bytes. length bytes.items ≤ limit) }
        ensures bytes { IfOk result (λ bytes. content self.old.files name.now ≡ Some bytes.items) }

        ensures absent { IsErrOf result DepotRefusal.Absent → content self.old.files name.now ≡ None }
        ensures too_long { IsErrOf result DepotRefusal.TooLong →
            IsSomeAnd (content self.old.files name.now) (λ bytes. limit < length bytes) }

        // It fails at the listed calls and at no other, and counts just these faults.
        ensures failed { IsErrOf result DepotRefusal.Failed ↔ Contains self.old.fail (raised self.old.calls) }
        ensures fault { IsErrOf result DepotRefusal.Failed → self.new.faults ≡ raised self.old.faults }
        ensures no_fault { (IsErrOf result DepotRefusal.Failed → ⊥) → self.new.faults ≡ self.old.faults }
        ensures rose { IsErrOf result DepotRefusal.Failed → Rose self.old.faults self.new.faults }
        ensures later { self.old.faults ≤ self.new.faults }
        ensures failed_name { IsErrOf result DepotRefusal.Failed → self.new.last_failed ≡ Some name.now }
        ensures other_answer { (IsErrOf result DepotRefusal.Failed → ⊥) →
            self.new.last_failed ≡ self.old.last_failed }
    {
        self.calls = raise(self.calls);
        if is_listed(&self.fail, self.calls) {
            self.last_failed = Some(Snapshot::of(name));
            self.faults = raise(self.faults);
            return Err(DepotRefusal::Failed);
        }
        read_file(self.alloc, &self.files, name, limit)
    }
}
