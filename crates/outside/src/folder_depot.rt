//! A real folder as a depot.

ghost use Rattle.std.specs.Prelude.{◌≡◌, ◌<◌, ◌≤◌, ◌++◌, ◌∷◌, [], length, IfOk, IfSome, IsErrOf, string_bytes};
ghost use Rattle.outside.specs.{Counts.Rose, Counts.raised, FolderDepot.Keeps, Depot.has_bytes, Depot.is_absent, Depot.is_longer};

use crate::counts::raise;
use crate::heard::Heard;
use crate::{Depot, DepotRefusal};
use et_base::{Items, Text};
use std::alloc::{AllocError, Global};
use std::fs;
use std::io::{ErrorKind, Read};
use std::marker::Model;
use std::rt::Files;
use std::snapshot::Snapshot;

/// How many bytes one call reads.
const CHUNK: usize = 16_384;

/// A real folder. It tells what it holds by the answers of its reads. Contracts see it as these answers, its count of
/// faults and the name of the last read that failed.
///
/// `Absent` comes where the system says that no such file is there, `TooLong` once a byte past the limit was read, and
/// `Failed` at every other failure of the outside; a name that is no UTF-8 is one of them.
#[derive(Drop)]
pub struct FolderDepot<'a, R: Files> {
    rt: &'a R,
    alloc: Global,
    folder: String,
    answers: Items<Heard>,
    faults: u64,
    // No bytes: the name is kept for contracts alone.
    last_failed: Option<Snapshot<Text>>,
}

impl<'a, R: Files> Model for FolderDepot<'a, R> {
    ghost use Rattle.std.specs.Prelude.{map};
    ghost use Rattle.std.specs.Option.{option_map};
    ghost use Rattle.outside.specs.FolderDepot.{FolderDepotState, answer_of};

    ghost Value = { FolderDepotState };

    ghost view = { λ d. record {
      answers = map answer_of d.answers;
      faults = d.faults;
      last_failed = option_map (λ name. name.value) d.last_failed;
    } };
}

impl<'a, R: Files> FolderDepot<'a, R> {
    /// A folder of a runtime, with no fault so far.
    pub fn new(rt: &'a R, alloc: Global, folder: String) -> FolderDepot<'a, R>
        ensures { result ≡ record { answers = []; faults = 0; last_failed = None } }
    {
        FolderDepot {
            rt,
            alloc,
            folder,
            answers: Items::new(alloc),
            faults: 0,
            last_failed: None,
        }
    }

    /// Reads the file without counting a fault.
    fn read_file(&self, name: &Text, limit: u64) -> Result<Vec<u8>, DepotRefusal>
        ensures { IfOk result (λ bytes. length bytes.items ≤ limit) }
    {
        let Ok(name) = str::from_utf8(name.as_slice()) else {
            return Err(DepotRefusal::Failed);
        };
        let path = path_of(self.alloc, self.folder.as_str(), name)?;
        match fs::open(self.rt, path.as_str()) {
            Ok(mut file) => read_whole(self.alloc, &mut file, limit),
            Err(error) if error.kind() == ErrorKind::NotFound => Err(DepotRefusal::Absent),
            Err(_) => Err(DepotRefusal::Failed),
        }
    }
}

/// Where the file of a name lies: the folder, a slash, the name.
fn path_of(alloc: Global, folder: &str, name: &str) -> Result<String, AllocError>
    ensures { IfOk result (λ path. string_bytes path ≡ folder.now ++ 47 ∷ name.now) }
{
    let mut path = String::from_str(alloc, folder)?;
    path.push_str("/")?;
    path.push_str(name)?;
    Ok(path)
}

/// Reads to the end, and at most one byte past the limit.
fn read_whole<F: Read>(alloc: Global, file: &mut F, limit: u64) -> Result<Vec<u8>, DepotRefusal>
    ensures within { IfOk result (λ bytes. length bytes.items ≤ limit) }
    ensures bytes { IfOk result (λ bytes. IfSome (F.remaining file.old) (λ all. bytes.items ≡ all)) }
    ensures absent { IsErrOf result DepotRefusal.Absent → ⊥ }
    ensures too_long { IsErrOf result DepotRefusal.TooLong → IfSome (F.remaining file.old) (λ all. limit < length all) }
{
    let mut bytes = Vec::new(alloc);
    let mut left = limit;
    let mut chunk = [0u8; CHUNK];
    loop {
        let most = left.saturating_add(1).min(CHUNK as u64) as usize;
        let Ok(taken) = file.read(&mut chunk[..most]) else {
            return Err(DepotRefusal::Failed);
        };
        if taken == 0 {
            return Ok(bytes);
        }
        if taken as u64 > left {
            return Err(DepotRefusal::TooLong);
        }
        bytes.extend_from_slice(&chunk[..taken])?;
        left -= taken as u64;
    }
}

impl<'a, R: Files> Depot for FolderDepot<'a, R> {
    ghost use Rattle.outside.specs.Depot.{answers};

    ghost shown = { λ d. record { told = answers d.answers; faults = d.faults; last_failed = d.last_failed } };

    fn read(&mut self, name: &Text, limit: u64) -> Result<Vec<u8>, DepotRefusal>
        ensures within { IfOk result (λ bytes. length bytes.items ≤ limit) }

        // It keeps what it answers of the file, and nothing else.
        ensures bytes { IfOk result (λ bytes.
            Keeps self.old.answers self.new.answers (has_bytes name.now bytes.items)) }
        ensures absent { IsErrOf result DepotRefusal.Absent →
            Keeps self.old.answers self.new.answers (is_absent name.now) }
        ensures too_long { IsErrOf result DepotRefusal.TooLong →
            Keeps self.old.answers self.new.answers (is_longer name.now limit) }
        ensures no_answer { IsErrOf result DepotRefusal.Failed → self.new.answers ≡ self.old.answers }
        ensures no_memory { IsErrOf result DepotRefusal.NoMemory → self.new.answers ≡ self.old.answers }

        // It counts a fault just where it answers one.
        ensures fault { IsErrOf result DepotRefusal.Failed → self.new.faults ≡ raised self.old.faults }
        ensures no_fault { (IsErrOf result DepotRefusal.Failed → ⊥) → self.new.faults ≡ self.old.faults }
        ensures rose { IsErrOf result DepotRefusal.Failed → Rose self.old.faults self.new.faults }
        ensures later { self.old.faults ≤ self.new.faults }

        // It remembers the name where it answers one.
        ensures failed_name { IsErrOf result DepotRefusal.Failed → self.new.last_failed ≡ Some name.now }
        ensures other_answer { (IsErrOf result DepotRefusal.Failed → ⊥) →
            self.new.last_failed ≡ self.old.last_failed }
    {
        let answer = self.read_file(name, limit);
        let heard = match &answer {
            Ok(bytes) => Heard::Bytes(Snapshot::of(name), Snapshot::of(bytes)),
            Err(DepotRefusal::Absent) => Heard::Absent(Snapshot::of(name)),
            Err(DepotRefusal::TooLong) => Heard::Longer(Snapshot::of(name), limit),
            Err(DepotRefusal::Failed) => {
                self.last_failed = Some(Snapshot::of(name));
                self.faults = raise(self.faults);
                return answer;
            }
            Err(DepotRefusal::NoMemory) => return answer,
        };
        self.answers.push(heard)?;
        answer
    }
}
