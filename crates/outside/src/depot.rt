//! Where suites, class files and records are read from.

ghost use Rattle.std.specs.Prelude.{◌≡◌, ◌≤◌, length, IfOk, IsErrOf};
ghost use Rattle.outside.specs.Depot.{DepotView, FailedAt, OfHeld, TellsOn, Agrees, has_bytes, is_absent, is_longer};

use et_base::{NoMemory, Text};
use std::alloc::AllocError;

/// Why a depot gave no bytes.
#[derive(Clone, Copy, Debug, PartialEq, Eq)]
pub enum DepotRefusal {
    /// No file has the name.
    Absent,
    /// The file is longer than the limit.
    TooLong,
    /// The depot failed, which its count of faults shows.
    Failed,
    /// Memory for the bytes was refused.
    NoMemory,
}

impl From<NoMemory> for DepotRefusal {
    ghost use Rattle.std.specs.Prelude.{◌≡◌};
    ghost use Rattle.outside.specs.declared.depot.DepotRefusal.TheVariants as refusal;

    ghost from_gives = { λ _ e. e ≡ refusal.NoMemory };

    fn from(_refused: NoMemory) -> DepotRefusal {
        DepotRefusal::NoMemory
    }
}

impl From<AllocError> for DepotRefusal {
    ghost use Rattle.std.specs.Prelude.{◌≡◌};
    ghost use Rattle.outside.specs.declared.depot.DepotRefusal.TheVariants as refusal;

    ghost from_gives = { λ _ e. e ≡ refusal.NoMemory };

    fn from(_refused: AllocError) -> DepotRefusal {
        DepotRefusal::NoMemory
    }
}

/// A finite map from names to bytes, which may fail.
pub trait Depot {
    /// What it told of its files; how often it failed; and the name of the last read that answered `Failed`, where one did.
    ghost shown: { Self → DepotView };

    /// The bytes of a file, at most `limit` of them. `Absent` comes where no file has the name, `TooLong` where the
    /// file is longer than `limit`, and `Failed` only where the count of faults rose in this call. Whichever files the depot
    /// may hold after all that it told agree with the answer. The depot remembers the name of a read that answers `Failed`,
    /// until another does.
    fn read(&mut self, name: &Text, limit: u64) -> Result<Vec<u8>, DepotRefusal>
        ensures told { TellsOn (shown self.old).told (shown self.new).told }
        ensures faults { (shown self.old).faults ≤ (shown self.new).faults }

        ensures within { IfOk result (λ bytes. length bytes.items ≤ limit) }
        ensures bytes { IfOk result (λ bytes. OfHeld (shown self.new).told (λ files.
            Agrees files (has_bytes name.now bytes.items))) }

        ensures absent { IsErrOf result DepotRefusal.Absent →
            OfHeld (shown self.new).told (λ files. Agrees files (is_absent name.now)) }
        ensures too_long { IsErrOf result DepotRefusal.TooLong →
            OfHeld (shown self.new).told (λ files. Agrees files (is_longer name.now limit)) }

        ensures failed { IsErrOf result DepotRefusal.Failed →
            FailedAt (shown self.old) (shown self.new) name.now }
        ensures other_answer { (IsErrOf result DepotRefusal.Failed → ⊥) →
            (shown self.new).last_failed ≡ (shown self.old).last_failed };
}
