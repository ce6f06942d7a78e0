//! A depot in memory that never fails.

ghost use Rattle.std.specs.Prelude.{◌≡◌};
ghost use Rattle.outside.specs.Depot.{files_of};

use crate::files::read_file;
use crate::{Depot, DepotRefusal};
use et_base::Text;
use std::alloc::Global;
use std::marker::Model;

/// Files in memory. No read of them fails, so its count of faults is always 0.
#[derive(Drop)]
pub struct QuietDepot {
    alloc: Global,
    files: Vec<(Text, Vec<u8>)>,
}

impl Model for QuietDepot {
    ghost use Rattle.outside.specs.Depot.{Files, files_of};

    ghost Value = { Files };

    ghost view = { λ d. files_of d.files.items };
}

impl QuietDepot {
    /// A depot of these files.
    pub fn new(alloc: Global, files: Vec<(Text, Vec<u8>)>) -> QuietDepot
        ensures { result ≡ files_of files.items }
    {
        QuietDepot { alloc, files }
    }
}

impl Depot for QuietDepot {
    ghost use Rattle.std.specs.Prelude.{None};
    ghost use Rattle.outside.specs.Depot.{all_files};

    ghost shown = { λ files. record { told = all_files files; faults = 0; last_failed = None } };

    fn read(&mut self, name: &Text, limit: u64) -> Result<Vec<u8>, DepotRefusal> {
        read_file(self.alloc, &self.files, name, limit)
    }
}
