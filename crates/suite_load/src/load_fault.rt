//! Why a suite isn't loaded.

ghost use Rattle.std.specs.Prelude.{◌≡◌};
ghost use Rattle.suite_load.specs.declared.load_fault.LoadFault.TheVariants as faults;

use crate::suite_text::Why;
use class_link::LinkFault;
use class_reader::ClassFault;
use et_base::{NoMemory, Text};
use type_frames::CheckFault;

/// The first fault of a suite: its text, its class files in order, linking, its tests, and the check.
#[derive(Debug, Drop)]
pub enum LoadFault {
    /// The depot failed at the file of this name.
    Depot { name: Text },
    /// The depot has no file of this name.
    Absent { name: Text },
    /// The suite text or the class file of this name is longer than 1 MiB, or with it all class files so far are longer
    /// than 64 MiB.
    TooLarge { name: Text },
    /// The first faulty line of the suite text, by its number from 1, and what is wrong with it.
    Suite { line: u32, why: Why },
    /// The file of this name is no class file; the fault is never `NoMemory`.
    Class { name: Text, fault: ClassFault },
    /// The class files don't link; the fault is neither `NotATest` nor `NoMemory`.
    Link { fault: LinkFault },
    /// The program isn't typed; the fault is never `NoMemory`.
    Check { fault: CheckFault },
    /// An allocation was refused.
    NoMemory,
}

impl From<NoMemory> for LoadFault {
    ghost from_gives = { λ _ e. e ≡ faults.NoMemory };

    fn from(_refused: NoMemory) -> LoadFault {
        LoadFault::NoMemory
    }
}
