//! How a command ended.

ghost use Rattle.std.specs.Prelude.{◌≡◌};
ghost use Rattle.electrictest.specs.Codes.{code_of};

use class_link::LinkFault;
use class_reader::ClassFault;
use et_base::{Items, NoMemory, Text};
use suite_load::Why;
use type_frames::CheckFault;

/// How a command ended.
#[derive(Drop)]
pub enum Status {
    /// The text was written, and each test that ran passed.
    Done,
    /// The text was written; a test did not pass.
    NotPassed,
    /// The words are in no form.
    Words,
    /// The input was refused.
    Input(InputFault),
    /// Memory was refused; nothing was written.
    NoMemory,
    /// The depot failed at the file of this name.
    Depot { name: Text },
    /// The sink failed; a prefix of the text was written.
    Sink,
    /// A test or the suite passed its number of units.
    Over(OverFault),
}

/// Why the input was refused.
#[derive(Debug, Drop)]
pub enum InputFault {
    /// The words name no record where one is needed.
    NeedsRecord,
    /// The depot has no file of this name.
    Absent { name: Text },
    /// The file of this name is longer than 1 MiB, or with it all class files so far are longer than 64 MiB; or it is a record
    /// of more than 512 MiB.
    TooLarge { name: Text },
    /// The suite text's first faulty line, by its number from 1, and what is wrong with it.
    Suite { line: u32, why: Why },
    /// The file of this name is no class file; the fault is the first one, never `NoMemory`.
    Class { name: Text, fault: ClassFault },
    /// The class files don't link; the fault is neither `NotATest` nor `NoMemory`.
    Link { fault: LinkFault },
    /// The program isn't typed; the fault is never `NoMemory`.
    Check { fault: CheckFault },
    /// A name in the words is that of no test.
    NoTest { name: Text },
    /// The record's first faulty line, by its number from 1.
    Record { line: u32 },
    /// The record is in version 1, which tells nothing of class files.
    RecordOld,
    /// The record is of a suite with another digest; of `impact`, of another suite text, by its sum.
    RecordForeign { kept: [u8; 32], found: [u8; 32] },
    /// The order names this test twice.
    Twice { test: Text },
    /// The order lacks a test that wrote what this one reads.
    MissingWriter { test: Text, writer: Text },
    /// In the order the first test stands after the second, which it is before.
    Inverted { first: Text, second: Text },
}

/// Which number of units was passed.
#[derive(Debug, Drop)]
pub enum OverFault {
    /// The test passed its budget, which is given; the list is empty unless workers ran other tests before it.
    OverBudget {
        name: Text,
        budget: u64,
        list: Items<u32>,
    },
    /// The test passed what was left of the whole suite's units.
    OverSuite {
        name: Text,
    },
}

impl Status {
    /// The exit status of a process that ends so.
    pub fn code(&self) -> u8
        ensures { result ≡ code_of self.now }
    {
        match self {
            Status::Done => 0,
            Status::NotPassed => 1,
            Status::Words => 2,
            Status::Input(_) => 3,
            Status::NoMemory => 4,
            Status::Depot { .. } => 5,
            Status::Sink => 6,
            Status::Over(_) => 7,
        }
    }
}

impl From<NoMemory> for Status {
    ghost use Rattle.std.specs.Prelude.{◌≡◌};
    ghost use Rattle.electrictest.specs.declared.status.Status.TheVariants as ends;

    ghost from_gives = { λ _ e. e ≡ ends.NoMemory };

    fn from(_refused: NoMemory) -> Status {
        Status::NoMemory
    }
}
