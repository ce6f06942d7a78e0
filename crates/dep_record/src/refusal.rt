//! Why a text is no record.

ghost use Rattle.std.specs.Prelude.{◌≡◌};
ghost use Rattle.dep_record.specs.declared.refusal.RecordRefusal.TheVariants as refusals;

use et_base::NoMemory;

/// Why a text isn't read.
#[derive(Clone, Copy, Debug, PartialEq, Eq)]
pub enum RecordRefusal {
    /// The first faulty line, by its number from 1. A line that is missing has the number after the last.
    RecordFault { line: u32 },
    /// An allocation was refused.
    NoMemory,
}

impl From<NoMemory> for RecordRefusal {
    ghost from_gives = { λ _ e. e ≡ refusals.NoMemory };

    fn from(_refused: NoMemory) -> RecordRefusal {
        RecordRefusal::NoMemory
    }
}
