//! Why an entry isn't pushed.

use et_base::NoMemory;
use std::alloc::{AllocError, AllocFailed};

/// Why an entry isn't pushed: as many stand as may, or memory was refused.
#[derive(Clone, Copy, Debug, PartialEq, Eq)]
pub enum PushFault {
    Deep,
    NoMemory,
}

impl From<NoMemory> for PushFault {
    ghost use Rattle.std.specs.Prelude.{◌≡◌};
    ghost use Rattle.vm_frames.specs.declared.fault.PushFault.TheVariants.{NoMemory};

    ghost from_gives = { λ _ fault. fault ≡ NoMemory };

    fn from(refused: NoMemory) -> PushFault {
        let NoMemory {} = refused;
        PushFault::NoMemory
    }
}
