//! Why a program isn't typed.

use et_base::{NoMemory, Units};
use std::alloc::AllocError;

/// Why a method's frames weren't read.
#[derive(Clone, Copy, Debug, PartialEq, Eq)]
pub enum FrameFault {
    /// Its stack map is malformed. The place is always 0.
    Rule8 {
        /// A place in the code.
        pc: u32,
    },
    /// An allocation was refused.
    NoMemory,
}

/// The first fault of a program. Methods are numbered from 1 in their class file.
#[derive(Debug, Drop)]
pub enum CheckFault {
    /// An instruction breaks a rule, and none of a lower number.
    Rule {
        class: Units,
        method: u32,
        pc: u32,
        rule: u32,
    },
    /// There is no frame where one is needed: at a branch target, a handler, or after an unconditional transfer.
    NoFrame {
        class: Units,
        method: u32,
        pc: u32,
    },
    /// A field or method that this project doesn't serve.
    Unsupported {
        class: Units,
        member: Units,
    },
    /// An allocation was refused.
    NoMemory,
}

impl From<NoMemory> for FrameFault {
    ghost use Rattle.std.specs.Prelude.{◌≡◌};
    ghost use Rattle.type_frames.specs.declared.fault.FrameFault.TheVariants as faults;

    ghost from_gives = { λ _ e. e ≡ faults.NoMemory };

    fn from(_refused: NoMemory) -> FrameFault {
        FrameFault::NoMemory
    }
}

impl From<AllocError> for FrameFault {
    ghost use Rattle.std.specs.Prelude.{◌≡◌};
    ghost use Rattle.type_frames.specs.declared.fault.FrameFault.TheVariants as faults;

    ghost from_gives = { λ _ e. e ≡ faults.NoMemory };

    fn from(_refused: AllocError) -> FrameFault {
        FrameFault::NoMemory
    }
}

impl From<NoMemory> for CheckFault {
    ghost use Rattle.std.specs.Prelude.{◌≡◌};
    ghost use Rattle.type_frames.specs.declared.fault.CheckFault.TheVariants as faults;

    ghost from_gives = { λ _ e. e ≡ faults.NoMemory };

    fn from(_refused: NoMemory) -> CheckFault {
        CheckFault::NoMemory
    }
}
