//! Why class files and tests make no program.

ghost use Rattle.std.specs.Prelude.{◌≡◌};
ghost use Rattle.class_link.specs.declared.fault.LinkFault.TheVariants.{NoMemory};

use et_base::Units;
use std::alloc::{AllocError, AllocFailed};

/// The first fault of linking. Classes are named by their internal names (JVMS 4.2.1), pool entries by their indices in
/// the class's file, and tests by their numbers from 1.
#[derive(Debug, Drop)]
pub enum LinkFault {
    /// The class has the name of a built-in class or of an earlier one.
    Duplicate { class: Units },
    /// The class names a class that isn't there.
    Missing { class: Units, name: Units },
    /// The class is its own ancestor.
    Cycle { class: Units },
    /// The entry refers to a member that the look-up doesn't find (JVMS 5.4.3).
    NoMember { class: Units, index: u32 },
    /// The entry names a class or member of another kind than its use asks for.
    WrongKind { class: Units, index: u32 },
    /// The test names no test of the classes.
    NotATest { test: u32 },
    /// An allocation was refused.
    NoMemory,
}

impl From<et_base::NoMemory> for LinkFault {
    ghost from_gives = { λ _ f. f ≡ NoMemory };

    fn from(_refused: et_base::NoMemory) -> LinkFault {
        LinkFault::NoMemory
    }
}

impl From<AllocError> for LinkFault {
    ghost from_gives = { λ _ f. f ≡ NoMemory };

    fn from(_refused: AllocError) -> LinkFault {
        LinkFault::NoMemory
    }
}

impl<T: Drop> From<AllocFailed<T>> for LinkFault {
    ghost from_gives = { λ _ f. f ≡ NoMemory };

    fn from(_refused: AllocFailed<T>) -> LinkFault {
        LinkFault::NoMemory
    }
}
