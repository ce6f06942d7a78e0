//! Why bytes are no class file.

ghost use Rattle.std.specs.Prelude.{◌≡◌};
ghost use Rattle.et_base.specs.Answers.{tested, nothing};
ghost use Rattle.class_pool.specs.{declared.fault.ReadError.TheVariants.Memory, Reading.Gives};

use et_base::NoMemory;
use std::alloc::{AllocError, AllocFailed};

/// The first fault of a reading from left to right. A place is the number of bytes that are left
/// at the field concerned; in code it is a pc, beside the method's number.
#[derive(Clone, Copy, Debug)]
pub enum Fault {
    /// The file doesn't begin with CAFEBABE (JVMS 4.1).
    BadMagic,
    /// A major version that isn't read.
    BadVersion(u16),
    /// The number or run of bytes here isn't wholly there.
    Truncated(usize),
    /// A pool tag that is none (JVMS 4.4).
    BadTag(usize, u8),
    /// An index that names no entry, or one of a kind that isn't allowed here.
    BadIndex(usize),
    /// A group of bytes that is no code unit (JVMS 4.4.7).
    BadUtf(usize),
    /// A length that isn't that of its content.
    BadLength(usize),
    /// A name or descriptor in no form of JVMS 4.2 and 4.3.
    BadDescriptor(usize),
    /// A second attribute of a kind that stands once, or a second member of one name and descriptor.
    Repeated(usize),
    /// Code where there is to be none, or none where there is to be code.
    CodeKind(usize),
    /// An instruction that isn't wholly inside the code.
    CutCode { method: u32, pc: u32 },
    /// An instruction outside the profile.
    Unsupported { method: u32, pc: u32, opcode: u8 },
    /// An operand that its instruction doesn't take.
    BadOperand { method: u32, pc: u32 },
    /// A place in code where no instruction starts.
    BadTarget { method: u32, pc: u32 },
    /// Bytes after the end of the class file.
    Trailing(usize),
}

/// Why a reader gave nothing: want of memory, or the first fault.
#[derive(Debug, Drop)]
pub enum ReadError {
    Memory,
    Fault(Fault),
}

impl From<NoMemory> for ReadError {
    ghost from_gives = { λ _ e. e ≡ Memory };

    fn from(_refused: NoMemory) -> ReadError {
        ReadError::Memory
    }
}

impl From<AllocError> for ReadError {
    ghost from_gives = { λ _ e. e ≡ Memory };

    fn from(_refused: AllocError) -> ReadError {
        ReadError::Memory
    }
}

impl<T: Drop> From<AllocFailed<T>> for ReadError {
    ghost from_gives = { λ _ e. e ≡ Memory };

    fn from(_refused: AllocFailed<T>) -> ReadError {
        ReadError::Memory
    }
}

/// Nothing where the test holds, else the fault.
pub fn wants(test: bool, fault: Fault) -> Result<(), ReadError>
    ensures { Gives nothing result (tested test fault) }
{
    if test {
        Ok(())
    } else {
        Err(ReadError::Fault(fault))
    }
}
