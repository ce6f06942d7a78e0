//! Why bytes are no class file.

ghost use Rattle.std.specs.Prelude.{◌≡◌, ◌<◌, ◌^◌};
ghost use Rattle.class_reader.specs.Faults.{shown};

use class_pool::Fault;

/// The first fault of a class file from left to right. `at` is the offset in the file of the field
/// concerned; `method` numbers the methods from 1, and `pc` is a place in its code.
#[derive(Clone, Copy, Debug, PartialEq, Eq)]
pub enum ClassFault {
    /// The file doesn't begin with CAFEBABE (JVMS 4.1).
    BadMagic,
    /// The major version isn't 50, 51 or 52.
    BadVersion { major: u32 },
    /// The number or run of bytes there isn't wholly there.
    Truncated { at: u32 },
    /// A pool tag that is none (JVMS 4.4).
    BadTag { at: u32, tag: u8 },
    /// An index that names no entry, or one of a kind that isn't allowed there.
    BadIndex { at: u32 },
    /// A group of bytes that is no code unit (JVMS 4.4.7).
    BadUtf { at: u32 },
    /// A length that isn't that of its content.
    BadLength { at: u32 },
    /// A name or descriptor in no form of JVMS 4.2 and 4.3.
    BadDescriptor { at: u32 },
    /// A second attribute of a kind that stands once, or a second field or method of one name and descriptor.
    Repeated { at: u32 },
    /// Code of an abstract or native method, or a method that is neither and has none.
    CodeKind { at: u32 },
    /// An instruction that isn't wholly inside the code.
    CutCode { method: u32, pc: u32 },
    /// An instruction outside the profile.
    Unsupported { method: u32, pc: u32, opcode: u8 },
    /// An operand that its instruction doesn't take.
    BadOperand { method: u32, pc: u32 },
    /// A place in code where no instruction starts, or a handler of an empty range.
    BadTarget { method: u32, pc: u32 },
    /// Bytes after the end of the class file.
    Trailing { at: u32 },
    /// Memory ran out.
    NoMemory,
}

/// A fault with offsets, in a file of so many bytes.
pub fn shown(total: usize, fault: Fault) -> ClassFault
    requires { total < 2 ^ 32 }
    ensures { result ≡ shown total fault }
{
    let at = |left: usize| total.saturating_sub(left) as u32;
    match fault {
        Fault::BadMagic => ClassFault::BadMagic,
        Fault::BadVersion(major) => ClassFault::BadVersion {
            major: major as u32,
        },
        Fault::Truncated(left) => ClassFault::Truncated { at: at(left) },
        Fault::BadTag(left, tag) => ClassFault::BadTag { at: at(left), tag },
        Fault::BadIndex(left) => ClassFault::BadIndex { at: at(left) },
        Fault::BadUtf(left) => ClassFault::BadUtf { at: at(left) },
        Fault::BadLength(left) => ClassFault::BadLength { at: at(left) },
        Fault::BadDescriptor(left) => ClassFault::BadDescriptor { at: at(left) },
        Fault::Repeated(left) => ClassFault::Repeated { at: at(left) },
        Fault::CodeKind(left) => ClassFault::CodeKind { at: at(left) },
        Fault::CutCode { method, pc } => ClassFault::CutCode { method, pc },
        Fault::Unsupported { method, pc, opcode } => ClassFault::Unsupported { method, pc, opcode },
        Fault::BadOperand { method, pc } => ClassFault::BadOperand { method, pc },
        Fault::BadTarget { method, pc } => ClassFault::BadTarget { method, pc },
        Fault::Trailing(left) => ClassFault::Trailing { at: at(left) },
    }
}
