//! Parts read one after the other.

ghost use Rattle.std.specs.Prelude.{[]};
ghost use Rattle.class_pool.specs.{Reading.Gives, Loops.counted};

use class_pool::ReadError;
use et_base::Items;
use std::alloc::Global;

/// What reads one part of a class file.
pub trait Reads {
    ghost use Rattle.std.specs.Prelude.{ℕ, List, Result};
    ghost use Rattle.class_pool.specs.declared.fault.Fault.{Fault};

    /// What is read.
    type Part: Drop;

    ghost reads: { Self → List ℕ → Result (Self.Part × List ℕ) Fault };

    /// The part at the front, and the bytes behind it.
    fn read<'a>(&self, bytes: &'a [u8]) -> Result<(Self::Part, &'a [u8]), ReadError>
        ensures { Gives (λ x. (x.0, x.1.now)) result (reads self.now bytes.now) };
}

/// So many parts.
pub fn counted<'a, R: Reads>(
    alloc: Global,
    reader: &R,
    count: u16,
    bytes: &'a [u8],
) -> Result<(Items<R::Part>, &'a [u8]), ReadError>
    ensures { Gives (λ x. (x.0, x.1.now)) result (counted (λ _ _ b. R.reads reader.now b) [] count bytes.now) }
{
    let mut parts = Items::new(alloc);
    let mut rest = bytes;
    for i in 0..count {
        let (part, next) = reader.read(rest)?;
        parts.push(part)?;
        rest = next;
    }
    Ok((parts, rest))
}
