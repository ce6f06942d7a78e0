//! How a row left the entry at the top.

ghost use Rattle.std.specs.Prelude.{◌≡◌};
ghost use Rattle.vm_interp.specs.Dispatching.{next_of};

use jvm_model::Next;

/// How the row of an instruction left the entry at the top: it goes on at the next instruction, or at another one of the
/// same method, or it called a method, or it answered this.
#[derive(Clone, Copy, PartialEq, Eq)]
pub(crate) enum Flow {
    FallThrough,
    Jump,
    Call { method: u32 },
    Other(Next),
}

impl Flow {
    /// What the row answered.
    #[inline(always)]
    pub fn next(self) -> Next
        ensures { result ≡ next_of self }
    {
        match self {
            Flow::FallThrough | Flow::Jump => Next::Go,
            Flow::Call { method } => Next::Enter { method },
            Flow::Other(next) => next,
        }
    }
}
