//! Class initialisers that only set constants (JVMS 2.9 and 5.5), and the program without them.
//!
//! Such a `<clinit>` makes the test that comes to the class first a writer that later ones read
//! from. Begin with `specs/Quiet.antt`; then `program.rt`, which puts the program together of the
//! flags of `quietness.rt` (each class by itself in `starts.rt`) and the opening values of
//! `leaving.rt`, which runs the code over a memory of statics (`memory.rt`).
//!
//! - `quiet` gives the program whose fields open with what these initialisers leave.
//! - `quiet_classes` and `quiet_text` say which classes these are.
//! - `typed_law`, `still_law` and `left_law`: it stays typed, and the machine does with such code
//!   as the definition says.
//!
//! That the program stays typed is a lemma and no second check: that would answer with faults that
//! never come. What an initialiser leaves is the run of the machine's own rows.
#![tactic(auto)]

mod leaving;
mod memory;
mod program;
mod quietness;
mod starts;
mod text;

ghost use Rattle.quiet_init.specs.{Opens.LeftLaw, StillLaw.StillLaw, TypedAgain.TypedAgain};

pub use program::{QuietProgram, quiet};
pub use quietness::quiet_classes;
pub use text::quiet_text;

/// The code of a quiet initialiser, run by the machine under whatever entries while its class is being initialised: as many steps
/// as it has instructions bring it to its end, it touches its own class alone, and leaves there what the definition says.
pub fn still_law()
    ensures { StillLaw }
{}

/// The code of a quiet initialiser has its rows in the world of the opening values, and what it leaves opens its fields by their types.
pub fn left_law()
    ensures { LeftLaw }
{}

/// The program without quiet initialisers is typed where the program is, and the stack maps of its methods give the same frames.
pub fn typed_law()
    ensures { TypedAgain }
{}
