//! The law of quiet initialisers: taken out of the run, they change no test's verdict and output,
//! and no test costs more.
//!
//! Begin with `specs/QuietLaw.antt`, the statement; what a quiet initialiser is, and the program
//! without them, is said in the crate `quiet_init`. The crate has one call, without code.
//!
//! - `quiet_law`: where a typed suite ends within its limits and no step of it throws a
//!   `StackOverflowError` by itself, so does the program without quiet initialisers, with these
//!   verdicts and outputs and no more units.
//!
//! The proof sets the two runs beside one another. Where the program begins a class that it alone
//! has to start, it goes on alone until that class is done; else both make one step
//! (`proofs/Stutter`), over worlds that are alike but for those classes.
#![tactic(auto)]

ghost use Rattle.quiet_law.specs.QuietLaw.{QuietLaw};

/// A typed program is detected, and in its whole run, in order, the machine makes no StackOverflowError (JVMS 6.3). Then
/// the program without quiet initialisers is detected too, and there each test has the same verdict and the same output,
/// and at most as many units.
pub fn quiet_law()
    ensures { QuietLaw }
{}
