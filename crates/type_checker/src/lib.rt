//! The check of programs: type checking with stack maps (JVMS 4.10.1).
//!
//! What it decides is defined in `type_frames`: begin with `type_frames/specs/Typing.antt`, then
//! `checking.rt` (the programs and their methods), `walk.rt` (one method) and `judge.rt` and
//! `rules.rt` (one instruction). `specs/Steps.antt` says what the parts of a walk answer.
//!
//! - `check` takes a linked program and gives it as `Checked` exactly where it is typed, else its
//!   first fault, but for want of memory.
//!
//! Places of a code are looked up in a table that is proved to agree with the lists of the
//! definition, and the running frame is changed in place. A long that is stored sets its second
//! place first, since setting a place cuts a long that begins before it.
#![tactic(auto)]

mod after;
mod build;
mod checking;
mod context;
mod frame_type;
mod judge;
mod maps;
mod members;
mod moves;
mod rule;
mod rules;
mod sides;
mod walk;

pub use checking::check;
pub use type_frames::CheckFault;
