//! Types of stack places and locals, given frames, and in `specs/` what it is for a program to be
//! typed (JVMS 4.10.1).
//!
//! Begin with `specs/Typing.antt` (a typed program and its first fault), `specs/Rules.antt` (the
//! rules, each by itself), `specs/StackEffect.antt` (what each instruction needs and leaves) and
//! `specs/TypedState.antt`; then `vtype.rt`, `given.rt` and `assign.rt`.
//!
//! - `read_frames` gives the frames of a method's stack map, and `Rule8` exactly where it is
//!   malformed.
//! - `assignable` says whether one type may stand where another is asked.
//! - `Checked` is a typed program with its frames, and that it is typed is its invariant.
//!
//! `check_sound` walks over every case of the rules: a case that is changed is proved anew there.
//! The laws of assignability are clauses of functions with empty bodies (`laws.rt`).
#![tactic(auto)]

mod assign;
mod checked;
mod descriptors;
mod fault;
mod given;
mod laws;
mod places;
mod stack_effect;
mod vtype;

pub use assign::{assignable, object_assignable, same};
pub use checked::Checked;
pub use descriptors::{class_name, push_types};
pub use fault::{CheckFault, FrameFault};
pub use given::{
    code_places, copy_type, entry_types, given_frames, is_constructor, object_of, padded,
    read_frames, spread,
};
pub use laws::{itself_law, reference_law, started_law, transitive_law};
pub use places::Places;
pub use stack_effect::{LocalUpdate, OperandConstraint, Reading, StackEffect, Substitution};
pub use vtype::{Frame, VType};
