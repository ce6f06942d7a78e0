//! The form of an instruction, its reference resolved, and how it uses the entry that it names
//! (JVMS 6.5).
//!
//! It looks at one instruction and at what its pool entry stands for; `class_link` puts it together
//! with the look-ups. Begin with `specs/Forms.antt` and `specs/Uses.antt`, then `references.rt` for
//! the two enums `Target` and `Use`, `forms.rt` and `fitting.rt`.
//!
//! - `form_of` gives the `Instr` of an instruction whose entry stands for this target.
//! - `use_of` gives how an opcode uses its entry, none where it names no class and no member.
//! - `fits` says whether a class may use an entry in this way.
//!
//! An instruction that is added has its form in `specs/Forms.antt` and its use in
//! `specs/Uses.antt`.
#![tactic(auto)]

mod fitting;
mod forms;
mod operands;
mod references;
mod uses;

pub use fitting::fits;
pub use forms::form_of;
pub use operands::index_in;
pub use references::{Target, Use, named_class};
pub use uses::use_of;
