//! What a step asks of a program, one index away.
//!
//! Begin with `specs/Numbers.antt` (instructions by byte place), `specs/Methods.antt` (what calls
//! ask) and `specs/FieldPlaces.antt`; then `tables.rt`, which puts the tables together.
//!
//! - `Tables::of` makes the tables of a linked program; contracts see them as that program.
//! - Each question of `Tables` answers the definition's, as `Tables::number` and
//!   `Tables::kind_fits` do.
//! - `FieldPlaces::place_of` gives the place of a field, the same in all classes that have it.
//!
//! Questions of the hot loop are `inline(always)`; `Tables::index` gives a number without a test,
//! where an instruction begins. What is one load from the program stays there. Default interfaces
//! are found by a walk that notes each once, as the definition's list may be long.
#![tactic(auto)]

mod field_places;
mod hierarchy;
mod init_plan;
mod interfaces;
mod methods;
mod numbers;
mod tables;
mod trivial;

pub use field_places::FieldPlaces;
pub use init_plan::Part;
pub use methods::CallDescriptor;
pub use tables::Tables;
