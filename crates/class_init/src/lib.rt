//! Initialisation of classes and interfaces (JVMS 5.5).
//!
//! Begin with `jvm_model/specs/Initialise.antt`, the steps on an initialisation entry, then
//! `specs/Uses.antt`, what contracts say of the use of a class, and `uses.rt`, `finishing.rt` and
//! `failing.rt`.
//!
//! - `begin_use` answers whether the instruction goes on (Ready), an entry was pushed (Begun), or
//!   the step throws.
//! - `finish` makes a step on the initialisation entry at the top.
//! - `fail` raises a throwable into that entry, and the class is Erroneous.
//!
//! All three hold over any memory. The use of a class is no row, as an instruction goes on after
//! it, and so has a contract of its own, `RefinesUse`. `finish` takes each price off a copy of the
//! units left, so that no sum of prices is made that could pass 64 bits.
#![tactic(auto)]

mod failing;
mod finishing;
mod starting;
mod uses;

pub use failing::fail;
pub use finishing::finish;
pub use uses::{Use, begin_use};
