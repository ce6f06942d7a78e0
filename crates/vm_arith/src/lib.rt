//! The forms of instructions that touch nothing (JVMS 6.5): one function for each form or family,
//! on the stack alone.
//!
//! Begin with `jvm_model/specs/RowsArith.antt`, `jvm_model/specs/RowsMoves.antt` and
//! `jvm_model/specs/RowsBranches.antt`, the rows, and `specs/Pure.antt`, what contracts say of such
//! forms; then `step.rt`, and `numbers.rt`, `moves.rt` and `branches.rt`.
//!
//! - `arith` makes the step of any of these forms: it counts 1, or nothing where it throws, and
//!   answers Over where no unit is left.
//! - `binary_ints`, `load` and the others leave the operands and locals that their row says.
//!
//! The functions of one form know neither program nor place, so that their clauses hold for all; a
//! run keeps the place and writes it where it is asked for.
#![tactic(auto)]

mod branches;
mod moves;
mod numbers;
mod operations;
mod step;

pub use branches::{if_ints, if_null, if_refs, if_zero, lookup_switch, table_switch};
pub use moves::{
    constant, dup, dup_x1, dup_x2, dup2, dup2_x1, dup2_x2, load, monitor, pop, pop2, store, swap,
};
pub use numbers::{binary_ints, binary_longs, compare, convert, increase, neg_int, neg_long};
pub use step::arith;
