//! The definitions of the machine: its plain types, and in `specs/` the world, the rows of the
//! table of steps, one test and lists of tests.
//!
//! Begin with `specs/Suite.antt` (one test and lists), `specs/Step.antt` (the step), one file of
//! rows, say `specs/RowsFields.antt`, then `specs/Access.antt` (what a row does to a world) and
//! `specs/World.antt`. `docs/DEFINITIONS.md` is the guide.
//!
//! The sources are the types (`instr.rt`, `program.rt`, `values.rt`) and the questions to a program
//! (`questions.rt`), each of which answers its definition; of these only `layout` takes memory.
//!
//! A row is a program of accesses, and its total run is what it means; code is proved against
//! `specs/View.antt`, where units count down, and `proofs/Bridges` ties the two. Suites that are
//! computed in the proofs refuse some wrong rows. A change here has nearly all be proved again.
#![tactic(auto)]

mod builtin;
mod descriptors;
mod instr;
mod library;
mod narrowing;
mod outcome;
mod program;
mod questions;
mod state;
mod values;

pub use builtin::{
    ABSTRACT_METHOD_ERROR, ARITHMETIC_EXCEPTION, ARRAY_INDEX_EXCEPTION, ARRAY_STORE_EXCEPTION,
    ASSERTION_ERROR, BUILTIN_COUNT, CLASS_CAST_EXCEPTION, CLINIT, ERROR,
    EXCEPTION_IN_INITIALIZER_ERROR, INCOMPATIBLE_CLASS_CHANGE_ERROR, INIT, INSTANTIATION_ERROR,
    MESSAGE, NEGATIVE_ARRAY_SIZE_EXCEPTION, NO_ARGUMENTS, NO_CLASS_DEF_FOUND_ERROR,
    NULL_POINTER_EXCEPTION, OBJECT, PRINT_STREAM, STACK_OVERFLOW_ERROR, STRING, STRING_BUILDER,
    STRING_INDEX_EXCEPTION, THROWABLE,
};
pub use descriptors::{parameter_count, parameters, return_type};
pub use instr::{Cell, Conv, IfTest, Instr, Op, Sort};
pub use library::{ClassDef, FieldDef, MethodDef, Native};
pub use narrowing::{default_of, narrow_int};
pub use outcome::{Cause, Next, Outcome, Own, Verdict};
pub use program::{
    Body, ClassRec, FieldRec, FrameRec, Handler, MethodRec, Names, Placed, Program, TestEntry,
    TypeRec,
};
pub use questions::class_bound;
pub use state::{EntryKind, Stage};
pub use values::{Base, Head, InitState, Kind, Location, Touch, Value};
