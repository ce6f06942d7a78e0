//! The code of a method, taken to instructions with their operands, exactly (JVMS 4.7.3, 4.9.1 and
//! chapter 6).
//!
//! Begin with `specs/CodeGrammar.antt`, which bytes spell which code, then `specs/Decoding.antt`,
//! the first fault of a reading; then `decoding.rt` and `instructions.rt`.
//!
//! - `decode` gives the instructions exactly where the bytes spell a code, else the first fault.
//! - `code_at` is the same inside of a class file; it names the method and gives the `Starts` too.
//! - `shape_of` gives the form of an opcode's operands, none for `wide` and outside of the profile.
//!
//! Up to two operands stand in the instruction itself (`Args`), which spares memory for almost
//! every one. The form of an opcode is a cell of a table that equals its definition by computation:
//! as tests of ranges it took a tenth of the time of reading.
#![tactic(auto)]

mod args;
mod decoding;
mod instructions;
mod judging;
mod opcodes;
mod operands;
mod place;
mod starts;
mod switches;

pub use args::Args;
pub use decoding::{Code, CodeFault, code_at, decode};
pub use instructions::RawOp;
pub use judging::dimensions;
pub use opcodes::{Constant, Named, Shape, shape_of, takes_local};
pub use starts::Starts;
