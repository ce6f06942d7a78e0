//! Memories of a run: what stands for a world and follows the touches of it.
//!
//! Begin with `specs/Refines.antt`, the contract of every row over a memory, and
//! `specs/Trace.antt`, what a memory follows; then `memory.rt`, the trait, and `plain.rt`, the
//! plainest of its memories.
//!
//! - Each access of `Memory` gives or sets what is at one location that is there, and adds its
//!   touch.
//! - `Memory::make` makes an object with default cells; the memory keeps its program for their
//!   layouts.
//! - `PlainMemory::opening` is the memory of a linked program before its first test.
//!
//! After a refusal nothing is said of a memory's world. A contract of a row is an equation between
//! ends, not an analysis of cases, so that contracts compose.
#![tactic(auto)]

mod layouts;
mod memory;
mod noted;
mod object;
mod plain;
mod text_cell;
mod trace;

pub use layouts::{Layouts, element_default};
pub use memory::Memory;
pub use noted::Noted;
pub use plain::{PlainMemory, opening_states, opening_statics, opening_store};
pub use text_cell::TextCell;
pub use trace::TraceMemory;
