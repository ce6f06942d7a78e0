//! Cells that stay where they are while their list grows.
//!
//! The cells stand in chunks of 65,536, so that growing moves none of them; contracts see one list.
//! Begin with `specs/Chunks.antt`, which joins the chunks, then `region.rt`; `chunk.rt` is one of
//! them.
//!
//! - `Region::grow` and `Region::push` append cells, or leave the list as it was.
//! - `Region::get` and `Region::set` read and write one cell, whose place is below the length;
//!   `Region::fill` writes all from one place up to another, and `Region::run` lends those beside
//!   one another.
//! - `Region::release` cuts the list at a `mark` and keeps the chunks for later growth.
//!
//! `push` is inlined always; where a chunk is added it hands on a copy of the content, which so
//! stays in registers elsewhere. The heap keeps its cells in vectors, since here the way to a cell
//! leads through its chunk's address.
#![tactic(auto)]

mod chunk;
mod region;

pub use region::{Block, Mark, Region};
