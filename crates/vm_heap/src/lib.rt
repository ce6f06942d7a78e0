//! The memory of the product: the cells of all objects in one list, set back without taking memory.
//!
//! Begin with `specs/Objects.antt`, how objects are read off headers and cells, and
//! `specs/Held.antt`, what a heap is seen as; then `heap.rt` and `region_memory.rt`, the `Memory`
//! that stands on it.
//!
//! - `RegionMemory::opening` is the memory of a linked program before its first test.
//! - `RegionMemory` keeps the clauses of `Memory`, over headers, cells and a store of changes.
//! - `RegionMemory::reset` gives the opening world again and takes no memory.
//!
//! Headers and cells are vectors, as the way to a cell of a region leads through the address of its
//! chunk. A field's cell is one addition away: the heap's invariant has the table of places and the
//! layouts of one program. A new object's cells are appended one by one, and making one is inlined.
#![tactic(auto)]

mod changes;
mod header;
mod headers;
mod heap;
mod region_memory;

pub use region_memory::RegionMemory;
