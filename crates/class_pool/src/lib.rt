//! The constant pool of a class file, read exactly and written, and the reading that all parts of a
//! class file share.
//!
//! JVMS 4.4. Begin with `specs/PoolGrammar.antt`, which bytes spell which pool, then
//! `specs/Pool.antt`, how it is read and the first fault; then `pool.rt` and `constant_pool.rt`.
//! `specs/Grammar.antt` and `specs/Reading.antt` serve `code_decode` and `class_reader` too.
//!
//! - `read_pool` gives the pool at an offset exactly where the bytes spell one, else the first
//!   fault.
//! - `Pool::entry` gives the entry of an index, none exactly where the index names none.
//! - `write_pool` gives bytes that are read again as the same pool.
//!
//! That each index names an entry of a kind that it may name is an invariant of `Pool`. A pool
//! keeps no table of what its texts are, so `Pool::new` takes no memory.
#![tactic(auto)]

mod constant_pool;
pub mod fault;
pub mod fields;
pub mod lookup;
pub mod names;
mod offsets;
mod passes;
pub mod pool;
pub mod write;

pub use constant_pool::{Pool, pool_at};
pub use fault::{Fault, ReadError};
pub use offsets::{PoolFault, read_pool};
pub use pool::Entry;
pub use write::{put_pool, write_pool};
