//! The files and properties of a run, as two finite maps from names to texts.
//!
//! Begin with `specs/Stored.antt`, what contracts see of a store, then `store.rt`; `texts.rt` is
//! one of the two maps.
//!
//! - `Store::get` gives the text at a name, none where there is none; it takes no memory.
//! - `Store::put` puts a text at a name or takes it off, and after a refusal the store is as
//!   before.
//! - `Store::clear` takes all names of both parts away.
//!
//! A name that was taken off keeps its place, and the maps are in the order in which names came
//! (`indexmap`), as the world's lists are. So a store's list equals the world's, and no relation is
//! needed between them.
#![tactic(auto)]

mod store;
mod texts;

pub use store::{Part, Store};
