//! Tests of the top call over depots and sinks that fail, and of workers in threads.
//!
//! Begin with `asking.rt`, which asks `electrictest`'s `electric_plain` about files in memory and
//! keeps its clause on statuses; then `tests.rt` (failing depots and sinks, class files that are
//! cut), `threads.rt` (workers) and `failing.rt` (both).
//!
//! - `turns.rt` is a `Gate` that decides which of two workers goes first, and notes whom it let
//!   pass.
//! - `outsides.rt` has sinks that fail at chosen calls.
//!
//! A crate with tests is proved twice, so these stand in a crate of their own above all others.
//! Whole runs are folders of `examples`, which the built program runs and which cost no proof.
#![tactic(auto)]

pub mod asking;
#[cfg(test)]
mod failing;
#[cfg(test)]
mod files;
#[cfg(test)]
mod outsides;
#[cfg(test)]
mod tests;
#[cfg(test)]
mod threads;
#[cfg(test)]
mod turns;
