//! Tests of what no command does with the machine and its memories.
//!
//! Begin with `suites.rt`, which loads three suites from files in memory and asks a `Question` of
//! one, and `memories.rt`, which runs their tests over each memory: no command runs over
//! `PlainMemory` or `TraceMemory`.
//!
//! - `resets.rt` sets a machine back after a refusal, and goes on with it.
//! - `steps.rt`, `rows.rt`, `tables.rt` and `stack_maps.rt` make single calls of the machine and of
//!   the check.
//!
//! What these calls answer is compared with what a report on the suites says, or with the bytecode.
//!
//! A crate with tests is proved twice, so these stand in a crate of their own. It has no edit that
//! must fail: outside its tests it has no code, and edits are tried without tests.
#![tactic(auto)]

#[cfg(test)]
mod memories;
#[cfg(test)]
mod resets;
#[cfg(test)]
mod rows;
#[cfg(test)]
mod stack_maps;
#[cfg(test)]
mod steps;
#[cfg(test)]
mod suites;
#[cfg(test)]
mod tables;
