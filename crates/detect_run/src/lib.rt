//! The detection run: the whole suite in order on a memory with tags, and the record of what its
//! tests touched.
//!
//! Begin with `specs/SuiteRun.antt`, the run within the suite's limit of units, and
//! `specs/Detection.antt`, what is found; then `suite_run.rt` and `detection.rt`.
//!
//! - `detect` gives the record of version 2 of a checked program's own run, with the first
//!   locations of each edge; `detect_record` gives the record alone.
//! - `run_suite` gives the tests' outcomes over any memory, or names the first test that passes its
//!   budget or the rest of the suite's.
//!
//! That a memory with tags stands for the suite's own order is shown here, as `access_tags` knows
//! touches alone. Texts of locations are in a record's form by their types, so the code that writes
//! an edge reads them once.
#![tactic(auto)]

mod detection;
mod fault;
mod suite_run;

pub use detection::{detect, detect_record};
pub use fault::DetectFault;
pub use suite_run::run_suite;
