//! Loading of a suite: its text, and what the text names.
//!
//! Begin with `specs/SuiteForm.antt`, what a suite text says or its first faulty line, and
//! `specs/Loading.antt`, the whole; then `whole_suite.rt`, `suite_reading.rt` and `depot_files.rt`.
//!
//! - `load` gives the checked program, the names that reports print and the suite's sums, or the
//!   first fault: of the text, the class files in order, linking, test lines, the check.
//! - `loads_once` says that files have exactly one such answer.
//!
//! Loading is a relation, as linking is. A class file's bytes are dropped before the next is read,
//! so the sums take each file in as it comes. A depot that fails is named by the file of its last
//! read that failed.
#![tactic(auto)]

mod content;
mod cut;
mod depot_files;
mod first_word;
mod laws;
mod line_forms;
mod lines_before;
mod linking;
mod load_fault;
mod loaded;
mod name_set;
mod names;
mod numbers;
mod print_sums;
mod report_names;
mod suite_line;
mod suite_reading;
mod suite_text;
mod test_line;
mod whole_suite;

pub use laws::loads_once;
pub use load_fault::LoadFault;
pub use loaded::Loaded;
pub use names::{is_depot_name, is_test_name};
pub use suite_reading::read_suite;
pub use suite_text::{FileLine, SuiteRefusal, SuiteText, TestLine, Why};
pub use whole_suite::load;
