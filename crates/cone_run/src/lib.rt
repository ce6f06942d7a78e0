//! Tests run after just the tests that they need, and which of these they can do without.
//!
//! The cone of a test is the read-after-write closure of it alone, by the edges of a record, in
//! suite order. Begin with `specs/Cones.antt` (cones, and how they are refused) and
//! `specs/Marks.antt` (effects); then `runs.rt`, `cone_pool.rt` and `marking.rt`.
//!
//! - `cones` runs the cone of each selected test on workers, each on a machine that was set back,
//!   and gives its piece; `cones_text` reports on them.
//! - `manifest` runs, for each raw edge, the cone of its test without its writer, and says whether
//!   the test's report stays the same; `manifest_text` writes that.
//! - `Tally` has the lines of tests and the counts of their verdicts, for reports on any tests.
//! - `cone_law`: by the suite's own record each cone gives its test the outcome of the suite's
//!   order.
//!
//! Workers take cones by their places and put pieces into a book behind one lock, whose type keeps
//! that each piece's list is the cone of its test: so a machine that wasn't set back, or a test
//! that was run alone, can't be posted. What is left after the join, the caller runs in suite
//! order; so a fault is that of the first cone that gives nothing, whatever the schedule was.
#![tactic(auto)]

mod book;
mod cone_pool;
mod cone_report;
mod effects;
mod jobs;
mod laws;
mod mark_report;
mod marking;
mod marks;
mod runs;

pub use cone_pool::cones;
pub use cone_report::{all_passed, cones_text};
pub use laws::cone_law;
pub use mark_report::manifest_text;
pub use marking::manifest;
pub use marks::{Effect, Mark};
