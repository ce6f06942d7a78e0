//! Which tests are run again after class files changed.
//!
//! A version 2 record keeps a sum of each class file, and of each test which of them it may reach
//! and whether it is settled. With the sums now, the tests picked are those that reach a changed
//! file, and behind the first of these each that isn't settled, or each at all where some code now
//! puts the static `System.out`. Begin with `specs/Pick.antt`, what is picked, and
//! `specs/ImpactLaw.antt`.
//!
//! - `changed` lists the files, `impact` the tests, and `impact_text` writes both.
//! - `impact_law`: where both runs end within their limits and equal sums mean equal files, every
//!   other test has the report lines that it had. `carried_law` and `unpicked_law` are its halves.
//!
//! Classes are matched by numbers, as the files stand in the order of one suite text, and fields,
//! methods and string constants by names and contents.
#![tactic(auto)]

mod hits;
mod laws;
mod picking;
mod text;

pub use laws::{carried_law, impact_law, unpicked_law};
pub use picking::{changed, impact};
pub use text::impact_text;
