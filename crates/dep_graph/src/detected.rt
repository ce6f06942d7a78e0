//! What a detection run found: the record, and what reports show of it.

ghost use Rattle.std.specs.Prelude.{◌≡◌, length};

use et_base::Items;
use order_law::{Record, Shown};

/// The record of a detection run, and what is shown of each of its edges, in their order.
#[derive(Drop)]
pub struct Detected {
    pub kept: Record,
    pub shown: Items<Shown>,
    ghost each: { length shown ≡ length kept.edges },
}
