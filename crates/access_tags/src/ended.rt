//! What is kept of a test that ended.

use crate::conflict::LocationKey;
use crate::rows::Row;
use et_base::Items;

/// A test that ended: the rows of its edges, the walk to the object of each part that these show where walks are kept, how
/// many objects there were then, and whether each of its exposed reads is of the static `System.out`.
#[derive(Drop)]
pub struct Ended {
    pub rows: Items<Row>,
    pub walks: Items<Items<Items<LocationKey>>>,
    pub size: u64,
    pub alone: bool,
}
