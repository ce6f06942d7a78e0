//! What loading gives.

use jvm_model::Names;
use order_law::Prints;
use type_frames::Checked;

/// A suite's checked program, the names that reports print, and the sums that name the suite and its files.
#[derive(Drop)]
pub struct Loaded {
    pub checked: Checked,
    pub names: Names,
    pub prints: Prints,
}
