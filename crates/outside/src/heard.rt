//! What a real folder answered so far.

use et_base::Text;
use std::snapshot::Snapshot;

/// What a read answered of the file of a name. The names and bytes take no memory: they are kept for contracts alone.
#[derive(Drop)]
pub(crate) enum Heard {
    /// These are its bytes.
    Bytes(Snapshot<Text>, Snapshot<Vec<u8>>),
    /// There is none.
    Absent(Snapshot<Text>),
    /// It has more bytes than this.
    Longer(Snapshot<Text>, u64),
}
