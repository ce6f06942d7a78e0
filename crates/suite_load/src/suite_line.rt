//! What a good line of a suite text says.

use crate::suite_text::TestLine;
use et_base::{Text, Units};

/// What a line says. A file has its name and what it contains.
#[derive(Drop)]
pub enum SuiteLine {
    Header,
    Budget(u64),
    Class(Text),
    File(Text, Units),
    Test(TestLine),
    End,
}
