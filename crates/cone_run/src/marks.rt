//! What becomes of a test when one of its writers is left out.

/// What becomes of a test: its verdict and output stay the same, or they change, or some test passes its budget.
#[derive(Clone, Copy, PartialEq, Eq)]
pub enum Effect {
    Same,
    Changed,
    Over,
}

/// What becomes of a test when this raw writer of it is left out of its cone. Both are numbered from 1.
#[derive(Clone, Copy, PartialEq, Eq)]
pub struct Mark {
    pub writer: u32,
    pub test: u32,
    pub effect: Effect,
}
