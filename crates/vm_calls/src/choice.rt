//! What a call enters.

/// The method that a call enters, or the class of the error that it throws.
#[derive(Clone, Copy, PartialEq, Eq)]
pub enum Choice {
    Chosen { method: u32 },
    Failing { class: u32 },
}
