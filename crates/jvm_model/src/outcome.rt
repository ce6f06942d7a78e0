//! How a step goes on, and how a test ends.

use crate::values::Value;
use et_base::{Text, Units};

/// How a step goes on after the part of it that one call makes.
///
/// `Fault` says that the step throws by itself a new throwable of this class, `Raise` that this throwable is raised,
/// `Enter` that this method is entered, `Leave` that the last entry was left, and `Over` that the step's cost is
/// above the units left and the step isn't made.
#[derive(Clone, Copy, PartialEq, Eq)]
pub enum Next {
    Go,
    Fault { class: u32 },
    Raise(Value),
    Enter { method: u32 },
    Leave,
    Over,
}

/// The class of the throwable that decided a verdict, and its message where one is set.
#[derive(Drop)]
pub struct Cause {
    pub class: u32,
    pub message: Option<Units>,
}

/// How a test ended: `Failed` by an `AssertionError` or a subclass of it, `Error` by any other throwable.
#[derive(Drop)]
pub enum Verdict {
    Passed,
    Failed(Cause),
    Error(Cause),
}

/// What one test gives: its verdict, the bytes that it printed and the units that it spent.
#[derive(Drop)]
pub struct Outcome {
    pub verdict: Verdict,
    pub output: Text,
    pub units: u64,
}

/// What a test has of its own beside its entries: the bytes printed so far, its next clock answer and its random word.
#[derive(Drop)]
pub struct Own {
    pub output: Text,
    pub clock: i64,
    pub random: u64,
}
