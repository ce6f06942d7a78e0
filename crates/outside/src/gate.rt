//! A gate that a worker passes before each test.

/// What a worker calls before it runs a test. It promises nothing.
pub trait Gate {
    /// Called by the worker that is about to run the test; both are numbered from 1.
    fn enter(&self, worker: u32, test: u32);
}

/// The gate that lets everything pass.
#[derive(Clone, Copy, PartialEq, Eq)]
pub struct OpenGate {}

impl OpenGate {
    /// An open gate.
    pub fn new() -> OpenGate {
        OpenGate {}
    }
}

impl Gate for OpenGate {
    fn enter(&self, _worker: u32, _test: u32) {}
}
