use jvm_model::{Body, Placed};

/// An instruction of a method's code, the first of the rest of it.
#[derive(Clone, Copy)]
pub(crate) struct InstrCursor<'p> {
    pub body: &'p Body,
    pub rest: &'p [Placed],
}
