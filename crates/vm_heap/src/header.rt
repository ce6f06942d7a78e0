use jvm_model::Head;

/// What stands of an object apart from its cells and its text: its head, and where its cells begin.
#[derive(Clone, Copy, PartialEq, Eq)]
pub struct Header {
    pub head: Head,
    pub start: usize,
}
