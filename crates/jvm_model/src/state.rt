//! Parts of a test's state.

use crate::values::Value;

/// What an entry is: a frame of a method (JVMS 2.6) or the initialisation of a class, with whether its `<clinit>` was
/// entered or there is none to enter. `Absent` stands for the top of an empty list alone.
#[derive(Clone, Copy, PartialEq, Eq)]
pub enum EntryKind {
    Absent,
    InMethod,
    InClass { entered: bool },
}

/// What the driver of a test does when no entry is left. `First`: a static method is called, or the object is made;
/// `Made`: `<init>` is called on the object; `Built`: `setUp` is called, where there is one; `SetUp`: the method is
/// called; `Called`: `tearDown` is called, where there is one; `Last`: the test is judged. `thrown` is the first
/// throwable that came out of what was called.
#[derive(Clone, Copy, PartialEq, Eq)]
pub enum Stage {
    First,
    Made { object: u64 },
    Built { object: u64 },
    SetUp { object: u64 },
    Called { object: u64, thrown: Option<Value> },
    Last { thrown: Option<Value> },
}
