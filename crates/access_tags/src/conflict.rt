//! What a test touched, and its conflicts with earlier tests.

use order_law::EdgeKind;

/// A part of the memory: a static, a class state, the head, a field, an element or the text of an object, or a file or
/// property by the number of its name.
#[derive(Clone, Copy)]
pub enum LocationKey {
    Static { field: u32 },
    Init { class: u32 },
    Head { object: u64 },
    Field { object: u64, field: u32 },
    Elem { object: u64, index: u32 },
    Text { object: u64 },
    Named { name: u32 },
}

impl LocationKey {
    ghost use Rattle.std.specs.Prelude.{◌≡◌, []};
    ghost use Rattle.order_law.specs.Walk as walks;
    ghost use Rattle.access_tags.specs.Numbering.{is_static, located};
    ghost use Rattle.access_tags.specs.Paths.{object_of};

    /// Whether it is this static.
    pub fn is_static(self, field: u32) -> bool
        ensures { result ≡ is_static self field }
    {
        match self {
            LocationKey::Static { field: other } => other == field,
            _ => false,
        }
    }

    /// The object that it is a part of.
    pub fn object(self) -> Option<u64>
        ensures { result ≡ object_of self }
    {
        match self {
            LocationKey::Head { object } => Some(object),
            LocationKey::Field { object, .. } => Some(object),
            LocationKey::Elem { object, .. } => Some(object),
            LocationKey::Text { object } => Some(object),
            _ => None,
        }
    }

    /// The object whose cell it is: a field or an element.
    pub fn holder(self) -> Option<u64>
        ensures { result ≡ walks.holder (located [] self) }
    {
        match self {
            LocationKey::Field { object, .. } => Some(object),
            LocationKey::Elem { object, .. } => Some(object),
            _ => None,
        }
    }
}

/// A part that was touched, and its number: of a name among the names, and of any other part among those.
#[derive(Clone, Copy)]
pub struct Touched {
    pub spot: LocationKey,
    pub at: u64,
}

/// A conflict with an earlier test.
#[derive(Clone, Copy)]
pub struct Conflict<P> {
    pub kind: EdgeKind,
    pub earlier: u32,
    pub place: P,
}
