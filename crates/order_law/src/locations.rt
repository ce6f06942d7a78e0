//! Equality of locations.

ghost use Rattle.std.specs.Prelude.{◌≡◌};
ghost use Rattle.jvm_model.specs.World.{same};

use jvm_model::Location;

/// Whether two locations are the same one. Takes no memory.
pub fn same_location(a: &Location, b: &Location) -> bool
    ensures { result ≡ same a.now b.now }
{
    match (a, b) {
        (Location::Static { field: x }, Location::Static { field: y }) => *x == *y,
        (Location::Init { class: x }, Location::Init { class: y }) => *x == *y,
        (Location::Head { object: x }, Location::Head { object: y }) => *x == *y,
        (
            Location::Field {
                object: x,
                field: f,
            },
            Location::Field {
                object: y,
                field: g,
            },
        ) => { *x == *y && *f == *g }
        (
            Location::Elem {
                object: x,
                index: i,
            },
            Location::Elem {
                object: y,
                index: j,
            },
        ) => { *x == *y && *i == *j }
        (Location::Text { object: x }, Location::Text { object: y }) => *x == *y,
        (Location::File { name: x }, Location::File { name: y }) => x.as_slice() == y.as_slice(),
        (Location::Prop { name: x }, Location::Prop { name: y }) => x.as_slice() == y.as_slice(),
        _ => false,
    }
}
