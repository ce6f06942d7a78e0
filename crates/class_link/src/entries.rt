//! The texts that the indices of a pool name.

ghost use Rattle.std.specs.Prelude.{◌≡◌};
ghost use Rattle.class_link.specs.ClassNames.{text_at, name_at};

use class_pool::{Entry, lookup};

/// The text that an index names, empty where it names none.
pub(crate) fn text_at(slots: &[Option<Entry>], index: u16) -> &[u16]
    ensures { result.now ≡ text_at slots.now index }
{
    match lookup::text_at(slots, index) {
        Some(units) => units.as_slice(),
        None => &[],
    }
}

/// The name of the Class entry that an index names, empty where it names none.
pub(crate) fn name_at(slots: &[Option<Entry>], index: u16) -> &[u16]
    ensures { result.now ≡ name_at slots.now index }
{
    match lookup::class_name_at(slots, index) {
        Some(units) => units.as_slice(),
        None => &[],
    }
}
