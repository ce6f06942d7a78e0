//! What an index of a pool names.

ghost use Rattle.std.specs.Prelude.{◌≡◌, option_copied};
ghost use Rattle.class_pool.specs.Pool.{entry_of, is_text, is_class, is_pair, is_handled, text_of, class_name_of};

use crate::pool::Entry;
use et_base::Units;

/// The entry that this index names; none where it is 0, past the end, or the second slot of a long or
/// double.
pub fn entry_at(slots: &[Option<Entry>], index: u16) -> Option<&Entry>
    ensures { option_copied result ≡ entry_of slots.now index }
{
    if index == 0 {
        return None;
    }
    match slots.get(index as usize - 1) {
        Some(Some(entry)) => Some(entry),
        _ => None,
    }
}

/// Whether this index names a Utf8 entry.
pub fn names_text(slots: &[Option<Entry>], index: u16) -> bool
    ensures { result ≡ is_text (entry_of slots.now index) }
{
    matches!(entry_at(slots, index), Some(Entry::Utf8(_)))
}

/// Whether this index names a Class entry.
pub fn names_class(slots: &[Option<Entry>], index: u16) -> bool
    ensures { result ≡ is_class (entry_of slots.now index) }
{
    matches!(entry_at(slots, index), Some(Entry::Class { .. }))
}

/// Whether this index names a NameAndType entry.
pub fn names_pair(slots: &[Option<Entry>], index: u16) -> bool
    ensures { result ≡ is_pair (entry_of slots.now index) }
{
    matches!(entry_at(slots, index), Some(Entry::NameAndType { .. }))
}

/// Whether this index names an entry that a method handle of this kind may name (JVMS 4.4.8).
pub fn names_handled(slots: &[Option<Entry>], kind: u8, index: u16) -> bool
    ensures { result ≡ is_handled kind (entry_of slots.now index) }
{
    match entry_at(slots, index) {
        Some(Entry::Field { .. }) => 1 <= kind && kind <= 4,
        Some(Entry::Method { .. }) => 5 <= kind && kind <= 8,
        Some(Entry::InterfaceMethod { .. }) => kind == 6 || kind == 7 || kind == 9,
        _ => false,
    }
}

/// The text that this index names; none where it names no Utf8 entry.
pub fn text_at(slots: &[Option<Entry>], index: u16) -> Option<&Units>
    ensures { option_copied result ≡ text_of (entry_of slots.now index) }
{
    match entry_at(slots, index) {
        Some(Entry::Utf8(units)) => Some(units),
        _ => None,
    }
}

/// The name of the Class entry that this index names; none where it names no Class entry of a text.
pub fn class_name_at(slots: &[Option<Entry>], index: u16) -> Option<&Units>
    ensures { option_copied result ≡ class_name_of slots.now (entry_of slots.now index) }
{
    match entry_at(slots, index) {
        Some(Entry::Class { name }) => text_at(slots, *name),
        _ => None,
    }
}
