//! Where the names of attributes stand in a pool.

ghost use Rattle.std.specs.Prelude.{◌≡◌, ◌+◌, ◌<◌, ◌^◌, length};
ghost use Rattle.class_reader.specs.Names.{is_text_of};
ghost use Rattle.class_write.specs.Spelling.{index_of, names_of};

use class_pool::{Entry, Pool};
use et_base::is_ascii_text;

/// The pool indices of the names of the attributes that are written; 0 where the pool lacks one.
#[derive(Clone, Copy)]
pub struct Names {
    /// `ConstantValue`.
    pub constant_value: u16,
    /// `Code`.
    pub code: u16,
    /// `StackMapTable`.
    pub stack_map: u16,
}

fn is_text_of(slot: &Option<Entry>, text: &[u8]) -> bool
    ensures { result ≡ is_text_of text.now slot.now }
{
    match slot {
        Some(Entry::Utf8(units)) => is_ascii_text(units.as_slice(), text),
        _ => false,
    }
}

// The index of the first entry that is this text.
fn index_of(slots: &[Option<Entry>], text: &[u8]) -> u16
    requires { length slots.now + 1 < 2 ^ 16 }
    ensures { result ≡ index_of slots.now text.now }
{
    for i in 0..slots.len() {
        if is_text_of(&slots[i], text) {
            return i as u16 + 1;
        }
    }
    0
}

fn names_in(slots: &[Option<Entry>]) -> Names
    requires { length slots.now + 1 < 2 ^ 16 }
    ensures { result ≡ names_of slots.now }
{
    Names {
        constant_value: index_of(slots, b"ConstantValue"),
        code: index_of(slots, b"Code"),
        stack_map: index_of(slots, b"StackMapTable"),
    }
}

/// The first indices that name these texts.
pub fn names_of(pool: &Pool) -> Names
    ensures { result ≡ names_of pool.now }
{
    names_in(pool.slots())
}
