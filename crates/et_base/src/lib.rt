//! Texts, code units, whole numbers and lists that every other crate speaks of.
//!
//! It has the whole-number arithmetic of JVMS 6.5, modified UTF-8 (JVMS 4.4.7), the spellings of
//! numbers and names in reports, and `NoMemory`, the error of a refused allocation. Begin with
//! `specs/Numbers.antt`, `specs/Utf.antt` and `specs/Answers.antt`, then `items.rt`.
//!
//! - `Items` is a list type that contracts see as the list of its items, and that a refused push
//!   leaves as it was.
//! - `units_of_modified` gives the units that bytes spell, and `BadUtf` exactly where they spell
//!   none.
//! - `add32` and its kind are the exact result, wrapped.
//!
//! After a refusal a free `push_` function may leave part of its text, so callers drop the text. A
//! change here has every crate that uses `et_base` proved again.
#![tactic(auto)]

mod items;
pub mod letters;
mod no_memory;
mod numbers;
mod text;
mod utf;
mod utf8;

pub use items::{Items, Text, Units, is_ascii_text};
pub use no_memory::NoMemory;
pub use numbers::{
    add32, add64, div32, div64, i2b, i2c, i2l, i2s, l2i, lcmp, mul32, mul64, neg32, neg64, rem32,
    rem64, shl32, shl64, shr32, shr64, sub32, sub64, ushr32, ushr64,
};
pub use text::{
    decimal_u64, decimal32, decimal64, name_text, push_decimal, push_name, push_quoted_bytes,
    push_quoted_units, push_signed, quote_bytes, quote_units,
};
pub use utf::{UtfFault, modified_of_units, push_modified, units_of_modified};
pub use utf8::bytes_of_units;
