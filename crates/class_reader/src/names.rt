//! What an index of a class file must name, place by place.

ghost use Rattle.std.specs.Prelude.{◌≡◌, ◌≤◌, true, IfOk};
ghost use Rattle.class_pool.specs.{Pool.entry_of, Pool.is_text, Pool.is_class, Reading.Gives};
ghost use Rattle.class_reader.specs.Names.{is_text_of, own_units, has_room, is_small, begins_array, is_own_class, has_form, fits_constant, fits_flags};
ghost use Rattle.class_reader.specs.Indices.{index_at, form_at};

use crate::texts::Texts;
use class_pool::fault::wants;
use class_pool::fields::u16_at;
use class_pool::lookup::{names_class, names_text};
use class_pool::{Entry, Fault, Pool, ReadError};
use et_base::is_ascii_text;
use et_base::letters::ARRAY;

/// Whether the index names this text.
pub fn is_text_of(pool: &Pool, index: u16, text: &[u8]) -> bool
    ensures { result ≡ is_text_of text.now (entry_of pool.now index) }
{
    match pool.entry(index) {
        Some(Entry::Utf8(units)) => is_ascii_text(units.as_slice(), text),
        _ => false,
    }
}

fn begins_array(pool: &Pool, index: u16) -> bool
    ensures { result ≡ begins_array (entry_of pool.now index) }
{
    match pool.entry(index) {
        Some(Entry::Utf8(units)) => units.as_slice().first() == Some(&ARRAY),
        _ => false,
    }
}

/// Whether the index names a class that is no array.
pub fn names_own_class(pool: &Pool, index: u16) -> bool
    ensures { result ≡ is_own_class pool.now (entry_of pool.now index) }
{
    match pool.entry(index) {
        Some(Entry::Class { name }) => !begins_array(pool, *name),
        _ => false,
    }
}

fn own_units(flags: u16) -> u16
    ensures { result ≡ own_units flags }
{
    if flags & 0x0008 == 0 { 1 } else { 0 }
}

fn has_room(own: u16, units: Option<u8>) -> bool
    requires { own ≤ 1 }
    ensures { result ≡ has_room own units }
{
    match units {
        None => false,
        Some(units) => own + units as u16 <= 255,
    }
}

fn is_small(pool: &Pool, descriptor: u16) -> bool
    ensures { result ≡ is_small (entry_of pool.now descriptor) }
{
    is_text_of(pool, descriptor, b"I")
        || is_text_of(pool, descriptor, b"S")
        || is_text_of(pool, descriptor, b"C")
        || is_text_of(pool, descriptor, b"B")
        || is_text_of(pool, descriptor, b"Z")
}

/// Whether the index names a constant that fits the descriptor (JVMS table 4.7.2-A).
pub fn fits_constant(pool: &Pool, descriptor: u16, index: u16) -> bool
    ensures { result ≡ fits_constant (entry_of pool.now descriptor) (entry_of pool.now index) }
{
    match pool.entry(index) {
        Some(Entry::Integer(_)) => is_small(pool, descriptor),
        Some(Entry::Float(_)) => is_text_of(pool, descriptor, b"F"),
        Some(Entry::Long(_)) => is_text_of(pool, descriptor, b"J"),
        Some(Entry::Double(_)) => is_text_of(pool, descriptor, b"D"),
        Some(Entry::Str { .. }) => is_text_of(pool, descriptor, b"Ljava/lang/String;"),
        _ => false,
    }
}

/// Whether code is there exactly where a method's access flags ask for it: where it is neither
/// abstract nor native (JVMS 4.7.3).
pub fn fits_flags(flags: u16, there: bool) -> bool
    ensures { result ≡ fits_flags flags there }
{
    if flags & 0x0500 == 0 { there } else { !there }
}

/// An index that names a text.
#[tactic(auto, unfolding(crate::specs::Indices::index_at))]
pub fn text_at<'a>(pool: &Pool, bytes: &'a [u8]) -> Result<(u16, &'a [u8]), ReadError>
    ensures gives { Gives (λ x. (x.0, x.1.now)) result (index_at is_text pool.now bytes.now) }
    ensures text { IfOk result (λ x. is_text (entry_of pool.now x.0) ≡ true) }
{
    let (index, rest) = u16_at(bytes)?;
    wants(
        names_text(pool.slots(), index),
        Fault::BadIndex(bytes.len()),
    )?;
    Ok((index, rest))
}

/// An index that names a class.
#[tactic(auto, unfolding(crate::specs::Indices::index_at))]
pub fn class_at<'a>(pool: &Pool, bytes: &'a [u8]) -> Result<(u16, &'a [u8]), ReadError>
    ensures { Gives (λ x. (x.0, x.1.now)) result (index_at is_class pool.now bytes.now) }
{
    let (index, rest) = u16_at(bytes)?;
    wants(
        names_class(pool.slots(), index),
        Fault::BadIndex(bytes.len()),
    )?;
    Ok((index, rest))
}

/// An index that names a class that is no array.
#[tactic(auto, unfolding(crate::specs::Indices::index_at))]
pub fn own_class_at<'a>(pool: &Pool, bytes: &'a [u8]) -> Result<(u16, &'a [u8]), ReadError>
    ensures { Gives (λ x. (x.0, x.1.now)) result (index_at (is_own_class pool.now) pool.now bytes.now) }
{
    let (index, rest) = u16_at(bytes)?;
    wants(names_own_class(pool, index), Fault::BadIndex(bytes.len()))?;
    Ok((index, rest))
}

/// An index that names a constant that fits the descriptor.
#[tactic(auto, unfolding(crate::specs::Indices::index_at))]
pub fn fitting_at<'a>(
    pool: &Pool,
    descriptor: u16,
    bytes: &'a [u8],
) -> Result<(u16, &'a [u8]), ReadError>
    ensures { Gives (λ x. (x.0, x.1.now)) result (index_at (fits_constant (entry_of pool.now descriptor)) pool.now bytes.now) }
{
    let (index, rest) = u16_at(bytes)?;
    wants(
        fits_constant(pool, descriptor, index),
        Fault::BadIndex(bytes.len()),
    )?;
    Ok((index, rest))
}

/// The form of a name or a descriptor.
#[derive(Clone, Copy)]
pub enum Form {
    /// A field's name (JVMS 4.2.2).
    FieldName,
    /// A field's descriptor (JVMS 4.3.2).
    FieldType,
    /// A method's name (JVMS 4.2.2).
    MethodName,
    /// A method's descriptor, at these access flags (JVMS 4.3.3).
    MethodType(u16),
}

fn has_form(texts: &Texts, form: Form, index: u16) -> bool
    ensures { result ≡ has_form form (entry_of texts.now index) }
{
    let mark = texts.mark(index);
    match form {
        Form::FieldName => mark.field_name,
        Form::FieldType => mark.field_type,
        Form::MethodName => mark.method_name,
        Form::MethodType(flags) => has_room(own_units(flags), mark.argument_units),
    }
}

/// An index that names a text of this form.
#[tactic(auto, unfolding(crate::specs::Indices::form_at))]
pub fn form_at<'a>(texts: &Texts, form: Form, bytes: &'a [u8]) -> Result<(u16, &'a [u8]), ReadError>
    ensures gives { Gives (λ x. (x.0, x.1.now)) result (form_at (has_form form) texts.now bytes.now) }
    ensures text { IfOk result (λ x. is_text (entry_of texts.now x.0) ≡ true) }
{
    let (index, rest) = text_at(texts.pool(), bytes)?;
    wants(
        has_form(texts, form, index),
        Fault::BadDescriptor(bytes.len()),
    )?;
    Ok((index, rest))
}
