//! Whether an instruction takes what it names.

ghost use Rattle.std.specs.Prelude.{◌≡◌, option_copied, Some};
ghost use Rattle.class_pool.specs.{declared.pool.Entry.TheVariants.Class, Pool.entry_of, Reading.Gives};
ghost use Rattle.et_base.specs.Answers.{nothing};
ghost use Rattle.code_decode.specs.Judging.{units_of, class_name, dimensions, is_real_array, array_fit, made_fit, element_fit, nested_fit, member_fit, named_fit, constant_fit, kind_fit, pair_units, interface_units, counts_units};
ghost use Rattle.code_decode.specs.Operands.{judged};

use crate::opcodes::{Constant, Named};
use crate::place::Spot;
use class_pool::lookup::{class_name_at, text_at};
use class_pool::names::argument_units;
use class_pool::{Entry, Pool, ReadError};
use et_base::letters::{ARRAY, DOUBLE, FLOAT};

/// What an operand is to its instruction.
#[derive(Clone, Copy)]
pub enum Fit {
    /// It is taken.
    Right,
    /// It can't be.
    Wrong,
    /// It is outside of the profile.
    Foreign,
}

// Nothing where the operand is taken, else its fault.
pub fn judge(spot: &Spot, opcode: u8, fit: Fit) -> Result<(), ReadError>
    ensures { Gives nothing result (judged spot.now opcode fit) }
{
    match fit {
        Fit::Right => Ok(()),
        Fit::Wrong => Err(ReadError::Fault(spot.wrong())),
        Fit::Foreign => Err(ReadError::Fault(spot.foreign(opcode))),
    }
}

fn units_of(pool: &Pool, index: u16) -> &[u16]
    ensures { result.now ≡ units_of (entry_of pool.now index) }
{
    match text_at(pool.slots(), index) {
        Some(units) => units.as_slice(),
        None => &[],
    }
}

pub fn class_name(pool: &Pool, index: u16) -> &[u16]
    ensures { result.now ≡ class_name pool.now (entry_of pool.now index) }
{
    match class_name_at(pool.slots(), index) {
        Some(name) => name.as_slice(),
        None => &[],
    }
}

/// How many dimensions the array has that a class's name names; 0 for a class that is no array.
pub fn dimensions(name: &[u16]) -> usize
    ensures { result ≡ dimensions name.now }
{
    name.iter().take_while(|u| **u == ARRAY).count()
}

fn is_real_array(name: &[u16]) -> bool
    ensures { result ≡ is_real_array name.now }
{
    let element = dimensions(name);
    0 < element && element < name.len() && (name[element] == FLOAT || name[element] == DOUBLE)
}

fn array_fit(name: &[u16]) -> Fit
    ensures { result ≡ array_fit name.now }
{
    if is_real_array(name) {
        Fit::Foreign
    } else {
        Fit::Right
    }
}

fn made_fit(name: &[u16]) -> Fit
    ensures { result ≡ made_fit name.now }
{
    if 0 < dimensions(name) {
        Fit::Wrong
    } else {
        Fit::Right
    }
}

fn element_fit(name: &[u16]) -> Fit
    ensures { result ≡ element_fit name.now }
{
    if is_real_array(name) {
        Fit::Foreign
    } else if dimensions(name) == 255 {
        Fit::Wrong
    } else {
        Fit::Right
    }
}

fn nested_fit(name: &[u16]) -> Fit
    ensures { result ≡ nested_fit name.now }
{
    if dimensions(name) == 0 {
        Fit::Wrong
    } else {
        array_fit(name)
    }
}

fn member_fit(pool: &Pool, class: u16) -> Fit
    ensures { result ≡ member_fit pool.now class }
{
    array_fit(class_name(pool, class))
}

// Whether an instruction takes a class, by the index of its name.
fn class_fit(named: Named, pool: &Pool, name: u16) -> Fit
    ensures { result ≡ named_fit named pool.now (Some (Class name)) }
{
    let name = units_of(pool, name);
    match named {
        Named::Made => made_fit(name),
        Named::Element => element_fit(name),
        Named::Tested => array_fit(name),
        Named::Nested => nested_fit(name),
        Named::Field | Named::Virtual | Named::Direct | Named::Interface => Fit::Wrong,
    }
}

// Whether the entry at an index is one that an instruction takes.
pub fn named_fit(named: Named, pool: &Pool, index: u16) -> Fit
    ensures { result ≡ named_fit named pool.now (entry_of pool.now index) }
{
    match pool.entry(index) {
        Some(Entry::Class { name }) => class_fit(named, pool, *name),
        Some(Entry::Field { class, .. }) => match named {
            Named::Field => member_fit(pool, *class),
            _ => Fit::Wrong,
        },
        Some(Entry::Method { class, .. }) => match named {
            Named::Virtual | Named::Direct => member_fit(pool, *class),
            _ => Fit::Wrong,
        },
        Some(Entry::InterfaceMethod { class, .. }) => match named {
            Named::Direct | Named::Interface => member_fit(pool, *class),
            _ => Fit::Wrong,
        },
        _ => Fit::Wrong,
    }
}

// Whether the entry at an index is a constant that is loaded.
pub fn constant_fit(constant: Constant, pool: &Pool, index: u16) -> Fit
    ensures { result ≡ constant_fit constant (entry_of pool.now index) }
{
    match (constant, pool.entry(index)) {
        (_, None) => Fit::Wrong,
        (Constant::Single, Some(Entry::Integer(_) | Entry::Str { .. })) => Fit::Right,
        (Constant::Single, Some(Entry::Long(_))) => Fit::Wrong,
        (Constant::Double, Some(Entry::Long(_))) => Fit::Right,
        (Constant::Double, Some(Entry::Integer(_) | Entry::Str { .. })) => Fit::Wrong,
        _ => Fit::Foreign,
    }
}

fn pair_units(pool: &Pool, pair: u16) -> Option<u8>
    ensures { result ≡ pair_units pool.now (entry_of pool.now pair) }
{
    match pool.entry(pair) {
        Some(Entry::NameAndType { descriptor, .. }) => argument_units(units_of(pool, *descriptor)),
        _ => None,
    }
}

// How many units the arguments of an interface's method take; none for another entry.
pub fn interface_units(pool: &Pool, index: u16) -> Option<u8>
    ensures { result ≡ interface_units pool.now (entry_of pool.now index) }
{
    match pool.entry(index) {
        Some(Entry::InterfaceMethod { pair, .. }) => pair_units(pool, *pair),
        _ => None,
    }
}

// Whether a count is that of the arguments and the object itself.
pub fn counts_units(units: Option<u8>, count: u8) -> bool
    ensures { result ≡ counts_units units count }
{
    match units {
        None => false,
        Some(units) => count as u16 == units as u16 + 1,
    }
}

// Whether arrays of this kind are made.
pub fn kind_fit(kind: u8) -> Fit
    ensures { result ≡ kind_fit kind }
{
    match kind {
        4 | 5 | 8 | 9 | 10 | 11 => Fit::Right,
        6 | 7 => Fit::Foreign,
        _ => Fit::Wrong,
    }
}
