//! The text of a location as a record has it.

ghost use Rattle.std.specs.Prelude.{◌≡◌, ℕ, ◌<◌, ◌^◌, length, true, get_or, IfOk, OnOk};
ghost use Rattle.jvm_model.specs.Classes as classes_of;
ghost use Rattle.jvm_model.specs.Texts as texts;
ghost use Rattle.order_law.specs.OwnForm.{are_code_units, HasCodeUnits, IsNumbered, IsShown};
ghost use Rattle.order_law.specs.OwnRecord as record_of;
ghost use Rattle.order_law.specs.RecordForm.{is_place_text};

use crate::texts::{maker, push_location};
use et_base::{NoMemory, Text};
use jvm_model::{ClassRec, FieldRec, Location, Program};
use order_law::own_form_law;
use std::alloc::Global;

/// The most bytes of a text that isn't cut.
const MOST_BYTES: usize = 200;

/// Most texts have no more bytes, and are written without growing.
const COMMON_BYTES: usize = 24;

// These are code units, as their type says.
fn units(name: &[u16])
    ensures { are_code_units name.now ≡ true }
{
    for unit in name {
        let _unit = *unit;
    }
}

fn class_units(classes: &[ClassRec])
    ensures { (c : ℕ) → c < length classes.now → are_code_units (get_or classes.now c classes_of.no_class).name ≡ true }
{
    for class in classes {
        units(class.name.as_slice());
    }
}

fn field_units(fields: &[FieldRec])
    ensures { (f : ℕ) → f < length fields.now → are_code_units (get_or fields.now f classes_of.no_field).name ≡ true }
{
    for field in fields {
        units(field.name.as_slice());
    }
}

/// The names of a program are of code units, as their type says.
pub fn program_units(p: &Program)
    ensures { HasCodeUnits p.now }
{
    class_units(p.classes.as_slice());
    field_units(p.fields.as_slice());
}

// An object is shown by numbers of 64 bits; one more passes them.
fn owner_shown(made: &[u64], object: u64) -> Result<(), NoMemory>
    ensures { OnOk result (IsNumbered (record_of.owner_in made.now object)) }
{
    let owner = maker(made, object);
    let Some(number) = owner.1.checked_add(1) else {
        return Err(NoMemory {});
    };
    fits(owner.0);
    fits(number);
    Ok(())
}

// A number of 64 bits, as its type says.
fn fits(number: u64)
    ensures { number < 2 ^ 64 }
{
    let _number = number;
}

// A location's text shows numbers of 64 bits and code units, as their types say.
fn shown(made: &[u64], location: &Location) -> Result<(), NoMemory>
    ensures { OnOk result (IsShown (record_of.owner_in made.now) location.now) }
{
    match location {
        Location::Static { .. } | Location::Init { .. } => Ok(()),
        Location::Head { object } => owner_shown(made, *object),
        Location::Field { object, .. } => owner_shown(made, *object),
        Location::Elem { object, index } => {
            let _index = *index;
            owner_shown(made, *object)
        }
        Location::Text { object } => owner_shown(made, *object),
        Location::File { name } => {
            units(name.as_slice());
            Ok(())
        }
        Location::Prop { name } => {
            units(name.as_slice());
            Ok(())
        }
    }
}

// A text of more than 200 bytes is cut.
fn cut(alloc: Global, text: Text) -> Result<Text, NoMemory>
    ensures { IfOk result (λ short. short ≡ record_of.cut text) }
{
    if text.len() <= MOST_BYTES {
        return Ok(text);
    }
    let mut short = Text::from_slice(alloc, &text.as_slice()[..MOST_BYTES])?;
    short.extend_from_slice(b"...")?;
    Ok(short)
}

/// The text of a location as a record has it, cut behind 200 bytes, where the tests made so many objects each. It is in the
/// form of a record.
pub fn place_text(
    alloc: Global,
    p: &Program,
    made: &[u64],
    location: &Location,
) -> Result<Text, NoMemory>
    requires { HasCodeUnits p.now }
    ensures text { IfOk result (λ t. t ≡ record_of.cut
        (texts.location_text p.now (record_of.owner_in made.now) location.now)) }
    ensures form { IfOk result (λ t. is_place_text t ≡ true) }
{
    own_form_law();
    shown(made, location)?;
    let mut whole = Text::with_capacity(alloc, COMMON_BYTES)?;
    push_location(&mut whole, p, made, location)?;
    cut(alloc, whole)
}
