//! The texts of locations (this project's).

ghost use Rattle.std.specs.Prelude.{◌≡◌, ◌++◌, ◌+◌, ◌<◌, ◌^◌, ◌∷◌, ℕ, codes, decimal, OnOk};
ghost use Rattle.et_base.specs.Quotes.{name_of};
ghost use Rattle.jvm_model.specs.Classes as classes;
ghost use Rattle.jvm_model.specs.Texts as texts;
ghost use Rattle.order_law.specs.OwnRecord.{owner_in};

use et_base::{NoMemory, Text, push_decimal, push_name, push_quoted_units};
use jvm_model::{Location, Program};

/// Appends the text of a location, where the tests made so many objects each.
#[tactic(auto, unfolding(jvm_model::specs::Texts::location_text))]
pub fn push_location(
    out: &mut Text,
    p: &Program,
    made: &[u64],
    location: &Location,
) -> Result<(), NoMemory>
    ensures { OnOk result (out.new ≡ out.old ++ texts.location_text p.now (owner_in made.now) location.now) }
{
    match location {
        Location::Static { field } => {
            out.extend_from_slice(b"static ")?;
            push_field(out, p, *field)
        }
        Location::Init { class } => {
            out.extend_from_slice(b"init ")?;
            push_class(out, p, *class)
        }
        Location::Head { object } => {
            out.extend_from_slice(b"head ")?;
            push_object(out, made, *object)
        }
        Location::Field { object, field } => {
            out.extend_from_slice(b"field ")?;
            push_object(out, made, *object)?;
            out.push(b' ')?;
            push_field(out, p, *field)
        }
        Location::Elem { object, index } => {
            out.extend_from_slice(b"elem ")?;
            push_object(out, made, *object)?;
            out.push(b' ')?;
            push_decimal(out, *index as u64)
        }
        Location::Text { object } => {
            out.extend_from_slice(b"text ")?;
            push_object(out, made, *object)
        }
        Location::File { name } => {
            out.extend_from_slice(b"file ")?;
            push_quoted_units(out, name.as_slice())
        }
        Location::Prop { name } => {
            out.extend_from_slice(b"prop ")?;
            push_quoted_units(out, name.as_slice())
        }
    }
}

/// Appends the name of a class.
fn push_class(out: &mut Text, p: &Program, class: u32) -> Result<(), NoMemory>
    ensures { OnOk result (out.new ≡ out.old ++ texts.class_text p.now class) }
{
    push_name(out, p.class_name(class))
}

/// Appends the name of a field behind that of its class and a dot.
pub fn push_field(out: &mut Text, p: &Program, field: u32) -> Result<(), NoMemory>
    ensures { OnOk result (out.new ≡ out.old ++ texts.field_text p.now field) }
{
    push_class(out, p, p.field_class(field))?;
    out.push(b'.')?;
    push_name(out, field_name(p, field))
}

/// The name of a field.
fn field_name(p: &Program, field: u32) -> &[u16]
    ensures { result.now ≡ (classes.field_at p.now field).name }
{
    match p.field(field) {
        None => &[],
        Some(record) => record.name.as_slice(),
    }
}

/// Appends an object as its test and its number within the test, from 1.
#[tactic(auto, unfolding(order_law::specs::OwnRecord::owner_in))]
fn push_object(out: &mut Text, made: &[u64], object: u64) -> Result<(), NoMemory>
    ensures { OnOk result (out.new ≡ out.old ++ texts.object_text (owner_in made.now object)) }
{
    let (test, before) = maker(made, object);
    push_decimal(out, test)?;
    out.push(b':')?;
    let Some(number) = before.checked_add(1) else {
        return Err(NoMemory {});
    };
    push_decimal(out, number)
}

/// The test that made an object, and how many objects it made before.
#[tactic(auto, using(crate::proofs::Makers::maker_here, crate::proofs::Makers::maker_next, crate::proofs::Makers::maker_end))]
pub fn maker(made: &[u64], object: u64) -> (u64, u64)
    ensures { texts.maker 1 made.now object ≡ (result.0, result.1 + 1) }
{
    let mut before = object;
    let mut test = 1;
    for count in made {
        if before < *count {
            return (test, before);
        }
        before -= *count;
        test += 1;
    }
    (test, before)
}
