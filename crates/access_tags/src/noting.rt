//! Touches of the parts of a world, noted at their numbers.

ghost use Rattle.std.specs.Prelude.{◌≡◌, ◌<◌, List, [], ◌∷◌, length, true, false, None, IfOk, OnOk};
ghost use Rattle.jvm_model.specs.Access.{elems_made, fields_made, made};
ghost use Rattle.jvm_model.specs.{Classes.blank, Classes.elems_of, View.Exists, View.keys};
ghost use Rattle.jvm_model.specs.World.{World, Object, object_at, size};
ghost use Rattle.jvm_model.specs.declared.values.{Location.Location, Touch.Touch};
ghost use Rattle.access_tags.specs.Followed.{HaveNoted, HaveSameRoom, IsNumbered, numbering_in};
ghost use Rattle.access_tags.specs.Numbering.{is_name, located};

use crate::conflict::LocationKey;
use crate::numbers::Numbers;
use crate::tags::Tags;
use et_base::NoMemory;
use jvm_model::{Head, Kind, Value};

/// Notes one more touch of a part that is there, but a file or property.
#[inline(always)]
pub fn note_part(
    numbers: &Numbers,
    tags: &mut Tags,
    spot: LocationKey,
    write: bool,
) -> Result<(), NoMemory>
    ensures room { HaveSameRoom tags.old tags.new }
    ensures told { OnOk result ((w : World) (names : List Location) (x : Touch) → IsNumbered w numbers.now → is_name spot ≡ false → Exists w (located [] spot)
        → x.write ≡ write → x.location ≡ located [] spot → HaveNoted (numbering_in w names) tags.old tags.new (x ∷ [])) }
{
    let Some(at) = numbers.number(spot) else {
        return Err(NoMemory {});
    };
    tags.note(spot, at, write)?;
    Ok(())
}

/// Notes that a part of a new object is written.
#[inline(always)]
fn note_new(numbers: &Numbers, tags: &mut Tags, spot: LocationKey) -> Result<(), NoMemory>
    ensures room { HaveSameRoom tags.old tags.new }
    ensures told { OnOk result ((w : World) (names : List Location) (x : Touch) → IsNumbered w numbers.now → is_name spot ≡ false → Exists w (located [] spot)
        → x.write ≡ true → x.location ≡ located [] spot → HaveNoted (numbering_in w names) tags.old tags.new (x ∷ [])) }
{
    let Some(at) = numbers.number(spot) else {
        return Err(NoMemory {});
    };
    tags.note_first(spot, at, true)?;
    Ok(())
}

/// Notes that the fields of a new object are written.
fn note_fields(
    numbers: &Numbers,
    tags: &mut Tags,
    object: u64,
    fields: &[(u32, Value)],
) -> Result<(), NoMemory>
    ensures room { HaveSameRoom tags.old tags.new }
    ensures told { OnOk result ((w : World) (names : List Location) → IsNumbered w numbers.now → object < size w → keys (object_at w object).fields ≡ keys fields.now
        → HaveNoted (numbering_in w names) tags.old tags.new (fields_made object fields.now)) }
{
    for (field, _) in fields {
        let field = *field;
        note_new(numbers, tags, LocationKey::Field { object, field })?;
    }
    Ok(())
}

/// Notes that the elements of a new array are written.
fn note_elems(numbers: &Numbers, tags: &mut Tags, object: u64, elems: u32) -> Result<(), NoMemory>
    ensures room { HaveSameRoom tags.old tags.new }
    ensures told { OnOk result ((w : World) (names : List Location) → IsNumbered w numbers.now → object < size w → length (object_at w object).elems ≡ elems
        → HaveNoted (numbering_in w names) tags.old tags.new (elems_made object 0 (object_at w object).elems)) }
{
    if note_at_once(numbers, tags, object, elems)? {
        return Ok(());
    }
    for index in 0..elems {
        note_new(numbers, tags, LocationKey::Elem { object, index })?;
    }
    Ok(())
}

/// Notes that the elements of a new array are written, if that can be done at once. Answers whether it was; if not, all is as
/// before.
fn note_at_once(
    numbers: &Numbers,
    tags: &mut Tags,
    object: u64,
    elems: u32,
) -> Result<bool, NoMemory>
    ensures room { HaveSameRoom tags.old tags.new }
    ensures kept { IfOk result (λ b. b ≡ false → tags.new ≡ tags.old) }
    ensures told { IfOk result (λ b. b ≡ true → (w : World) (names : List Location) → IsNumbered w numbers.now → object < size w → length (object_at w object).elems ≡ elems
        → HaveNoted (numbering_in w names) tags.old tags.new (elems_made object 0 (object_at w object).elems)) }
{
    if elems == 0 {
        return Ok(false);
    }
    match numbers.number(LocationKey::Elem { object, index: 0 }) {
        Some(at) => tags.note_elems(object, at, elems),
        None => Ok(false),
    }
}

/// Notes what making an object without a text writes.
pub fn note_made(
    numbers: &Numbers,
    tags: &mut Tags,
    object: u64,
    head: Head,
) -> Result<(), NoMemory>
    ensures room { HaveSameRoom tags.old tags.new }
    ensures told { OnOk result ((w : World) (names : List Location) → IsNumbered w numbers.now → object < size w → object_at w object ≡ blank numbers.now.places head
        → HaveNoted (numbering_in w names) tags.old tags.new (made object (blank numbers.now.places head))) }
{
    note_new(numbers, tags, LocationKey::Head { object })?;
    note_fields(numbers, tags, object, numbers.fields(head.kind))?;
    note_elems(numbers, tags, object, elements(head))?;
    Ok(())
}

/// How many elements a new object has.
pub fn elements(head: Head) -> u32
    ensures { result ≡ length (elems_of head.kind head.length) }
{
    match head.kind {
        Kind::Class(_) => 0,
        Kind::Array { .. } => head.length,
    }
}
