//! The texts of walks (this project's).

ghost use Rattle.std.specs.Prelude.{◌≡◌, ◌++◌, [], map, IfOk, OnOk};
ghost use Rattle.jvm_model.specs.declared.values.Location.TheVariants as place;
ghost use Rattle.order_law.specs.Walk.{read_text};
ghost use Rattle.access_tags.specs.Numbering.{located};

use crate::conflict::LocationKey;
use crate::texts::push_field;
use et_base::{Items, NoMemory, Text, push_decimal};
use jvm_model::Program;
use order_law::OUT;
use std::alloc::Global;

/// The texts of a walk's reads: `static CLASS.FIELD`, `field CLASS.FIELD` or `elem INDEX`.
pub fn walk_texts(alloc: Global, p: &Program, walk: &[LocationKey]) -> Result<Items<Text>, NoMemory>
    ensures { IfOk result (λ texts. texts ≡ map (λ x. read_text p.now (located [] x)) walk.now) }
{
    let mut texts = Items::new(alloc);
    for spot in walk {
        let mut text = Text::new(alloc);
        push_read(&mut text, p, *spot)?;
        texts.push(text)?;
    }
    Ok(texts)
}

/// Appends the text of a read. A part of another sort has none; a name, which no walk reads, stands for the first static.
fn push_read(out: &mut Text, p: &Program, spot: LocationKey) -> Result<(), NoMemory>
    ensures { OnOk result (out.new ≡ out.old ++ read_text p.now (located [] spot)) }
{
    match spot {
        LocationKey::Static { field } => push_static(out, p, field),
        LocationKey::Named { .. } => push_static(out, p, OUT),
        LocationKey::Field { field, .. } => {
            out.extend_from_slice(b"field ")?;
            push_field(out, p, field)
        }
        LocationKey::Elem { index, .. } => {
            out.extend_from_slice(b"elem ")?;
            push_decimal(out, index as u64)
        }
        _ => Ok(()),
    }
}

/// Appends the text of a read of a static.
fn push_static(out: &mut Text, p: &Program, field: u32) -> Result<(), NoMemory>
    ensures { OnOk result (out.new ≡ out.old ++ read_text p.now (place.Static field)) }
{
    out.extend_from_slice(b"static ")?;
    push_field(out, p, field)
}
