//! The manifest as text.
//!
//! Each `push_` function appends to a text; after a refusal part of it may stand there.

ghost use Rattle.std.specs.Prelude.{◌≡◌, ◌++◌, ◌∷◌, [], codes, IfOk, OnOk};
ghost use Rattle.std.specs.List.{flat_map};
ghost use Rattle.dep_record.specs.DepsText as names_of;
ghost use Rattle.cone_run.specs.ManifestText as text;

use crate::marks::{Effect, Mark};
use et_base::{NoMemory, Text};
use jvm_model::Names;
use std::alloc::Global;

// Appends the name of a test.
fn push_name(out: &mut Text, names: &Names, test: u32) -> Result<(), NoMemory>
    ensures { OnOk result (out.new ≡ out.old ++ names_of.test_name names.now test) }
{
    match names.tests.get(test.saturating_sub(1) as usize) {
        Some(name) => out.extend_from_slice(name.as_slice()),
        None => Ok(()),
    }
}

// Appends the word of an effect.
fn push_effect(out: &mut Text, effect: Effect) -> Result<(), NoMemory>
    ensures { OnOk result (out.new ≡ out.old ++ text.effect_word effect) }
{
    match effect {
        Effect::Same => out.extend_from_slice(b"same"),
        Effect::Changed => out.extend_from_slice(b"changed"),
        Effect::Over => out.extend_from_slice(b"over"),
    }
}

// Appends the line of a mark.
fn push_mark(out: &mut Text, names: &Names, mark: &Mark) -> Result<(), NoMemory>
    ensures { OnOk result (out.new ≡ out.old ++ text.mark_line names.now mark.now) }
{
    out.extend_from_slice(b"raw ")?;
    push_name(out, names, mark.writer)?;
    out.extend_from_slice(b" -> ")?;
    push_name(out, names, mark.test)?;
    out.push(b' ')?;
    push_effect(out, mark.effect)?;
    out.push(b'\n')
}

// Appends the lines of marks.
fn push_marks(out: &mut Text, names: &Names, marks: &[Mark]) -> Result<(), NoMemory>
    ensures { OnOk result (out.new ≡ out.old ++ flat_map (text.mark_line names.now) marks.now) }
{
    for mark in marks {
        push_mark(out, names, mark)?;
    }
    Ok(())
}

/// The text on marks. It has a line for each, with the writer first.
///
/// # Errors
///
/// `NoMemory` where an allocation is refused.
#[tactic(auto, unfolding(crate::specs::ManifestText::manifest_text))]
pub fn manifest_text(alloc: Global, names: &Names, marks: &[Mark]) -> Result<Text, NoMemory>
    ensures { IfOk result (λ t. t ≡ text.manifest_text names.now marks.now) }
{
    let mut out = Text::new(alloc);
    out.extend_from_slice(b"electric-manifest 1\n")?;
    push_marks(&mut out, names, marks)?;
    out.extend_from_slice(b"end\n")?;
    Ok(out)
}
