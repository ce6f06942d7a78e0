//! The text of the quiet classes.

ghost use Rattle.std.specs.Prelude.{◌≡◌, ◌++◌, IfOk, OnOk};
ghost use Rattle.quiet_init.specs.QuietText as lines;

use crate::quietness::quiet_classes;
use et_base::{NoMemory, Text, push_name};
use jvm_model::Program;
use std::alloc::Global;
use type_frames::Checked;

// Appends the line of a class.
fn push_class(out: &mut Text, p: &Program, class: u32) -> Result<(), NoMemory>
    ensures { OnOk result (out.new ≡ out.old ++ lines.class_line p.now class) }
{
    out.extend_from_slice(b"class ")?;
    if let Some(record) = p.class(class) {
        push_name(out, record.name.as_slice())?;
    }
    out.push(b'\n')
}

// Appends the lines of classes.
fn push_classes(out: &mut Text, p: &Program, classes: &[u32]) -> Result<(), NoMemory>
    ensures { OnOk result (out.new ≡ out.old ++ lines.class_lines p.now classes.now) }
{
    for class in classes {
        push_class(out, p, *class)?;
    }
    Ok(())
}

// The text with the lines of these classes.
#[tactic(auto, unfolding(crate::specs::QuietText::text_of))]
fn text_of(alloc: Global, p: &Program, classes: &[u32]) -> Result<Text, NoMemory>
    ensures { IfOk result (λ text. text ≡ lines.text_of p.now classes.now) }
{
    let mut out = Text::new(alloc);
    out.extend_from_slice(b"electric-quiet 1\n")?;
    push_classes(&mut out, p, classes)?;
    out.extend_from_slice(b"end\n")?;
    Ok(out)
}

/// The text of a program's quiet classes: `electric-quiet 1`, a line `class NAME` for each of them in suite order, with full
/// stops in the name, and `end`. The only error is want of memory.
pub fn quiet_text(alloc: Global, p: &Checked) -> Result<Text, NoMemory>
    ensures { IfOk result (λ text. text ≡ lines.quiet_text p.now) }
{
    let classes = quiet_classes(alloc, p)?;
    text_of(alloc, p.program(), classes.as_slice())
}
