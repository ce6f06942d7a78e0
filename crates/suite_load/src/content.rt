//! What the text of a file line stands for.

ghost use Rattle.std.specs.Prelude.{◌≡◌, ◌<◌, length, map, IfOk, IfSome};
ghost use Rattle.std.specs.Option.{option_map};
ghost use Rattle.suite_load.specs.ContentForm as form;

use et_base::{Items, NoMemory, Units};
use std::alloc::Global;

// The unit at the front, and the bytes after it.
#[tactic(auto, unfolding(crate::specs::ContentForm::unit_at))]
fn unit_at(text: &[u8]) -> Option<(u16, &[u8])>
    ensures unit { option_map (λ x. (x.0, x.1.now)) result ≡ form.unit_at text.now }
    ensures shorter { IfSome result (λ x. length x.1.now < length text.now) }
{
    if text.is_empty() {
        return None;
    }
    let first = text[0];
    if first != b'\\' {
        return Some((u16::from(first), &text[1..]));
    }
    if text.len() < 2 {
        return None;
    }
    match text[1] {
        b'n' => Some((u16::from(b'\n'), &text[2..])),
        b'\\' => Some((u16::from(b'\\'), &text[2..])),
        _ => None,
    }
}

/// What a text stands for, in which `\n` is a line feed and `\\` a backslash. None where something else follows a backslash.
pub fn content_of(alloc: Global, text: &[u8]) -> Result<Option<Units>, NoMemory>
    ensures { IfOk result (λ content. content ≡ form.content_of text.now) }
{
    let mut content = Items::new(alloc);
    let mut rest = text;
    while !rest.is_empty() {
        let Some((unit, more)) = unit_at(rest) else {
            return Ok(None);
        };
        content.push(unit)?;
        rest = more;
    }
    Ok(Some(content))
}
