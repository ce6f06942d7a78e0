//! Cutting bytes at a separator.

ghost use Rattle.std.specs.Prelude.{◌≡◌};
ghost use Rattle.std.specs.Option.{option_copied};
ghost use Rattle.suite_load.specs.LineForms.{cut};

use dep_record::place_of;

/// What stands before the first separator, and what follows it, if there is one.
#[tactic(auto, unfolding(crate::specs::LineForms::cut))]
pub fn cut(separator: u8, bytes: &[u8]) -> (&[u8], Option<&[u8]>)
    ensures { (result.0.now, option_copied result.1) ≡ cut separator bytes.now }
{
    match place_of(separator, bytes) {
        Some(i) => (&bytes[..i], Some(&bytes[i + 1..])),
        None => (bytes, None),
    }
}
