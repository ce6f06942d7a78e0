//! Cutting bytes at a separator.

ghost use Rattle.std.specs.Prelude.{◌≡◌, ◌<◌, ◌==◌, length, position, option_map, IfSome};
ghost use Rattle.std.specs.{Str.bytes_eq, Option.option_copied};
ghost use Rattle.dep_record.specs.Fields as field;

/// Where the first separator stands, if there is one.
pub fn place_of(separator: u8, bytes: &[u8]) -> Option<usize>
    ensures { result ≡ position (λ b. b == separator) bytes.now }
{
    bytes.iter().position(|b| *b == separator)
}

/// What stands before the first separator, and what follows it, if there is one.
#[tactic(auto, using(crate::proofs::CutLaws::cut_is))]
pub fn cut(separator: u8, bytes: &[u8]) -> Option<(&[u8], &[u8])>
    ensures value { option_map (λ x. (x.0.now, x.1.now)) result ≡ field.cut separator bytes.now }
    ensures shorter { IfSome result (λ x. length x.1.now < length bytes.now) }
{
    match place_of(separator, bytes) {
        Some(i) => Some((&bytes[..i], &bytes[i + 1..])),
        None => None,
    }
}

/// What follows this word and a space, where they stand at the front.
#[tactic(auto, unfolding(crate::specs::Fields::after))]
pub fn after<'a>(word: &[u8], line: &'a [u8]) -> Option<&'a [u8]>
    ensures { option_map (λ rest. rest.now) result ≡ field.after word.now line.now }
{
    let (first, rest) = cut(b' ', line)?;
    if first == word { Some(rest) } else { None }
}
