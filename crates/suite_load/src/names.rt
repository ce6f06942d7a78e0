//! The forms of names in a suite text.

ghost use Rattle.std.specs.Prelude.{◌≡◌, ◌==◌, length};
ghost use Rattle.std.specs.List.{list_all, slice_split};
ghost use Rattle.suite_load.specs.NameForms as forms;

fn is_word_byte(b: u8) -> bool
    ensures { result ≡ forms.is_word_byte b }
{
    b.is_ascii_alphanumeric() || b == b'_' || b == b'$'
}

fn has_segment_bytes(bytes: &[u8]) -> bool
    ensures { result ≡ list_all forms.is_segment_byte bytes.now }
{
    bytes
        .iter()
        .all(|b| is_word_byte(*b) || *b == b'.' || *b == b'-')
}

#[tactic(auto, unfolding(crate::specs::NameForms::is_segment))]
fn is_segment(segment: &[u8]) -> bool
    ensures { result ≡ forms.is_segment segment.now }
{
    !segment.is_empty()
        && has_segment_bytes(segment)
        && segment != b".".as_slice()
        && segment != b"..".as_slice()
}

fn has_segments(name: &[u8]) -> bool
    ensures { result ≡ list_all forms.is_segment (slice_split (λ b. b == 47) name.now) }
{
    name.split(|b| *b == b'/')
        .all(|segment| is_segment(segment))
}

/// Whether bytes are a depot name: 1 to 255 bytes, segments of letters, digits, `_`, `$`, `.` and `-`, joined by `/`. No segment is
/// empty, `.` or `..`, and the name isn't `-`.
#[tactic(auto, unfolding(crate::specs::NameForms::is_depot_name))]
pub fn is_depot_name(name: &[u8]) -> bool
    ensures { result ≡ forms.is_depot_name name.now }
{
    !name.is_empty() && name.len() <= 255 && name != b"-".as_slice() && has_segments(name)
}

fn has_graphic_bytes(bytes: &[u8]) -> bool
    ensures { result ≡ list_all forms.is_graphic bytes.now }
{
    bytes.iter().all(|b| *b >= 0x21 && *b <= 0x7e)
}

/// Whether bytes are the name of a file: 1 to 255 bytes, each printable ASCII and no space.
#[tactic(auto, unfolding(crate::specs::NameForms::is_file_name))]
pub fn is_file_name(name: &[u8]) -> bool
    ensures { result ≡ forms.is_file_name name.now }
{
    !name.is_empty() && name.len() <= 255 && has_graphic_bytes(name)
}

fn has_word_bytes(bytes: &[u8]) -> bool
    ensures { result ≡ list_all forms.is_word_byte bytes.now }
{
    bytes.iter().all(|b| is_word_byte(*b))
}

#[tactic(auto, unfolding(crate::specs::NameForms::is_identifier))]
fn is_identifier(part: &[u8]) -> bool
    ensures { result ≡ forms.is_identifier part.now }
{
    !part.is_empty() && has_word_bytes(part)
}

fn part_count(name: &[u8]) -> usize
    ensures { result ≡ length (slice_split (λ b. b == 46) name.now) }
{
    name.split(|b| *b == b'.').count()
}

fn has_identifiers(name: &[u8]) -> bool
    ensures { result ≡ list_all forms.is_identifier (slice_split (λ b. b == 46) name.now) }
{
    name.split(|b| *b == b'.').all(|part| is_identifier(part))
}

/// Whether bytes are the name of a test: identifiers of letters, digits, `_` and `$`, joined by dots, at least two.
#[tactic(auto, unfolding(crate::specs::NameForms::is_test_name))]
pub fn is_test_name(name: &[u8]) -> bool
    ensures { result ≡ forms.is_test_name name.now }
{
    part_count(name) >= 2 && has_identifiers(name)
}
