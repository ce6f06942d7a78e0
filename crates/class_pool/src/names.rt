//! Names and descriptors (JVMS 4.2 and 4.3).

ghost use Rattle.class_pool.specs.NamesGrammar.{IsFieldType, IsMethodType};
ghost use Rattle.std.specs.Prelude.{◌≡◌, ◌==◌, not, length, option_map, position, ℕ, ◌↔◌, IsTrue, IfSome, Some};
ghost use Rattle.std.specs.List.{list_all};
ghost use Rattle.et_base.specs.Names.{is_plain, is_unqualified, is_special, is_unpointed, is_method_name, is_class_name, is_base, after_class, after_element, after_type, ends, is_field_descriptor, starts_array, is_class_entry_name, units_of_type, argument, after_close, arguments, is_return, argument_units, is_method_descriptor};

use et_base::is_ascii_text;
use et_base::letters::{
    ARRAY, BOOLEAN, BYTE, CHAR, CLASS, CLOSE, DOT, DOUBLE, FLOAT, GREATER, INT, LESS, LONG, OPEN,
    SEMICOLON, SHORT, SLASH, VOID,
};

fn is_plain(unit: u16) -> bool
    ensures { result ≡ is_plain unit }
{
    !(unit == DOT || unit == SEMICOLON || unit == ARRAY || unit == SLASH)
}

fn is_unpointed(unit: u16) -> bool
    ensures { result ≡ is_unpointed unit }
{
    !(unit == LESS || unit == GREATER)
}

fn all_plain(units: &[u16]) -> bool
    ensures { result ≡ list_all is_plain units.now }
{
    units.iter().all(|unit| is_plain(*unit))
}

fn all_unpointed(units: &[u16]) -> bool
    ensures { result ≡ list_all is_unpointed units.now }
{
    units.iter().all(|unit| is_unpointed(*unit))
}

/// Whether these units are an unqualified name, that of a field or a method: one unit at least, none
/// of `. ; [ /` among them (JVMS 4.2.2).
pub fn is_unqualified(units: &[u16]) -> bool
    ensures { result ≡ is_unqualified units.now }
{
    !units.is_empty() && all_plain(units)
}

/// Whether these units are `<init>` or `<clinit>` (JVMS 2.9).
pub(crate) fn is_special(units: &[u16]) -> bool
    ensures { result ≡ is_special units.now }
{
    is_ascii_text(units, b"<init>") || is_ascii_text(units, b"<clinit>")
}

/// Whether these units are a method's name: `<init>`, `<clinit>` or an unqualified name without `<`
/// and `>` (JVMS 4.2.2).
pub fn is_method_name(units: &[u16]) -> bool
    ensures { result ≡ is_method_name units.now }
{
    is_special(units) || (is_unqualified(units) && all_unpointed(units))
}

/// Whether these units are the name of a class or interface in internal form: unqualified names
/// joined by `/` (JVMS 4.2.1).
#[tactic(auto, using(crate::proofs::NamesLaw::named_from))]
pub(crate) fn is_class_name(units: &[u16]) -> bool
    ensures { result ≡ is_class_name units.now }
{
    let mut begun = false;
    for unit in units {
        if *unit == SLASH {
            if !begun {
                return false;
            }
            begun = false;
        } else if is_plain(*unit) {
            begun = true;
        } else {
            return false;
        }
    }
    begun
}

fn is_base(unit: u16) -> bool
    ensures { result ≡ is_base unit }
{
    matches!(
        unit,
        BYTE | CHAR | DOUBLE | FLOAT | INT | LONG | SHORT | BOOLEAN
    )
}

// Where the first semicolon stands.
fn semicolon(units: &[u16]) -> Option<usize>
    ensures { result ≡ position (λ u. u == 59) units.now }
{
    units.iter().position(|unit| *unit == SEMICOLON)
}

// What follows a class name and its semicolon.
#[tactic(auto, unfolding(et_base::specs::Names::after_class))]
fn after_class(units: &[u16]) -> Option<&[u16]>
    ensures { option_map (λ x. x.now) result ≡ after_class units.now }
{
    let end = semicolon(units)?;
    if is_class_name(&units[..end]) {
        Some(&units[end + 1..])
    } else {
        None
    }
}

// What follows a type that is no array.
#[tactic(auto, unfolding(et_base::specs::Names::after_element))]
fn after_element(units: &[u16]) -> Option<&[u16]>
    ensures { option_map (λ x. x.now) result ≡ after_element units.now }
{
    match units {
        [] => None,
        [first, rest @ ..] => {
            if is_base(*first) {
                Some(rest)
            } else if *first == CLASS {
                after_class(rest)
            } else {
                None
            }
        }
    }
}

// How many brackets stand at the front, where something else follows.
fn brackets(units: &[u16]) -> Option<usize>
    ensures { result ≡ position (λ u. not (u == 91)) units.now }
{
    units.iter().position(|unit| *unit != ARRAY)
}

/// What follows the field type at the front; none where none stands there. An array type has at most
/// 255 dimensions (JVMS 4.3.2).
#[tactic(auto, unfolding(et_base::specs::Names::after_type))]
pub(crate) fn after_type(units: &[u16]) -> Option<&[u16]>
    ensures { option_map (λ x. x.now) result ≡ after_type units.now }
{
    let dimensions = brackets(units)?;
    if dimensions <= 255 {
        after_element(&units[dimensions..])
    } else {
        None
    }
}

#[tactic(auto, unfolding(et_base::specs::Names::is_field_descriptor))]
fn is_whole_type(units: &[u16]) -> bool
    ensures { result ≡ is_field_descriptor units.now }
{
    matches!(after_type(units), Some([]))
}

/// Whether these units are a field descriptor (JVMS 4.3.2).
pub fn is_field_descriptor(units: &[u16]) -> bool
    ensures test { result ≡ is_field_descriptor units.now }
    ensures grammar { IsTrue result ↔ IsFieldType units.now }
{
    is_whole_type(units)
}

/// Whether a Class entry may have this name: that of a class or interface, or an array type's
/// descriptor (JVMS 4.4.1).
#[tactic(auto, unfolding(et_base::specs::Names::is_class_entry_name))]
pub(crate) fn is_class_entry_name(units: &[u16]) -> bool
    ensures { result ≡ is_class_entry_name units.now }
{
    is_class_name(units) || (units.first() == Some(&ARRAY) && is_field_descriptor(units))
}

// How many argument units the type at the front takes.
fn units_of_type(units: &[u16]) -> u8
    ensures { result ≡ units_of_type units.now }
{
    match units {
        [LONG | DOUBLE, ..] => 2,
        _ => 1,
    }
}

// One more argument type: how many units there are with it, and what follows.
#[tactic(auto, unfolding(et_base::specs::Names::argument))]
fn argument(so_far: u8, units: &[u16]) -> Option<(u8, &[u16])>
    ensures { option_map (λ x. (x.0, x.1.now)) result ≡ argument so_far units.now }
{
    let count = so_far.checked_add(units_of_type(units))?;
    let rest = after_type(units)?;
    Some((count, rest))
}

// What follows the closing bracket at the front.
fn after_close(units: &[u16]) -> Option<&[u16]>
    ensures { option_map (λ x. x.now) result ≡ after_close units.now }
{
    match units {
        [CLOSE, rest @ ..] => Some(rest),
        _ => None,
    }
}

// The argument types up to the closing bracket: how many units they take, and what follows it.
fn arguments(units: &[u16]) -> Option<(u8, &[u16])>
    ensures { option_map (λ x. (x.0, x.1.now)) result ≡ arguments (length units.now) 0 units.now }
{
    let mut so_far = 0;
    let mut rest = units;
    for _ in 0..units.len() {
        if let Some(after) = after_close(rest) {
            return Some((so_far, after));
        }
        let (count, next) = argument(so_far, rest)?;
        so_far = count;
        rest = next;
    }
    None
}

fn is_return(units: &[u16]) -> bool
    ensures { result ≡ is_return units.now }
{
    units == [VOID].as_slice() || is_field_descriptor(units)
}

#[tactic(auto, unfolding(et_base::specs::Names::argument_units))]
fn count_arguments(units: &[u16]) -> Option<u8>
    ensures { result ≡ argument_units units.now }
{
    match units {
        [OPEN, rest @ ..] => {
            let (count, after) = arguments(rest)?;
            if is_return(after) { Some(count) } else { None }
        }
        _ => None,
    }
}

/// How many units the arguments of this method descriptor take, a long or double two and every other
/// one; none where it is no method descriptor. There are at most 255 (JVMS 4.3.3).
pub fn argument_units(units: &[u16]) -> Option<u8>
    ensures count { result ≡ argument_units units.now }
    ensures found { IfSome result (λ n. IsMethodType units.now n) }
    ensures only { (n : ℕ) → IsMethodType units.now n → result ≡ Some n }
{
    count_arguments(units)
}

/// Whether these units are a method descriptor (JVMS 4.3.3).
pub(crate) fn is_method_descriptor(units: &[u16]) -> bool
    ensures { result ≡ is_method_descriptor units.now }
{
    argument_units(units).is_some()
}
