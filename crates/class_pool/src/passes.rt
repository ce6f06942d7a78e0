//! The two passes over a pool: what its entries name, and the names and descriptors (JVMS 4.4).

ghost use Rattle.std.specs.Prelude.{◌≡◌, ◌||◌, map, IfOk, IfErr, None};
ghost use Rattle.et_base.specs.Answers.{nothing};
ghost use Rattle.class_pool.specs.{Reading.Gives, Marks.mark_of_text, Marks.no_mark, Marks.mark_of, Marks.marked};
ghost use Rattle.class_pool.specs.Pool.{entry_of, is_class, is_pair, is_field_pair, is_method_pair, wants_at, wrong_index, wrong_name, pass, indices_pass, names_pass};

use crate::fault::{Fault, ReadError};
use crate::lookup::{entry_at, names_class, names_handled, names_pair, names_text};
use crate::names::{
    is_class_entry_name, is_field_descriptor, is_method_descriptor, is_method_name, is_unqualified,
};
use crate::pool::{Entry, after_slot};
use std::alloc::Global;

// The offset of a field that fails its test, or of a later one.
fn wants_at(test: bool, at: usize, rest: Option<usize>) -> Option<usize>
    ensures { result ≡ wants_at test at rest }
{
    if test { rest } else { Some(at) }
}

// Where a class and a NameAndType are named.
fn wrong_member(slots: &[Option<Entry>], class: u16, pair: u16) -> Option<usize>
    ensures { result ≡ wants_at (is_class (entry_of slots.now class)) 1 (wants_at (is_pair (entry_of slots.now pair)) 3 None) }
{
    wants_at(
        names_class(slots, class),
        1,
        wants_at(names_pair(slots, pair), 3, None),
    )
}

// The offset in an entry of its first index that names the wrong kind of entry, or none.
fn wrong_index(slots: &[Option<Entry>], slot: &Option<Entry>) -> Option<usize>
    ensures { result ≡ wrong_index slots.now slot.now }
{
    match slot {
        Some(Entry::Class { name }) => wants_at(names_text(slots, *name), 1, None),
        Some(Entry::Str { text }) => wants_at(names_text(slots, *text), 1, None),
        Some(Entry::MethodType { descriptor }) => wants_at(names_text(slots, *descriptor), 1, None),
        Some(Entry::Field { class, pair }) => wrong_member(slots, *class, *pair),
        Some(Entry::Method { class, pair }) => wrong_member(slots, *class, *pair),
        Some(Entry::InterfaceMethod { class, pair }) => wrong_member(slots, *class, *pair),
        Some(Entry::NameAndType { name, descriptor }) => {
            wants_at(
                names_text(slots, *name),
                1,
                wants_at(names_text(slots, *descriptor), 3, None),
            )
        }
        Some(Entry::MethodHandle { kind, index }) => wants_at(
            names_handled(slots, *kind, *index),
            2,
            None,
        ),
        Some(Entry::InvokeDynamic { bootstrap: _, pair }) => wants_at(
            names_pair(slots, *pair),
            3,
            None,
        ),
        _ => None,
    }
}

// What is left at the first index that names the wrong kind of entry, or none.
fn first_wrong_index(slots: &[Option<Entry>], from: usize) -> Option<usize>
    ensures { result ≡ pass (wrong_index slots.now) from slots.now }
{
    let mut left = from;
    for slot in slots {
        if let Some(at) = wrong_index(slots, slot) {
            return Some(left.saturating_sub(at));
        }
        left = after_slot(left, slot);
    }
    None
}

/// The first pass, over slots at which so much is left: `BadIndex` at the first index that names no
/// entry of a kind that is allowed in its place.
#[tactic(auto, unfolding(crate::specs::Pool::indices_pass))]
pub(crate) fn all_indices(slots: &[Option<Entry>], from: usize) -> Result<(), ReadError>
    ensures { Gives nothing result (indices_pass slots.now from) }
{
    match first_wrong_index(slots, from) {
        None => Ok(()),
        Some(left) => Err(ReadError::Fault(Fault::BadIndex(left))),
    }
}

/// What tests say of a slot's text; all false where it is no text.
#[derive(Clone, Copy)]
pub(crate) struct Mark {
    name: bool,
    method_name: bool,
    class_name: bool,
    field: bool,
    method: bool,
}

fn mark_of_text(units: &[u16]) -> Mark
    ensures { result ≡ mark_of_text units.now }
{
    Mark {
        name: is_unqualified(units),
        method_name: is_method_name(units),
        class_name: is_class_entry_name(units),
        field: is_field_descriptor(units),
        method: is_method_descriptor(units),
    }
}

fn no_mark() -> Mark
    ensures { result ≡ no_mark }
{
    Mark {
        name: false,
        method_name: false,
        class_name: false,
        field: false,
        method: false,
    }
}

fn mark_of(slot: &Option<Entry>) -> Mark
    ensures { result ≡ mark_of slot.now }
{
    match slot {
        Some(Entry::Utf8(units)) => mark_of_text(units.as_slice()),
        _ => no_mark(),
    }
}

// A mark for each slot: each text is looked at once.
fn marks_of(alloc: Global, slots: &[Option<Entry>]) -> Result<Vec<Mark>, ReadError>
    ensures marks { IfOk result (λ v. v.items ≡ map mark_of slots.now) }
    ensures err { IfErr result (λ e. e ≡ ReadError.Memory) }
{
    let mut marks = Vec::new(alloc);
    for slot in slots {
        marks.push(mark_of(slot))?;
    }
    Ok(marks)
}

// The mark of the slot that an index names.
fn mark_at(marks: &[Mark], index: u16) -> Mark
    ensures { result ≡ marked marks.now index }
{
    if index == 0 {
        return no_mark();
    }
    match marks.get(index as usize - 1) {
        Some(mark) => *mark,
        None => no_mark(),
    }
}

// Whether a NameAndType entry names a field, by its name and descriptor.
fn is_field_pair(slots: &[Option<Entry>], marks: &[Mark], pair: u16) -> bool
    requires { marks.now ≡ map mark_of slots.now }
    ensures { result ≡ is_field_pair slots.now (entry_of slots.now pair) }
{
    match entry_at(slots, pair) {
        Some(Entry::NameAndType { name, descriptor }) => mark_at(marks, *name).name
            && mark_at(marks, *descriptor).field,
        _ => false,
    }
}

// Whether a NameAndType entry names a method, by its name and descriptor.
fn is_method_pair(slots: &[Option<Entry>], marks: &[Mark], pair: u16) -> bool
    requires { marks.now ≡ map mark_of slots.now }
    ensures { result ≡ is_method_pair slots.now (entry_of slots.now pair) }
{
    match entry_at(slots, pair) {
        Some(Entry::NameAndType { name, descriptor }) => mark_at(marks, *name).method_name
            && mark_at(marks, *descriptor).method,
        _ => false,
    }
}

// Whether an index names a text that is a descriptor.
fn is_descriptor(marks: &[Mark], index: u16) -> bool
    ensures { result ≡ (marked marks.now index).field || (marked marks.now index).method }
{
    let mark = mark_at(marks, index);
    mark.field || mark.method
}

// The offset in an entry of its first index that names a name or descriptor in no form that is
// allowed there, or none.
fn wrong_name(slots: &[Option<Entry>], marks: &[Mark], slot: &Option<Entry>) -> Option<usize>
    requires { marks.now ≡ map mark_of slots.now }
    ensures { result ≡ wrong_name slots.now slot.now }
{
    match slot {
        Some(Entry::Class { name }) => wants_at(mark_at(marks, *name).class_name, 1, None),
        Some(Entry::MethodType { descriptor }) => wants_at(
            mark_at(marks, *descriptor).method,
            1,
            None,
        ),
        Some(Entry::NameAndType { name, descriptor }) => {
            wants_at(
                mark_at(marks, *name).name,
                1,
                wants_at(is_descriptor(marks, *descriptor), 3, None),
            )
        }
        Some(Entry::Field { class: _, pair }) => wants_at(
            is_field_pair(slots, marks, *pair),
            3,
            None,
        ),
        Some(Entry::Method { class: _, pair }) => wants_at(
            is_method_pair(slots, marks, *pair),
            3,
            None,
        ),
        Some(Entry::InterfaceMethod { class: _, pair }) => wants_at(
            is_method_pair(slots, marks, *pair),
            3,
            None,
        ),
        _ => None,
    }
}

// What is left at the first index that names a wrong name or descriptor, or none.
fn first_wrong_name(slots: &[Option<Entry>], marks: &[Mark], from: usize) -> Option<usize>
    requires { marks.now ≡ map mark_of slots.now }
    ensures { result ≡ pass (wrong_name slots.now) from slots.now }
{
    let mut left = from;
    for slot in slots {
        if let Some(at) = wrong_name(slots, marks, slot) {
            return Some(left.saturating_sub(at));
        }
        left = after_slot(left, slot);
    }
    None
}

/// The second pass, over slots at which so much is left: `BadDescriptor` at the first index that
/// names a name or descriptor in no form that is allowed there.
#[tactic(auto, unfolding(crate::specs::Pool::names_pass))]
pub(crate) fn all_names(
    alloc: Global,
    slots: &[Option<Entry>],
    from: usize,
) -> Result<(), ReadError>
    ensures { Gives nothing result (names_pass slots.now from) }
{
    let marks = marks_of(alloc, slots)?;
    match first_wrong_name(slots, marks.as_slice(), from) {
        None => Ok(()),
        Some(left) => Err(ReadError::Fault(Fault::BadDescriptor(left))),
    }
}
