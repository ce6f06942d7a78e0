//! A pool with what tests say of its texts, each text looked at once.

ghost use Rattle.std.specs.Prelude.{◌≡◌, ℕ, ◌<◌, ◌^◌, ◌||◌, true, not, length, map, List, IfOk, IfErr, OnOk, if◌then◌else◌};
ghost use Rattle.std.specs.{Option.option_or, Str.bytes_eq};
ghost use Rattle.class_pool.specs.{declared.fault.Fault.TheVariants.Repeated, Pool.entry_of, Pool.is_text, Reading.Gives};
ghost use Rattle.et_base.specs.Answers.{nothing, tested};
ghost use Rattle.class_reader.specs.Texts.{first_of, mark_with, mark_of, key_of};
ghost use Rattle.class_reader.specs.{Names.is_text_of, Names.is_repeated, Lookups.noted, Lookups.noted_first};

use crate::parts::MemberPart;
use class_pool::fault::wants;
use class_pool::names::{argument_units, is_field_descriptor, is_method_name, is_unqualified};
use class_pool::{Entry, Fault, Pool, ReadError};
use std::alloc::Global;
use std::collections::{BTreeMap, BTreeSet};
use std::marker::Model;

/// What tests say of a slot's text.
#[derive(Clone, Copy)]
pub struct Mark {
    /// Whether it is a field's name.
    pub field_name: bool,
    /// Whether it is a field's descriptor.
    pub field_type: bool,
    /// Whether it is a method's name.
    pub method_name: bool,
    /// The argument units of a method descriptor.
    pub argument_units: Option<u8>,
    /// The number of the first slot with this text, from 0.
    pub first: Option<u16>,
}

fn mark_with(slot: &Option<Entry>, first: Option<u16>) -> Mark
    ensures { result ≡ mark_with slot.now first }
{
    match slot {
        Some(Entry::Utf8(units)) => Mark {
            field_name: is_unqualified(units.as_slice()),
            field_type: is_field_descriptor(units.as_slice()),
            method_name: is_method_name(units.as_slice()),
            argument_units: argument_units(units.as_slice()),
            first,
        },
        _ => Mark {
            field_name: false,
            field_type: false,
            method_name: false,
            argument_units: None,
            first,
        },
    }
}

// The number that is noted for a text; where there is none, this one, which is noted then.
fn note<'a>(texts: &mut BTreeMap<&'a [u16], u16>, text: &'a [u16], i: u16) -> Result<u16, ReadError>
    ensures first { IfOk result (λ n. Some n ≡ option_or (noted texts.old text.now) (Some i)) }
    ensures noted { OnOk result ((q : List ℕ) → noted texts.new q ≡ option_or (noted texts.old q) (if bytes_eq text.now q then Some i else None)) }
    ensures err { IfErr result (λ e. e ≡ ReadError.Memory) }
{
    match texts.get(text).copied() {
        Some(first) => Ok(first),
        None => {
            texts.insert(text, i)?;
            Ok(i)
        }
    }
}

fn note_slot<'a>(
    texts: &mut BTreeMap<&'a [u16], u16>,
    slot: &'a Option<Entry>,
    i: u16,
) -> Result<Option<u16>, ReadError>
    ensures first { IfOk result (λ n. n ≡ noted_first texts.old slot.now i) }
    ensures noted { OnOk result ((q : List ℕ) → noted texts.new q ≡ option_or (noted texts.old q) (if is_text_of q slot.now then Some i else None)) }
    ensures err { IfErr result (λ e. e ≡ ReadError.Memory) }
{
    match slot {
        Some(Entry::Utf8(units)) => {
            let first = note(texts, units.as_slice(), i)?;
            Ok(Some(first))
        }
        _ => Ok(None),
    }
}

fn marks_of(alloc: Global, slots: &[Option<Entry>]) -> Result<Vec<Mark>, ReadError>
    requires { length slots.now < 2 ^ 16 }
    ensures marks { IfOk result (λ v. v.items ≡ map (mark_of slots.now) slots.now) }
    ensures err { IfErr result (λ e. e ≡ ReadError.Memory) }
{
    let mut texts = BTreeMap::new(alloc);
    let mut marks = Vec::with_capacity(alloc, slots.len())?;
    for (i, slot) in slots.iter().enumerate() {
        let first = note_slot(&mut texts, slot, i as u16)?;
        marks.push(mark_with(slot, first))?;
    }
    Ok(marks)
}

/// A pool with a mark for each slot. Contracts see it as the pool's slots from index 1 on.
#[derive(Drop)]
pub struct Texts<'a> {
    pool: &'a Pool,
    marks: Vec<Mark>,
}

impl<'a> Model for Texts<'a> {
    ghost use Rattle.std.specs.Prelude.{List, Option};
    ghost use Rattle.class_pool.specs.declared.pool.Entry.{Entry};
    ghost use Rattle.class_reader.specs.Texts.{IsMarked};

    ghost Value = { List (Option Entry) };

    ghost view = { λ t. t.pool.now };

    ghost invariant = { λ t. IsMarked t.pool.now t.marks.items };
}

impl<'a> Texts<'a> {
    ghost use Rattle.class_reader.specs.Texts.{IsSeen, IsSeenWith};

    /// Looks at each text of the pool once.
    pub fn new(alloc: Global, pool: &'a Pool) -> Result<Texts<'a>, ReadError>
        ensures made { IfOk result (λ t. t ≡ pool.now) }
        ensures err { IfErr result (λ e. e ≡ ReadError.Memory) }
    {
        let marks = marks_of(alloc, pool.slots())?;
        Ok(Texts { pool, marks })
    }

    /// The pool.
    pub fn pool(&self) -> &Pool
        ensures { result.now ≡ self.now }
    {
        self.pool
    }

    /// The mark of the slot that an index names; it takes constant time.
    pub fn mark(&self, index: u16) -> Mark
        ensures { result ≡ mark_of self.now (entry_of self.now index) }
    {
        if index == 0 {
            return mark_with(&None, None);
        }
        match self.marks.get(index as usize - 1) {
            Some(mark) => *mark,
            None => mark_with(&None, None),
        }
    }

    // One number for a name and a descriptor.
    fn key(&self, name: u16, descriptor: u16) -> u32
        ensures key { result ≡ key_of self.now name descriptor }
        ensures few { length self.now < 65536 }
    {
        let _ = &self.marks;
        self.mark(name).first.unwrap_or(0) as u32 * 65536
            + self.mark(descriptor).first.unwrap_or(0) as u32
    }

    /// Adds the key of a name and a descriptor to those of the members `before`; `Repeated` where it is
    /// there. It reads the keys and no member.
    pub fn once(
        &self,
        _before: &[MemberPart],
        keys: &mut BTreeSet<u32>,
        name: u16,
        descriptor: u16,
        left: usize,
    ) -> Result<(), ReadError>
        requires seen { IsSeen self.now _before.now keys.old }
        requires name { is_text (entry_of self.now name) ≡ true }
        requires descriptor { is_text (entry_of self.now descriptor) ≡ true }
        ensures gives { Gives nothing result (tested (not (is_repeated self.now _before.now name descriptor)) (Repeated left)) }
        ensures seen { OnOk result (IsSeenWith self.now _before.now name descriptor keys.new) }
    {
        let key = self.key(name, descriptor);
        let added = keys.insert(key)?;
        wants(added, Fault::Repeated(left))
    }
}
