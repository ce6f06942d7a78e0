//! String constants by their contents.

ghost use Rattle.std.specs.Prelude.{◌≡◌, ◌≤◌, ◌<◌, ◌+◌, ◌*◌, length, IfOk, OnOk};
ghost use Rattle.class_link.specs.Literals.{literals, literal_number, noted, strings_of, string_in};

use crate::entries::text_at;
use crate::text_set::TextSet;
use class_pool::Entry;
use class_reader::ClassFile;
use et_base::{Items, NoMemory, Units};
use std::alloc::Global;
use std::marker::Model;

/// String constants, which differ. Contracts see the list of their contents, in the order of their numbers.
#[derive(Drop)]
pub struct Literals {
    texts: TextSet,
}

impl Model for Literals {
    ghost use Rattle.std.specs.Prelude.{ℕ, List};

    ghost Value = { List (List ℕ) };

    ghost view = { λ n. n.texts };
}

impl Literals {
    /// The number of the constant with this content, from 1, in logarithmic time.
    pub(crate) fn number(&self, text: &[u16]) -> u32
        ensures { result ≡ literal_number self.now text.now }
    {
        match self.texts.place(text) {
            Some(place) => place + 1,
            None => 1,
        }
    }

    /// The contents, in the order of their numbers.
    pub(crate) fn contents(&self, alloc: Global) -> Result<Items<Units>, NoMemory>
        ensures { IfOk result (λ made. made ≡ self.now) }
    {
        self.texts.contents(alloc)
    }
}

// Notes the text of a String entry.
fn note_slot(
    alloc: Global,
    texts: &mut TextSet,
    slots: &[Option<Entry>],
    slot: &Option<Entry>,
) -> Result<(), NoMemory>
    requires { length texts.old + 1 < 4294967295 }
    ensures noted { OnOk result (texts.new ≡ noted texts.old (string_in slots.now slot.now)) }
    ensures few { OnOk result (length texts.new ≤ length texts.old + 1) }
{
    match slot {
        Some(Entry::Str { text }) => {
            texts.note(alloc, text_at(slots, *text))?;
            Ok(())
        }
        _ => Ok(()),
    }
}

// Notes the texts of a pool's String entries.
#[tactic(auto, using(crate::proofs::TextLaws::noted_append))]
fn note_strings(alloc: Global, texts: &mut TextSet, slots: &[Option<Entry>]) -> Result<(), NoMemory>
    requires { length texts.old + length slots.now < 4294967295 }
    ensures noted { OnOk result (texts.new ≡ noted texts.old (strings_of slots.now)) }
    ensures few { OnOk result (length texts.new ≤ length texts.old + length slots.now) }
{
    for slot in slots {
        note_slot(alloc, texts, slots, slot)?;
    }
    Ok(())
}

/// The string constants of class files, each content once.
#[tactic(auto, using(crate::proofs::TextLaws::noted_append), unfolding(crate::specs::Literals::literals))]
pub(crate) fn literals_of(alloc: Global, classes: &[ClassFile]) -> Result<Literals, NoMemory>
    requires { length classes.now ≤ 1024 }
    ensures { IfOk result (λ texts. texts ≡ literals classes.now) }
{
    let mut texts = TextSet::new(alloc);
    for class in classes {
        note_strings(alloc, &mut texts, class.parts().pool.slots())?;
    }
    Ok(Literals { texts })
}
