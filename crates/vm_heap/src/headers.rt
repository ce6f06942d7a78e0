//! The headers of all objects, and their texts.

ghost use Rattle.std.specs.Prelude.{◌≡◌, ℕ, ◌<◌, ◌≤◌, ◌-◌, [], ◌∷◌, ◌++◌, length, map, replicate, set, get_or, None, Some, OnOk, OnErr};
ghost use Rattle.jvm_model.specs.World.{text_or_empty};
ghost use Rattle.vm_heap.specs.Entries.{entry, header_of, no_entry};

use crate::header::Header;
use et_base::{NoMemory, Units};
use std::alloc::Global;
use std::marker::Model;
use vm_mem::TextCell;

/// A header for each object, and the texts of the first of them, up to the last one that was written. Contracts see the
/// list of the headers with their texts.
#[derive(Drop)]
pub struct Headers {
    headers: Vec<Header>,
    texts: Vec<TextCell>,
    none: TextCell,
    alloc: Global,
}

impl Model for Headers {
    ghost use Rattle.std.specs.Prelude.{◌≡◌, ◌≤◌, length, List, None};
    ghost use Rattle.vm_heap.specs.Entries.{Entry, entries};

    ghost Value = { List Entry };

    ghost view = { λ s. entries s.headers.items s.texts.items };

    ghost invariant = { λ s. (length s.texts.items ≤ length s.headers.items) × (s.none ≡ None) };
}

impl Headers {
    /// No objects. It takes no memory.
    pub fn new(alloc: Global) -> Headers
        ensures { result ≡ [] }
    {
        Headers {
            headers: Vec::new(alloc),
            texts: Vec::new(alloc),
            none: TextCell::new(alloc),
            alloc,
        }
    }

    /// How many objects there are.
    pub fn len(&self) -> u64
        ensures { result ≡ length self.now }
    {
        self.headers.len() as u64
    }

    /// The header of an object.
    pub fn of(&self, object: u64) -> &Header
        requires { object < length self.now }
        ensures { result.now ≡ header_of (get_or self.now object no_entry) }
    {
        &self.headers[object as usize]
    }

    /// The text of an object, empty until one was written.
    pub fn text(&self, object: u64) -> &Units
        requires { object < length self.now }
        ensures { result.now ≡ text_or_empty (get_or self.now object no_entry).text }
    {
        match self.texts.get(object as usize) {
            Some(text) => text.get(),
            None => self.none.get(),
        }
    }

    /// Writes the text of an object. After a refusal the headers are as before.
    pub fn set_text(&mut self, object: u64, text: Units) -> Result<(), NoMemory>
        requires { object < length self.old }
        ensures headers { map header_of self.new ≡ map header_of self.old }
        ensures written { OnOk result (let x = get_or self.old object no_entry in
            self.new ≡ set self.old object (record x { text = Some text })) }
    {
        let place = object as usize;
        cover(&mut self.texts, self.alloc, place)?;
        self.texts[place].set(text);
        Ok(())
    }

    /// Writes these units behind the text of an object. After a refusal the headers are as before.
    pub fn append_text(&mut self, object: u64, more: &[u16]) -> Result<(), NoMemory>
        requires { object < length self.old }
        ensures headers { map header_of self.new ≡ map header_of self.old }
        ensures appended { OnOk result (let x = get_or self.old object no_entry in
            self.new ≡ set self.old object (record x { text = Some (text_or_empty x.text ++ more.now) })) }
    {
        let place = object as usize;
        cover(&mut self.texts, self.alloc, place)?;
        self.texts[place].append(more)
    }

    /// Appends the header of an object without text. After a refusal all is as before.
    pub fn push(&mut self, header: Header) -> Result<(), NoMemory>
        ensures pushed { OnOk result (self.new ≡ self.old ++ entry header None ∷ []) }
        ensures kept { OnErr result (self.new ≡ self.old) }
    {
        self.headers.push(header)?;
        Ok(())
    }

    /// Takes all headers and texts away. It takes no memory.
    pub fn clear(&mut self)
        ensures { self.new ≡ [] }
    {
        self.headers.clear();
        self.texts.clear();
    }
}

/// Appends empty texts up to this place.
fn cover(texts: &mut Vec<TextCell>, alloc: Global, place: usize) -> Result<(), NoMemory>
    ensures covered { texts.new.items ≡ texts.old.items ++ replicate (length texts.new.items - length texts.old.items) None }
    ensures within { (n : ℕ) → length texts.old.items ≤ n → place < n → length texts.new.items ≤ n }
    ensures there { OnOk result (place < length texts.new.items) }
{
    while texts.len() <= place {
        texts.push(TextCell::new(alloc))?;
    }
    Ok(())
}
