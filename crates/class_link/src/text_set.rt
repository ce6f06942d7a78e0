//! Texts that differ, for a fast look-up of their places.

ghost use Rattle.std.specs.Prelude.{◌≡◌, ◌<◌, ◌+◌, ℕ, List, [], ◌∷◌, ◌++◌, length, position, not, cond, IfSome, IfOk, OnOk};
ghost use Rattle.std.specs.{List.list_any, Str.bytes_eq};

use et_base::{Items, NoMemory, Units};
use std::alloc::Global;
use std::collections::BTreeMap;
use std::marker::Model;

/// Different texts, fewer than 2^32 - 1, in the order in which they came. Contracts see the list of them.
#[derive(Drop)]
pub(crate) struct TextSet {
    texts: Vec<Units>,
    places: BTreeMap<Vec<u16>, u32>,
}

impl Model for TextSet {
    ghost use Rattle.std.specs.Prelude.{ℕ, List};
    ghost use Rattle.class_link.specs.Placed.{IsPlaced};

    ghost Value = { List (List ℕ) };

    ghost view = { λ s. s.texts.items };

    ghost invariant = { λ s. IsPlaced s.texts.items s.places };
}

impl TextSet {
    /// No texts. It takes no memory until the first is noted.
    pub(crate) fn new(alloc: Global) -> TextSet
        ensures { result ≡ [] }
    {
        TextSet {
            texts: Vec::new(alloc),
            places: BTreeMap::new(alloc),
        }
    }

    /// The place of a text, from 0.
    pub(crate) fn place(&self, text: &[u16]) -> Option<u32>
        ensures place { result ≡ position (bytes_eq text.now) self.now }
        ensures within { IfSome result (λ place. place + 1 < 4294967296) }
    {
        self.places.get(text).copied()
    }

    /// How many texts there are.
    pub(crate) fn len(&self) -> u32
        ensures { result ≡ length self.now }
    {
        self.texts.len() as u32
    }

    /// Puts a text last, unless it is there. Answers whether it is new.
    pub(crate) fn note(&mut self, alloc: Global, text: &[u16]) -> Result<bool, NoMemory>
        requires { length self.old + 1 < 4294967295 }
        ensures is_new { IfOk result (λ is_new. is_new ≡ not (list_any (bytes_eq text.now) self.old)) }
        ensures texts { OnOk result (self.new ≡ cond (list_any (bytes_eq text.now) self.old) self.old (self.old ++ text.now ∷ [])) }
    {
        if self.places.contains_key(text) {
            return Ok(false);
        }
        let place = self.len();
        self.texts.reserve(1)?;
        let kept = Units::from_slice(alloc, text)?;
        let key = Vec::from_slice(alloc, text)?;
        self.places.insert(key, place)?;
        self.texts.push_reserved(kept);
        Ok(true)
    }

    /// The texts in order.
    pub(crate) fn contents(&self, alloc: Global) -> Result<Items<Units>, NoMemory>
        ensures { IfOk result (λ made. made ≡ self.now) }
    {
        let texts = self.texts.as_slice();
        let mut made = Items::new(alloc);
        for text in texts {
            made.push(Items::from_slice(alloc, text.as_slice())?)?;
        }
        Ok(made)
    }
}
