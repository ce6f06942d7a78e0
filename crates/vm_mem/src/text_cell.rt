ghost use Rattle.std.specs.Prelude.{◌≡◌, ◌++◌, None, Some, OnOk};
ghost use Rattle.jvm_model.specs.World.{text_or_empty};

use et_base::{NoMemory, Units};
use std::alloc::Global;
use std::marker::Model;

/// The text of an object, once one was written. Contracts see it as that text or nothing.
#[derive(Drop)]
pub struct TextCell {
    text: Units,
    written: bool,
}

impl Model for TextCell {
    ghost use Rattle.std.specs.Prelude.{◌≡◌, ℕ, List, Option, Some, None, cond};
    ghost use Rattle.jvm_model.specs.World.{text_or_empty};

    ghost Value = { Option (List ℕ) };

    ghost view = { λ x. cond x.written (Some x.text) None };

    ghost invariant = { λ x. x.text ≡ text_or_empty (cond x.written (Some x.text) None) };
}

impl TextCell {
    /// No text was written.
    pub fn new(alloc: Global) -> TextCell
        ensures { result ≡ None }
    {
        TextCell {
            text: Units::new(alloc),
            written: false,
        }
    }

    /// The text, empty until one was written.
    pub fn get(&self) -> &Units
        ensures { result.now ≡ text_or_empty self.now }
    {
        &self.text
    }

    /// Writes a text.
    pub fn set(&mut self, text: Units)
        ensures { self.new ≡ Some text }
    {
        self.text = text;
        self.written = true;
    }

    /// Writes these units behind the text.
    pub fn append(&mut self, more: &[u16]) -> Result<(), NoMemory>
        ensures { OnOk result (self.new ≡ Some (text_or_empty self.old ++ more.now)) }
    {
        self.text.extend_from_slice(more)?;
        self.written = true;
        Ok(())
    }
}
