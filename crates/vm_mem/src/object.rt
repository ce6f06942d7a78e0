ghost use Rattle.std.specs.Prelude.{◌≡◌, ◌<◌, ◌++◌, [], length, nat_eq, true, false, None, Some, get_or, OnOk};
ghost use Rattle.jvm_model.specs.{declared.values.Value.TheVariants.Null, World.look, World.keep, World.put_at, World.text_or_empty, Classes.member, View.keys};

use crate::text_cell::TextCell;
use et_base::{NoMemory, Units};
use jvm_model::{Head, Value};
use std::alloc::Global;
use std::marker::Model;

/// An object: its head, its fields by number, the elements of an array, and its text once one was written.
#[derive(Drop)]
pub struct Object {
    head: Head,
    fields: Vec<(u32, Value)>,
    elems: Vec<Value>,
    text: TextCell,
}

impl Model for Object {
    ghost use Rattle.jvm_model.specs.World.{Object as Stored};

    ghost Value = { Stored };

    ghost view = { λ x. record { head = x.head; fields = x.fields.items; elems = x.elems.items; text = x.text } };
}

impl Object {
    /// An object with these fields and elements, and no text.
    pub fn new(alloc: Global, head: Head, fields: Vec<(u32, Value)>, elems: Vec<Value>) -> Object
        ensures { result ≡ record { head = head; fields = fields.items; elems = elems.items; text = None } }
    {
        Object {
            head,
            fields,
            elems,
            text: TextCell::new(alloc),
        }
    }

    /// Its head.
    pub fn head(&self) -> Head
        ensures { result ≡ self.now.head }
    {
        self.head
    }

    /// Its fields by number, in order.
    pub fn fields(&self) -> &[(u32, Value)]
        ensures { result.now ≡ self.now.fields }
    {
        self.fields.as_slice()
    }

    /// Its elements, in order.
    pub fn elems(&self) -> &[Value]
        ensures { result.now ≡ self.now.elems }
    {
        self.elems.as_slice()
    }

    /// The value of a field, by its number.
    pub fn field(&self, field: u32) -> Value
        ensures { result ≡ look nat_eq Null self.now.fields field }
    {
        for (number, v) in &self.fields {
            if field == *number {
                return *v;
            }
        }
        Value::Null
    }

    /// Gives a field another value.
    pub fn set_field(&mut self, field: u32, v: Value)
        requires { member field (keys self.old.fields) ≡ true }
        ensures { self.new ≡ record self.old { fields = keep nat_eq self.old.fields field v } }
    {
        set_entry(&mut self.fields, field, v);
    }

    /// The value of an element.
    pub fn elem(&self, index: u32) -> Value
        requires { index < length self.now.elems }
        ensures { result ≡ get_or self.now.elems index Null }
    {
        self.elems[index as usize]
    }

    /// Gives an element another value.
    #[tactic(auto, using(jvm_model::proofs::Ranges::put_at_is_set))]
    pub fn set_elem(&mut self, index: u32, v: Value)
        requires { index < length self.old.elems }
        ensures { self.new ≡ record self.old { elems = put_at Null self.old.elems index v } }
    {
        self.elems[index as usize] = v;
    }

    /// Its text, empty until one was written.
    pub fn text(&self) -> &Units
        ensures { result.now ≡ text_or_empty self.now.text }
    {
        self.text.get()
    }

    /// Writes its text.
    pub fn set_text(&mut self, text: Units)
        ensures { self.new ≡ record self.old { text = Some text } }
    {
        self.text.set(text);
    }

    /// Writes these units behind its text.
    pub fn append_text(&mut self, more: &[u16]) -> Result<(), NoMemory>
        ensures { OnOk result (self.new
            ≡ record self.old { text = Some (text_or_empty self.old.text ++ more.now) }) }
    {
        self.text.append(more)
    }
}

/// Gives the first entry of a number that is there another value.
fn set_entry(entries: &mut Vec<(u32, Value)>, number: u32, v: Value)
    requires { member number (keys entries.old.items) ≡ true }
    ensures { entries.new.items ≡ keep nat_eq entries.old.items number v }
{
    for i in 0..entries.len() {
        if number == entries[i].0 {
            entries[i].1 = v;
            return;
        }
    }
}
