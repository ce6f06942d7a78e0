ghost use Rattle.std.specs.Prelude.{◌≡◌, ◌<◌, ◌+◌, ◌^◌, [], ◌∷◌, ◌++◌, length, map, replicate, set, get_or, nat_eq, true, Some, IfOk, OnOk, OnErr};
ghost use Rattle.jvm_model.specs.{declared.values.Value.TheVariants.Null, Classes.member, Classes.blank, View.keys};
ghost use Rattle.jvm_model.specs.World.{look, keep, put_at, text_or_empty, no_object};
ghost use Rattle.vm_heap.specs.Objects.{new_cells};

use crate::header::Header;
use crate::headers::Headers;
use et_base::{NoMemory, Units};
use jvm_model::{Head, Kind, Program, Value};
use std::alloc::Global;
use std::marker::Model;
use vm_mem::{Layouts, element_default};
use vm_tables::FieldPlaces;

/// All objects: a header each, and the cells of all of them in one list in the order of the objects.
#[derive(Drop)]
pub struct Heap {
    headers: Headers,
    cells: Vec<Value>,
    layouts: Layouts,
    places: FieldPlaces,
}

impl Model for Heap {
    ghost use Rattle.vm_heap.specs.Held.{Held};
    ghost use Rattle.vm_heap.specs.Objects.{objects_of, IsHeap};

    ghost Value = { Held };

    ghost view = { λ s. record { program = s.layouts; objects = objects_of s.layouts s.headers s.cells.items } };

    ghost invariant = { λ s. IsHeap s.layouts s.places s.headers s.cells.items };
}

impl Heap {
    ghost use Rattle.jvm_model.specs.Linked.{Linked};

    /// No objects yet of a linked program.
    pub fn new(alloc: Global, p: &Program) -> Result<Heap, NoMemory>
        requires { Linked p.now }
        ensures { IfOk result (λ x. x ≡ record { program = p.now; objects = [] }) }
    {
        let layouts = Layouts::of(alloc, p)?;
        let places = FieldPlaces::of(alloc, p)?;
        Ok(Heap {
            headers: Headers::new(alloc),
            cells: Vec::new(alloc),
            layouts,
            places,
        })
    }

    /// The head of an object.
    pub fn head(&self, object: u64) -> Head
        requires { object < length self.now.objects }
        ensures { result ≡ (get_or self.now.objects object no_object).head }
    {
        self.headers.of(object).head
    }

    /// The value of a field.
    pub fn field(&self, object: u64, field: u32) -> Value
        requires object { object < length self.now.objects }
        requires field { member field (keys (get_or self.now.objects object no_object).fields) ≡ true }
        ensures { result ≡ look nat_eq Null (get_or self.now.objects object no_object).fields field }
    {
        let start = self.headers.of(object).start;
        self.cells[start + self.places.place_of(field)]
    }

    /// Gives a field another value.
    pub fn set_field(&mut self, object: u64, field: u32, v: Value)
        requires object { object < length self.old.objects }
        requires field { member field (keys (get_or self.old.objects object no_object).fields) ≡ true }
        ensures { let x = get_or self.old.objects object no_object in self.new ≡ record self.old { objects = set self.old.objects object (record x { fields = keep nat_eq x.fields field v }) } }
    {
        let start = self.headers.of(object).start;
        self.cells[start + self.places.place_of(field)] = v;
    }

    /// The value of an element.
    pub fn elem(&self, object: u64, index: u32) -> Value
        requires object { object < length self.now.objects }
        requires index { index < length (get_or self.now.objects object no_object).elems }
        ensures { result ≡ get_or (get_or self.now.objects object no_object).elems index Null }
    {
        let header = self.headers.of(object);
        self.cells[header.start + index as usize]
    }

    /// Gives an element another value.
    pub fn set_elem(&mut self, object: u64, index: u32, v: Value)
        requires object { object < length self.old.objects }
        requires index { index < length (get_or self.old.objects object no_object).elems }
        ensures { let x = get_or self.old.objects object no_object in self.new ≡ record self.old { objects = set self.old.objects object (record x { elems = put_at Null x.elems index v }) } }
    {
        let header = self.headers.of(object);
        let place = header.start + index as usize;
        self.cells[place] = v;
    }

    /// The text of an object, empty until one was written.
    pub fn text(&self, object: u64) -> &Units
        requires { object < length self.now.objects }
        ensures { result.now ≡ text_or_empty (get_or self.now.objects object no_object).text }
    {
        self.headers.text(object)
    }

    /// Writes the text of an object.
    pub fn set_text(&mut self, object: u64, text: Units) -> Result<(), NoMemory>
        requires { object < length self.old.objects }
        ensures program { self.new.program ≡ self.old.program }
        ensures written { OnOk result (let x = get_or self.old.objects object no_object in self.new ≡ record self.old { objects = set self.old.objects object (record x { text = Some text }) }) }
    {
        self.headers.set_text(object, text)
    }

    /// Writes these units behind the text of an object.
    pub fn append_text(&mut self, object: u64, more: &[u16]) -> Result<(), NoMemory>
        requires { object < length self.old.objects }
        ensures program { self.new.program ≡ self.old.program }
        ensures appended { OnOk result (let x = get_or self.old.objects object no_object in self.new
            ≡ record self.old {
              objects = set self.old.objects object
                  (record x { text = Some (text_or_empty x.text ++ more.now) });
            }) }
    {
        self.headers.append_text(object, more)
    }

    /// Makes a new object with default cells and no text, and answers its place. After a refusal there are the objects
    /// of before.
    #[inline(always)]
    pub fn make(&mut self, head: Head) -> Result<u64, NoMemory>
        ensures gives { IfOk result (λ o. o ≡ length self.old.objects) }
        ensures program { self.new.program ≡ self.old.program }
        ensures made { OnOk result (self.new ≡ record self.old { objects = self.old.objects ++ blank self.old.program head ∷ [] }) }
        ensures kept { OnErr result (self.new ≡ self.old) }
    {
        let object = self.headers.len();
        let start = self.cells.len();
        append_cells(&mut self.cells, &self.layouts, head)?;
        match self.headers.push(Header { head, start }) {
            Ok(()) => Ok(object),
            Err(refusal) => {
                self.cells.truncate(start);
                Err(refusal)
            }
        }
    }

    /// Takes all objects away. It takes no memory.
    pub fn clear(&mut self)
        ensures { self.new ≡ record self.old { objects = [] } }
    {
        self.headers.clear();
        self.cells.clear();
    }
}

/// Appends the cells of a new object. After a refusal the cells are as before.
#[inline(always)]
fn append_cells(cells: &mut Vec<Value>, layouts: &Layouts, head: Head) -> Result<(), NoMemory>
    ensures made { OnOk result (cells.new.items ≡ cells.old.items ++ new_cells layouts.now head) }
    ensures kept { OnErr result (cells.new.items ≡ cells.old.items) }
{
    match head.kind {
        Kind::Class(class) => append_values(cells, layouts.fields(class)),
        Kind::Array { dims, base } => {
            append_elements(cells, head.length, element_default(dims, base))
        }
    }
}

/// Appends so many cells, each with the same value. After a refusal the cells are as before.
#[inline(never)]
fn append_elements(cells: &mut Vec<Value>, count: u32, v: Value) -> Result<(), NoMemory>
    ensures made { OnOk result (cells.new.items ≡ cells.old.items ++ replicate count v) }
    ensures kept { OnErr result (cells.new.items ≡ cells.old.items) }
{
    let Some(end) = cells.len().checked_add(count as usize) else {
        return Err(NoMemory {});
    };
    cells.resize(end, v)?;
    Ok(())
}

/// Appends a cell with the value of each field. After a refusal the cells are as before.
#[inline(always)]
fn append_values(cells: &mut Vec<Value>, fields: &[(u32, Value)]) -> Result<(), NoMemory>
    ensures made { OnOk result (cells.new.items ≡ cells.old.items ++ map (λ x. x.1) fields.now) }
    ensures kept { OnErr result (cells.new.items ≡ cells.old.items) }
{
    let start = cells.len();
    for (_, v) in fields {
        // the value is read after the room is there, so that nothing is kept over the call that makes it
        if cells.reserve(1).is_err() {
            cells.truncate(start);
            return Err(NoMemory {});
        }
        cells.push_reserved(*v);
    }
    Ok(())
}
