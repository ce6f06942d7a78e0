//! The numbers of a world's locations.

ghost use Rattle.std.specs.Prelude.{◌≡◌, ◌+◌, ◌++◌, ◌∷◌, [], length, get_or, false, IfOk, IfSome, OnOk};
ghost use Rattle.jvm_model.specs.{Classes.fields_of, Linked.Linked, View.Exists, World.World};
ghost use Rattle.access_tags.specs.{Followed.IsNumbered, Numbering.is_name, Numbering.located, Worlds.number_in};

use crate::conflict::LocationKey;
use et_base::NoMemory;
use jvm_model::{Kind, Program, Value};
use std::alloc::Global;
use vm_mem::Layouts;
use vm_tables::FieldPlaces;

/// Where each location of a world stands among all but files and properties: statics by their numbers, then class states,
/// then the parts of each object.
#[derive(Drop)]
pub struct Numbers {
    statics: u64,
    bases: Vec<u64>,
    places: FieldPlaces,
    layouts: Layouts,
}

impl Numbers {
    /// The numbers of a linked program's locations before its first test.
    pub fn of(alloc: Global, p: &Program) -> Result<Numbers, NoMemory>
        requires { Linked p.now }
        ensures statics { IfOk result (λ n. n.statics ≡ length p.now.fields) }
        ensures bases { IfOk result (λ n. n.bases.items ≡ []) }
        ensures places { IfOk result (λ n. n.places ≡ p.now) }
        ensures layouts { IfOk result (λ n. n.layouts ≡ p.now) }
    {
        Ok(Numbers {
            statics: p.fields.len() as u64,
            bases: Vec::new(alloc),
            places: FieldPlaces::of(alloc, p)?,
            layouts: Layouts::of(alloc, p)?,
        })
    }

    /// The number of a location that is there, but a file or property. Takes no memory.
    #[inline(always)]
    pub fn number(&self, spot: LocationKey) -> Option<u64>
        ensures { IfSome result (λ n. (w : World) → IsNumbered w self.now → is_name spot ≡ false → Exists w (located [] spot)
            → n ≡ number_in w (located [] spot)) }
    {
        match spot {
            LocationKey::Static { field } => Some(field as u64),
            LocationKey::Init { class } => self.statics.checked_add(class as u64),
            LocationKey::Head { object } => self.part(object, 0),
            LocationKey::Text { object } => self.part(object, 1),
            LocationKey::Field { object, field } => self.field_part(
                object,
                self.places.place(field),
            ),
            LocationKey::Elem { object, index } => self.part(object, 2 + index as u64),
            LocationKey::Named { .. } => None,
        }
    }

    /// The number of the field of an object that has this place among the fields.
    #[inline(always)]
    fn field_part(&self, object: u64, place: usize) -> Option<u64>
        ensures { IfSome result (λ n. n ≡ get_or self.now.bases.items object 0 + (2 + place)) }
    {
        let before = (place as u64).checked_add(2)?;
        self.part(object, before)
    }

    /// The number of the part of an object that has so many before it.
    #[inline(always)]
    fn part(&self, object: u64, before: u64) -> Option<u64>
        ensures { IfSome result (λ n. n ≡ get_or self.now.bases.items object 0 + before) }
    {
        let base = self.bases.get(object as usize)?;
        base.checked_add(before)
    }

    /// How many objects there are. Takes no memory.
    pub fn objects(&self) -> u64
        ensures { result ≡ length self.now.bases.items }
    {
        self.bases.len() as u64
    }

    /// The fields of a new object of this kind by number, with their default values. Takes no memory.
    pub fn fields(&self, kind: Kind) -> &[(u32, Value)]
        ensures { result.now ≡ fields_of self.now.layouts kind }
    {
        match kind {
            Kind::Class(class) => self.layouts.fields(class),
            Kind::Array { .. } => &[],
        }
    }

    /// The parts of one more object begin at this number.
    pub fn push(&mut self, base: u64) -> Result<(), NoMemory>
        ensures statics { self.new.statics ≡ self.old.statics }
        ensures places { self.new.places ≡ self.old.places }
        ensures layouts { self.new.layouts ≡ self.old.layouts }
        ensures bases { OnOk result (self.new.bases.items ≡ self.old.bases.items ++ base ∷ []) }
    {
        self.bases.push(base)?;
        Ok(())
    }
}
