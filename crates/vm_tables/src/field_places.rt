//! Where a field's cell stands in an object.

ghost use Rattle.std.specs.Prelude.{◌≡◌, ℕ, ◌<◌, All, IfOk, cond, get_or, length, true};
ghost use Rattle.jvm_model.specs.{Classes.layout, Classes.member, Linked.Linked};
ghost use Rattle.vm_tables.specs.FieldPlaces.{IsHeld, place};

use et_base::NoMemory;
use jvm_model::Program;
use std::alloc::Global;
use std::marker::Model;
use std::snapshot::Snapshot;

/// The place of each instance field among the cells of an object. It is the same in objects of its class and of each class
/// below, since the fields of superclasses come first. Contracts see the program.
#[derive(Drop)]
pub struct FieldPlaces {
    places: Vec<usize>,
    program: Snapshot<Program>,
}

impl Model for FieldPlaces {
    ghost use Rattle.jvm_model.specs.declared.program.Program.{Program as Numbered};
    ghost use Rattle.vm_tables.specs.FieldPlaces.{AreFieldPlaces, HaveEntries};

    ghost Value = { Numbered };

    ghost view = { λ t. t.program.value };

    ghost invariant = { λ t. AreFieldPlaces t.program.value t.places.items
        × HaveEntries t.program.value t.places.items };
}

impl FieldPlaces {
    /// The places of the fields of a linked program.
    pub fn of(alloc: Global, p: &Program) -> Result<FieldPlaces, NoMemory>
        requires { Linked p.now }
        ensures { IfOk result (λ places. places ≡ p.now) }
    {
        let mut places = vec![in alloc; 0usize; p.fields.len()]?;
        for class in 0..p.classes.len() as u32 {
            let fields = p.layout(alloc, class)?;
            note_places(&mut places, fields.as_slice());
        }
        Ok(FieldPlaces {
            places,
            program: Snapshot::of(p),
        })
    }

    /// The place of a field that objects of a class have among their cells, from 0.
    pub fn place_of(&self, field: u32) -> usize
        requires { IsHeld self.now field }
        ensures { (c : ℕ) → member field (layout self.now c) ≡ true
            → result ≡ place field (layout self.now c) }
    {
        self.places[field as usize]
    }

    /// The place of a field among the cells of an object that has it, from 0. It asks for no such object.
    pub fn place(&self, field: u32) -> usize
        ensures { (c : ℕ) → member field (layout self.now c) ≡ true → result ≡ place field (layout self.now c) }
    {
        match self.places.get(field as usize) {
            None => 0,
            Some(place) => *place,
        }
    }
}

/// Notes the place of each of these fields among them.
fn note_places(places: &mut [usize], fields: &[u32])
    requires { All (λ f. f < length places.old) fields.now }
    ensures { (f : ℕ) → get_or places.new f 0 ≡ cond (member f fields.now) (place f fields.now) (get_or places.old f 0) }
{
    let mut place = fields.len();
    while place > 0 {
        place -= 1;
        places[fields[place] as usize] = place;
    }
}
