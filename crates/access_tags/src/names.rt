//! The names of files and properties that tests touched.

ghost use Rattle.std.specs.Prelude.{◌≡◌, ◌≤◌, ◌++◌, ◌∷◌, [], length, OnOk};
ghost use Rattle.vm_mem.specs.Stores.{place_in};
ghost use Rattle.access_tags.specs.{AreNames.AreNames, Numbering.position};

use et_base::{NoMemory, Units};
use indexmap::IndexMap;
use jvm_model::Location;
use sim_store::Part;
use std::alloc::Global;
use std::marker::Model;

/// The files and properties that were touched, in the order of first touch, and of each part the numbers by the names.
/// Contracts see the list of these locations.
#[derive(Drop)]
pub struct Names {
    known: Vec<Location>,
    files: IndexMap<Vec<u16>, usize>,
    props: IndexMap<Vec<u16>, usize>,
    alloc: Global,
}

impl Model for Names {
    ghost use Rattle.std.specs.Prelude.{List};
    ghost use Rattle.jvm_model.specs.declared.values.Location.{Location as Place};
    ghost use Rattle.access_tags.specs.AreNames.{IsIndexed};

    ghost Value = { List Place };

    ghost view = { λ s. s.known.items };

    ghost invariant = { λ s. IsIndexed s.known.items s.files.entries s.props.entries };
}

impl Names {
    /// No names. It takes no memory until the first push.
    pub fn new(alloc: Global) -> Names
        ensures { result ≡ [] }
    {
        Names {
            known: Vec::new(alloc),
            files: IndexMap::new(alloc),
            props: IndexMap::new(alloc),
            alloc,
        }
    }

    /// How many names there are.
    pub fn len(&self) -> usize
        ensures { result ≡ length self.now }
    {
        self.known.len()
    }

    /// The names by their numbers.
    pub fn as_slice(&self) -> &[Location]
        ensures names { result.now ≡ self.now }
        ensures none { AreNames self.now }
    {
        self.known.as_slice()
    }

    /// The number of a file or property, or how many names there are where it isn't among them. Takes no memory.
    pub fn find(&self, part: Part, name: &Units) -> usize
        ensures number { result ≡ position self.now (place_in part name.now) }
        ensures bound { result ≤ length self.now }
    {
        let known = match part {
            Part::File => self.files.get(name.as_slice()),
            Part::Prop => self.props.get(name.as_slice()),
        };
        match known {
            Some(number) => *number,
            None => self.known.len(),
        }
    }

    /// One more file or property, which isn't among the names.
    pub fn push(&mut self, part: Part, name: &Units) -> Result<(), NoMemory>
        requires { position self.old (place_in part name.now) ≡ length self.old }
        ensures { OnOk result (self.new ≡ self.old ++ place_in part name.now ∷ []) }
    {
        let number = self.known.len();
        self.known.reserve(1)?;
        let text = Units::from_slice(self.alloc, name.as_slice())?;
        let key = Vec::from_slice(self.alloc, name.as_slice())?;
        match part {
            Part::File => {
                self.files.insert(key, number)?;
                self.known.push_reserved(Location::File { name: text });
                Ok(())
            }
            Part::Prop => {
                self.props.insert(key, number)?;
                self.known.push_reserved(Location::Prop { name: text });
                Ok(())
            }
        }
    }
}
