ghost use Rattle.std.specs.Prelude.{◌≡◌, List, [], None, Some, OnOk, OnErr, MatchOption};
ghost use Rattle.std.specs.{List.list_any, Str.bytes_eq};
ghost use Rattle.jvm_model.specs.World.{look, keep};

use crate::texts::Texts;
use et_base::{NoMemory, Units};
use std::alloc::Global;
use std::marker::Model;

/// Which of the two maps is meant: the files or the properties.
#[derive(Clone, Copy, PartialEq, Eq)]
pub enum Part {
    File,
    Prop,
}

/// Files and properties: two finite maps from names to texts. Contracts see each as the list of its names with what
/// stands at them, in the order in which the names came; at a name that was taken off stands nothing.
#[derive(Drop)]
pub struct Store {
    files: Texts,
    props: Texts,
}

impl Model for Store {
    ghost use Rattle.sim_store.specs.Stored.{Stored};

    ghost Value = { Stored };

    ghost view = { λ s. record { files = s.files; props = s.props } };
}

impl Store {
    ghost use Rattle.sim_store.specs.Parts.{in_part, with_part};

    /// No files and no properties. It takes no memory until the first put.
    pub fn new(alloc: Global) -> Store
        ensures { result ≡ record { files = []; props = [] } }
    {
        Store {
            files: Texts::new(alloc),
            props: Texts::new(alloc),
        }
    }

    /// The text at a name of a part; none where there is none. It takes no memory.
    pub fn get(&self, part: Part, name: &Units) -> Option<&Units>
        ensures { MatchOption result (look bytes_eq None (in_part part self.now) name.now ≡ None) (λ t. look bytes_eq None (in_part part self.now) name.now ≡ Some t.now) }
    {
        match part {
            Part::File => self.files.get(name.as_slice()),
            Part::Prop => self.props.get(name.as_slice()),
        }
    }

    /// Whether a name of a part came, be its text there or taken off. It takes no memory.
    pub fn has(&self, part: Part, name: &Units) -> bool
        ensures { result ≡ list_any (λ e. bytes_eq name.now e.0) (in_part part self.now) }
    {
        match part {
            Part::File => self.files.has(name.as_slice()),
            Part::Prop => self.props.has(name.as_slice()),
        }
    }

    /// Puts a text at a name of a part; `None` takes it off. After a refusal the store is as before.
    pub fn put(&mut self, part: Part, name: Units, content: Option<Units>) -> Result<(), NoMemory>
        ensures put { OnOk result (self.new ≡ with_part part self.old (keep bytes_eq (in_part part self.old) name content)) }
        ensures kept { OnErr result (self.new ≡ self.old) }
    {
        match part {
            Part::File => self.files.put(name, content),
            Part::Prop => self.props.put(name, content),
        }
    }

    /// Takes all names of both parts away. It takes no memory.
    pub fn clear(&mut self)
        ensures { self.new ≡ record { files = []; props = [] } }
    {
        self.files.clear();
        self.props.clear();
    }
}
