//! The names that were met, for a fast look-up.

ghost use Rattle.std.specs.Prelude.{◌≡◌, ℕ, List, [], ◌∷◌, ◌++◌, length, false, map, OnOk};
ghost use Rattle.std.specs.{List.list_any, Str.bytes_eq};

use et_base::NoMemory;
use indexmap::IndexSet;
use std::alloc::Global;
use std::marker::Model;

/// Different names, in the order in which they came. Contracts see the list of them.
#[derive(Drop)]
pub struct NameSet {
    names: IndexSet<Vec<u8>>,
}

impl Model for NameSet {
    ghost Value = { List (List ℕ) };

    ghost view = { λ s. map (λ v. v.items) s.names.keys };
}

impl NameSet {
    /// No names. It takes no memory until the first insert.
    pub fn new(alloc: Global) -> NameSet
        ensures { result ≡ [] }
    {
        NameSet {
            names: IndexSet::new(alloc),
        }
    }

    /// How many names there are.
    pub fn len(&self) -> usize
        ensures { result ≡ length self.now }
    {
        self.names.len()
    }

    /// Whether a name is among them.
    pub fn contains(&self, name: &[u8]) -> bool
        ensures { result ≡ list_any (bytes_eq name.now) self.now }
    {
        self.names.contains(name)
    }

    /// Adds a name, which isn't among them.
    pub fn insert(&mut self, alloc: Global, name: &[u8]) -> Result<(), NoMemory>
        requires { list_any (bytes_eq name.now) self.old ≡ false }
        ensures { OnOk result (self.new ≡ self.old ++ name.now ∷ []) }
    {
        self.names.insert(Vec::from_slice(alloc, name)?)?;
        Ok(())
    }
}
