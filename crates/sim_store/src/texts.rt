ghost use Rattle.std.specs.Prelude.{◌≡◌, List, [], None, Some, OnOk, OnErr, MatchOption};
ghost use Rattle.std.specs.{List.list_any, Str.bytes_eq};
ghost use Rattle.jvm_model.specs.World.{look, keep};

use et_base::{NoMemory, Units};
use indexmap::IndexMap;
use std::alloc::Global;
use std::marker::Model;

/// Texts by their names, in the order in which the names came. A name that was taken off keeps its place, with no
/// text. Contracts see the list of names with what stands at them.
#[derive(Drop)]
pub struct Texts {
    entries: IndexMap<Vec<u16>, Option<Units>>,
}

impl Model for Texts {
    ghost use Rattle.std.specs.Prelude.{ℕ, List, Option, map};
    ghost use Rattle.sim_store.specs.Stored.{Named, named};

    ghost Value = { List Named };

    ghost view = { λ s. map named s.entries.entries };
}

impl Texts {
    /// No names. It takes no memory until the first text is put.
    pub fn new(alloc: Global) -> Texts
        ensures { result ≡ [] }
    {
        Texts {
            entries: IndexMap::new(alloc),
        }
    }

    /// The text at a name; none where there is none.
    pub fn get(&self, name: &[u16]) -> Option<&Units>
        ensures { MatchOption result (look bytes_eq None self.now name.now ≡ None) (λ t. look bytes_eq None self.now name.now ≡ Some t.now) }
    {
        match self.entries.get(name) {
            Some(content) => content.as_ref(),
            None => None,
        }
    }

    /// Whether a name came, be its text there or taken off.
    pub fn has(&self, name: &[u16]) -> bool
        ensures { result ≡ list_any (λ e. bytes_eq name.now e.0) self.now }
    {
        self.entries.contains_key(name)
    }

    /// Puts a text at a name, or takes it off. After a refusal all is as before.
    pub fn put(&mut self, name: Units, content: Option<Units>) -> Result<(), NoMemory>
        ensures put { OnOk result (self.new ≡ keep bytes_eq self.old name content) }
        ensures kept { OnErr result (self.new ≡ self.old) }
    {
        self.entries.insert(name.into_vec(), content)?;
        Ok(())
    }

    /// Takes all names away. It takes no memory.
    pub fn clear(&mut self)
        ensures { self.new ≡ [] }
    {
        self.entries.truncate(0);
    }
}
