ghost use Rattle.std.specs.Prelude.{◌≡◌, None, Some, OnOk, OnErr, MatchOption};
ghost use Rattle.std.specs.Str.{bytes_eq};
ghost use Rattle.jvm_model.specs.World.{look, keep};
ghost use Rattle.sim_store.specs.Parts.{in_part, with_part};

use et_base::{NoMemory, Units};
use sim_store::{Part, Store};
use std::alloc::Global;
use std::marker::Model;

/// A store of files and properties that can be set back to what it was at first: the texts of then stand apart from
/// those that were put since.
#[derive(Drop)]
pub struct Changes {
    opening: Store,
    changed: Store,
}

impl Model for Changes {
    ghost use Rattle.vm_heap.specs.Changes.{Changing, changed_by, AreApart};

    ghost Value = { Changing };

    ghost view = { λ s. record { opening = s.opening; now = record { files = changed_by s.opening.files s.changed.files; props = changed_by s.opening.props s.changed.props } } };

    ghost invariant = { λ s. AreApart s.changed.files × AreApart s.changed.props };
}

impl Changes {
    /// A store as it is at first.
    pub fn of(alloc: Global, opening: Store) -> Changes
        ensures { result ≡ record { opening = opening; now = opening } }
    {
        Changes {
            opening,
            changed: Store::new(alloc),
        }
    }

    /// The text at a name of a part; none where there is none. It takes no memory.
    pub fn get(&self, part: Part, name: &Units) -> Option<&Units>
        ensures { MatchOption result (look bytes_eq None (in_part part self.now.now) name.now ≡ None) (λ t. look bytes_eq None (in_part part self.now.now) name.now ≡ Some t.now) }
    {
        if self.changed.has(part, name) {
            return self.changed.get(part, name);
        }
        self.opening.get(part, name)
    }

    /// Puts a text at a name of a part; `None` takes it off. After a refusal all is as before.
    pub fn put(&mut self, part: Part, name: Units, content: Option<Units>) -> Result<(), NoMemory>
        ensures put { OnOk result (self.new ≡ record self.old { now = with_part part self.old.now (keep bytes_eq (in_part part self.old.now) name content) }) }
        ensures kept { OnErr result (self.new ≡ self.old) }
    {
        self.changed.put(part, name, content)
    }

    /// All is as at first. It takes no memory.
    pub fn reset(&mut self)
        ensures { self.new ≡ record self.old { now = self.old.opening } }
    {
        self.changed.clear();
    }
}
