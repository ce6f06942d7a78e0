//! The locations that a row shows.

ghost use Rattle.std.specs.Prelude.{◌≡◌, ◌++◌, ◌∷◌, [], OnOk};
ghost use Rattle.access_tags.specs.Spots.{spots_in};

use crate::conflict::LocationKey;
use et_base::{Items, NoMemory};
use std::alloc::Global;
use std::marker::Model;

/// Locations in order, which contracts see as their list. One alone takes no memory of its own, as most rows show no more.
#[derive(Drop)]
pub struct Spots {
    held: Held,
}

/// Where the locations stand.
#[derive(Drop)]
pub enum Held {
    Nowhere,
    Here([LocationKey; 1]),
    Apart(Items<LocationKey>),
}

impl Model for Spots {
    ghost use Rattle.std.specs.Prelude.{List};
    ghost use Rattle.access_tags.specs.declared.conflict.LocationKey.{LocationKey as Part};
    ghost use Rattle.access_tags.specs.Spots.{spots_in};

    ghost Value = { List Part };

    ghost view = { λ s. spots_in s.held };
}

impl Spots {
    /// No locations.
    pub fn new() -> Spots
        ensures { result ≡ [] }
    {
        Spots {
            held: Held::Nowhere,
        }
    }

    /// The locations in order.
    pub fn as_slice(&self) -> &[LocationKey]
        ensures { result.now ≡ self.now }
    {
        match &self.held {
            Held::Nowhere => &[],
            Held::Here(spots) => spots.as_slice(),
            Held::Apart(spots) => spots.as_slice(),
        }
    }

    /// One more location.
    #[inline(always)]
    pub fn push(&mut self, alloc: Global, spot: LocationKey) -> Result<(), NoMemory>
        ensures { OnOk result (self.new ≡ self.old ++ spot ∷ []) }
    {
        if let Held::Nowhere = self.held {
            self.held = Held::Here([spot]);
            return Ok(());
        }
        // a copy, so that the first location stays in registers
        let next = spot;
        push_behind(&mut self.held, alloc, next)
    }
}

/// One more location behind others.
#[inline(never)]
fn push_behind(held: &mut Held, alloc: Global, spot: LocationKey) -> Result<(), NoMemory>
    ensures { OnOk result (spots_in held.new ≡ spots_in held.old ++ spot ∷ []) }
{
    match held {
        Held::Nowhere => *held = Held::Here([spot]),
        Held::Here(first) => {
            let mut both = Items::with_capacity(alloc, 2)?;
            both.extend_from_slice(first.as_slice())?;
            both.push(spot)?;
            *held = Held::Apart(both);
        }
        Held::Apart(spots) => spots.push(spot)?,
    }
    Ok(())
}
