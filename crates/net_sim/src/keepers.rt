//! `Keepers`, the places of the registers and RAMs of a domain.
ghost use Rattle.std.specs.Prelude.{◌≡◌, ◌<◌, ◌++◌, [], ◌∷◌, length, slice_index_or, OnOk};

use chw_base::NoMemory;
use std::alloc::Global;
use std::marker::Model;

/// The places of a net's registers and RAMs that move at the ticks of one domain.
#[derive(Debug, Drop)]
pub(crate) struct Keepers {
    places: Vec<u32>,
}

impl Model for Keepers {
    ghost use Rattle.std.specs.Prelude.{List, ℕ};

    ghost Value = { List ℕ };

    ghost view = { λ k. k.places.items };
}

impl Keepers {
    /// No places.
    pub(crate) fn none(alloc: Global) -> Keepers
        ensures { result ≡ [] }
    {
        Keepers {
            places: Vec::new(alloc),
        }
    }

    /// Adds a place behind the others.
    pub(crate) fn push(&mut self, place: u32) -> Result<(), NoMemory>
        ensures { OnOk result (self.new ≡ self.old ++ place ∷ []) }
    {
        Ok(self.places.push(place)?)
    }

    /// The places, in order.
    pub(crate) fn as_slice(&self) -> &[u32]
        ensures { result.now ≡ self.now }
    {
        self.places.as_slice()
    }
}

/// The places of the domain of a number.
pub(crate) fn places_of(keepers: &[Keepers], number: usize) -> &[u32]
    requires { number < length keepers.now }
    ensures { result.now ≡ slice_index_or keepers.now number [] }
{
    keepers[number].as_slice()
}
