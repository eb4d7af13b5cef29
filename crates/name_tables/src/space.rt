//! The names of one name space.
ghost use Rattle.std.specs.Prelude.{◌≡◌, not, length, IfOk, OnOk, OnErr, []};
ghost use Rattle.name_tables.specs.Names.{place_of, is_among, with_name, AreDistinct};

use chw_base::NoMemory;
use std::alloc::Global;
use std::collections::BTreeMap;
use std::marker::Model;

/// The names of one name space, which contracts see as a list in the order in which they were first declared.
///
/// A look-up compares a name with at most 15 names at each level of the tree of places, whatever the names are.
/// A tree of n names has at most 1 + log8 n levels.
#[derive(Drop)]
pub struct Declared<'t> {
    /// The names, in this order.
    names: Vec<&'t [u8]>,
    /// The place of each name.
    places: BTreeMap<&'t [u8], u32>,
}

impl<'t> Model for Declared<'t> {
    ghost use Rattle.std.specs.Prelude.{List, ℕ};

    ghost Value = { List (List ℕ) };

    ghost use Rattle.name_tables.specs.Names.{texts};
    ghost use Rattle.name_tables.specs.Places.{ArePlaces};

    ghost view = { λ d. texts d.names.items };

    ghost invariant = { λ d. ArePlaces d.places (texts d.names.items) };
}

impl<'t> Declared<'t> {
    /// No names.
    pub fn new(alloc: Global) -> Declared<'t>
        ensures { result ≡ [] }
    {
        Declared {
            names: Vec::new(alloc),
            places: BTreeMap::new(alloc),
        }
    }

    /// Declares a name, and says whether it is new. A new name stands last, and another one changes nothing.
    ///
    /// A new name past those that can be numbered finds no memory.
    pub fn declare(&mut self, name: &'t [u8]) -> Result<bool, NoMemory>
        ensures is_new { IfOk result (λ is_new. is_new ≡ not (is_among self.old name.now)) }
        ensures names { OnOk result (self.new ≡ with_name self.old name.now) }
        ensures no_memory { OnErr result (self.new ≡ self.old) }
    {
        if self.places.contains_key(name) {
            return Ok(false);
        }
        let place = self.names.len();
        if place >= u32::MAX as usize {
            return Err(NoMemory);
        }
        self.names.reserve(1)?;
        self.places.insert(name, place as u32)?;
        self.names.push(name)?;
        Ok(true)
    }

    /// The place of a name, where it was declared.
    pub fn find(&self, name: &[u8]) -> Option<u32>
        ensures { result ≡ place_of self.now name.now }
    {
        self.places.get(name).copied()
    }

    /// How many names were declared, each of them once.
    pub fn len(&self) -> u32
        ensures len { result ≡ length self.now }
        ensures distinct { AreDistinct self.now }
    {
        self.names.len() as u32
    }
}
