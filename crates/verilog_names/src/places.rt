//! Names in the order in which they stand, and the first place of each.
ghost use Rattle.std.specs.Prelude.{◌≡◌, ◌∷◌, ◌++◌, [], not, length, IfOk, OnOk, OnErr};
ghost use Rattle.name_tables.specs.Names.{is_among, place_of};

use chw_base::{NoMemory, narrow};
use std::alloc::Global;
use std::collections::BTreeMap;
use std::marker::Model;

/// Names in order, which contracts see as a list. A name may stand in it several times.
/// A name is found by few comparisons, whatever the names are.
#[derive(Drop)]
pub(crate) struct Places<'t> {
    /// The first place of each name.
    firsts: BTreeMap<&'t [u8], u32>,
    names: Vec<&'t [u8]>,
}

impl<'t> Model for Places<'t> {
    ghost use Rattle.std.specs.Prelude.{List, ℕ};

    ghost Value = { List (List ℕ) };

    ghost use Rattle.name_tables.specs.Names.{texts};
    ghost use Rattle.verilog_names.specs.Firsts.{AreFirsts};

    ghost view = { λ p. texts p.names.items };

    ghost invariant = { λ p. AreFirsts p.firsts p.names.items };
}

impl<'t> Places<'t> {
    /// No names.
    pub(crate) fn new(alloc: Global) -> Places<'t>
        ensures { result ≡ [] }
    {
        Places {
            firsts: BTreeMap::new(alloc),
            names: Vec::new(alloc),
        }
    }

    /// A name more, which stands last.
    ///
    /// A name past those that can be numbered finds no memory.
    pub(crate) fn add(&mut self, name: &'t [u8]) -> Result<(), NoMemory>
        ensures { OnOk result (self.new ≡ self.old ++ name.now ∷ []) }
    {
        let place = narrow(self.names.len())?;
        self.names.reserve(1)?;
        if !self.firsts.contains_key(name) {
            self.firsts.insert(name, place)?;
        }
        self.names.push(name)?;
        Ok(())
    }

    /// Drops all names.
    pub(crate) fn clear(&mut self)
        ensures { self.new ≡ [] }
    {
        self.firsts.clear();
        self.names.clear();
    }

    /// The first place of a name.
    pub(crate) fn find(&self, name: &[u8]) -> Option<u32>
        ensures { result ≡ place_of self.now name.now }
    {
        self.firsts.get(name).copied()
    }

    /// Whether a name is one of these.
    pub(crate) fn has(&self, name: &[u8]) -> bool
        ensures { result ≡ is_among self.now name.now }
    {
        self.find(name).is_some()
    }

    /// How many names there are.
    pub(crate) fn len(&self) -> usize
        ensures { result ≡ length self.now }
    {
        self.names.len()
    }
}
