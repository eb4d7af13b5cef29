//! The names of the binders that are open at a place.
ghost use Rattle.std.specs.Prelude.{◌≡◌, ◌∷◌, [], drop, length, OnOk, OnErr};
ghost use Rattle.name_tables.specs.Names.{place_of};

use chw_base::NoMemory;
use std::alloc::Global;
use std::collections::BTreeMap;
use std::marker::Model;

/// A binder that is open.
#[derive(Drop)]
struct Binder<'t> {
    name: &'t [u8],
    /// The level of the binder of the same name that it hides. A binder's level is how many are open outside of it.
    hidden: Option<u32>,
}

/// The names of the open binders, which contracts see as a list, the innermost first. A name may stand in it several times.
///
/// A look-up compares a name with at most 15 names at each level of the tree of levels, whatever the names are.
/// A tree of n names has at most 1 + log8 n levels.
#[derive(Drop)]
pub struct Scope<'t> {
    /// The level of the innermost open binder of each name that was ever bound, where one is open.
    innermost: BTreeMap<&'t [u8], Option<u32>>,
    /// The open binders, the outermost first.
    binders: Vec<Binder<'t>>,
}

impl<'t> Model for Scope<'t> {
    ghost use Rattle.std.specs.Prelude.{List, ℕ};

    ghost Value = { List (List ℕ) };

    ghost use Rattle.name_tables.specs.Binders.{names_in, IsScope};

    ghost view = { λ s. names_in s.binders.items };

    ghost invariant = { λ s. IsScope s.innermost s.binders.items };
}

impl<'t> Scope<'t> {
    /// No binders.
    pub fn new(alloc: Global) -> Scope<'t>
        ensures { result ≡ [] }
    {
        Scope {
            innermost: BTreeMap::new(alloc),
            binders: Vec::new(alloc),
        }
    }

    /// Opens a binder, now the innermost one.
    ///
    /// A binder past those that can be numbered finds no memory.
    pub fn bind(&mut self, name: &'t [u8]) -> Result<(), NoMemory>
        ensures bound { OnOk result (self.new ≡ name.now ∷ self.old) }
        ensures no_memory { OnErr result (self.new ≡ self.old) }
    {
        let level = self.binders.len();
        if level >= u32::MAX as usize {
            return Err(NoMemory);
        }
        self.binders.reserve(1)?;
        let hidden = self.innermost.insert(name, Some(level as u32))?.flatten();
        self.binders.push(Binder { name, hidden })?;
        Ok(())
    }

    /// Closes the innermost binder. Where none is open, nothing changes.
    pub fn unbind(&mut self)
        ensures { self.new ≡ drop 1 self.old }
    {
        if let Some(binder) = self.binders.pop() {
            if let Some(level) = self.innermost.get_mut(binder.name) {
                *level = binder.hidden;
            }
        }
    }

    /// Closes this many binders, from the innermost one on. Where fewer are open, all of them are closed.
    pub fn unbind_all(&mut self, count: usize)
        ensures { self.new ≡ drop count self.old }
    {
        for _closed in 0..count {
            self.unbind();
        }
    }

    /// The index of the innermost open binder of a name: how many are open inside of it.
    pub fn find(&self, name: &[u8]) -> Option<u32>
        ensures { result ≡ place_of self.now name.now }
    {
        let level = self.innermost.get(name).copied().flatten()?;
        Some(self.binders.len() as u32 - 1 - level)
    }

    /// How many binders are open.
    pub fn len(&self) -> u32
        ensures { result ≡ length self.now }
    {
        self.binders.len() as u32
    }
}
