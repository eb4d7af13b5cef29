//! The made definitions in their order, and their origins in a set.
ghost use Rattle.std.specs.Prelude.{◌≡◌, ◌++◌, ◌∷◌, [], ◌<◌, ◌≤◌, length, set, Some, IfOk, IfSome, IfNone, OnOk, OnErr};
ghost use Rattle.std.specs.List.{slice_get};
ghost use Rattle.chw_base.specs.Outcome.{IfFault, OnMemory};
ghost use Rattle.chw_terms.specs.declared.scene.Made.{Made};
ghost use Rattle.chw_terms.specs.Tidy.{IsTidy};
ghost use Rattle.rewriting.specs.Runs.{IsOpening};
ghost use Rattle.made_table.specs.Held.{HoldsNone, IsFirstOf, IsPartSet, IsPartSwapped};

use chw_base::limits::MADE_DEFINITIONS;
use chw_base::{MadeId, NoMemory, Or};
use chw_terms::{Made, Program, Term};
use chw_typing::set_part;
use indexmap::IndexSet;
use moved_in_place::swap_part;
use opening::open;
use std::alloc::Global;
use std::marker::Model;
use term_signs::{Sign, signs_of};

/// There are as many made definitions as there may be.
#[derive(Clone, Copy, Debug, PartialEq, Eq)]
pub struct TableFull;

/// The made definitions, which contracts see as their list. No two have one origin, closed naturals as numbers.
#[derive(Drop)]
pub struct Table {
    made: Vec<Made>,
    /// The signs of the origin of each, closed naturals as numbers.
    origins: IndexSet<Vec<Sign>>,
}

impl Model for Table {
    ghost use Rattle.std.specs.Prelude.{List, map};
    ghost use Rattle.std.specs.Coded.{coded_list};
    ghost use Rattle.chw_terms.specs.declared.scene.Made.{Made};
    ghost use Rattle.made_table.specs.MadeCode.{coded_made};

    ghost Value = { List Made };

    ghost coded = { coded_list coded_made };

    ghost use Rattle.made_table.specs.Held.{AreSigns};

    ghost view = { λ t. t.made.items };

    ghost invariant = { λ t. AreSigns t.made.items (map (λ k. k.items) t.origins.keys) };
}

impl Table {
    /// The state with which a program opens.
    pub fn open(alloc: Global, program: &Program) -> Result<Table, NoMemory>
        requires { IsTidy program.now }
        ensures { IfOk result (λ table. IsOpening program.now table) }
    {
        let mut made = open(alloc, program)?;
        let mut table = Table::none(alloc);
        let Some(first) = made.pop() else {
            unreachable!()
        };
        table.push(alloc, first)?;
        Ok(table)
    }

    // No made definitions.
    fn none(alloc: Global) -> Table
        ensures { result ≡ [] }
    {
        Table {
            made: Vec::new(alloc),
            origins: IndexSet::new(alloc),
        }
    }

    /// The made definitions, Made 0 first.
    pub fn list(&self) -> &[Made]
        ensures { result.now ≡ self.now }
    {
        self.made.as_slice()
    }

    /// How many there are.
    pub fn len(&self) -> u32
        ensures len { result ≡ length self.now }
        ensures few { result ≤ MADE_DEFINITIONS }
    {
        self.made.len() as u32
    }

    /// The made definition with this origin, closed naturals as numbers. Time is linear in the origin.
    pub fn number_of(&self, alloc: Global, origin: &Term) -> Result<Option<MadeId>, NoMemory>
        ensures some { IfOk result (λ r. IfSome r (λ m. IsFirstOf self.now origin.now m.number)) }
        ensures none { IfOk result (λ r. IfNone r (HoldsNone self.now origin.now)) }
    {
        let signs = signs_of(alloc, origin)?;
        match self.origins.get_index_of(&signs) {
            Some(at) => Ok(Some(MadeId { number: at as u32 })),
            None => Ok(None),
        }
    }

    /// Another body for a made definition.
    pub fn set_body(&mut self, made: MadeId, body: Term)
        requires { made.number < length self.old }
        ensures { (it : Made) → slice_get self.old made.number ≡ Some it → self.new ≡ set self.old made.number (record it { body = body }) }
    {
        let it = &mut self.made[made.number as usize];
        it.body = body;
    }

    /// Puts a term at a path of the body of a made definition, if a whole spine stands there, and says whether one does. Where none
    /// stands there, nothing changes.
    pub fn set_part(&mut self, made: MadeId, path: &[u32], new: Term) -> bool
        requires { made.number < length self.old }
        ensures { (it : Made) → slice_get self.old made.number ≡ Some it → IsPartSet self.old made.number it path.now new self.new result }
    {
        let it = &mut self.made[made.number as usize];
        set_part(&mut it.body, path, new)
    }

    /// A term and the whole spine at a path of the body of a made definition change places, and the answer is whether a whole spine
    /// stands there. Where none stands there, nothing changes.
    pub fn swap_part(&mut self, made: MadeId, path: &[u32], other: &mut Term) -> bool
        requires { made.number < length self.old }
        ensures { (it : Made) → slice_get self.old made.number ≡ Some it → IsPartSwapped self.old made.number it path.now other.old self.new other.new result }
    {
        let it = &mut self.made[made.number as usize];
        swap_part(&mut it.body, path, other)
    }

    /// Adds a made definition at the end. Where as many are held as there may be, the table is full. Whatever is refused, the table is as
    /// it was.
    pub fn add(&mut self, alloc: Global, it: Made) -> Result<(), Or<TableFull>>
        requires { HoldsNone self.old it.origin }
        ensures added { OnOk result (self.new ≡ self.old ++ it ∷ []) }
        ensures refused { OnErr result (self.new ≡ self.old) }
        ensures room { OnOk result (length self.old < MADE_DEFINITIONS) }
        ensures full { IfFault result (λ _. length self.old ≡ MADE_DEFINITIONS) }
        ensures memory { OnMemory result (length self.old < MADE_DEFINITIONS) }
    {
        if self.len() >= MADE_DEFINITIONS {
            drop(it);
            return Err(Or::Fault(TableFull));
        }
        self.push(alloc, it)?;
        Ok(())
    }

    // The definition at the end, where there is room for it.
    fn push(&mut self, alloc: Global, it: Made) -> Result<(), NoMemory>
        requires room { length self.old < MADE_DEFINITIONS }
        requires none { HoldsNone self.old it.origin }
        ensures added { OnOk result (self.new ≡ self.old ++ it ∷ []) }
        ensures refused { OnErr result (self.new ≡ self.old) }
    {
        let signs = signs_of(alloc, &it.origin)?;
        self.made.reserve(1)?;
        self.origins.insert(signs)?;
        self.made.push(it)?;
        Ok(())
    }
}
