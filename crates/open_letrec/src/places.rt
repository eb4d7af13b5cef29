//! Where the bindings of a letrec that is taken apart stand, and by which numbers their variables are stored.
ghost use Rattle.std.specs.Prelude.{◌≡◌, ◌∷◌, ◌++◌, [], ◌+◌, ◌<◌, length, IfOk, OnOk};
ghost use Rattle.open_letrec.specs.Places.{Agrees, ids_of, number_of, index_of, renaming_of, IsOneMore, IsGrown, IsSettledOne};

use chw_base::{NoMemory, narrow};
use std::alloc::Global;

// A variable that is stored is the id of a binding, or from this number on one of outside.
pub(crate) const OUTSIDE: u32 = 0x4000_0000;

// Where a binding stands.
#[derive(Clone, Copy)]
pub(crate) enum Stand {
    // With so many bindings before it.
    Settled(u32),
    // With so many bindings behind it.
    Waiting(u32),
}

// What a walk makes of variables.
#[derive(Clone, Copy)]
pub(crate) enum Way {
    // Of indices the numbers that are stored.
    Store,
    // Of these the indices.
    Show,
}

// Where the bindings stand. Each has an id, which it keeps.
#[derive(Drop)]
pub(crate) struct Places {
    // The ids of the settled bindings, the first one first.
    settled: Vec<u32>,
    // The ids of the others, the last one first.
    waiting: Vec<u32>,
    // Where the binding of each id stands.
    stands: Vec<Stand>,
}

// The sum, where it fits 32 bits.
pub(crate) fn sum(a: u32, b: u32) -> Result<u32, NoMemory>
    ensures { IfOk result (λ n. n ≡ a + b) }
{
    a.checked_add(b).ok_or(NoMemory)
}

impl Places {
    // No bindings.
    pub(crate) fn none(alloc: Global) -> Places
        ensures settled { result.settled.items ≡ [] }
        ensures waiting { result.waiting.items ≡ [] }
        ensures agrees { Agrees result }
    {
        Places {
            settled: Vec::new(alloc),
            waiting: Vec::new(alloc),
            stands: Vec::new(alloc),
        }
    }

    // How many bindings there are.
    fn count(&self) -> Result<u32, NoMemory>
        ensures { IfOk result (λ n. n ≡ length (ids_of self.now)) }
    {
        let waiting = narrow(self.waiting.len())?;
        let settled = narrow(self.settled.len())?;
        sum(waiting, settled)
    }

    // The number by which the variable of this index is stored.
    fn number(&self, index: u32) -> Result<u32, NoMemory>
        ensures { IfOk result (λ x. x ≡ number_of self.now index) }
    {
        let at = index as usize;
        let waiting = self.waiting.len();
        if at < waiting {
            return Ok(self.waiting[at]);
        }
        let before = at - waiting;
        let settled = self.settled.len();
        if before < settled {
            return Ok(self.settled[settled - 1 - before]);
        }
        let outer = narrow(before - settled)?;
        sum(OUTSIDE, outer)
    }

    // The index of the variable that is stored by this number.
    fn index(&self, number: u32) -> Result<u32, NoMemory>
        ensures { IfOk result (λ x. x ≡ index_of self.now number) }
    {
        let count = self.count()?;
        if number >= OUTSIDE {
            return sum(number - OUTSIDE, count);
        }
        let at = number as usize;
        if at >= self.stands.len() {
            return Ok(number);
        }
        match self.stands[at] {
            Stand::Settled(before) => Ok(count.saturating_sub(1).saturating_sub(before)),
            Stand::Waiting(behind) => Ok(behind),
        }
    }

    // What becomes of a variable.
    pub(crate) fn moved(&self, way: Way, x: u32) -> Result<u32, NoMemory>
        ensures { IfOk result (λ y. y ≡ renaming_of self.now way x) }
    {
        match way {
            Way::Store => self.number(x),
            Way::Show => self.index(x),
        }
    }

    // One more binding, before those that wait.
    fn add(&mut self) -> Result<(), NoMemory>
        requires { Agrees self.old }
        ensures agrees { OnOk result (Agrees self.new) }
        ensures more { OnOk result (IsOneMore self.old self.new) }
    {
        let id = narrow(self.stands.len())?;
        if id >= OUTSIDE {
            return Err(NoMemory);
        }
        let behind = narrow(self.waiting.len())?;
        self.stands.push(Stand::Waiting(behind))?;
        self.waiting.push(id)?;
        Ok(())
    }

    // So many bindings more, before those that wait.
    pub(crate) fn grow(&mut self, many: usize) -> Result<(), NoMemory>
        requires { Agrees self.old }
        ensures agrees { OnOk result (Agrees self.new) }
        ensures more { OnOk result (IsGrown self.old self.new many) }
    {
        for _ in 0..many {
            self.add()?;
        }
        Ok(())
    }

    // The first of those that wait is settled.
    pub(crate) fn settle(&mut self) -> Result<(), NoMemory>
        requires agrees { Agrees self.old }
        requires some { 0 < length self.old.waiting.items }
        ensures agrees { OnOk result (Agrees self.new) }
        ensures settled { OnOk result (IsSettledOne self.old self.new) }
    {
        let before = narrow(self.settled.len())?;
        let Some(id) = self.waiting.pop() else {
            unreachable!()
        };
        self.settled.push(id)?;
        self.stands[id as usize] = Stand::Settled(before);
        Ok(())
    }
}
