//! Whether the body of a letrec reaches each binding.
ghost use Rattle.std.specs.Prelude.{◌≡◌, ◌<◌, ℕ, true, Some, length, Contains, IfOk, IsTrue, OnOk};
ghost use Rattle.std.specs.List.{slice_get};
ghost use Rattle.chw_terms.specs.TermView.{group_of};
ghost use Rattle.free_variables.specs.Gathered.{numbers_of};
ghost use Rattle.kept_letrecs.specs.Resting.{AllReached};
ghost use Rattle.letrec_runs.specs.Search.{IsSearch, KeepsSearch, ReachesAll, ReachesVariable};

use chw_base::{NoMemory, VarIx};
use chw_terms::{Binding, Term};
use free_variables::occurring_in;
use std::alloc::Global;

// How far the search for reached bindings has come.
#[derive(Drop)]
pub(crate) struct Search {
    // Of each binding whether it is reached, the first one first.
    marks: Vec<bool>,
    // The reached bindings whose right sides are still to be looked at.
    waiting: Vec<usize>,
}

// Marks the binding of a variable, if it is one of the letrec's. The first time it waits to be looked at.
fn note(number: u32, search: &mut Search) -> Result<(), NoMemory>
    ensures { OnOk result (KeepsSearch (λ g e. ReachesVariable g e number) search.old search.new) }
{
    let count = search.marks.len();
    let number = number as usize;
    if count <= number {
        return Ok(());
    }
    let place = count - 1 - number;
    if search.marks[place] {
        return Ok(());
    }
    search.waiting.push(place)?;
    search.marks[place] = true;
    Ok(())
}

// The same of these variables.
fn note_all(found: &[VarIx], search: &mut Search) -> Result<(), NoMemory>
    ensures { OnOk result (KeepsSearch (λ g e. (v : ℕ) → Contains (numbers_of found.now) v → ReachesVariable g e v) search.old search.new) }
{
    for variable in found {
        note(variable.number, search)?;
    }
    Ok(())
}

// The same of all variables that occur in a term.
fn look_at(alloc: Global, term: &Term, search: &mut Search) -> Result<(), NoMemory>
    ensures { OnOk result (KeepsSearch (λ g e. ReachesAll g e term.now) search.old search.new) }
{
    let mut found = Vec::new(alloc);
    occurring_in(term, &mut found)?;
    note_all(found.as_slice(), search)
}

// Whether all are marked.
fn are_all(marks: &[bool]) -> bool
    ensures { IsTrue result → (i : ℕ) → i < length marks.now → slice_get marks.now i ≡ Some true }
{
    for mark in marks {
        if !*mark {
            return false;
        }
    }
    true
}

// The search, where the body alone was looked at.
fn begin(alloc: Global, group: &[Binding], body: &Term) -> Result<Search, NoMemory>
    ensures { IfOk result (IsSearch (group_of group.now) body.now) }
{
    let mut search = Search {
        marks: vec![in alloc; false; group.len()]?,
        waiting: Vec::new(alloc),
    };
    look_at(alloc, body, &mut search)?;
    Ok(search)
}

// Whether the body reaches each binding. Time is linear in the letrec; of one whose body names each binding, no right side is looked at.
pub(crate) fn all_reached(alloc: Global, group: &[Binding], body: &Term) -> Result<bool, NoMemory>
    ensures { IfOk result (λ yes. IsTrue yes → AllReached (group_of group.now) body.now) }
{
    let mut search = begin(alloc, group, body)?;
    if are_all(search.marks.as_slice()) {
        return Ok(true);
    }
    for _ in 0..group.len() {
        let Some(place) = search.waiting.pop() else {
            return Ok(are_all(search.marks.as_slice()));
        };
        let Some(binding) = group.get(place) else {
            return Ok(false);
        };
        look_at(alloc, &binding.body, &mut search)?;
    }
    Ok(are_all(search.marks.as_slice()))
}
