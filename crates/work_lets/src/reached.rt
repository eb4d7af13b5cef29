//! Which bindings of a letrec its body reaches.
ghost use Rattle.std.specs.Prelude.{◌<◌, ◌==◌, length, IfOk, OnOk};
ghost use Rattle.chw_terms.specs.Occurs.{occurs};
ghost use Rattle.chw_terms.specs.TermView.{group_of};
ghost use Rattle.rewriting.specs.Lets.{MarksReached};
ghost use Rattle.work_lets.specs.Searching.{Noted, NotedSide};

use crate::noting::note_term;
use chw_base::{NoMemory, VarIx};
use chw_terms::{Binding, Term};
use std::alloc::Global;

/// How far the search for reached bindings has come.
#[derive(Drop)]
pub(crate) struct Search {
    /// Of each binding whether it is reached, the first one first.
    marks: Vec<bool>,
    /// The reached bindings whose right sides are still to be looked at.
    waiting: Vec<usize>,
}

// Marks the binding of a variable, where it is one of the letrec's. The first time it waits to be looked at.
pub(crate) fn note(at: VarIx, search: &mut Search) -> Result<(), NoMemory>
    ensures { OnOk result (Noted search.old (λ v. at.number == v) search.new) }
{
    let count = search.marks.len();
    let number = at.number as usize;
    if count <= number {
        return Ok(());
    }
    let place = count - 1 - number;
    if search.marks[place] {
        return Ok(());
    }
    search.marks[place] = true;
    search.waiting.push(place)?;
    Ok(())
}

// The same of all variables that occur in a term.
fn look_at(term: &Term, search: &mut Search) -> Result<(), NoMemory>
    ensures { OnOk result (Noted search.old (occurs term.now) search.new) }
{
    note_term(term, 0, search)
}

// The same of all variables that occur in the right side at this place.
fn look_into(bindings: &[Binding], place: usize, search: &mut Search) -> Result<(), NoMemory>
    requires { place < length bindings.now }
    ensures { OnOk result (NotedSide bindings.now place search.old search.new) }
{
    look_at(&bindings[place].body, search)
}

/// Of each binding whether the body reaches it, the first one first: its variable occurs in the body or in a reached right side.
///
/// Each right side is looked at once at most.
pub(crate) fn reached(
    alloc: Global,
    bindings: &[Binding],
    body: &Term,
) -> Result<Vec<bool>, NoMemory>
    ensures { IfOk result (λ marks. MarksReached (group_of bindings.now) body.now marks.items) }
{
    let mut search = Search {
        marks: vec![in alloc; false; bindings.len()]?,
        waiting: Vec::new(alloc),
    };
    look_at(body, &mut search)?;
    while let Some(place) = search.waiting.pop() {
        look_into(bindings, place, &mut search)?;
    }
    Ok(search.marks)
}
