//! Bindings and terms that change where they stand.
ghost use Rattle.std.specs.Prelude.{◌≡◌, ◌<◌, map, reverse, length, OnOk};
ghost use Rattle.chw_terms.specs.TermMoves.{rename, exchanged};
ghost use Rattle.moved_in_place.specs.Moves.{renamed_binding};
ghost use Rattle.open_letrec.specs.Parts.{IsSwappedLast};
ghost use Rattle.open_letrec.specs.Places.{Agrees, IsGrown, number_of, renaming_of};
ghost use Rattle.open_letrec.specs.Stored.{stored};

use crate::places::{Places, Way};
use chw_base::{NoMemory, narrow};
use chw_terms::{Binding, Term};
use moved_in_place::{Renumbering, exchange, renumber, renumber_group};
use std::mem;

// What becomes of a variable of right sides and of the body.
#[derive(Clone, Copy)]
struct Toward<'a> {
    places: &'a Places,
    way: Way,
}

impl<'a> Renumbering for Toward<'a> {
    ghost renaming = { λ t. renaming_of t.places.now t.way };

    fn renumbered(&self, x: u32) -> Result<u32, NoMemory> {
        self.places.moved(self.way, x)
    }
}

// The right sides with their variables renumbered.
pub(crate) fn move_group(
    group: &mut Vec<Binding>,
    places: &Places,
    way: Way,
) -> Result<(), NoMemory>
    ensures { OnOk result (group.new.items ≡ map (renamed_binding (renaming_of places.now way)) group.old.items) }
{
    renumber_group(group, &Toward { places, way })
}

// The term with its variables renumbered.
pub(crate) fn move_term(term: &mut Term, places: &Places, way: Way) -> Result<(), NoMemory>
    ensures { OnOk result (term.new ≡ rename term.old (renaming_of places.now way)) }
{
    renumber(term, &Toward { places, way })
}

// The right sides, in which the first so many variables and the next so many change places.
pub(crate) fn exchange_group(group: &mut [Binding], first: u32, next: u32) -> Result<(), NoMemory>
    ensures { OnOk result (group.new ≡ map (renamed_binding (exchanged first next)) group.old) }
{
    for binding in group.iter_mut() {
        exchange(&mut binding.body, first, next)?;
    }
    Ok(())
}

// The bindings, the last one first.
pub(crate) fn turn(group: &mut Vec<Binding>)
    ensures { group.new.items ≡ reverse group.old.items }
{
    group.reverse();
}

// The right side of the last binding and the term change places.
pub(crate) fn swap_last(group: &mut Vec<Binding>, term: &mut Term)
    requires { 0 < length group.old.items }
    ensures { IsSwappedLast group.old.items term.old group.new.items term.new }
{
    let last = group.len() - 1;
    let binding = &mut group[last];
    mem::swap(&mut binding.body, term);
}

// The bindings that join and the term in which they stand change places with so many bindings from the current one on.
pub(crate) fn exchange_all(cs: &mut Vec<Binding>, e: &mut Term, own: usize) -> Result<(), NoMemory>
    ensures cs { OnOk result (cs.new.items ≡ map (renamed_binding (exchanged (length cs.old.items) own)) cs.old.items) }
    ensures e { OnOk result (e.new ≡ rename e.old (exchanged (length cs.old.items) own)) }
{
    let joins = narrow(cs.len())?;
    let own = narrow(own)?;
    exchange(e, joins, own)?;
    exchange_group(cs, joins, own)
}

// The bindings that join get places before those that wait. They and the term are stored.
pub(crate) fn store_all(
    places: &mut Places,
    cs: &mut Vec<Binding>,
    e: &mut Term,
) -> Result<(), NoMemory>
    requires { Agrees places.old }
    ensures agrees { OnOk result (Agrees places.new) }
    ensures more { OnOk result (IsGrown places.old places.new (length cs.old.items)) }
    ensures cs { OnOk result (cs.new.items ≡ stored places.new cs.old.items) }
    ensures e { OnOk result (e.new ≡ rename e.old (number_of places.new)) }
{
    places.grow(cs.len())?;
    move_group(cs, places, Way::Store)?;
    move_term(e, places, Way::Store)
}
