//! What a walk over a term does to its variables and its types.
ghost use Rattle.std.specs.Prelude.{◌≡◌, ◌+◌, length, IfOk};
ghost use Rattle.chw_terms.specs.Moved.{moved_type};

use crate::numerals::evaluate;
use crate::term::{Binding, Term};
use chw_base::{NoMemory, TyIx};
use chw_types::{Ty, put_type, shift_type};
use std::alloc::Global;

// How a walk renames the variables from its place on.
#[derive(Clone, Copy)]
pub(crate) enum Renumbering {
    // Each is raised by the number.
    Raise(u32),
    // Those behind the place come down by one.
    Lower,
    // The first so many and the next so many change places.
    Exchange(u32, u32),
}

// What a walk does at its places. A place among the variables is counted up by each binder that is passed, and a place among the type
// variables by each type binder.
#[derive(Clone, Copy)]
pub(crate) enum Move<'a> {
    // The variables are renamed, and the type variables from the type place on are raised by the number.
    Rename(Renumbering, u32),
    // The term, from outside of as many binders and type binders as the two places count, is put for the variable that has the number
    // there.
    PutTerm(u32, &'a Term),
    // The type is put for the type variable at the type place, and closed naturals become numerals.
    PutType(&'a Ty),
}

impl<'a> Move<'a> {
    // A type of the term.
    pub(crate) fn ty(self, alloc: Global, t: &Ty, types: u32) -> Result<Ty, NoMemory>
        ensures { IfOk result (λ r. r ≡ moved_type self.entry types t.now) }
    {
        let at = TyIx { number: types };
        match self {
            Move::Rename(_, by) => shift_type(alloc, t, at, by),
            Move::PutTerm(_, _) => t.copy(alloc),
            Move::PutType(arg) => {
                let put = put_type(alloc, t, at, arg)?;
                evaluate(alloc, &put)
            }
        }
    }
}

// A place under so many more binders.
pub(crate) fn deeper(place: u32, binders: u32) -> Result<u32, NoMemory>
    ensures { IfOk result (λ n. n ≡ place + binders) }
{
    place.checked_add(binders).ok_or(NoMemory)
}

// How many bindings there are.
pub(crate) fn count(bindings: &[Binding]) -> Result<u32, NoMemory>
    ensures { IfOk result (λ n. n ≡ length bindings.now) }
{
    u32::try_from(bindings.len()).map_err(|_| NoMemory)
}
