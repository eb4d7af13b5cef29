//! Renumbering the variables of a term where they stand.
ghost use Rattle.std.specs.Prelude.{◌≡◌, map, OnOk};
ghost use Rattle.chw_terms.specs.TermMoves.{rename, exchanged, shift};
ghost use Rattle.moved_in_place.specs.Moves.{renamed_binding};

use crate::numbers::{Exchanging, Raising, Renumbering};
use crate::walk::{walk, walk_bindings};
use chw_base::{NoMemory, VarIx};
use chw_terms::{Binding, Term};

/// Raises the free variables at or above `from` by this number.
///
/// Where a variable would pass 32 bits, the answer is want of memory, and the term may be changed in part.
pub fn raise(term: &mut Term, from: VarIx, by: u32) -> Result<(), NoMemory>
    ensures { OnOk result (term.new ≡ shift term.old from.number by) }
{
    walk(term, &Raising { by }, from.number)
}

/// The first so many variables and the next so many change places.
///
/// Where a variable would pass 32 bits, the answer is want of memory, and the term may be changed in part.
pub fn exchange(term: &mut Term, first: u32, next: u32) -> Result<(), NoMemory>
    ensures { OnOk result (term.new ≡ rename term.old (exchanged first next)) }
{
    walk(term, &Exchanging { first, next }, 0)
}

/// Renumbers the free variables.
///
/// Where a variable would pass 32 bits, the answer is want of memory, and the term may be changed in part.
pub fn renumber<R: Renumbering>(term: &mut Term, how: &R) -> Result<(), NoMemory>
    ensures { OnOk result (term.new ≡ rename term.old (R.renaming how.now)) }
{
    walk(term, how, 0)
}

/// The same of right sides. The binders of the group are already passed.
pub fn renumber_group<R: Renumbering>(group: &mut [Binding], how: &R) -> Result<(), NoMemory>
    ensures { OnOk result (group.new ≡ map (renamed_binding (R.renaming how.now)) group.old) }
{
    walk_bindings(group, how, 0)
}
