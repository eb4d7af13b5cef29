//! Copying a term, and renaming its variables and its type variables.
ghost use Rattle.std.specs.Prelude.{◌≡◌, IfOk};
ghost use Rattle.chw_terms.specs.TypesMoved.{shift_types};
ghost use Rattle.chw_terms.specs.TermMoves.{rename, lowered, exchanged, shift};

use crate::moves::{Move, Renumbering};
use crate::term::Term;
use crate::walk::walk;
use chw_base::{NoMemory, TyIx, VarIx};
use std::alloc::Global;

/// Raises the free variables at or above `from` by this number.
///
/// Where a variable would pass 32 bits, the answer is want of memory.
#[tactic(auto, using(crate::proofs::TermMoved::shift_alone))]
pub fn shift(alloc: Global, t: &Term, from: VarIx, by: u32) -> Result<Term, NoMemory>
    ensures { IfOk result (λ e. e ≡ shift t.now from.number by) }
{
    Ok(walk(
        alloc,
        t,
        Move::Rename(Renumbering::Raise(by), 0),
        from.number,
        0,
    )?)
}

/// Raises the free type variables at or above `from` by this number.
///
/// Where a type variable would pass 32 bits, the answer is want of memory.
#[tactic(auto, using(crate::proofs::TermMoved::shift_types_alone))]
pub fn shift_types(alloc: Global, t: &Term, from: TyIx, by: u32) -> Result<Term, NoMemory>
    ensures { IfOk result (λ e. e ≡ shift_types t.now from.number by) }
{
    Ok(walk(
        alloc,
        t,
        Move::Rename(Renumbering::Raise(0), by),
        0,
        from.number,
    )?)
}

/// Brings the free variables above `at` down by one. Where `at` doesn't occur, that is the term in the scope without it.
///
/// Where the place of `at` would pass 32 bits under the binders of the term, the answer is want of memory.
#[tactic(auto, using(crate::proofs::TermMoved::lower_alone))]
pub fn lower(alloc: Global, t: &Term, at: VarIx) -> Result<Term, NoMemory>
    ensures { IfOk result (λ e. e ≡ rename t.now (lowered at.number)) }
{
    Ok(walk(alloc, t, Move::Rename(Renumbering::Lower, 0), at.number, 0)?)
}

/// The first so many variables and the next so many change places.
///
/// Where a variable would pass 32 bits, the answer is want of memory.
#[tactic(auto, using(crate::proofs::TermMoved::exchange_alone))]
pub fn exchange(alloc: Global, t: &Term, first: u32, next: u32) -> Result<Term, NoMemory>
    ensures { IfOk result (λ e. e ≡ rename t.now (exchanged first next)) }
{
    let how = Renumbering::Exchange(first, next);
    Ok(walk(alloc, t, Move::Rename(how, 0), 0, 0)?)
}

impl Term {
    /// The same term once more.
    #[tactic(auto, using(crate::proofs::TermMoved::raise_nothing))]
    pub fn copy(&self, alloc: Global) -> Result<Term, NoMemory>
        ensures { IfOk result (λ e. e ≡ self.now) }
    {
        Ok(walk(alloc, self, Move::Rename(Renumbering::Raise(0), 0), 0, 0)?)
    }
}
