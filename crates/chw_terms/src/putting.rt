//! Putting a term for a variable.
ghost use Rattle.std.specs.Prelude.{◌≡◌, IfOk};
ghost use Rattle.chw_terms.specs.TermMoves.{sub, in_place_of, put};

use crate::moves::Move;
use crate::term::Term;
use crate::walk::walk;
use chw_base::{NoMemory, VarIx};
use std::alloc::Global;

/// Puts `arg` for the variable `at`. Later variables come down by one, and under binders the variables and type variables of `arg` are
/// raised.
///
/// Where a variable would pass 32 bits, the answer is want of memory.
#[tactic(auto, using(crate::proofs::TermMoved::put_alone))]
pub fn put(alloc: Global, t: &Term, at: VarIx, arg: &Term) -> Result<Term, NoMemory>
    ensures { IfOk result (λ e. e ≡ put t.now at.number arg.now) }
{
    Ok(walk(alloc, t, Move::PutTerm(0, arg), at.number, 0)?)
}

/// Puts `arg`, which stands in the scope of the result, for the variable `at`. Later variables come down by one, and under binders the
/// variables and type variables of `arg` are raised.
///
/// Where a variable would pass 32 bits, the answer is want of memory.
#[tactic(auto, using(crate::proofs::TermMoved::put_here_alone))]
pub fn put_here(alloc: Global, t: &Term, at: VarIx, arg: &Term) -> Result<Term, NoMemory>
    ensures { IfOk result (λ e. e ≡ sub t.now (in_place_of at.number arg.now)) }
{
    Ok(walk(alloc, t, Move::PutTerm(at.number, arg), 0, 0)?)
}
