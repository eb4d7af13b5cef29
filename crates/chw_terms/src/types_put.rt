//! Putting a type for a type variable of a term.
ghost use Rattle.std.specs.Prelude.{◌≡◌, IfOk};
ghost use Rattle.chw_terms.specs.Evaluated.{put_type_in};

use crate::moves::Move;
use crate::term::Term;
use crate::walk::walk;
use chw_base::NoMemory;
use chw_types::Ty;
use std::alloc::Global;

/// Puts a closed type for the outermost type variable, 0 where no type binder is passed, and makes each closed natural of the term's
/// types its numeral, which ends at 4,294,967,295. Later type variables come down by one.
pub fn put_type_in(alloc: Global, t: &Term, arg: &Ty) -> Result<Term, NoMemory>
    ensures { IfOk result (λ e. e ≡ put_type_in t.now arg.now) }
{
    walk(alloc, t, Move::PutType(arg), 0, 0)
}
