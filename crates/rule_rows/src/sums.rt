//! A term of which rules make nothing.

use chw_base::{NoMemory, Or};
use chw_bits::Bits;
use chw_prims::Prim;
use chw_terms::Term;
use chw_types::{Scalar, Ty};
use std::alloc::Global;

/// How often the term is doubled: it has about 5 times 2 to that many nodes.
const DOUBLINGS: u32 = 11;

fn one(alloc: Global) -> Result<Term, NoMemory> {
    let Ok(bits) = Bits::of_number(alloc, 8, 1) else {
        return Err(NoMemory);
    };
    Ok(Term::lit(alloc, Scalar::U, bits))
}

// The sum of a term and itself.
fn doubled(alloc: Global, term: &Term) -> Result<Term, NoMemory> {
    let add = Term::ty_app(Term::prim_of(alloc, Prim::AddU), Ty::nat(8))?;
    let sum = applied(alloc, add, term)?;
    applied(alloc, sum, term)
}

fn applied(alloc: Global, fun: Term, arg: &Term) -> Result<Term, NoMemory> {
    let arg = arg.copy(alloc)?;
    Term::app(fun, arg)
}

/// A sum of sums of 8 bits, about 10,000 nodes in all.
pub(crate) fn sums(alloc: Global) -> Result<Term, NoMemory> {
    let mut term = one(alloc)?;
    for _doubling in 0..DOUBLINGS {
        term = doubled(alloc, &term)?;
    }
    Ok(term)
}
