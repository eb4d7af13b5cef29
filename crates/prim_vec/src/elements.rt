//! Elements of vectors, each taken by its number.
ghost use Rattle.std.specs.Prelude.{◌≡◌, ◌-◌, IfOk};
ghost use Rattle.chw_types.specs.TypeTree.{nat_lit};
ghost use Rattle.chw_terms.specs.TermTree.{var, prim, ty_app};
ghost use Rattle.chw_terms.specs.Unrolled.{get, element};

use chw_base::{NoMemory, VarIx};
use chw_prims::Prim;
use chw_terms::Term;
use chw_types::{Kind, Ty};
use std::alloc::Global;

/// The variable of this number.
pub(crate) fn variable(alloc: Global, number: u32) -> Term
    ensures { result ≡ var number }
{
    Term::var(alloc, VarIx { number })
}

// The primitive that takes an element of this kind.
fn get(kind: Kind) -> Prim
    ensures { result ≡ get kind }
{
    match kind {
        Kind::Cir => Prim::VGetC,
        Kind::Nat | Kind::Dom | Kind::Val => Prim::VGet,
    }
}

// What takes element j of a vector of this length, whose elements are of this kind and type.
fn taking(alloc: Global, kind: Kind, len: u32, of: &Ty, j: u32) -> Result<Term, NoMemory>
    ensures { IfOk result (λ e. e ≡ ty_app (ty_app (ty_app (prim (get kind)) (nat_lit j)) (nat_lit (len - 1 - j))) of.now) }
{
    let at = Term::ty_app(Term::prim_of(alloc, get(kind)), Ty::nat(j))?;
    let after = len.saturating_sub(1).saturating_sub(j);
    let at = Term::ty_app(at, Ty::nat(after))?;
    Term::ty_app(at, of.copy(alloc)?)
}

/// Element j of the vector that is this variable, of this length, whose elements are of this kind and type.
pub(crate) fn element(
    alloc: Global,
    kind: Kind,
    len: u32,
    of: &Ty,
    vector: u32,
    j: u32,
) -> Result<Term, NoMemory>
    ensures { IfOk result (λ e. e ≡ element kind len of.now (var vector) j) }
{
    let at = taking(alloc, kind, len, of, j)?;
    Term::app(at, variable(alloc, vector))
}

/// Element j of a vector that is an element itself.
pub(crate) fn inner_element(
    alloc: Global,
    kind: Kind,
    len: u32,
    of: &Ty,
    vector: Term,
    j: u32,
) -> Result<Term, NoMemory>
    ensures { IfOk result (λ e. e ≡ element kind len of.now vector j) }
{
    let Ok(at) = taking(alloc, kind, len, of, j) else {
        drop(vector);
        return Err(NoMemory);
    };
    Term::app(at, vector)
}
