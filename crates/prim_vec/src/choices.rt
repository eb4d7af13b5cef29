//! Elements by an index that is a word.
ghost use Rattle.std.specs.Prelude.{◌≡◌, ◌^◌, min, [], ◌∷◌, ◌++◌, IfOk, OnOk};
ghost use Rattle.chw_base.specs.declared.index.ConId.{ConId};
ghost use Rattle.chw_bits.specs.Bits.{bits_of};
ghost use Rattle.chw_types.specs.TypeTree.{nat_lit};
ghost use Rattle.chw_types.specs.declared.kind.Kind.TheVariants.{Val};
ghost use Rattle.chw_types.specs.declared.kind.Scalar.TheVariants.{U};
ghost use Rattle.chw_prims.specs.declared.prim.Primitive.TheVariants.{EqU};
ghost use Rattle.chw_prims.specs.declared.row.Row.TheVariants.{Replaced, ElementAt};
ghost use Rattle.chw_terms.specs.declared.term.Pattern.TheVariants.{OfCon, OfLit, Default};
ghost use Rattle.chw_terms.specs.TermTree.{var, prim, app, ty_app};
ghost use Rattle.chw_terms.specs.Unrolled.{each, element, index, where_equal, alternative};
ghost use Rattle.prim_vec.specs.Bodies.{HasBody, IsBody};

use crate::elements::{element, variable};
use crate::indices::{held, index, index_bits};
use crate::made::{Made, vector_of};
use crate::sizes::twice_sized;
use chw_base::{ConId, NoMemory};
use chw_prims::Prim;
use chw_terms::{Alt, Pattern, Scalar, Term};
use chw_types::{Kind, Ty};
use std::alloc::Global;

// The constructors of truth values.
const FALSE: ConId = ConId { number: 0 };

const TRUE: ConId = ConId { number: 1 };

// eqU @k i j, where i is the variable 1
fn is_equal(alloc: Global, k: u32, j: u32) -> Result<Term, NoMemory>
    ensures { IfOk result (λ e. e ≡ app (app (ty_app (prim EqU) (nat_lit k)) (var 1)) (index k j)) }
{
    let equal = Term::ty_app(Term::prim_of(alloc, Prim::EqU), Ty::nat(k))?;
    let equal = Term::app(equal, variable(alloc, 1))?;
    Term::app(equal, index(alloc, k, j)?)
}

// { True -> x; False -> other; }, where x is the variable 0
fn choices(alloc: Global, other: Term) -> Result<Vec<Alt>, NoMemory>
    ensures { IfOk result (λ alts. alts.items ≡ alternative (OfCon (record { number = 1 }) 0) (var 0) ∷ alternative (OfCon (record { number = 0 }) 0) other ∷ []) }
{
    let mut alts = Vec::new(alloc);
    alts.push(Alt {
        pattern: Pattern::OfCon(TRUE, 0),
        body: variable(alloc, 0),
    })?;
    alts.push(Alt {
        pattern: Pattern::OfCon(FALSE, 0),
        body: other,
    })?;
    Ok(alts)
}

/// case eqU @k i j of { True -> x; False -> other; }
pub(crate) fn where_equal(alloc: Global, k: u32, j: u32, other: Term) -> Result<Term, NoMemory>
    ensures { IfOk result (λ e. e ≡ where_equal k (var 1) j (var 0) other) }
{
    let alts = choices(alloc, other)?;
    Term::case(alloc, is_equal(alloc, k, j)?, alts)
}

pub(crate) fn replaced(alloc: Global, types: &[Ty]) -> Result<Term, NoMemory>
    requires { HasBody Replaced types.now }
    ensures { IfOk result (λ e. IsBody Replaced types.now e) }
{
    let (n, k, a) = twice_sized(types);
    vector_of(alloc, n, a, Made::Replaced(n, k, a))
}

// The alternative of an index that k bits hold.
fn index_alt(alloc: Global, len: u32, k: u32, a: &Ty, j: u32) -> Result<Alt, NoMemory>
    ensures { IfOk result (λ alt. alt ≡ alternative (OfLit U (bits_of k j)) (element Val len a.now (var 1) j)) }
{
    let body = element(alloc, Kind::Val, len, a, 1, j)?;
    let bits = index_bits(alloc, k, j)?;
    Ok(Alt {
        pattern: Pattern::OfLit(Scalar::U, bits),
        body,
    })
}

// Adds the alternatives of so many indices.
#[tactic(auto, using(crate::proofs::Lists::each_after))]
fn push_alts(
    alloc: Global,
    count: u32,
    len: u32,
    k: u32,
    a: &Ty,
    alts: &mut Vec<Alt>,
) -> Result<(), NoMemory>
    ensures { OnOk result (alts.new.items ≡ alts.old.items ++ each count (λ j. alternative (OfLit U (bits_of k j)) (element Val len a.now (var 1) j))) }
{
    for j in 0..count {
        let alt = index_alt(alloc, len, k, a, j)?;
        alts.push(alt)?;
    }
    Ok(())
}

// The alternatives of the indices below n that k bits hold, and one for what is left.
fn index_alts(alloc: Global, n: u32, len: u32, k: u32, a: &Ty) -> Result<Vec<Alt>, NoMemory>
    ensures { IfOk result (λ alts. alts.items ≡ each (min n (2 ^ k)) (λ j. alternative (OfLit U (bits_of k j)) (element Val len a.now (var 1) j)) ++ alternative Default (element Val len a.now (var 1) n) ∷ []) }
{
    let mut alts = Vec::new(alloc);
    push_alts(alloc, held(k, n), len, k, a, &mut alts)?;
    let body = element(alloc, Kind::Val, len, a, 1, n)?;
    alts.push(Alt {
        pattern: Pattern::Default,
        body,
    })?;
    Ok(alts)
}

pub(crate) fn element_at(alloc: Global, types: &[Ty]) -> Result<Term, NoMemory>
    requires { HasBody ElementAt types.now }
    ensures { IfOk result (λ e. IsBody ElementAt types.now e) }
{
    let (n, k, a) = twice_sized(types);
    let Some(len) = n.checked_add(1) else {
        return Err(NoMemory);
    };
    let alts = index_alts(alloc, n, len, k, a)?;
    Term::case(alloc, variable(alloc, 0), alts)
}
