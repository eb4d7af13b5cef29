//! Closed naturals as numerals.
ghost use Rattle.std.specs.Prelude.{◌≡◌, IfOk};
ghost use Rattle.chw_types.specs.TypeTree.{scalar};
ghost use Rattle.chw_types.specs.Forms.{sort_of};
ghost use Rattle.chw_terms.specs.Evaluated.{numeral, added, multiplied_by, pair_evaluated, evaluated};

use chw_base::NoMemory;
use chw_types::{Scalar, Ty, TyNode};
use std::alloc::Global;

/// The number that a numeral means.
pub fn numeral(t: &Ty) -> Option<u32>
    ensures { result ≡ numeral t.now }
{
    match &t.node {
        TyNode::NatLit(n) => Some(*n),
        _ => None,
    }
}

// The sum of two naturals, a numeral where both are.
fn added(alloc: Global, a: Ty, b: Ty) -> Result<Ty, NoMemory>
    ensures { IfOk result (λ t. t ≡ added a b) }
{
    match (numeral(&a), numeral(&b)) {
        (Some(m), Some(n)) => Ok(Ty::nat(m.saturating_add(n))),
        _ => Ok(Ty::sum(alloc, a, b)?),
    }
}

// The product of two naturals, a numeral where both are.
fn multiplied(alloc: Global, a: Ty, b: Ty) -> Result<Ty, NoMemory>
    ensures { IfOk result (λ t. t ≡ multiplied_by a b) }
{
    match (numeral(&a), numeral(&b)) {
        (Some(m), Some(n)) => Ok(Ty::nat(m.saturating_mul(n))),
        _ => Ok(Ty::times(alloc, a, b)?),
    }
}

// The scalar of the sort of another, with this width.
fn scalar_like(alloc: Global, t: &Ty, width: Ty) -> Result<Ty, NoMemory>
    ensures { IfOk result (λ r. r ≡ scalar (sort_of t.now) width) }
{
    let sort = match &t.node {
        TyNode::Unsigned(_) => Scalar::U,
        TyNode::Signed(_) => Scalar::S,
        _ => Scalar::B,
    };
    Ok(Ty::scalar(alloc, sort, width)?)
}

// The type of the same form with these two parts, a numeral if it is a natural and both parts are numerals.
fn pair_evaluated(alloc: Global, t: &Ty, a: Ty, b: Ty) -> Result<Ty, NoMemory>
    ensures { IfOk result (λ r. r ≡ pair_evaluated t.now a b) }
{
    match &t.node {
        TyNode::Sum(_, _) => Ok(added(alloc, a, b)?),
        TyNode::Times(_, _) => Ok(multiplied(alloc, a, b)?),
        TyNode::Vec(_, _) => Ok(Ty::vec(alloc, a, b)?),
        TyNode::Fun(_, _) => Ok(Ty::fun(alloc, a, b)?),
        _ => Ok(Ty::signal(alloc, a, b)?),
    }
}

/// The type with each closed natural as its numeral, which ends at 4,294,967,295.
#[tactic(auto, unfolding(crate::specs::Evaluated::evaluated))]
pub fn evaluate(alloc: Global, t: &Ty) -> Result<Ty, NoMemory>
    ensures { IfOk result (λ r. r ≡ evaluated t.now) }
{
    match &t.node {
        TyNode::Var(x) => Ok(Ty::var(*x)),
        TyNode::NatLit(n) => Ok(Ty::nat(*n)),
        TyNode::DomOf(d) => Ok(Ty::dom_of(*d)),
        TyNode::Unsigned(w) | TyNode::Signed(w) | TyNode::BitVector(w) => {
            let w = evaluate(alloc, w)?;
            Ok(scalar_like(alloc, t, w)?)
        }
        TyNode::Sum(a, b)
        | TyNode::Times(a, b)
        | TyNode::Vec(a, b)
        | TyNode::Fun(a, b)
        | TyNode::Signal(a, b) => {
            let a = evaluate(alloc, a)?;
            let b = evaluate(alloc, b)?;
            Ok(pair_evaluated(alloc, t, a, b)?)
        }
        TyNode::DataOf(d, args) => {
            let mut done = Vec::new(alloc);
            for arg in args {
                done.push(evaluate(alloc, arg)?)?;
            }
            Ok(Ty::data_of(*d, done))
        }
        TyNode::Forall(k, t) => Ok(Ty::forall(alloc, *k, evaluate(alloc, t)?)?),
    }
}
