//! Leaving out what doesn't matter to the polynomials of naturals.
ghost use Rattle.std.specs.Prelude.{◌≡◌, IfOk};
ghost use Rattle.chw_types.specs.SameTypes.{SameTypes};
ghost use Rattle.chw_typing.specs.WithoutZeros.{is_numeral, plus, by, reduced, reduced_if, without_zeros as without_zeros_of};
ghost use Rattle.chw_typing.specs.Leaving.{HasEachKind};

use chw_base::NoMemory;
use chw_types::{Scalar, Ty, TyNode};
use std::alloc::Global;

/// The type with each of its naturals written without zeros: a sum leaves out a part that is 0, a product with a part that is 0 becomes 0,
/// and it leaves out a part that is 1. A sum or product with a part that is no natural stays as it is.
///
/// It is the same type up to naturals, and it has a kind wherever any type has one that is the same, over data types of kinds of terms.
pub fn without_zeros(alloc: Global, t: &Ty) -> Result<Ty, NoMemory>
    ensures is { IfOk result (λ r. r ≡ without_zeros_of t.now) }
    ensures same { IfOk result (λ r. SameTypes t.now r) }
    ensures kind { IfOk result (λ r. HasEachKind t.now r) }
{
    Ok(leave(alloc, t)?)
}

// Whether a type is this numeral.
fn is_numeral(n: u32, t: &Ty) -> bool
    ensures { result ≡ is_numeral n t.now }
{
    match &t.node {
        TyNode::NatLit(m) => *m == n,
        _ => false,
    }
}

// A sum, but without a part that is 0.
fn plus(alloc: Global, a: Ty, b: Ty) -> Result<Ty, NoMemory>
    ensures { IfOk result (λ r. r ≡ plus a b) }
{
    if is_numeral(0, &a) {
        Ok(b)
    } else if is_numeral(0, &b) {
        Ok(a)
    } else {
        Ok(Ty::sum(alloc, a, b)?)
    }
}

// A product, but 0 where a part is 0, and without a part that is 1.
fn by(alloc: Global, a: Ty, b: Ty) -> Result<Ty, NoMemory>
    ensures { IfOk result (λ r. r ≡ by a b) }
{
    if is_numeral(0, &a) || is_numeral(1, &b) {
        Ok(a)
    } else if is_numeral(0, &b) || is_numeral(1, &a) {
        Ok(b)
    } else {
        Ok(Ty::times(alloc, a, b)?)
    }
}

// A natural written without zeros.
#[tactic(auto, unfolding(crate::specs::WithoutZeros::reduced))]
fn reduced(alloc: Global, t: &Ty) -> Result<Ty, NoMemory>
    ensures { IfOk result (λ r. r ≡ reduced t.now) }
{
    match &t.node {
        TyNode::Sum(a, b) => plus(alloc, reduced(alloc, a)?, reduced(alloc, b)?),
        TyNode::Times(a, b) => by(alloc, reduced(alloc, a)?, reduced(alloc, b)?),
        _ => t.copy(alloc),
    }
}

// A sum or product written without zeros, where it is a natural.
fn reduced_if(alloc: Global, natural: bool, t: &Ty) -> Result<Ty, NoMemory>
    ensures { IfOk result (λ r. r ≡ reduced_if natural t.now) }
{
    if natural {
        reduced(alloc, t)
    } else {
        t.copy(alloc)
    }
}

#[tactic(auto, unfolding(crate::specs::WithoutZeros::without_zeros))]
fn leave(alloc: Global, t: &Ty) -> Result<Ty, NoMemory>
    ensures { IfOk result (λ r. r ≡ without_zeros_of t.now) }
{
    match &t.node {
        TyNode::Var(_) => t.copy(alloc),
        TyNode::NatLit(_) => t.copy(alloc),
        TyNode::Sum(_, _) => reduced_if(alloc, t.is_natural(), t),
        TyNode::Times(_, _) => reduced_if(alloc, t.is_natural(), t),
        TyNode::DomOf(_) => t.copy(alloc),
        TyNode::Unsigned(w) => Ty::scalar(alloc, Scalar::U, leave(alloc, w)?),
        TyNode::Signed(w) => Ty::scalar(alloc, Scalar::S, leave(alloc, w)?),
        TyNode::BitVector(w) => Ty::scalar(alloc, Scalar::B, leave(alloc, w)?),
        TyNode::Vec(n, t) => Ty::vec(alloc, leave(alloc, n)?, leave(alloc, t)?),
        TyNode::DataOf(d, args) => {
            let mut done = Vec::new(alloc);
            for arg in args {
                done.push(leave(alloc, arg)?)?;
            }
            Ok(Ty::data_of(*d, done))
        }
        TyNode::Fun(a, b) => Ty::fun(alloc, leave(alloc, a)?, leave(alloc, b)?),
        TyNode::Signal(d, t) => Ty::signal(alloc, leave(alloc, d)?, leave(alloc, t)?),
        TyNode::Forall(k, t) => Ok(Ty::forall(alloc, *k, leave(alloc, t)?)?),
    }
}
