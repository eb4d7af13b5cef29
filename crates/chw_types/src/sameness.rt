//! Whether two types are the same.
ghost use Rattle.std.specs.Prelude.{◌≡◌, ◌↔◌, IsTrue, IfOk};
ghost use Rattle.chw_types.specs.TypeTree.{nat_product};
ghost use Rattle.chw_types.specs.Polynomials.{multiplied, SameNaturals};
ghost use Rattle.chw_types.specs.SameFound.{same_sums, same_found, same_kind};
ghost use Rattle.chw_types.specs.SameTypes.{SameTypes};

use crate::kind::Kind;
use crate::polynomial::{multiplied, same_products, same_sums};
use crate::ty::{Ty, TyNode};
use chw_base::NoMemory;
use std::alloc::Global;

/// Whether two types are equal as trees, where naturals are equal if they are one polynomial.
///
/// Naturals that are not equal as trees are multiplied out, but for two products of equal parts. A sum
/// or product of more than `limits::TYPE_PARTS` summands, or of more than `limits::NATURAL_FACTORS` factors in all, is
/// want of memory. Like summands are counted before they are added up.
pub fn same(alloc: Global, a: &Ty, b: &Ty) -> Result<bool, NoMemory>
    ensures { IfOk result (λ r. IsTrue r ↔ SameTypes a.now b.now) }
{
    if equal(a, b) {
        return Ok(true);
    }
    Ok(same_in(alloc, a, b)?)
}

// Whether two types are equal as trees. Most types that are compared are, so this comes first.
fn equal(a: &Ty, b: &Ty) -> bool
    ensures { IsTrue result ↔ a.now ≡ b.now }
{
    match (&a.node, &b.node) {
        (TyNode::Var(x), TyNode::Var(y)) => x.number == y.number,
        (TyNode::NatLit(n), TyNode::NatLit(m)) => *n == *m,
        (TyNode::DomOf(d), TyNode::DomOf(e)) => d.number == e.number,
        (TyNode::Unsigned(v), TyNode::Unsigned(w))
        | (TyNode::Signed(v), TyNode::Signed(w))
        | (TyNode::BitVector(v), TyNode::BitVector(w)) => equal(v, w),
        (TyNode::Sum(c, d), TyNode::Sum(e, f))
        | (TyNode::Times(c, d), TyNode::Times(e, f))
        | (TyNode::Vec(c, d), TyNode::Vec(e, f))
        | (TyNode::Fun(c, d), TyNode::Fun(e, f))
        | (TyNode::Signal(c, d), TyNode::Signal(e, f)) => equal(c, e) && equal(d, f),
        (TyNode::DataOf(d, ts), TyNode::DataOf(e, us)) => {
            if d.number != e.number {
                return false;
            }
            if ts.len() != us.len() {
                return false;
            }
            for (i, t) in ts.iter().enumerate() {
                if !equal(t, &us[i]) {
                    return false;
                }
            }
            true
        }
        (TyNode::Forall(k, t), TyNode::Forall(j, u)) => same_kind(*k, *j) && equal(t, u),
        _ => false,
    }
}

// Whether two naturals are one polynomial, by multiplying them out.
fn same_multiplied(alloc: Global, a: &Ty, b: &Ty) -> Result<bool, NoMemory>
    ensures { IfOk result (λ r. IsTrue r ↔ SameNaturals a.now b.now) }
{
    let p = multiplied(alloc, a)?;
    let q = multiplied(alloc, b)?;
    Ok(same_sums(&p, &q))
}

// Whether two products are one polynomial. Only their parts are multiplied out if these are equal.
fn same_times(alloc: Global, a: &Ty, b: &Ty, c: &Ty, d: &Ty) -> Result<bool, NoMemory>
    ensures { IfOk result (λ r. IsTrue r ↔ SameNaturals (nat_product a.now b.now) (nat_product c.now d.now)) }
{
    let p = multiplied(alloc, a)?;
    let q = multiplied(alloc, b)?;
    let r = multiplied(alloc, c)?;
    let s = multiplied(alloc, d)?;
    Ok(same_products(alloc, &p, &q, &r, &s)?)
}

// Whether two naturals are one polynomial. They aren't multiplied out if they are equal as trees.
fn same_naturals(alloc: Global, a: &Ty, b: &Ty) -> Result<bool, NoMemory>
    ensures { IfOk result (λ r. r ≡ same_sums (multiplied a.now) (multiplied b.now)) }
{
    if equal(a, b) {
        return Ok(true);
    }
    match (&a.node, &b.node) {
        (TyNode::Times(c, d), TyNode::Times(e, f)) => Ok(same_times(alloc, c, d, e, f)?),
        _ => Ok(same_multiplied(alloc, a, b)?),
    }
}

fn same_kind(a: Kind, b: Kind) -> bool
    ensures { result ≡ same_kind a b }
{
    a == b
}

#[tactic(auto, unfolding(crate::specs::SameFound::same_parts, crate::specs::SameFound::same_from))]
fn same_in(alloc: Global, a: &Ty, b: &Ty) -> Result<bool, NoMemory>
    ensures { IfOk result (λ r. r ≡ same_found a.now b.now) }
{
    if a.is_natural() && b.is_natural() {
        return Ok(same_naturals(alloc, a, b)?);
    }
    match (&a.node, &b.node) {
        (TyNode::DomOf(d), TyNode::DomOf(e)) => Ok(d.number == e.number),
        (TyNode::Unsigned(v), TyNode::Unsigned(w))
        | (TyNode::Signed(v), TyNode::Signed(w))
        | (TyNode::BitVector(v), TyNode::BitVector(w)) => Ok(same_in(alloc, v, w)?),
        (TyNode::Sum(c, d), TyNode::Sum(e, f))
        | (TyNode::Times(c, d), TyNode::Times(e, f))
        | (TyNode::Vec(c, d), TyNode::Vec(e, f))
        | (TyNode::Fun(c, d), TyNode::Fun(e, f))
        | (TyNode::Signal(c, d), TyNode::Signal(e, f)) => {
            Ok(same_in(alloc, c, e)? && same_in(alloc, d, f)?)
        }
        (TyNode::DataOf(d, ts), TyNode::DataOf(e, us)) => {
            if d.number != e.number {
                return Ok(false);
            }
            if ts.len() != us.len() {
                return Ok(false);
            }
            for (i, t) in ts.iter().enumerate() {
                if !same_in(alloc, t, &us[i])? {
                    return Ok(false);
                }
            }
            Ok(true)
        }
        (TyNode::Forall(k, t), TyNode::Forall(j, u)) => {
            Ok(same_kind(*k, *j) && same_in(alloc, t, u)?)
        }
        _ => Ok(false),
    }
}
