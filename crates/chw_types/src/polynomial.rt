//! Naturals, multiplied out to sums of coefficients times products of variables.
//!
//! A sum is a list in normal form: each product of variables once, in order, none with the
//! coefficient 0. So sums are merged in one pass, and two sums are one polynomial exactly if their
//! lists are equal.
ghost use Rattle.std.specs.Prelude.{◌≡◌, ◌↔◌, ◌<◌, ◌≤◌, ◌⊎◌, ◌∷◌, ◌++◌, [], length, IfOk, OnOk, OnErr, IfSome, IfNone, IsTrue};
ghost use Rattle.chw_types.specs.Polynomials.{times, multiplied};
ghost use Rattle.chw_types.specs.Agreement.{Agrees};
ghost use Rattle.chw_types.specs.NormalSums.{order as order_of, IsAscending, IsNormal, ended_times, scaled as scaled_sum};
ghost use Rattle.chw_types.specs.SummandView.{summand_of, sum_of, products_of, Takes, SameProducts};

use crate::ty::{Ty, TyNode};
use chw_base::NoMemory;
use chw_base::limits::{NATURAL_FACTORS, TYPE_PARTS};
use std::alloc::Global;
use std::cmp::Ordering;
use std::collections::VecDeque;

// A coefficient, and the variables that are multiplied with it, the least first.
#[derive(Drop)]
pub(crate) struct Summand {
    coefficient: u32,
    factors: Vec<u32>,
}

// The product of two products of variables.
fn times(alloc: Global, left: &[u32], right: &[u32]) -> Result<Vec<u32>, NoMemory>
    requires first { IsAscending left.now }
    requires second { IsAscending right.now }
    ensures { IfOk result (λ r. r.items ≡ times left.now right.now) }
{
    let mut done = Vec::with_capacity(alloc, left.len().saturating_add(right.len()))?;
    let mut first = left;
    let mut second = right;
    while let (Some((x, xs)), Some((y, ys))) = (first.split_first(), second.split_first()) {
        if *x <= *y {
            done.push(*x)?;
            first = xs;
        } else {
            done.push(*y)?;
            second = ys;
        }
    }
    done.extend_from_slice(first)?;
    done.extend_from_slice(second)?;
    Ok(done)
}

// Which product of variables comes first.
fn order(left: &[u32], right: &[u32]) -> Ordering
    ensures { result ≡ order_of left.now right.now }
{
    match left.len().cmp(&right.len()) {
        Ordering::Equal => left.cmp(right),
        unequal => unequal,
    }
}

// Takes the least summand out of two sums. A product of variables that is first in both is summed.
fn least(p: &mut VecDeque<Summand>, q: &mut VecDeque<Summand>) -> Option<Summand>
    ensures taken { IfSome result (λ s. Takes p.old.items q.old.items s p.new.items q.new.items) }
    ensures first { IfNone result (p.new.items ≡ p.old.items) }
    ensures second { IfNone result (q.new.items ≡ q.old.items) }
    ensures none { IfNone result ((p.old.items ≡ []) ⊎ (q.old.items ≡ [])) }
{
    let at = order(&p.front()?.factors, &q.front()?.factors);
    match at {
        Ordering::Less => p.pop_front(),
        Ordering::Greater => q.pop_front(),
        Ordering::Equal => {
            let first = p.pop_front()?;
            let second = q.pop_front()?;
            Some(Summand {
                coefficient: first.coefficient.saturating_add(second.coefficient),
                factors: first.factors,
            })
        }
    }
}

// The sum of two sums.
fn merged(alloc: Global, p: Vec<Summand>, q: Vec<Summand>) -> Result<Vec<Summand>, NoMemory>
    requires first { IsNormal (sum_of p.items) }
    requires second { IsNormal (sum_of q.items) }
    ensures normal { IfOk result (λ r. IsNormal (sum_of r.items)) }
    ensures sum { IfOk result (λ r. Agrees (sum_of r.items) (sum_of p.items ++ sum_of q.items)) }
{
    let mut done = Vec::with_capacity(alloc, p.len().saturating_add(q.len()))?;
    let mut first = VecDeque::from_vec(p);
    let mut second = VecDeque::from_vec(q);
    while let Some(s) = least(&mut first, &mut second) {
        done.push(s)?;
    }
    done.append(&mut first.into_vec())?;
    done.append(&mut second.into_vec())?;
    Ok(done)
}

// The product of two summands.
fn product_of(alloc: Global, s: &Summand, t: &Summand) -> Result<Summand, NoMemory>
    requires first { IsAscending s.now.factors.items }
    requires second { IsAscending t.now.factors.items }
    ensures { IfOk result (λ r. summand_of r ≡ ended_times (summand_of s.now) (summand_of t.now)) }
{
    Ok(Summand {
        coefficient: s.coefficient.saturating_mul(t.coefficient),
        factors: times(alloc, &s.factors, &t.factors)?,
    })
}

// Each summand of a sum times this one.
fn scaled(alloc: Global, by: &Summand, q: &[Summand]) -> Result<Vec<Summand>, NoMemory>
    requires ascending { IsAscending by.now.factors.items }
    requires normal { IsNormal (sum_of q.now) }
    ensures { IfOk result (λ r. sum_of r.items ≡ scaled_sum (summand_of by.now) (sum_of q.now)) }
{
    let mut done = Vec::with_capacity(alloc, q.len())?;
    for s in q {
        done.push(product_of(alloc, by, s)?)?;
    }
    Ok(done)
}

// The product of a sum of at most one summand with a sum.
fn product_by_one(alloc: Global, p: &[Summand], q: &[Summand]) -> Result<Vec<Summand>, NoMemory>
    requires one { length p.now ≤ 1 }
    requires first { IsNormal (sum_of p.now) }
    requires second { IsNormal (sum_of q.now) }
    ensures normal { IfOk result (λ r. IsNormal (sum_of r.items)) }
    ensures product { IfOk result (λ r. Agrees (sum_of r.items) (products_of p.now q.now)) }
{
    match p.first() {
        None => Ok(Vec::new(alloc)),
        Some(s) => Ok(scaled(alloc, s, q)?),
    }
}

// The product of two sums. The first is split in halves, so that no summand is merged more often
// than the first can be halved.
fn product_by_halves(alloc: Global, p: &[Summand], q: &[Summand]) -> Result<Vec<Summand>, NoMemory>
    requires first { IsNormal (sum_of p.now) }
    requires second { IsNormal (sum_of q.now) }
    ensures normal { IfOk result (λ r. IsNormal (sum_of r.items)) }
    ensures product { IfOk result (λ r. Agrees (sum_of r.items) (products_of p.now q.now)) }
{
    if p.len() < 2 {
        return Ok(product_by_one(alloc, p, q)?);
    }
    let (front, back) = p.split_at(p.len() / 2);
    let left = product_by_halves(alloc, front, q)?;
    let right = product_by_halves(alloc, back, q)?;
    Ok(merged(alloc, left, right)?)
}

// How many factors a sum has in all.
fn factor_count(p: &[Summand]) -> usize {
    let mut count: usize = 0;
    for s in p {
        count = count.saturating_add(s.factors.len());
    }
    count
}

// Refuses a sum of too many summands, or with too many factors in all, before it is made. So the
// memory for a sum is bounded.
fn check_size(summands: usize, factors: usize) -> Result<(), NoMemory>
    ensures summands { OnOk result (summands ≤ TYPE_PARTS) }
    ensures factors { OnOk result (factors ≤ NATURAL_FACTORS) }
    ensures refused { OnErr result ((TYPE_PARTS < summands) ⊎ (NATURAL_FACTORS < factors)) }
{
    if summands > TYPE_PARTS as usize {
        return Err(NoMemory);
    }
    if factors > NATURAL_FACTORS as usize {
        return Err(NoMemory);
    }
    Ok(())
}

// The sum of two sums. A sum of too many summands or factors is want of memory.
fn plus(alloc: Global, p: Vec<Summand>, q: Vec<Summand>) -> Result<Vec<Summand>, NoMemory>
    requires first { IsNormal (sum_of p.items) }
    requires second { IsNormal (sum_of q.items) }
    ensures normal { IfOk result (λ r. IsNormal (sum_of r.items)) }
    ensures sum { IfOk result (λ r. Agrees (sum_of r.items) (sum_of p.items ++ sum_of q.items)) }
{
    let summands = p.len().saturating_add(q.len());
    let factors = factor_count(&p).saturating_add(factor_count(&q));
    check_size(summands, factors)?;
    Ok(merged(alloc, p, q)?)
}

// The product of two sums, of which the shorter is split. A product of too many summands or factors
// is want of memory.
fn product(alloc: Global, p: &[Summand], q: &[Summand]) -> Result<Vec<Summand>, NoMemory>
    requires first { IsNormal (sum_of p.now) }
    requires second { IsNormal (sum_of q.now) }
    ensures normal { IfOk result (λ r. IsNormal (sum_of r.items)) }
    ensures product { IfOk result (λ r. Agrees (sum_of r.items) (products_of p.now q.now)) }
{
    let summands = p.len().saturating_mul(q.len());
    let factors_of_p = factor_count(p).saturating_mul(q.len());
    let factors_of_q = factor_count(q).saturating_mul(p.len());
    check_size(summands, factors_of_p.saturating_add(factors_of_q))?;
    if p.len() <= q.len() {
        Ok(product_by_halves(alloc, p, q)?)
    } else {
        Ok(product_by_halves(alloc, q, p)?)
    }
}

// A single summand.
fn single(alloc: Global, coefficient: u32, factors: Vec<u32>) -> Result<Vec<Summand>, NoMemory>
    ensures { IfOk result (λ r. sum_of r.items ≡ (coefficient, factors.items) ∷ []) }
{
    let mut p = Vec::new(alloc);
    p.push(Summand {
        coefficient,
        factors,
    })?;
    Ok(p)
}

// A numeral, which is no summand if it is 0.
fn numeral(alloc: Global, number: u32) -> Result<Vec<Summand>, NoMemory>
    ensures normal { IfOk result (λ r. IsNormal (sum_of r.items)) }
    ensures sum { IfOk result (λ r. Agrees (sum_of r.items) ((number, []) ∷ [])) }
{
    if number == 0 {
        return Ok(Vec::new(alloc));
    }
    Ok(single(alloc, number, Vec::new(alloc))?)
}

/// A natural, multiplied out. What is no natural gives the empty sum. A sum or product of too many
/// summands or factors is want of memory.
#[tactic(auto, unfolding(crate::specs::Polynomials::multiplied))]
pub(crate) fn multiplied(alloc: Global, t: &Ty) -> Result<Vec<Summand>, NoMemory>
    ensures normal { IfOk result (λ r. IsNormal (sum_of r.items)) }
    ensures sum { IfOk result (λ r. Agrees (sum_of r.items) (multiplied t.now)) }
{
    match &t.node {
        TyNode::Var(x) => {
            let mut factors = Vec::new(alloc);
            factors.push(x.number)?;
            Ok(single(alloc, 1, factors)?)
        }
        TyNode::NatLit(n) => Ok(numeral(alloc, *n)?),
        TyNode::Sum(a, b) => {
            let p = multiplied(alloc, a)?;
            let q = multiplied(alloc, b)?;
            Ok(plus(alloc, p, q)?)
        }
        TyNode::Times(a, b) => {
            let p = multiplied(alloc, a)?;
            let q = multiplied(alloc, b)?;
            Ok(product(alloc, &p, &q)?)
        }
        _ => Ok(Vec::new(alloc)),
    }
}

// Whether two summands are equal.
fn same_summand(s: &Summand, t: &Summand) -> bool
    ensures { IsTrue result ↔ summand_of s.now ≡ summand_of t.now }
{
    s.coefficient == t.coefficient && s.factors == t.factors
}

/// Whether two sums are equal lists.
pub(crate) fn same_sums(p: &[Summand], q: &[Summand]) -> bool
    ensures { IsTrue result ↔ sum_of p.now ≡ sum_of q.now }
{
    if p.len() != q.len() {
        return false;
    }
    for (i, s) in p.iter().enumerate() {
        if !same_summand(s, &q[i]) {
            return false;
        }
    }
    true
}

// Whether two products have equal parts, in either order. Then they needn't be multiplied out.
fn same_parts(p: &[Summand], q: &[Summand], r: &[Summand], s: &[Summand]) -> bool
    requires first { IsNormal (sum_of p.now) }
    requires second { IsNormal (sum_of q.now) }
    ensures { IsTrue result → SameProducts p.now q.now r.now s.now }
{
    same_sums(p, r) && same_sums(q, s) || same_sums(p, s) && same_sums(q, r)
}

/// Whether the product of two sums and that of two others are one polynomial. A product of too many
/// summands or factors is want of memory, unless the two products have equal parts.
pub(crate) fn same_products(
    alloc: Global,
    p: &[Summand],
    q: &[Summand],
    r: &[Summand],
    s: &[Summand],
) -> Result<bool, NoMemory>
    requires first { IsNormal (sum_of p.now) }
    requires second { IsNormal (sum_of q.now) }
    requires third { IsNormal (sum_of r.now) }
    requires fourth { IsNormal (sum_of s.now) }
    ensures { IfOk result (λ x. IsTrue x ↔ SameProducts p.now q.now r.now s.now) }
{
    if same_parts(p, q, r, s) {
        return Ok(true);
    }
    let left = product(alloc, p, q)?;
    let right = product(alloc, r, s)?;
    Ok(same_sums(&left, &right))
}
