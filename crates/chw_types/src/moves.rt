//! Raising the variables of a type, and putting a type for a variable.
ghost use Rattle.std.specs.Prelude.{◌≡◌, ◌+◌, IfOk};
ghost use Rattle.chw_types.specs.TypeTree.{ty_var};
ghost use Rattle.chw_types.specs.SmallTypes.{IsSmall};
ghost use Rattle.chw_types.specs.TypeMoves.{shift, put};

use crate::arguments::fill_within;
use crate::forms::{pair_like, sort_of};
use crate::ty::{Ty, TyNode};
use chw_base::limits::TYPE_PARTS;
use chw_base::{NoMemory, TyIx};
use std::alloc::Global;
use std::slice;

/// Puts `arg` for the variable `at`. Later variables come down by one, and under a binder the variables of `arg` are raised.
///
/// Where the result would be deeper than `TYPE_DEPTH`, or have more parts than `TYPE_PARTS`, the
/// answer is want of memory, before any of it is made.
pub fn put_type(alloc: Global, into: &Ty, at: TyIx, arg: &Ty) -> Result<Ty, NoMemory>
    ensures is { IfOk result (λ t. t ≡ put into.now at.number arg.now) }
    ensures small { IfOk result (λ t. IsSmall t) }
{
    let mut parts = TYPE_PARTS;
    Ok(fill_within(alloc, into, at.number, slice::from_ref(arg), &mut parts)?)
}

/// Raises the free variables at or above `from` by this number.
///
/// Where a variable would pass 32 bits, the answer is want of memory.
pub fn shift_type(alloc: Global, t: &Ty, from: TyIx, by: u32) -> Result<Ty, NoMemory>
    ensures { IfOk result (λ r. r ≡ shift t.now from.number by) }
{
    shift(alloc, t, from.number, by)
}

// The number of a variable that is raised.
pub(crate) fn raise(number: u32, by: u32) -> Result<u32, NoMemory>
    ensures { IfOk result (λ n. n ≡ number + by) }
{
    number.checked_add(by).ok_or(NoMemory)
}

// A variable, raised if it stands at or above `from`.
#[tactic(auto, unfolding(crate::specs::TypeMoves::rename), using(crate::proofs::TypeMoved::raised_below, crate::proofs::TypeMoved::raised_above))]
fn shift_var(x: TyIx, from: u32, by: u32) -> Result<Ty, NoMemory>
    ensures { IfOk result (λ r. r ≡ shift (ty_var x.number) from by) }
{
    if x.number < from {
        Ok(Ty::var(x))
    } else {
        let number = raise(x.number, by)?;
        Ok(Ty::var(TyIx { number }))
    }
}

// The type with its free variables at or above `from` raised.
#[tactic(auto, unfolding(crate::specs::TypeMoves::rename))]
pub(crate) fn shift(alloc: Global, t: &Ty, from: u32, by: u32) -> Result<Ty, NoMemory>
    ensures { IfOk result (λ r. r ≡ shift t.now from by) }
{
    match &t.node {
        TyNode::Var(x) => Ok(shift_var(*x, from, by)?),
        TyNode::NatLit(n) => Ok(Ty::nat(*n)),
        TyNode::DomOf(d) => Ok(Ty::dom_of(*d)),
        TyNode::Unsigned(w) | TyNode::Signed(w) | TyNode::BitVector(w) => {
            let w = shift(alloc, w, from, by)?;
            Ok(Ty::scalar(alloc, sort_of(t), w)?)
        }
        TyNode::Sum(a, b)
        | TyNode::Times(a, b)
        | TyNode::Vec(a, b)
        | TyNode::Fun(a, b)
        | TyNode::Signal(a, b) => {
            let a = shift(alloc, a, from, by)?;
            let b = shift(alloc, b, from, by)?;
            Ok(pair_like(alloc, t, a, b)?)
        }
        TyNode::DataOf(d, args) => {
            let mut done = Vec::new(alloc);
            for arg in args {
                done.push(shift(alloc, arg, from, by)?)?;
            }
            Ok(Ty::data_of(*d, done))
        }
        TyNode::Forall(k, t) => {
            let inner = raise(from, 1)?;
            let t = shift(alloc, t, inner, by)?;
            Ok(Ty::forall(alloc, *k, t)?)
        }
    }
}
