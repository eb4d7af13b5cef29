//! Putting the arguments of a data type into its fields.
ghost use Rattle.std.specs.Prelude.{◌≡◌, ◌+◌, reverse, IfOk};
ghost use Rattle.chw_types.specs.Arguments.{given, arguments};
ghost use Rattle.chw_types.specs.SmallTypes.{parts_of, IsSmall};
ghost use Rattle.chw_types.specs.TypeMoves.{sub, up_by};
ghost use Rattle.chw_types.specs.TypeView.{trees_of};

use crate::forms::{pair_like, sort_of};
use crate::moves::{raise, shift};
use crate::room::{Room, parts_left};
use crate::ty::{Ty, TyNode};
use chw_base::limits::{TYPE_DEPTH, TYPE_PARTS};
use chw_base::{NoMemory, TyIx};
use std::alloc::Global;

/// Puts these types for the parameters of a data type, of which the last is the variable 0, all at once. Later variables come down by
/// their number, and under a binder the variables of the arguments are raised.
///
/// Where the result would be deeper than `TYPE_DEPTH`, or have more parts than `TYPE_PARTS`, the
/// answer is want of memory, before any of it is made.
pub fn put_arguments(alloc: Global, field: &Ty, args: &[Ty]) -> Result<Ty, NoMemory>
    ensures is { IfOk result (λ t. t ≡ sub field.now (arguments (trees_of args.now))) }
    ensures small { IfOk result (λ t. IsSmall t) }
{
    let mut parts = TYPE_PARTS;
    Ok(put_arguments_within(alloc, field, args, &mut parts)?)
}

/// The field with the arguments put in, as by `put_arguments`, whose parts are taken from `parts`: where fewer are left, the answer is
/// want of memory.
pub fn put_arguments_within(
    alloc: Global,
    field: &Ty,
    args: &[Ty],
    parts: &mut u32,
) -> Result<Ty, NoMemory>
    ensures is { IfOk result (λ t. t ≡ sub field.now (arguments (trees_of args.now))) }
    ensures small { IfOk result (λ t. IsSmall t) }
    ensures taken { IfOk result (λ t. parts_of t + parts.new ≡ parts.old) }
{
    Ok(fill_within(alloc, field, 0, args, parts)?)
}

/// The type with these put for its variables from `under` on, where it is small. Its parts are
/// taken from `parts`. Where there is no room, the answer is want of memory, before any of it is
/// made.
pub(crate) fn fill_within(
    alloc: Global,
    t: &Ty,
    under: u32,
    args: &[Ty],
    parts: &mut u32,
) -> Result<Ty, NoMemory>
    ensures is { IfOk result (λ r. r ≡ sub t.now (up_by under (given (reverse args.now)))) }
    ensures small { IfOk result (λ r. IsSmall r) }
    ensures taken { IfOk result (λ r. parts_of r + parts.new ≡ parts.old) }
{
    let most = if *parts < TYPE_PARTS {
        *parts
    } else {
        TYPE_PARTS
    };
    let room = Room {
        depth: TYPE_DEPTH,
        parts: most,
    };
    let Some(left) = parts_left(t, under, args, room) else {
        return Err(NoMemory);
    };
    *parts -= most - left;
    Ok(fill(alloc, t, under, args)?)
}

// What stands for a variable under so many binders.
#[tactic(auto, using(crate::proofs::Filled::filled_below, crate::proofs::Filled::filled_here, crate::proofs::Filled::filled_above))]
fn fill_var(alloc: Global, x: TyIx, under: u32, args: &[Ty]) -> Result<Ty, NoMemory>
    ensures { IfOk result (λ t. t ≡ up_by under (given (reverse args.now)) x.number) }
{
    let number = x.number;
    if number < under {
        return Ok(Ty::var(x));
    }
    let at = (number - under) as usize;
    if at < args.len() {
        shift(alloc, &args[args.len() - 1 - at], 0, under)
    } else {
        Ok(Ty::var(TyIx {
            number: number - args.len() as u32,
        }))
    }
}

// The type with these put for its variables from `under` on.
#[tactic(auto, unfolding(crate::specs::TypeMoves::sub))]
fn fill(alloc: Global, t: &Ty, under: u32, args: &[Ty]) -> Result<Ty, NoMemory>
    ensures { IfOk result (λ r. r ≡ sub t.now (up_by under (given (reverse args.now)))) }
{
    match &t.node {
        TyNode::Var(x) => Ok(fill_var(alloc, *x, under, args)?),
        TyNode::NatLit(n) => Ok(Ty::nat(*n)),
        TyNode::DomOf(d) => Ok(Ty::dom_of(*d)),
        TyNode::Unsigned(w) | TyNode::Signed(w) | TyNode::BitVector(w) => {
            let w = fill(alloc, w, under, args)?;
            Ok(Ty::scalar(alloc, sort_of(t), w)?)
        }
        TyNode::Sum(a, b)
        | TyNode::Times(a, b)
        | TyNode::Vec(a, b)
        | TyNode::Fun(a, b)
        | TyNode::Signal(a, b) => {
            let a = fill(alloc, a, under, args)?;
            let b = fill(alloc, b, under, args)?;
            Ok(pair_like(alloc, t, a, b)?)
        }
        TyNode::DataOf(d, parts) => {
            let mut done = Vec::new(alloc);
            for part in parts {
                done.push(fill(alloc, part, under, args)?)?;
            }
            Ok(Ty::data_of(*d, done))
        }
        TyNode::Forall(k, t) => {
            let inner = raise(under, 1)?;
            let t = fill(alloc, t, inner, args)?;
            Ok(Ty::forall(alloc, *k, t)?)
        }
    }
}
