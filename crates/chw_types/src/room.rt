//! How much room a type with others put into it takes, before it is made.
ghost use Rattle.std.specs.Prelude.{◌≡◌, ◌+◌, ◌≤◌, ℕ, reverse, IfSome, IfNone, Contains};
ghost use Rattle.chw_types.specs.Arguments.{given};
ghost use Rattle.chw_types.specs.TypeTree.{ty_var};
ghost use Rattle.chw_types.specs.TypeMoves.{sub, up_by, shift};
ghost use Rattle.chw_types.specs.SmallTypes.{Takes};

use crate::ty::{Ty, TyNode};
use chw_base::TyIx;

/// How deep a type may be, and how many parts are left for it.
#[derive(Clone, Copy)]
pub(crate) struct Room {
    pub(crate) depth: u32,
    pub(crate) parts: u32,
}

// The room for the parts of a type.
fn inside(room: Room) -> Option<Room>
    ensures { IfSome result (λ r. (r.depth + 1 ≡ room.depth) × (r.parts + 1 ≡ room.parts)) }
{
    let depth = room.depth.checked_sub(1)?;
    let parts = room.parts.checked_sub(1)?;
    Some(Room { depth, parts })
}

// How many parts are left after a type without parts.
fn parts_left_by_one(room: Room) -> Option<u32>
    ensures { IfSome result (λ left. (1 ≤ room.depth) × (left + 1 ≡ room.parts)) }
{
    Some(inside(room)?.parts)
}

// What is put for a variable under so many binders.
fn argument_for(x: TyIx, under: u32, args: &[Ty]) -> Option<&Ty>
    ensures some { IfSome result (λ a. Contains args.now a.now × (shift a.now 0 under ≡ up_by under (given (reverse args.now)) x.number)) }
    ensures none { IfNone result ((y : ℕ) × (ty_var y ≡ up_by under (given (reverse args.now)) x.number)) }
{
    let number = x.number;
    if number < under {
        return None;
    }
    let at = (number - under) as usize;
    if at < args.len() {
        Some(&args[args.len() - 1 - at])
    } else {
        None
    }
}

/// How many parts are left after the type with these put for its variables from `under` on. Nothing
/// comes where there is no room.
///
/// The walk ends at the first part for which there is no room.
#[tactic(auto, unfolding(crate::specs::TypeMoves::sub, crate::specs::SmallTypes::depth_of, crate::specs::SmallTypes::parts_of))]
pub(crate) fn parts_left(t: &Ty, under: u32, args: &[Ty], room: Room) -> Option<u32>
    ensures { IfSome result (λ left. Takes (sub t.now (up_by under (given (reverse args.now)))) room.depth room.parts left) }
{
    match &t.node {
        TyNode::Var(x) => match argument_for(*x, under, args) {
            Some(arg) => parts_left(arg, 0, &[], room),
            None => parts_left_by_one(room),
        },
        TyNode::NatLit(_) | TyNode::DomOf(_) => parts_left_by_one(room),
        TyNode::Unsigned(w) | TyNode::Signed(w) | TyNode::BitVector(w) => {
            parts_left(w, under, args, inside(room)?)
        }
        TyNode::Sum(a, b)
        | TyNode::Times(a, b)
        | TyNode::Vec(a, b)
        | TyNode::Fun(a, b)
        | TyNode::Signal(a, b) => {
            let mut inner = inside(room)?;
            inner.parts = parts_left(a, under, args, inner)?;
            parts_left(b, under, args, inner)
        }
        TyNode::DataOf(_, parts) => {
            let mut inner = inside(room)?;
            for part in parts {
                inner.parts = parts_left(part, under, args, inner)?;
            }
            Some(inner.parts)
        }
        TyNode::Forall(_, t) => {
            let under = under.checked_add(1)?;
            parts_left(t, under, args, inside(room)?)
        }
    }
}
