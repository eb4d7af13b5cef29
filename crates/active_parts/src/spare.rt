//! Types that went out of scope, which are put into scope again in place of copies.
ghost use Rattle.std.specs.Prelude.{◌≡◌, ◌++◌, [], take, IfOk, IsTrue, OnOk};
ghost use Rattle.chw_terms.specs.TermView.{group_of};
ghost use Rattle.chw_typing.specs.Scopes.{declared};
ghost use Rattle.active_parts.specs.Grounds.{with_variables};

use chw_base::NoMemory;
use chw_terms::{Binding, Place};
use chw_types::{Ty, TyNode};
use std::alloc::Global;
use std::mem;

/// Types that were in scope, of which the one that was put on first is the last. A search that enters the same letrec again and again takes
/// them in place of copies.
#[derive(Drop)]
pub struct SpareTypes {
    types: Vec<Ty>,
}

impl SpareTypes {
    /// No types.
    pub fn new(alloc: Global) -> SpareTypes
        ensures { result.types.items ≡ [] }
    {
        SpareTypes {
            types: Vec::new(alloc),
        }
    }
}

// Whether two types are equal as trees. Of types with a binder it isn't said: a variable of a term in normal form has none.
fn is_tree(a: &Ty, b: &Ty) -> bool
    ensures { IsTrue result → a.now ≡ b.now }
{
    match (&a.node, &b.node) {
        (TyNode::Var(x), TyNode::Var(y)) => x.number == y.number,
        (TyNode::NatLit(n), TyNode::NatLit(m)) => *n == *m,
        (TyNode::DomOf(d), TyNode::DomOf(e)) => d.number == e.number,
        (TyNode::Unsigned(v), TyNode::Unsigned(w))
        | (TyNode::Signed(v), TyNode::Signed(w))
        | (TyNode::BitVector(v), TyNode::BitVector(w)) => is_tree(v, w),
        (TyNode::Vec(c, d), TyNode::Vec(e, f))
        | (TyNode::Fun(c, d), TyNode::Fun(e, f))
        | (TyNode::Signal(c, d), TyNode::Signal(e, f)) => is_tree(c, e) && is_tree(d, f),
        (TyNode::DataOf(d, ts), TyNode::DataOf(e, us)) => {
            if d.number != e.number {
                return false;
            }
            if ts.len() != us.len() {
                return false;
            }
            for (i, t) in ts.iter().enumerate() {
                if !is_tree(t, &us[i]) {
                    return false;
                }
            }
            true
        }
        _ => false,
    }
}

// A type, taken from the spare ones where the next one is equal, and else copied.
fn again(alloc: Global, ty: &Ty, spare: &mut SpareTypes) -> Result<Ty, NoMemory>
    ensures { IfOk result (λ t. t ≡ ty.now) }
{
    let Some(it) = spare.types.pop() else {
        return ty.copy(alloc);
    };
    if is_tree(&it, ty) {
        Ok(it)
    } else {
        drop(it);
        ty.copy(alloc)
    }
}

/// Puts the variables of a letrec into the scope of a place, with spare types where they are equal to the next ones.
pub fn enter_group_again(
    alloc: Global,
    place: &mut Place,
    bindings: &[Binding],
    spare: &mut SpareTypes,
) -> Result<(), NoMemory>
    ensures { OnOk result (place.new ≡ with_variables place.old (place.old.vars ++ declared (group_of bindings.now))) }
{
    for binding in bindings {
        place.vars.push(again(alloc, &binding.ty, spare)?)?;
    }
    Ok(())
}

/// Takes variables out of the scope of a place, so that as many are left. Their types become the spare ones, and those that were spare go.
pub fn leave_with_spare(
    alloc: Global,
    place: &mut Place,
    left: usize,
    spare: &mut SpareTypes,
) -> Result<(), NoMemory>
    ensures { OnOk result (place.new ≡ with_variables place.old (take left place.old.vars)) }
{
    let count = place.vars.len().saturating_sub(left);
    let mut gone = Vec::with_capacity(alloc, count)?;
    while left < place.vars.len() {
        let Some(ty) = place.vars.pop() else {
            unreachable!()
        };
        gone.push(ty)?;
    }
    if !gone.is_empty() {
        let before = mem::replace(&mut spare.types, gone);
        drop(before);
    }
    Ok(())
}
