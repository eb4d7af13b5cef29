//! Types without variables.
ghost use Rattle.std.specs.Prelude.{IsTrue};
ghost use Rattle.seen_types.specs.Closed.{HasNoVariables};

use chw_types::{Ty, TyNode};

/// Whether no variable is in a type, not even one that is bound in it.
pub fn has_no_variables(ty: &Ty) -> bool
    ensures { IsTrue result → HasNoVariables ty.now }
{
    match &ty.node {
        TyNode::Var(_) => false,
        TyNode::NatLit(_) | TyNode::DomOf(_) => true,
        TyNode::Unsigned(w) | TyNode::Signed(w) | TyNode::BitVector(w) => has_no_variables(w),
        TyNode::Sum(a, b)
        | TyNode::Times(a, b)
        | TyNode::Vec(a, b)
        | TyNode::Fun(a, b)
        | TyNode::Signal(a, b) => has_no_variables(a) && has_no_variables(b),
        TyNode::DataOf(_, args) => {
            for arg in args {
                if !has_no_variables(arg) {
                    return false;
                }
            }
            true
        }
        TyNode::Forall(_, of) => has_no_variables(of),
    }
}
