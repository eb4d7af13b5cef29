//! Sorts of scalars, and types of one form with other parts.
ghost use Rattle.std.specs.Prelude.{◌≡◌, IfOk};
ghost use Rattle.chw_types.specs.Forms.{sort_of, pair_like};

use crate::kind::Scalar;
use crate::ty::{Ty, TyNode};
use chw_base::NoMemory;
use std::alloc::Global;

/// The sort of a scalar type, and `B` for any other.
pub fn sort_of(t: &Ty) -> Scalar
    ensures { result ≡ sort_of t.now }
{
    match &t.node {
        TyNode::Unsigned(_) => Scalar::U,
        TyNode::Signed(_) => Scalar::S,
        _ => Scalar::B,
    }
}

// The type of the same form with these two parts.
pub(crate) fn pair_like(alloc: Global, t: &Ty, a: Ty, b: Ty) -> Result<Ty, NoMemory>
    ensures { IfOk result (λ r. r ≡ pair_like t.now a b) }
{
    match &t.node {
        TyNode::Sum(_, _) => Ok(Ty::sum(alloc, a, b)?),
        TyNode::Times(_, _) => Ok(Ty::times(alloc, a, b)?),
        TyNode::Vec(_, _) => Ok(Ty::vec(alloc, a, b)?),
        TyNode::Fun(_, _) => Ok(Ty::fun(alloc, a, b)?),
        _ => Ok(Ty::signal(alloc, a, b)?),
    }
}
