//! Whether the fields of a constructor keep their kinds at the arguments of the data type.
ghost use Rattle.std.specs.Prelude.{◌≡◌, min, IsTrue};
ghost use Rattle.chw_types.specs.Kinds.{degree};
ghost use Rattle.seen_types.specs.Each.{Each};
ghost use Rattle.seen_types.specs.Keeping.{IsLinear, HasNoSums, KeepKinds};

use chw_types::{Ty, TyNode};

/// Whether these fields keep their kinds at these arguments, without making their types: either the
/// arguments' naturals have a degree of at most 1, or no sum and no product is in the fields.
///
/// Other fields may keep their kinds too.
pub fn keep_kinds(fields: &[Ty], args: &[Ty]) -> bool
    ensures { IsTrue result → KeepKinds fields.now args.now }
{
    if are_linear(args) {
        return true;
    }
    have_no_sums(fields)
}

// Whether each of these types, where it is a natural, has a degree of at most 1.
fn are_linear(types: &[Ty]) -> bool
    ensures { IsTrue result → Each IsLinear types.now }
{
    for ty in types {
        if degree(ty) > 1 {
            return false;
        }
    }
    true
}

/// The degree of a type, at most 2. Of a type that is no natural it is 0, and of a variable 1.
pub fn degree(ty: &Ty) -> u32
    ensures { result ≡ min (degree ty.now) 2 }
{
    match &ty.node {
        TyNode::Var(_) => 1,
        TyNode::Sum(a, b) => degree(a).max(degree(b)),
        TyNode::Times(a, b) => (degree(a) + degree(b)).min(2),
        _ => 0,
    }
}

// Whether no sum and no product is in any of these types.
fn have_no_sums(types: &[Ty]) -> bool
    ensures { IsTrue result → Each HasNoSums types.now }
{
    for ty in types {
        if !has_no_sums(ty) {
            return false;
        }
    }
    true
}

// Whether no sum and no product is in a type.
fn has_no_sums(ty: &Ty) -> bool
    ensures { IsTrue result → HasNoSums ty.now }
{
    match &ty.node {
        TyNode::Var(_) | TyNode::NatLit(_) | TyNode::DomOf(_) => true,
        TyNode::Sum(_, _) | TyNode::Times(_, _) => false,
        TyNode::Unsigned(w) | TyNode::Signed(w) | TyNode::BitVector(w) => has_no_sums(w),
        TyNode::Vec(a, b) | TyNode::Fun(a, b) | TyNode::Signal(a, b) => has_no_sums(a)
            && has_no_sums(b),
        TyNode::DataOf(_, args) => {
            for arg in args {
                if !has_no_sums(arg) {
                    return false;
                }
            }
            true
        }
        TyNode::Forall(_, of) => has_no_sums(of),
    }
}
