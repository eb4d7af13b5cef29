//! How a type is made of others.
ghost use Rattle.std.specs.Prelude.{◌≡◌};
ghost use Rattle.type_numbers.specs.Nodes.{sort_of, pair_of};

use chw_types::{Kind, Scalar, Ty, TyNode};

/// A form of a type, with the numbers of the types that it is made of.
#[derive(Clone, Copy, PartialEq, Eq, Hash)]
pub(crate) enum Node {
    Alone(Alone, u32),
    OfScalar(Scalar, u32),
    OfForall(Kind, u32),
    OfPair(Pair, u32, u32),
}

/// A form of types that are made of no other, but have a number of their own.
#[derive(Clone, Copy, PartialEq, Eq, Hash)]
pub(crate) enum Alone {
    Var,
    NatLit,
    Domain,
    /// A data type without arguments.
    Data,
}

/// A form of types that are made of two.
#[derive(Clone, Copy, PartialEq, Eq, Hash)]
pub(crate) enum Pair {
    Sum,
    Times,
    Vec,
    Fun,
    Signal,
    /// A data type with arguments, at one more argument.
    Applied,
}

/// The sort of a scalar.
pub(crate) fn sort_of(ty: &Ty) -> Scalar
    ensures { result ≡ sort_of ty.now }
{
    match &ty.node {
        TyNode::Unsigned(_) => Scalar::U,
        TyNode::Signed(_) => Scalar::S,
        _ => Scalar::B,
    }
}

/// The form of a type that is made of two.
pub(crate) fn pair_of(ty: &Ty) -> Pair
    ensures { result ≡ pair_of ty.now }
{
    match &ty.node {
        TyNode::Sum(_, _) => Pair::Sum,
        TyNode::Times(_, _) => Pair::Times,
        TyNode::Vec(_, _) => Pair::Vec,
        TyNode::Fun(_, _) => Pair::Fun,
        _ => Pair::Signal,
    }
}
