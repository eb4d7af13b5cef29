//! The types of the primitives on vectors.
ghost use Rattle.std.specs.Prelude.{◌≡◌};
ghost use Rattle.chw_prims.specs.Schemas.{row_type};
ghost use Rattle.chw_prims.specs.Signatures.{signature_type};
ghost use Rattle.chw_prims.specs.declared.row.Row.TheVariants.{Element, ElementAt, Replaced, Mapped, Zipped, FoldedLeft, FoldedRight, Generated, Replicated, Appended, Concatenated, Taken, Dropped, Reversed, Rotated};

use crate::signature::{Inputs, Kinds, Part, Signature, Size};
use chw_types::{Kind, Scalar};

pub(crate) fn element(kind: Kind) -> Signature
    ensures { signature_type result ≡ row_type (Element kind) }
{
    Signature {
        kinds: Kinds::Three(Kind::Nat, Kind::Nat, kind),
        inputs: Inputs::Single(Part::Vector(Size::Above(2, 1), 0)),
        output: Part::Var(0),
    }
}

pub(crate) fn element_at() -> Signature
    ensures { signature_type result ≡ row_type ElementAt }
{
    let place = Part::Word(Scalar::U, Size::Given(1));
    Signature {
        kinds: Kinds::Three(Kind::Nat, Kind::Nat, Kind::Val),
        inputs: Inputs::Double(Part::Vector(Size::OneMore(2), 0), place),
        output: Part::Var(0),
    }
}

pub(crate) fn replaced() -> Signature
    ensures { signature_type result ≡ row_type Replaced }
{
    let vector = Part::Vector(Size::Given(2), 0);
    let place = Part::Word(Scalar::U, Size::Given(1));
    Signature {
        kinds: Kinds::Three(Kind::Nat, Kind::Nat, Kind::Val),
        inputs: Inputs::Triple(vector, place, Part::Var(0)),
        output: vector,
    }
}

pub(crate) fn mapped(kind: Kind) -> Signature
    ensures { signature_type result ≡ row_type (Mapped kind) }
{
    Signature {
        kinds: Kinds::Three(Kind::Nat, kind, kind),
        inputs: Inputs::Double(Part::Function(1, 0), Part::Vector(Size::Given(2), 1)),
        output: Part::Vector(Size::Given(2), 0),
    }
}

pub(crate) fn zipped(kind: Kind) -> Signature
    ensures { signature_type result ≡ row_type (Zipped kind) }
{
    let function = Part::FunctionOfTwo(2, 1, 0);
    let left = Part::Vector(Size::Given(3), 2);
    let right = Part::Vector(Size::Given(3), 1);
    Signature {
        kinds: Kinds::Four(Kind::Nat, kind, kind, kind),
        inputs: Inputs::Triple(function, left, right),
        output: Part::Vector(Size::Given(3), 0),
    }
}

pub(crate) fn folded_left(kind: Kind) -> Signature
    ensures { signature_type result ≡ row_type (FoldedLeft kind) }
{
    let vector = Part::Vector(Size::Given(2), 1);
    Signature {
        kinds: Kinds::Three(Kind::Nat, kind, kind),
        inputs: Inputs::Triple(Part::FunctionOfTwo(0, 1, 0), Part::Var(0), vector),
        output: Part::Var(0),
    }
}

pub(crate) fn folded_right(kind: Kind) -> Signature
    ensures { signature_type result ≡ row_type (FoldedRight kind) }
{
    let vector = Part::Vector(Size::Given(2), 1);
    Signature {
        kinds: Kinds::Three(Kind::Nat, kind, kind),
        inputs: Inputs::Triple(Part::FunctionOfTwo(1, 0, 0), Part::Var(0), vector),
        output: Part::Var(0),
    }
}

pub(crate) fn generated(kind: Kind) -> Signature
    ensures { signature_type result ≡ row_type (Generated kind) }
{
    Signature {
        kinds: Kinds::Three(Kind::Nat, Kind::Nat, kind),
        inputs: Inputs::Single(Part::OfPlace(1, 0)),
        output: Part::Vector(Size::Given(2), 0),
    }
}

pub(crate) fn replicated(kind: Kind) -> Signature
    ensures { signature_type result ≡ row_type (Replicated kind) }
{
    Signature {
        kinds: Kinds::Two(Kind::Nat, kind),
        inputs: Inputs::Single(Part::Var(0)),
        output: Part::Vector(Size::Given(1), 0),
    }
}

pub(crate) fn appended(kind: Kind) -> Signature
    ensures { signature_type result ≡ row_type (Appended kind) }
{
    Signature {
        kinds: Kinds::Three(Kind::Nat, Kind::Nat, kind),
        inputs: Inputs::Double(
            Part::Vector(Size::Given(2), 0),
            Part::Vector(Size::Given(1), 0),
        ),
        output: Part::Vector(Size::Sum(2, 1), 0),
    }
}

pub(crate) fn concatenated(kind: Kind) -> Signature
    ensures { signature_type result ≡ row_type (Concatenated kind) }
{
    Signature {
        kinds: Kinds::Three(Kind::Nat, Kind::Nat, kind),
        inputs: Inputs::Single(Part::Vectors(2, 1, 0)),
        output: Part::Vector(Size::Product(2, 1), 0),
    }
}

pub(crate) fn taken(kind: Kind) -> Signature
    ensures { signature_type result ≡ row_type (Taken kind) }
{
    Signature {
        kinds: Kinds::Three(Kind::Nat, Kind::Nat, kind),
        inputs: Inputs::Single(Part::Vector(Size::Sum(2, 1), 0)),
        output: Part::Vector(Size::Given(2), 0),
    }
}

pub(crate) fn dropped(kind: Kind) -> Signature
    ensures { signature_type result ≡ row_type (Dropped kind) }
{
    Signature {
        kinds: Kinds::Three(Kind::Nat, Kind::Nat, kind),
        inputs: Inputs::Single(Part::Vector(Size::Sum(2, 1), 0)),
        output: Part::Vector(Size::Given(1), 0),
    }
}

pub(crate) fn reversed(kind: Kind) -> Signature
    ensures { signature_type result ≡ row_type (Reversed kind) }
{
    let vector = Part::Vector(Size::Given(1), 0);
    Signature {
        kinds: Kinds::Two(Kind::Nat, kind),
        inputs: Inputs::Single(vector),
        output: vector,
    }
}

pub(crate) fn rotated(kind: Kind) -> Signature
    ensures { signature_type result ≡ row_type (Rotated kind) }
{
    let vector = Part::Vector(Size::Given(2), 0);
    Signature {
        kinds: Kinds::Three(Kind::Nat, Kind::Nat, kind),
        inputs: Inputs::Single(vector),
        output: vector,
    }
}
