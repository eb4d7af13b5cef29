//! The types of the primitives on words.
ghost use Rattle.std.specs.Prelude.{◌≡◌};
ghost use Rattle.chw_prims.specs.Schemas.{row_type};
ghost use Rattle.chw_prims.specs.Signatures.{signature_type};
ghost use Rattle.chw_prims.specs.declared.row.Row.TheVariants.{Binary, WideSum, WideProduct, Unary, Shift, Compare, Extend, Truncate, Cut, Joined, Reduce, Packed, Unpacked};

use crate::signature::{Inputs, Kinds, Part, Signature, Size};
use chw_types::{Kind, Scalar};

pub(crate) fn binary(x: Scalar) -> Signature
    ensures { signature_type result ≡ row_type (Binary x) }
{
    let word = Part::Word(x, Size::Given(0));
    Signature {
        kinds: Kinds::One(Kind::Nat),
        inputs: Inputs::Double(word, word),
        output: word,
    }
}

pub(crate) fn wide_sum(x: Scalar) -> Signature
    ensures { signature_type result ≡ row_type (WideSum x) }
{
    let word = Part::Word(x, Size::Given(0));
    Signature {
        kinds: Kinds::One(Kind::Nat),
        inputs: Inputs::Double(word, word),
        output: Part::Word(x, Size::OneMore(0)),
    }
}

pub(crate) fn wide_product(x: Scalar) -> Signature
    ensures { signature_type result ≡ row_type (WideProduct x) }
{
    Signature {
        kinds: Kinds::Two(Kind::Nat, Kind::Nat),
        inputs: Inputs::Double(Part::Word(x, Size::Given(1)), Part::Word(x, Size::Given(0))),
        output: Part::Word(x, Size::Sum(1, 0)),
    }
}

pub(crate) fn unary(x: Scalar) -> Signature
    ensures { signature_type result ≡ row_type (Unary x) }
{
    let word = Part::Word(x, Size::Given(0));
    Signature {
        kinds: Kinds::One(Kind::Nat),
        inputs: Inputs::Single(word),
        output: word,
    }
}

pub(crate) fn shift(x: Scalar) -> Signature
    ensures { signature_type result ≡ row_type (Shift x) }
{
    let word = Part::Word(x, Size::Given(1));
    Signature {
        kinds: Kinds::Two(Kind::Nat, Kind::Nat),
        inputs: Inputs::Double(word, Part::Word(Scalar::U, Size::Given(0))),
        output: word,
    }
}

pub(crate) fn compare(x: Scalar) -> Signature
    ensures { signature_type result ≡ row_type (Compare x) }
{
    let word = Part::Word(x, Size::Given(0));
    Signature {
        kinds: Kinds::One(Kind::Nat),
        inputs: Inputs::Double(word, word),
        output: Part::Bool,
    }
}

pub(crate) fn extend(x: Scalar) -> Signature
    ensures { signature_type result ≡ row_type (Extend x) }
{
    Signature {
        kinds: Kinds::Two(Kind::Nat, Kind::Nat),
        inputs: Inputs::Single(Part::Word(x, Size::Given(1))),
        output: Part::Word(x, Size::Sum(1, 0)),
    }
}

pub(crate) fn truncate(x: Scalar) -> Signature
    ensures { signature_type result ≡ row_type (Truncate x) }
{
    Signature {
        kinds: Kinds::Two(Kind::Nat, Kind::Nat),
        inputs: Inputs::Single(Part::Word(x, Size::Sum(1, 0))),
        output: Part::Word(x, Size::Given(1)),
    }
}

pub(crate) fn cut() -> Signature
    ensures { signature_type result ≡ row_type Cut }
{
    Signature {
        kinds: Kinds::Three(Kind::Nat, Kind::Nat, Kind::Nat),
        inputs: Inputs::Single(Part::Word(Scalar::B, Size::SumOfThree(0, 1, 2))),
        output: Part::Word(Scalar::B, Size::Given(1)),
    }
}

pub(crate) fn joined() -> Signature
    ensures { signature_type result ≡ row_type Joined }
{
    Signature {
        kinds: Kinds::Two(Kind::Nat, Kind::Nat),
        inputs: Inputs::Double(
            Part::Word(Scalar::B, Size::Given(1)),
            Part::Word(Scalar::B, Size::Given(0)),
        ),
        output: Part::Word(Scalar::B, Size::Sum(1, 0)),
    }
}

pub(crate) fn reduce() -> Signature
    ensures { signature_type result ≡ row_type Reduce }
{
    Signature {
        kinds: Kinds::One(Kind::Nat),
        inputs: Inputs::Single(Part::Word(Scalar::B, Size::Given(0))),
        output: Part::Bool,
    }
}

pub(crate) fn packed(x: Scalar) -> Signature
    ensures { signature_type result ≡ row_type (Packed x) }
{
    Signature {
        kinds: Kinds::One(Kind::Nat),
        inputs: Inputs::Single(Part::Word(x, Size::Given(0))),
        output: Part::Word(Scalar::B, Size::Given(0)),
    }
}

pub(crate) fn unpacked(x: Scalar) -> Signature
    ensures { signature_type result ≡ row_type (Unpacked x) }
{
    Signature {
        kinds: Kinds::One(Kind::Nat),
        inputs: Inputs::Single(Part::Word(Scalar::B, Size::Given(0))),
        output: Part::Word(x, Size::Given(0)),
    }
}
