//! The types of the primitives on signals.
ghost use Rattle.std.specs.Prelude.{◌≡◌};
ghost use Rattle.chw_prims.specs.Schemas.{row_type};
ghost use Rattle.chw_prims.specs.Signatures.{signature_type};
ghost use Rattle.chw_prims.specs.declared.row.Row.TheVariants.{Mapping, Applying, Constant, Delay, Memory, Crossing};

use crate::signature::{Inputs, Kinds, Part, Signature, Size};
use chw_types::Kind;

pub(crate) fn mapping() -> Signature
    ensures { signature_type result ≡ row_type Mapping }
{
    Signature {
        kinds: Kinds::Three(Kind::Dom, Kind::Val, Kind::Val),
        inputs: Inputs::Double(Part::Function(1, 0), Part::Samples(2, 1)),
        output: Part::Samples(2, 0),
    }
}

pub(crate) fn applying() -> Signature
    ensures { signature_type result ≡ row_type Applying }
{
    Signature {
        kinds: Kinds::Three(Kind::Dom, Kind::Val, Kind::Val),
        inputs: Inputs::Double(Part::Functions(2, 1, 0), Part::Samples(2, 1)),
        output: Part::Samples(2, 0),
    }
}

pub(crate) fn constant() -> Signature
    ensures { signature_type result ≡ row_type Constant }
{
    Signature {
        kinds: Kinds::Two(Kind::Dom, Kind::Val),
        inputs: Inputs::Single(Part::Var(0)),
        output: Part::Samples(1, 0),
    }
}

pub(crate) fn delay() -> Signature
    ensures { signature_type result ≡ row_type Delay }
{
    Signature {
        kinds: Kinds::Two(Kind::Dom, Kind::Val),
        inputs: Inputs::Double(Part::Var(0), Part::Samples(1, 0)),
        output: Part::Samples(1, 0),
    }
}

pub(crate) fn memory() -> Signature
    ensures { signature_type result ≡ row_type Memory }
{
    let content = Part::Vector(Size::OneMore(2), 0);
    Signature {
        kinds: Kinds::Four(Kind::Dom, Kind::Nat, Kind::Nat, Kind::Val),
        inputs: Inputs::Triple(content, Part::Places(3, 1), Part::Writes(3, 1, 0)),
        output: Part::Samples(3, 0),
    }
}

pub(crate) fn crossing() -> Signature
    ensures { signature_type result ≡ row_type Crossing }
{
    Signature {
        kinds: Kinds::Three(Kind::Dom, Kind::Dom, Kind::Val),
        inputs: Inputs::Single(Part::Samples(2, 0)),
        output: Part::Samples(1, 0),
    }
}
