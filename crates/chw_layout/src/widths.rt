//! The width of a type.
ghost use Rattle.std.specs.Prelude.{IfOk};
ghost use Rattle.chw_base.specs.Outcome.{IfFault};
ghost use Rattle.chw_types.specs.References.{HasNoCycle};
ghost use Rattle.chw_layout.specs.Measured.{HasWidth};
ghost use Rattle.chw_layout.specs.Refusals.{IsRefusal};

use crate::measuring::closed_outcome;
use crate::outcome::{NoLayout, Outcome};
use chw_base::Or;
use chw_types::{Data, Ty};
use std::alloc::Global;
use type_ports::representable;

/// How many bits each value of a closed type has.
///
/// `NotRepresentable` comes where the type isn't representable. Else the first of these comes: a scalar of over 128 bits, a vector of
/// over 1,024 elements, data or a vector of over 4,096 bits. The element type counts before its vector, at one vector the length before
/// the width, and of data the fields with the arguments put in, constructor by constructor and from left to right, before the data
/// type itself.
///
/// Each data type is looked at once for arguments of the same outcomes.
pub fn width(alloc: Global, t: &Ty, datas: &[Data]) -> Result<u32, Or<NoLayout>>
    requires { HasNoCycle datas.now }
    ensures width { IfOk result (λ w. HasWidth datas.now t.now w) }
    ensures refused { IfFault result (IsRefusal datas.now t.now) }
{
    let has_bits = representable(alloc, t, datas)?;
    if !has_bits {
        return Err(Or::Fault(NoLayout::NotRepresentable));
    }
    let mut known = Vec::new(alloc);
    let outcome = closed_outcome(alloc, t, datas, &mut known)?;
    match outcome {
        Outcome::Fits(width) => Ok(width),
        Outcome::TooWide(limit) => Err(Or::Fault(limit)),
        Outcome::Number(_) => unreachable!(),
    }
}
