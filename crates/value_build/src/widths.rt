//! The widths of types that have one.
ghost use Rattle.std.specs.Prelude.{◌≡◌, IfOk};
ghost use Rattle.chw_base.specs.Outcome.{OfFault};
ghost use Rattle.chw_layout.specs.Measured.{HasWidth};
ghost use Rattle.value_build.specs.ReadyParts.{IsMeasured};

use chw_base::{NoMemory, Or};
use chw_layout::NoLayout;
use chw_types::Ty;
use std::alloc::Global;
use type_widths::Widths;

/// How many bits each value of a closed type has, where there is such a number.
pub(crate) fn width_of(alloc: Global, t: &Ty, widths: &mut Widths<'_>) -> Result<u32, NoMemory>
    requires { IsMeasured widths.old t.now }
    ensures width { IfOk result (HasWidth widths.old t.now) }
    ensures same { widths.new ≡ widths.old }
{
    match widths.width(alloc, t) {
        Ok(width) => Ok(width),
        Err(why) => Err(want_of_memory(why)),
    }
}

// Want of memory, where an answer is no fault.
fn want_of_memory(why: Or<NoLayout>) -> NoMemory
    requires { OfFault why (λ _. ⊥) }
{
    match why {
        Or::Memory => NoMemory,
        Or::Fault(_) => unreachable!(),
    }
}
