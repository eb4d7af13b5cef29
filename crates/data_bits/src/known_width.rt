//! The width of a type that is known to have one.
ghost use Rattle.std.specs.Prelude.{IfOk};
ghost use Rattle.chw_types.specs.References.{HasNoCycle};
ghost use Rattle.chw_layout.specs.Measured.{HasWidth};
ghost use Rattle.data_bits.specs.Encoding.{Fits};

use chw_base::{NoMemory, Or};
use chw_layout::width;
use chw_types::{Data, Ty};
use std::alloc::Global;

pub(crate) fn width_of(alloc: Global, t: &Ty, datas: &[Data]) -> Result<u32, NoMemory>
    requires order { HasNoCycle datas.now }
    requires fits { Fits datas.now t.now }
    ensures { IfOk result (HasWidth datas.now t.now) }
{
    match width(alloc, t, datas) {
        Ok(width) => Ok(width),
        Err(Or::Memory) => Err(NoMemory),
        Err(Or::Fault(_)) => unreachable!(),
    }
}
