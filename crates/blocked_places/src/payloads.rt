//! Payloads that aren't representable.
ghost use Rattle.std.specs.Prelude.{IfOk};
ghost use Rattle.chw_types.specs.References.{HasNoCycle};
ghost use Rattle.blocked_places.specs.Payloads.{FindsNumber, FindsPayload};

use crate::types::type_at;
use chw_base::NoMemory;
use chw_prims::Prim;
use chw_terms::{Head, Term};
use chw_types::{Data, Ty};
use std::alloc::Global;
use type_ports::representable;

// The number of the argument that is a primitive's payload.
fn payload_number(which: Prim) -> Option<usize>
    ensures { FindsNumber which result }
{
    match which {
        Prim::Register => Some(1),
        Prim::BlockRam => Some(3),
        Prim::UnsafeSynchronizer => Some(2),
        _ => None,
    }
}

/// The payload of a register, a block RAM or a synchronizer, where it isn't representable.
pub(crate) fn payload_at(alloc: Global, datas: &[Data], at: &Term) -> Result<Option<Ty>, NoMemory>
    requires { HasNoCycle datas.now }
    ensures { IfOk result (FindsPayload datas.now at.now) }
{
    let Head::PrimOf(which) = &at.head else {
        return Ok(None);
    };
    let Some(number) = payload_number(*which) else {
        return Ok(None);
    };
    let Some(ty) = type_at(&at.args, number) else {
        return Ok(None);
    };
    if representable(alloc, ty, datas)? {
        return Ok(None);
    }
    Ok(Some(ty.copy(alloc)?))
}
