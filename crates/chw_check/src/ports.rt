//! Whether a type is that of a top.
ghost use Rattle.std.specs.Prelude.{IfOk, MatchBool};
ghost use Rattle.chw_types.specs.References.{HasNoCycle};
ghost use Rattle.chw_typing.specs.Programs.{LeadsToPort};

use crate::counting::leaf_count;
use chw_base::NoMemory;
use chw_types::{Data, Ty, TyNode};
use std::alloc::Global;
use type_ports::PortTable;

/// Whether a type leads from ports, with so many leaves together, to a port with so many leaves.
pub(crate) fn leads_to_port(
    alloc: Global,
    datas: &[Data],
    ty: &Ty,
    inputs: usize,
    outputs: usize,
) -> Result<bool, NoMemory>
    requires { HasNoCycle datas.now }
    ensures { IfOk result (λ r. MatchBool r (LeadsToPort datas.now ty.now inputs outputs) (LeadsToPort datas.now ty.now inputs outputs → ⊥)) }
{
    let mut table = PortTable::of(datas);
    let leads = leads_by(alloc, &mut table, ty, inputs, outputs);
    drop(table);
    leads
}

// The same by a table of the data types.
fn leads_by(
    alloc: Global,
    table: &mut PortTable,
    ty: &Ty,
    inputs: usize,
    outputs: usize,
) -> Result<bool, NoMemory>
    requires { HasNoCycle table.old }
    ensures { IfOk result (λ r. MatchBool r (LeadsToPort table.old ty.now inputs outputs) (LeadsToPort table.old ty.now inputs outputs → ⊥)) }
{
    let mut rest = ty;
    // How many leaves the parameters that are left have together.
    let mut left = inputs;
    while let TyNode::Fun(from, to) = &rest.node {
        let Some(count) = leaf_count(alloc, from, table, left)? else {
            return Ok(false);
        };
        left -= count;
        rest = to;
    }
    match leaf_count(alloc, rest, table, outputs)? {
        Some(count) => Ok(left == 0 && count == outputs),
        None => Ok(false),
    }
}
