//! The parameters of functions of values.
ghost use Rattle.std.specs.Prelude.{IfOk, option_map};
ghost use Rattle.chw_types.specs.References.{HasNoCycle};
ghost use Rattle.work_names.specs.Functions.{AnswersParameters};

use chw_base::NoMemory;
use chw_types::{Data, Ty, TyNode};
use std::alloc::Global;
use type_ports::representable;

/// The types of the parameters, where the type is that of functions of values that give a value: all of these are representable.
pub(crate) fn parameters(
    alloc: Global,
    datas: &[Data],
    ty: &Ty,
) -> Result<Option<Vec<Ty>>, NoMemory>
    requires { HasNoCycle datas.now }
    ensures { IfOk result (λ r. AnswersParameters datas.now ty.now (option_map (λ ts. ts.items) r)) }
{
    let mut params = Vec::new(alloc);
    let mut rest = ty;
    while let TyNode::Fun(from, to) = &rest.node {
        if !representable(alloc, from, datas)? {
            return Ok(None);
        }
        params.push(from.copy(alloc)?)?;
        rest = to;
    }
    if representable(alloc, rest, datas)? {
        Ok(Some(params))
    } else {
        Ok(None)
    }
}
