//! The parameters of functions of values.
ghost use Rattle.std.specs.Prelude.{◌≡◌, ◌+◌, IfOk};
ghost use Rattle.chw_types.specs.References.{HasNoCycle};
ghost use Rattle.specialise.specs.Seeds.{AnswersCount};

use chw_base::NoMemory;
use chw_types::{Data, Ty, TyNode};
use std::alloc::Global;
use type_ports::representable;

// The next number.
fn one_more(count: usize) -> Result<usize, NoMemory>
    ensures { IfOk result (λ n. n ≡ count + 1) }
{
    count.checked_add(1).ok_or(NoMemory)
}

/// How many parameters there are, where the type is that of functions of values that give a value: all of these are representable.
pub(crate) fn parameter_count(
    alloc: Global,
    datas: &[Data],
    ty: &Ty,
) -> Result<Option<usize>, NoMemory>
    requires { HasNoCycle datas.now }
    ensures { IfOk result (AnswersCount datas.now ty.now) }
{
    let mut count = 0;
    let mut rest = ty;
    while let TyNode::Fun(from, to) = &rest.node {
        if !representable(alloc, from, datas)? {
            return Ok(None);
        }
        count = one_more(count)?;
        rest = to;
    }
    if representable(alloc, rest, datas)? {
        Ok(Some(count))
    } else {
        Ok(None)
    }
}
