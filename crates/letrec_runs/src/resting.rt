//! Whether no rule acts on a letrec.
ghost use Rattle.std.specs.Prelude.{◌≡◌, ◌<◌, length, IfOk, IsTrue};
ghost use Rattle.chw_types.specs.References.{HasNoCycle};
ghost use Rattle.chw_terms.specs.TermView.{group_of};
ghost use Rattle.kept_letrecs.specs.Resting.{AllNamed, IsAtRest};

use crate::lets::{has_no_let, is_let};
use crate::reaching::all_reached;
use chw_base::NoMemory;
use chw_terms::{Binding, Mode, Term};
use chw_types::Data;
use rule_parts::named::is_named;
use std::alloc::Global;

// Whether each binding has a type that is named.
fn are_named(alloc: Global, datas: &[Data], mode: Mode, group: &[Binding]) -> Result<bool, NoMemory>
    requires { HasNoCycle datas.now }
    ensures { IfOk result (λ yes. IsTrue yes → AllNamed datas.now mode (group_of group.now)) }
{
    for binding in group {
        if !is_named(alloc, datas, mode, &binding.ty)? {
            return Ok(false);
        }
    }
    Ok(true)
}

// Whether no right side is a letrec nor the body, each binding is reached, and each has a named type. Time is linear in the letrec.
pub(crate) fn is_at_rest(
    alloc: Global,
    datas: &[Data],
    mode: Mode,
    group: &[Binding],
    body: &Term,
) -> Result<bool, NoMemory>
    requires { HasNoCycle datas.now }
    ensures { IfOk result (λ yes. IsTrue yes → IsAtRest datas.now mode (group_of group.now) body.now) }
{
    if !has_no_let(group) || is_let(body) {
        return Ok(false);
    }
    if !are_named(alloc, datas, mode, group)? {
        return Ok(false);
    }
    all_reached(alloc, group, body)
}
