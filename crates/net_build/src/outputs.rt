//! Which made definitions give something that has a wire.
ghost use Rattle.std.specs.Prelude.{◌≡◌, IfOk};
ghost use Rattle.net_built.specs.Terms.{result_of};
ghost use Rattle.net_ready.specs.Ready.{ModuleReady};
ghost use Rattle.net_build.specs.Nets.{EachIsReady};
ghost use Rattle.net_build.specs.Outputs.{IsOutputMark, AreOutputMarks};

use chw_base::NoMemory;
use chw_terms::Made;
use chw_types::{Ty, TyNode};
use circuit_build::ports::{count_wires, parts_of};
use std::alloc::Global;
use value_build::Base;

// What a function gives in the end.
fn result_of(t: &Ty) -> &Ty
    ensures { result.now ≡ result_of t.now }
{
    let mut inner = t;
    while let TyNode::Fun(_, to) = &inner.node {
        inner = to;
    }
    inner
}

// Whether what a made definition gives has a wire.
fn has_outputs(alloc: Global, base: &mut Base<'_>, it: &Made) -> Result<bool, NoMemory>
    requires { ModuleReady base.old.datas it.now }
    ensures mark { IfOk result (IsOutputMark base.old.datas it.now) }
    ensures same { base.new ≡ base.old }
{
    let widths = parts_of(alloc, base, it.sort, result_of(&it.ty))?;
    let count = count_wires(&widths)?;
    Ok(count != 0)
}

/// Whether what each of these made definitions gives has a wire.
pub(crate) fn outputs(
    alloc: Global,
    base: &mut Base<'_>,
    made: &[Made],
) -> Result<Vec<bool>, NoMemory>
    requires { EachIsReady base.old.datas made.now }
    ensures marks { IfOk result (λ has. AreOutputMarks base.old.datas made.now has.items) }
    ensures same { base.new ≡ base.old }
{
    let mut has = Vec::new(alloc);
    for it in made {
        has.push(has_outputs(alloc, base, it)?)?;
    }
    Ok(has)
}
