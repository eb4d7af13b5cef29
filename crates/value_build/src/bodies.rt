//! The bodies of values, as modules.
ghost use Rattle.std.specs.Prelude.{◌≡◌, ◌++◌, ◌∷◌, [], IfOk, OnOk};
ghost use Rattle.chw_terms.specs.declared.scene.Sort.TheVariants.{Value};
ghost use Rattle.net_built.specs.Modules.{IsModuleOf};
ghost use Rattle.net_built.specs.Wires.{present};
ghost use Rattle.net_built.specs.Loops.{HasNoLoops};
ghost use Rattle.net_ready.specs.Ready.{types_on, BlockReady, BodyReady, ModuleReady};
ghost use Rattle.value_build.specs.Bodies.{IsInput, IsUnder};
ghost use Rattle.value_build.specs.InScope.{in_scope};
ghost use Rattle.value_build.specs.ReadyParts.{IsMeasured};

use crate::base::Base;
use crate::passes::module;
use crate::scope::{Variable, push_part};
use chw_base::{NoMemory, narrow};
use chw_terms::{Head, Made, Term};
use chw_types::Ty;
use netlist::Module;
use std::alloc::Global;

// Puts the variable of a lambda into scope, on the wire behind these inputs.
fn push_input(
    alloc: Global,
    base: &mut Base<'_>,
    scope: &mut Vec<Variable>,
    inputs: &mut Vec<u32>,
    t: &Ty,
) -> Result<(), NoMemory>
    requires { IsMeasured base.old.datas t.now }
    ensures input { OnOk result (IsInput base.old Value t.now inputs.old.items inputs.new.items scope.old.items scope.new.items) }
    ensures base { base.new ≡ base.old }
{
    let width = base.width(alloc, t)?;
    let number = narrow(inputs.len())?;
    push_part(alloc, scope, t, number, width)?;
    push_present(inputs, width)
}

/// Pushes a width that isn't 0.
pub fn push_present(widths: &mut Vec<u32>, width: u32) -> Result<(), NoMemory>
    ensures { OnOk result (widths.new.items ≡ widths.old.items ++ present (width ∷ [])) }
{
    if width == 0 {
        return Ok(());
    }
    widths.push(width)?;
    Ok(())
}

// Puts the variables of the leading lambdas into scope, and gives what stands below them.
fn inputs<'t>(
    alloc: Global,
    base: &mut Base<'_>,
    scope: &mut Vec<Variable>,
    inputs: &mut Vec<u32>,
    e: &'t Term,
) -> Result<&'t Term, NoMemory>
    requires none { (scope.old.items ≡ []) × (inputs.old.items ≡ []) }
    requires ready { BodyReady base.old.datas Value [] e.now }
    requires free { HasNoLoops e.now }
    ensures ready { IfOk result (λ inner. BlockReady base.old.datas Value
        (types_on (in_scope scope.new.items)) inner.now) }
    ensures free { IfOk result (λ inner. HasNoLoops inner.now) }
    ensures under { IfOk result (λ inner. IsUnder base.old Value e.now inner.now inputs.new.items scope.new.items) }
    ensures base { base.new ≡ base.old }
{
    let mut inner = e;
    while let Head::Lam(t, body) = &inner.head {
        push_input(alloc, base, scope, inputs, t)?;
        inner = body;
    }
    Ok(inner)
}

/// The module of a made definition that gives a value.
///
/// Where a number would pass 32 bits, the answer is want of memory.
pub fn build_value(alloc: Global, base: &mut Base<'_>, it: &Made) -> Result<Module, NoMemory>
    requires sort { it.now.sort ≡ Value }
    requires ready { ModuleReady base.old.datas it.now }
    ensures module { IfOk result (IsModuleOf base.old it.now) }
    ensures base { base.new ≡ base.old }
{
    let mut scope = Vec::new(alloc);
    let mut widths = Vec::new(alloc);
    let inner = inputs(alloc, base, &mut scope, &mut widths, &it.body)?;
    module(alloc, base, &mut scope, &widths, inner)
}
