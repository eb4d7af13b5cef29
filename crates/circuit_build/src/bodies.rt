//! The bodies of circuits, as modules.
ghost use Rattle.std.specs.Prelude.{◌≡◌, ◌++◌, ◌∷◌, [], ℕ, List, IfOk, OnOk};
ghost use Rattle.chw_terms.specs.declared.scene.Sort.TheVariants.{Circuit};
ghost use Rattle.net_built.specs.Data.{HasParts};
ghost use Rattle.net_built.specs.Modules.{IsModuleOf};
ghost use Rattle.net_built.specs.Terms.{variable};
ghost use Rattle.net_built.specs.Wires.{new_wires, present};
ghost use Rattle.net_ready.specs.Ready.{types_on, BlockReady, BodyReady, ModuleReady};
ghost use Rattle.value_build.specs.Bodies.{IsInput, IsUnder, IsModuleBelow};
ghost use Rattle.value_build.specs.InScope.{as_variables, in_scope};

use crate::circuits::block;
use crate::ports::{count_wires, port_parts};
use chw_base::{NoMemory, narrow};
use chw_terms::{Head, Made, Term};
use chw_types::Ty;
use net_pieces::{Pieces, parts};
use netlist::Module;
use std::alloc::Global;
use value_build::Base;
use value_build::bodies::push_present;
use value_build::scope::{Variable, push};

// Pushes the widths that aren't 0.
fn push_widths(inputs: &mut Vec<u32>, widths: &[u32]) -> Result<(), NoMemory>
    ensures { OnOk result (inputs.new.items ≡ inputs.old.items ++ present widths.now) }
{
    for w in widths {
        push_present(inputs, *w)?;
    }
    Ok(())
}

// Puts a variable of this type with parts of these widths into scope, on the wires from this number on.
fn push_port(
    alloc: Global,
    scope: &mut Vec<Variable>,
    t: &Ty,
    number: u32,
    widths: &[u32],
) -> Result<(), NoMemory>
    ensures { OnOk result (as_variables scope.new.items
        ≡ as_variables scope.old.items ++ variable t.now (new_wires number widths.now) ∷ []) }
{
    let count = count_wires(widths)?;
    let wires = parts::wires_from(alloc, number, count)?;
    push(alloc, scope, t, wires.as_slice())
}

// Puts the variable of a lambda into scope, on the wires behind these inputs.
fn push_input(
    alloc: Global,
    base: &mut Base<'_>,
    scope: &mut Vec<Variable>,
    inputs: &mut Vec<u32>,
    t: &Ty,
) -> Result<(), NoMemory>
    requires port { (ws : List ℕ) × HasParts base.old.datas Circuit t.now ws }
    ensures input { OnOk result (IsInput base.old Circuit t.now inputs.old.items inputs.new.items scope.old.items scope.new.items) }
    ensures base { base.new ≡ base.old }
{
    let widths = port_parts(alloc, base, t)?;
    let number = narrow(inputs.len())?;
    push_port(alloc, scope, t, number, &widths)?;
    push_widths(inputs, &widths)
}

// Puts the variables of the leading lambdas into scope, and gives what stands below them.
fn inputs<'t>(
    alloc: Global,
    base: &mut Base<'_>,
    scope: &mut Vec<Variable>,
    inputs: &mut Vec<u32>,
    e: &'t Term,
) -> Result<&'t Term, NoMemory>
    requires none { (scope.old.items ≡ []) × (inputs.old.items ≡ []) }
    requires ready { BodyReady base.old.datas Circuit [] e.now }
    ensures under { IfOk result (λ inner. IsUnder base.old Circuit e.now inner.now inputs.new.items scope.new.items) }
    ensures ready { IfOk result (λ inner. BlockReady base.old.datas Circuit (types_on (in_scope scope.new.items)) inner.now) }
    ensures base { base.new ≡ base.old }
{
    let mut inner = e;
    while let Head::Lam(t, body) = &inner.head {
        push_input(alloc, base, scope, inputs, t)?;
        inner = body;
    }
    Ok(inner)
}

// The module of a block behind inputs of these widths.
fn module(
    alloc: Global,
    base: &mut Base<'_>,
    scope: &mut Vec<Variable>,
    inputs: &[u32],
    e: &Term,
) -> Result<Module, NoMemory>
    requires ready { BlockReady base.old.datas Circuit (types_on (in_scope scope.old.items)) e.now }
    ensures module { IfOk result (IsModuleBelow base.old Circuit (in_scope scope.old.items) inputs.now e.now) }
    ensures base { base.new ≡ base.old }
{
    let mut into = Pieces::new(alloc, inputs)?;
    let outputs = block(alloc, base, scope, &mut into, inputs, e)?;
    let (widths, cells) = into.into_parts();
    Ok(Module {
        inputs: narrow(inputs.len())?,
        widths,
        outputs,
        cells,
    })
}

/// The module of a made definition that gives a circuit.
///
/// Where a number would pass 32 bits, the answer is want of memory.
pub fn build_circuit(alloc: Global, base: &mut Base<'_>, it: &Made) -> Result<Module, NoMemory>
    requires sort { it.now.sort ≡ Circuit }
    requires ready { ModuleReady base.old.datas it.now }
    ensures module { IfOk result (IsModuleOf base.old it.now) }
    ensures base { base.new ≡ base.old }
{
    let mut scope = Vec::new(alloc);
    let mut widths = Vec::new(alloc);
    let inner = inputs(alloc, base, &mut scope, &mut widths, &it.body)?;
    module(alloc, base, &mut scope, &widths, inner)
}
