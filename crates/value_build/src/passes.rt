//! Passes over the block of a value.
//!
//! What one finds is known to the next, until one finds what is known.
ghost use Rattle.std.specs.Prelude.{◌≡◌, IfOk, OnOk};
ghost use Rattle.chw_terms.specs.declared.scene.Sort.TheVariants.{Value};
ghost use Rattle.net_built.specs.Loops.{HasNoLoops};
ghost use Rattle.net_ready.specs.Ready.{types_on, BlockReady};
ghost use Rattle.value_build.specs.Bodies.{IsModuleBelow};
ghost use Rattle.value_build.specs.InScope.{in_scope};
ghost use Rattle.value_build.specs.Passing.{IsPass};

use crate::base::Base;
use crate::blocks::block;
use crate::drafts::{Draft, Letrecs, are_found};
use crate::scope::Variable;
use chw_base::{NoMemory, Seq, WireId, narrow};
use chw_terms::Term;
use net_pieces::{Pieces, parts};
use net_ready::laws::{passes_are_few, settled_drafts_are_built};
use netlist::Module;
use std::alloc::Global;

/// What a pass gives: the module, or the wires of letrecs' bindings, where others were known.
#[derive(Drop)]
pub(crate) enum Pass {
    Settled(Module),
    Changed(Letrecs),
}

// A pass over a block behind inputs of these widths.
fn next_pass(
    alloc: Global,
    base: &mut Base<'_>,
    scope: &mut Vec<Variable>,
    inputs: &[u32],
    known: &[Seq<Seq<WireId>>],
    e: &Term,
) -> Result<Pass, NoMemory>
    requires { BlockReady base.old.datas Value (types_on (in_scope scope.old.items)) e.now }
    ensures pass { IfOk result
        (IsPass base.old known.now (in_scope scope.old.items) inputs.now e.now) }
    ensures scope { OnOk result (scope.new.items ≡ scope.old.items) }
    ensures base { base.new ≡ base.old }
{
    settled_drafts_are_built();
    let count = narrow(inputs.len())?;
    let into = Pieces::new(alloc, inputs)?;
    let found = Vec::new(alloc);
    let mut draft = Draft { into, found };
    let outputs = block(alloc, base, known, scope, &mut draft, e)?;
    if !are_found(known, &draft.found) {
        return Ok(Pass::Changed(draft.found));
    }
    let (widths, cells) = draft.into.into_parts();
    Ok(Pass::Settled(Module {
        inputs: count,
        widths,
        outputs,
        cells,
    }))
}

/// The module of a block behind inputs of these widths.
///
/// A binding that gives the wires of one behind it takes one more pass.
/// There are at most as many passes as bindings, and two more.
pub(crate) fn module(
    alloc: Global,
    base: &mut Base<'_>,
    scope: &mut Vec<Variable>,
    inputs: &[u32],
    e: &Term,
) -> Result<Module, NoMemory>
    requires ready { BlockReady base.old.datas Value (types_on (in_scope scope.old.items)) e.now }
    requires free { HasNoLoops e.now }
    ensures module { IfOk result
        (IsModuleBelow base.old Value (in_scope scope.old.items) inputs.now e.now) }
    ensures base { base.new ≡ base.old }
{
    passes_are_few();
    let mut known = Vec::new(alloc);
    let mut passes = 0;
    loop {
        passes = parts::sum(passes, 1)?;
        match next_pass(alloc, base, scope, inputs, &known, e)? {
            Pass::Settled(built) => return Ok(built),
            Pass::Changed(found) => known = found,
        }
    }
}
