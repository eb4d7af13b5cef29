//! The types of a program's inputs.
ghost use Rattle.std.specs.Prelude.{◌≡◌, ◌∷◌, [], IfOk, OnOk};
ghost use Rattle.chw_types.specs.References.{HasNoCycle};
ghost use Rattle.chw_layout.specs.Measured.{HasWidth};
ghost use Rattle.answers.specs.SimAnswer.Types.{AddsPort, AddsTypes, AreInputs, AreMeasured, AreParameters, IsMeasured, IsMeasuredPort, IsPorted, LeadsFromMeasured};

use chw_base::{NoMemory, Or};
use chw_terms::Program;
use chw_types::{Ty, TyNode};
use std::alloc::Global;
use type_ports::{Leaf, leaves};
use type_widths::Widths;

/// The width of a type that has one.
fn width_of(alloc: Global, t: &Ty, widths: &mut Widths<'_>) -> Result<u32, NoMemory>
    requires measured { IsMeasured widths.old t.now }
    ensures width { IfOk result (HasWidth widths.old t.now) }
    ensures same { widths.new ≡ widths.old }
{
    match widths.width(alloc, t) {
        Ok(width) => Ok(width),
        Err(Or::Memory) => Err(NoMemory),
        Err(Or::Fault(_)) => unreachable!(),
    }
}

/// Appends the type of a leaf whose width isn't 0.
fn put_type(
    alloc: Global,
    leaf: &Leaf,
    widths: &mut Widths<'_>,
    types: &mut Vec<Ty>,
) -> Result<(), NoMemory>
    requires measured { IsMeasured widths.old leaf.now.payload }
    ensures put { OnOk result
        (AddsTypes widths.old (leaf.now ∷ []) types.old.items types.new.items) }
    ensures same { widths.new ≡ widths.old }
{
    let width = width_of(alloc, &leaf.payload, widths)?;
    if width == 0 {
        return Ok(());
    }
    types.push(leaf.payload.copy(alloc)?)?;
    Ok(())
}

/// Appends the types of those of the leaves whose width isn't 0.
fn put_types(
    alloc: Global,
    leaves: &[Leaf],
    widths: &mut Widths<'_>,
    types: &mut Vec<Ty>,
) -> Result<(), NoMemory>
    requires measured { AreMeasured widths.old leaves.now }
    ensures put { OnOk result (AddsTypes widths.old leaves.now types.old.items types.new.items) }
    ensures same { widths.new ≡ widths.old }
{
    for leaf in leaves {
        put_type(alloc, leaf, widths, types)?;
    }
    Ok(())
}

/// Appends the types of a port's leaves.
fn put_port(
    alloc: Global,
    t: &Ty,
    widths: &mut Widths<'_>,
    types: &mut Vec<Ty>,
) -> Result<(), NoMemory>
    requires port { IsMeasuredPort widths.old t.now }
    ensures put { OnOk result (AddsPort widths.old t.now types.old.items types.new.items) }
    ensures same { widths.new ≡ widths.old }
{
    let Some(leaves) = leaves(alloc, t, widths.datas())? else {
        unreachable!();
    };
    let put = put_types(alloc, &leaves, widths, types);
    drop(leaves);
    put
}

/// The types of what a type leads from.
fn parameters(alloc: Global, t: &Ty, widths: &mut Widths<'_>) -> Result<Vec<Ty>, NoMemory>
    requires leads { LeadsFromMeasured widths.old t.now }
    ensures { IfOk result (λ types. AreParameters widths.old t.now types.items) }
{
    let mut types = Vec::new(alloc);
    let mut rest = t;
    while let TyNode::Fun(from, to) = &rest.node {
        put_port(alloc, from, widths, &mut types)?;
        rest = to;
    }
    Ok(types)
}

/// The types of the values at a program's inputs.
pub(crate) fn input_types(alloc: Global, program: &Program) -> Result<Vec<Ty>, NoMemory>
    requires order { HasNoCycle program.now.datas }
    requires ports { IsPorted program.now }
    ensures { IfOk result (λ types. AreInputs program.now types.items) }
{
    let Some(it) = program.defs.as_slice().get(program.top.def.number as usize) else {
        unreachable!();
    };
    let mut widths = Widths::of(alloc, program.datas.as_slice());
    let types = parameters(alloc, &it.ty, &mut widths);
    drop(widths);
    types
}
