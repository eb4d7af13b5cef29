//! The arguments of heads: their wires, their types, and the naturals among these.
ghost use Rattle.std.specs.Prelude.{◌≡◌, ◌++◌, ◌∷◌, [], map, slice_index, IfOk, OnOk};
ghost use Rattle.chw_layout.specs.Measured.{closed_value};
ghost use Rattle.net_built.specs.Bodies.{operand_at};
ghost use Rattle.net_built.specs.Terms.{wires_of_all};
ghost use Rattle.value_build.specs.Arguments.{terms_in, types_in};
ghost use Rattle.value_build.specs.InScope.{in_scope};

use crate::scope::{Variable, wires_at, wires_of};
use chw_base::{NoMemory, Seq, VarIx, WireId};
use chw_terms::{Arg, Term};
use chw_types::{Ty, TyNode};
use std::alloc::Global;

/// The wires of the term of this number among arguments. Where there is none it is variable 0.
pub(crate) fn operand_at<'s>(scope: &'s [Variable], args: &[Arg], number: usize) -> &'s [WireId]
    ensures { result.now ≡ operand_at (in_scope scope.now) (terms_in args.now) number }
{
    let mut left = number;
    for arg in args {
        let Arg::OfTerm(e) = arg else {
            continue;
        };
        if left == 0 {
            return wires_of(scope, e);
        }
        left -= 1;
    }
    wires_at(scope, VarIx { number: 0 })
}

// Adds the wires of an argument that is a term.
fn add_operand(scope: &[Variable], arg: &Arg, wires: &mut Vec<WireId>) -> Result<(), NoMemory>
    ensures { OnOk result (wires.new.items
        ≡ wires.old.items ++ wires_of_all (in_scope scope.now) (terms_in (arg.now ∷ []))) }
{
    match arg {
        Arg::OfTerm(e) => {
            wires.extend_from_slice(wires_of(scope, e))?;
            Ok(())
        }
        Arg::OfType(_) => Ok(()),
    }
}

/// The wires of all terms among arguments.
pub fn operand_wires(
    alloc: Global,
    scope: &[Variable],
    args: &[Arg],
) -> Result<Vec<WireId>, NoMemory>
    ensures { IfOk result (λ wires. wires.items ≡ wires_of_all (in_scope scope.now) (terms_in args.now)) }
{
    let mut wires = Vec::new(alloc);
    for arg in args {
        add_operand(scope, arg, &mut wires)?;
    }
    Ok(wires)
}

/// The wires of terms.
pub(crate) fn element_wires(
    alloc: Global,
    scope: &[Variable],
    elements: &[Term],
) -> Result<Vec<WireId>, NoMemory>
    ensures { IfOk result (λ wires. wires.items ≡ wires_of_all (in_scope scope.now) elements.now) }
{
    let mut wires = Vec::new(alloc);
    for e in elements {
        wires.extend_from_slice(wires_of(scope, e))?;
    }
    Ok(wires)
}

// Adds an argument that is a type.
fn add_type(alloc: Global, arg: &Arg, types: &mut Vec<Ty>) -> Result<(), NoMemory>
    ensures { OnOk result (types.new.items ≡ types.old.items ++ types_in (arg.now ∷ [])) }
{
    match arg {
        Arg::OfType(t) => {
            types.push(t.copy(alloc)?)?;
            Ok(())
        }
        Arg::OfTerm(_) => Ok(()),
    }
}

/// The types among arguments.
pub(crate) fn types(alloc: Global, args: &[Arg]) -> Result<Vec<Ty>, NoMemory>
    ensures { IfOk result (λ ts. ts.items ≡ types_in args.now) }
{
    let mut types = Vec::new(alloc);
    for arg in args {
        add_type(alloc, arg, &mut types)?;
    }
    Ok(types)
}

/// The natural that the type of this number among arguments means. Where there is none it is 0.
pub(crate) fn number_at(args: &[Arg], number: usize) -> u32
    ensures { result ≡ slice_index (map closed_value (types_in args.now)) number }
{
    let mut left = number;
    for arg in args {
        let Arg::OfType(t) = arg else {
            continue;
        };
        if left == 0 {
            return closed_number(t);
        }
        left -= 1;
    }
    0
}

/// The natural that a closed type means, where sums and products end at 4,294,967,295; 0 where it is none.
#[tactic(auto, unfolding(chw_types::specs::SamePromises::natural_value))]
pub fn closed_number(t: &Ty) -> u32
    ensures { result ≡ closed_value t.now }
{
    match &t.node {
        TyNode::NatLit(n) => *n,
        TyNode::Sum(a, b) => closed_number(a).saturating_add(closed_number(b)),
        TyNode::Times(a, b) => closed_number(a).saturating_mul(closed_number(b)),
        _ => 0,
    }
}
