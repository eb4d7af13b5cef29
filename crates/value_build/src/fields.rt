//! The fields of patterns: their types, their widths, and their variables.
ghost use Rattle.std.specs.Prelude.{◌≡◌, ◌++◌, map, length, IfOk, OnOk};
ghost use Rattle.chw_types.specs.Arguments.{arguments};
ghost use Rattle.chw_types.specs.TypeMoves.{sub};
ghost use Rattle.chw_types.specs.TypeView.{trees_of};
ghost use Rattle.chw_typing.specs.HeadTypes.{PatternOf};
ghost use Rattle.net_built.specs.Data.{HaveWidths, variables_from};
ghost use Rattle.chw_terms.specs.declared.term.Pattern.TheVariants.{OfCon};
ghost use Rattle.value_build.specs.Alternatives.{AreFields, IsBound};
ghost use Rattle.value_build.specs.InScope.{as_variable, as_variables};
ghost use Rattle.value_build.specs.ReadyParts.{AreMeasured, IsPattern, PatternReady};

use crate::base::Base;
use crate::scope::{Variable, push_part};
use chw_base::{ConId, NoMemory};
use chw_terms::Pattern;
use chw_types::{Ty, TyNode, put_arguments};
use net_pieces::{Pieces, data, parts};
use std::alloc::Global;

// These fields with the arguments put in.
fn fields_put(alloc: Global, fields: &[Ty], args: &[Ty]) -> Result<Vec<Ty>, NoMemory>
    ensures { IfOk result (λ ts. ts.items ≡ map (λ f. sub f (arguments (trees_of args.now))) fields.now) }
{
    let mut done = Vec::new(alloc);
    for field in fields {
        done.push(put_arguments(alloc, field, args)?)?;
    }
    Ok(done)
}

// The fields of a constructor, whose pattern is one for values of this type.
fn constructor_fields(
    alloc: Global,
    base: &Base<'_>,
    ty: &Ty,
    at: ConId,
    names: u32,
) -> Result<Vec<Ty>, NoMemory>
    requires { IsPattern base.now.datas ty.now (OfCon at names) }
    ensures { IfOk result (λ ts. PatternOf base.now.datas ty.now (OfCon at names) ts.items) }
{
    let Some(it) = base.constructor(at) else {
        unreachable!();
    };
    let TyNode::DataOf(_, args) = &ty.node else {
        unreachable!();
    };
    fields_put(alloc, it.decl.fields.as_slice(), args)
}

/// The types of the variables that a pattern for values of this type binds.
pub fn pattern_fields(
    alloc: Global,
    base: &Base<'_>,
    ty: &Ty,
    q: &Pattern,
) -> Result<Vec<Ty>, NoMemory>
    requires { IsPattern base.now.datas ty.now q.now }
    ensures { IfOk result (λ ts. PatternOf base.now.datas ty.now q.now ts.items) }
{
    match q {
        Pattern::OfCon(at, names) => constructor_fields(alloc, base, ty, *at, *names),
        Pattern::OfLit(_, _) => Ok(Vec::new(alloc)),
        Pattern::Default => Ok(Vec::new(alloc)),
    }
}

/// The widths of types.
pub(crate) fn widths_of(
    alloc: Global,
    base: &mut Base<'_>,
    types: &[Ty],
) -> Result<Vec<u32>, NoMemory>
    requires { AreMeasured base.old.datas types.now }
    ensures widths { IfOk result (λ ws. HaveWidths base.old.datas types.now ws.items) }
    ensures same { base.new ≡ base.old }
{
    let mut widths = Vec::new(alloc);
    for t in types {
        widths.push(base.width(alloc, t)?)?;
    }
    Ok(widths)
}

/// Puts variables of these types, which have parts of these widths, into scope, on wires from a number on.
pub(crate) fn enter_fields(
    alloc: Global,
    scope: &mut Vec<Variable>,
    first: u32,
    types: &[Ty],
    widths: &[u32],
) -> Result<(), NoMemory>
    requires { length types.now ≡ length widths.now }
    ensures { OnOk result (as_variables scope.new.items
        ≡ as_variables scope.old.items ++ variables_from first types.now widths.now) }
{
    let mut number = first;
    for (i, t) in types.iter().enumerate() {
        push_part(alloc, scope, t, number, widths[i])?;
        number = parts::sum(number, widths[i].min(1))?;
    }
    Ok(())
}

/// The fields of a pattern for values of a variable: cut out of it, and in scope.
pub(crate) fn bind_fields(
    alloc: Global,
    base: &mut Base<'_>,
    scope: &mut Vec<Variable>,
    into: &mut Pieces,
    it: &Variable,
    below: u32,
    q: &Pattern,
) -> Result<(), NoMemory>
    requires { PatternReady base.old.datas it.now.ty q.now }
    ensures bound { OnOk result (IsBound base.old (as_variable it.now) below q.now into.old into.new (as_variables scope.old.items) (as_variables scope.new.items)) }
    ensures base { base.new ≡ base.old }
{
    let types = pattern_fields(alloc, base, &it.ty, q)?;
    let bound = cut_fields(alloc, base, scope, into, it, below, &types);
    drop(types);
    bound
}

// Fields of these types: cut out of a variable, and in scope.
fn cut_fields(
    alloc: Global,
    base: &mut Base<'_>,
    scope: &mut Vec<Variable>,
    into: &mut Pieces,
    it: &Variable,
    below: u32,
    types: &[Ty],
) -> Result<(), NoMemory>
    requires { AreMeasured base.old.datas types.now }
    ensures bound { OnOk result (AreFields base.old (as_variable it.now) below types.now into.old into.new (as_variables scope.old.items) (as_variables scope.new.items)) }
    ensures base { base.new ≡ base.old }
{
    let widths = widths_of(alloc, base, types)?;
    let first = into.next();
    data::field_cuts(into, below, it.wires.as_slice(), &widths)?;
    enter_fields(alloc, scope, first, types, &widths)
}
