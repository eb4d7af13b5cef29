//! Unrolling.
ghost use Rattle.std.specs.Prelude.{◌≡◌, ◌++◌, length, map, Some, IfOk, OnOk};
ghost use Rattle.std.specs.List.{zip};
ghost use Rattle.chw_prims.specs.Schemas.{row_of, schema_type};
ghost use Rattle.chw_terms.specs.TermView.{group_of};
ghost use Rattle.chw_terms.specs.TermMoves.{shift};
ghost use Rattle.chw_terms.specs.Evaluated.{evaluated};
ghost use Rattle.chw_terms.specs.Unrolled.{CanUnroll, unrolled, named, binding, parameters, at_types};
ghost use Rattle.prim_vec.specs.Bodies.{HasBody, IsBody};

use crate::conditions::at_types;
use crate::sizes::all_evaluated;
use crate::{choices, folds, maps, moves};
use chw_base::{NoMemory, VarIx};
use chw_prims::{Prim, Row, schema};
use chw_terms::term::Binding;
use chw_terms::{Term, shift};
use chw_types::{Ty, TyNode};
use std::alloc::Global;

/// The term to which a primitive at these types and on these arguments unrolls.
///
/// It binds the arguments to new names, which are not in scope in them; their types are those of the primitive's parameters. Closed
/// naturals are numerals.
pub fn unroll(alloc: Global, p: Prim, types: &[Ty], args: &[Term]) -> Result<Term, NoMemory>
    requires { CanUnroll p types.now args.now }
    ensures { IfOk result (λ e. unrolled p types.now args.now ≡ Some e) }
{
    let body = body_at(alloc, p, types)?;
    let group = named(alloc, p, types, args)?;
    Term::letrec(alloc, group, body)
}

// The body at these types.
fn body_at(alloc: Global, p: Prim, types: &[Ty]) -> Result<Term, NoMemory>
    requires { HasBody (row_of p) (map evaluated types.now) }
    ensures { IfOk result (λ e. IsBody (row_of p) (map evaluated types.now) e) }
{
    let types = all_evaluated(alloc, types)?;
    body(alloc, Row::of(p), &types)
}

// The arguments with their types.
fn named(alloc: Global, p: Prim, types: &[Ty], args: &[Term]) -> Result<Vec<Binding>, NoMemory>
    ensures { IfOk result (λ g. group_of g.items ≡ named (map (at_types types.now) (parameters (schema_type p))) (map (λ e. shift e 0 (length args.now)) args.now)) }
{
    let names = u32::try_from(args.len()).map_err(|_| NoMemory)?;
    let ty = schema(alloc, p)?;
    let mut group = Vec::new(alloc);
    bind(alloc, &ty, types, args, names, &mut group)?;
    Ok(group)
}

// Adds a binding for each argument, in a function of this type, under so many new names.
fn bind(
    alloc: Global,
    ty: &Ty,
    types: &[Ty],
    args: &[Term],
    names: u32,
    group: &mut Vec<Binding>,
) -> Result<(), NoMemory>
    ensures { OnOk result (group.new.items ≡ group.old.items ++ map binding (zip (map (at_types types.now) (parameters ty.now)) (map (λ e. shift e 0 names) args.now))) }
{
    match &ty.node {
        TyNode::Forall(_, of) => bind(alloc, of, types, args, names, group),
        TyNode::Fun(from, to) => {
            let Some((arg, more)) = args.split_first() else {
                return Ok(());
            };
            group.push(bound(alloc, from, types, arg, names)?)?;
            bind(alloc, to, types, more, names, group)
        }
        _ => Ok(()),
    }
}

// An argument bound to a new name, under so many of them, with the type of its parameter.
fn bound(
    alloc: Global,
    from: &Ty,
    types: &[Ty],
    arg: &Term,
    names: u32,
) -> Result<Binding, NoMemory>
    ensures { IfOk result (λ b. b ≡ binding (at_types types.now from.now, shift arg.now 0 names)) }
{
    let ty = at_types(alloc, from, types)?;
    let body = shift(alloc, arg, VarIx { number: 0 }, names)?;
    Ok(Binding { ty, body })
}

// The body, with the arguments as variables. Closed naturals among the types are numerals.
fn body(alloc: Global, row: Row, types: &[Ty]) -> Result<Term, NoMemory>
    requires { HasBody row types.now }
    ensures { IfOk result (λ e. IsBody row types.now e) }
{
    match row {
        Row::Mapped(kind) => maps::mapped(alloc, kind, types),
        Row::Zipped(kind) => maps::zipped(alloc, kind, types),
        Row::Generated(kind) => maps::generated(alloc, kind, types),
        Row::Replicated(kind) => maps::replicated(alloc, kind, types),
        Row::FoldedLeft(kind) => folds::folded_left(alloc, kind, types),
        Row::FoldedRight(kind) => folds::folded_right(alloc, kind, types),
        Row::Appended(kind) => moves::appended(alloc, kind, types),
        Row::Concatenated(kind) => moves::concatenated(alloc, kind, types),
        Row::Taken(kind) => moves::taken(alloc, kind, types),
        Row::Dropped(kind) => moves::dropped(alloc, kind, types),
        Row::Reversed(kind) => moves::reversed(alloc, kind, types),
        Row::Rotated(kind) => moves::rotated(alloc, kind, types),
        Row::Replaced => choices::replaced(alloc, types),
        Row::ElementAt => choices::element_at(alloc, types),
        _ => unreachable!(),
    }
}
