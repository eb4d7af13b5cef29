//! The arguments of a constructor: types, then terms.
ghost use Rattle.std.specs.Prelude.{◌≡◌, map, IfOk};
ghost use Rattle.std.specs.Bool.{Decides};
ghost use Rattle.std.specs.List.{AllByRecursion};
ghost use Rattle.chw_terms.specs.TermMoves.{shift};
ghost use Rattle.flow_cases.specs.Given.{AreJust, IsTerm, IsType, terms_in, types_in};

use chw_base::{NoMemory, VarIx};
use chw_terms::{Arg, Term, shift};
use chw_types::Ty;
use std::alloc::Global;

fn is_type(arg: &Arg) -> bool
    ensures { Decides result (IsType arg.now) }
{
    matches!(arg, Arg::OfType(_))
}

fn is_term(arg: &Arg) -> bool
    ensures { Decides result (IsTerm arg.now) }
{
    matches!(arg, Arg::OfTerm(_))
}

fn are_types(args: &[Arg]) -> bool
    ensures { Decides result (AllByRecursion IsType args.now) }
{
    args.iter().all(|arg| is_type(arg))
}

fn are_terms(args: &[Arg]) -> bool
    ensures { Decides result (AllByRecursion IsTerm args.now) }
{
    args.iter().all(|arg| is_term(arg))
}

/// Whether the arguments are exactly so many types and then so many terms.
pub(crate) fn are_just(args: &[Arg], types: usize, terms: usize) -> bool
    ensures { Decides result (AreJust types terms args.now) }
{
    if args.len() < types {
        return false;
    }
    let (front, back) = args.split_at(types);
    if back.len() != terms || !are_types(front) {
        return false;
    }
    are_terms(back)
}

/// The types among the arguments.
pub(crate) fn types_in(alloc: Global, args: &[Arg]) -> Result<Vec<Ty>, NoMemory>
    ensures { IfOk result (λ ts. ts.items ≡ types_in args.now) }
{
    let mut types = Vec::new(alloc);
    for arg in args {
        match arg {
            Arg::OfType(ty) => types.push(ty.copy(alloc)?)?,
            Arg::OfTerm(_) => {}
        }
    }
    Ok(types)
}

/// The terms among the arguments under so many more binders.
pub(crate) fn terms_under(alloc: Global, args: &[Arg], by: u32) -> Result<Vec<Term>, NoMemory>
    ensures { IfOk result (λ es. es.items ≡ map (λ e. shift e 0 by) (terms_in args.now)) }
{
    let mut terms = Vec::new(alloc);
    for arg in args {
        match arg {
            Arg::OfType(_) => {}
            Arg::OfTerm(e) => terms.push(shift(alloc, e, VarIx { number: 0 }, by)?)?,
        }
    }
    Ok(terms)
}
