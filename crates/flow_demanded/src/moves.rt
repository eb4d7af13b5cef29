//! Primitives that move into a letrec and into a case.
ghost use Rattle.std.specs.Prelude.{◌≡◌, ◌<◌, ◌++◌, length, IfOk};
ghost use Rattle.chw_terms.specs.TermTree.{letrec, case_of, size_of};
ghost use Rattle.chw_terms.specs.TermView.{group_of, alts_of};
ghost use Rattle.chw_typing.specs.Groups.{each_body};
ghost use Rattle.rewriting.specs.Shapes.{shift_args};
ghost use Rattle.flow_demanded.specs.Moves.{on_arg, alt_on_arg};

use crate::forms::{Case, Letrec};
use chw_base::{NoMemory, narrow};
use chw_prims::Prim;
use chw_terms::{Alt, Arg, Term};
use rule_parts::copies::{arg_under, copy_group};
use std::alloc::Global;

// These arguments, and behind them others under so many more binders.
fn with_args_under(
    alloc: Global,
    done: Vec<Arg>,
    args: &[Arg],
    binders: u32,
) -> Result<Vec<Arg>, NoMemory>
    ensures { IfOk result (λ all. all.items ≡ done.items ++ shift_args args.now 0 binders) }
{
    let mut done = done;
    for arg in args {
        done.push(arg_under(alloc, arg, binders)?)?;
    }
    Ok(done)
}

// The primitive on its arguments under so many more binders, with this term, which stands there, in place of the one of this number.
fn with_arg_at(
    alloc: Global,
    which: Prim,
    args: &[Arg],
    at: usize,
    binders: u32,
    arg: &Term,
) -> Result<Term, NoMemory>
    requires { at < length args.now }
    ensures { IfOk result (λ e. e ≡ on_arg which args.now at binders arg.now) }
{
    let mut given = with_args_under(alloc, Vec::new(alloc), &args[..at], binders)?;
    given.push(Arg::OfTerm(arg.copy(alloc)?))?;
    let given = with_args_under(alloc, given, &args[at + 1..], binders)?;
    Term::prim_of(alloc, which).applied(given)
}

/// The primitive moves into the letrec that is its argument of this number.
pub(crate) fn into_letrec(
    alloc: Global,
    which: Prim,
    args: &[Arg],
    at: usize,
    of: &Letrec<'_>,
) -> Result<Term, NoMemory>
    requires { at < length args.now }
    ensures { IfOk result (λ e. e ≡ letrec (group_of of.now.group.now) (on_arg which args.now at (size_of (group_of of.now.group.now)) of.now.body.now)) }
{
    let binders = narrow(of.group.len())?;
    let body = with_arg_at(alloc, which, args, at, binders, of.body)?;
    let group = copy_group(alloc, of.group)?;
    Term::letrec(alloc, group, body)
}

// An alternative into which the primitive moved.
fn alt_with_arg_at(
    alloc: Global,
    which: Prim,
    args: &[Arg],
    at: usize,
    alt: &Alt,
) -> Result<Alt, NoMemory>
    requires { at < length args.now }
    ensures { IfOk result (λ made. made ≡ alt_on_arg which args.now at alt.now) }
{
    let pattern = alt.pattern.copy(alloc)?;
    let body = with_arg_at(alloc, which, args, at, alt.pattern.binders(), &alt.body)?;
    Ok(Alt { pattern, body })
}

/// The primitive moves into each alternative of the case that is its argument of this number.
pub(crate) fn into_case(
    alloc: Global,
    which: Prim,
    args: &[Arg],
    at: usize,
    of: &Case<'_>,
) -> Result<Term, NoMemory>
    requires { at < length args.now }
    ensures { IfOk result (λ e. e ≡ case_of of.now.on.now (each_body (λ n f. on_arg which args.now at n f) (alts_of of.now.alts.now))) }
{
    let mut done = Vec::new(alloc);
    for alt in of.alts {
        done.push(alt_with_arg_at(alloc, which, args, at, alt)?)?;
    }
    let on = of.on.copy(alloc)?;
    Term::case(alloc, on, done)
}
