//! Made definitions that are lifted on signals.
ghost use Rattle.std.specs.Prelude.{◌↔◌, IsTrue};
ghost use Rattle.rewriting.specs.Shapes.{IsMade};
ghost use Rattle.quiet_sides.specs.Quiet.{IsLifted};
ghost use Rattle.quiet_sides.specs.Tests.{LiftsOn, IsLifting};

use crate::names::{are_none, is_variable};
use chw_prims::Prim;
use chw_terms::{Arg, Head, Term};

// Whether a term is a made definition.
fn is_made(term: &Term) -> bool
    ensures { IsTrue result ↔ IsMade term.now }
{
    match &term.head {
        Head::Made(_) => are_none(&term.args),
        _ => false,
    }
}

// Whether these arguments of `fmap` are a made definition and a variable.
fn lifts_made(args: &[Arg]) -> bool
    ensures { IsTrue result ↔ LiftsOn IsMade args.now }
{
    match args {
        [
            Arg::OfType(_),
            Arg::OfType(_),
            Arg::OfType(_),
            Arg::OfTerm(function),
            Arg::OfTerm(signal),
        ] => { is_made(function) && is_variable(signal) }
        _ => false,
    }
}

// Whether these arguments of `ap` are a lifted definition and a variable.
#[cycle(lifted)]
fn lifts_lifted(args: &[Arg]) -> bool
    ensures { IsTrue result ↔ LiftsOn IsLifted args.now }
{
    match args {
        [
            Arg::OfType(_),
            Arg::OfType(_),
            Arg::OfType(_),
            Arg::OfTerm(function),
            Arg::OfTerm(signal),
        ] => { is_lifted(function) && is_variable(signal) }
        _ => false,
    }
}

/// Whether a primitive at these arguments lifts a made definition on variables.
#[cycle(lifted)]
pub(crate) fn is_lifting(which: Prim, args: &[Arg]) -> bool
    ensures { IsTrue result ↔ IsLifting which args.now }
{
    match which {
        Prim::Fmap => lifts_made(args),
        Prim::Ap => lifts_lifted(args),
        _ => false,
    }
}

// Whether a term lifts a made definition on variables.
#[cycle(lifted)]
fn is_lifted(term: &Term) -> bool
    ensures { IsTrue result ↔ IsLifted term.now }
{
    match &term.head {
        Head::PrimOf(which) => is_lifting(*which, &term.args),
        _ => false,
    }
}
