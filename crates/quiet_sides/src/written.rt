//! Constants that are written out.
ghost use Rattle.std.specs.Prelude.{◌≡◌, ◌↔◌, [], IsTrue};
ghost use Rattle.quiet_sides.specs.Quiet.{IsWritten};
ghost use Rattle.quiet_sides.specs.Tests.{IfTerm, AreWritten, EachWritten, WrittenHead};

use crate::names::are_none;
use chw_terms::{Arg, Head, Term};

/// Whether a term is a constant that is written out: a literal, or a constructor or a vector of such constants.
#[cycle(written)]
pub(crate) fn is_written(term: &Term) -> bool
    ensures { IsTrue result ↔ IsWritten term.now }
{
    is_written_head(&term.head, &term.args)
}

#[cycle(written)]
fn is_written_head(head: &Head, args: &[Arg]) -> bool
    ensures { IsTrue result ↔ WrittenHead head.now args.now }
{
    match head {
        Head::Lit(_, _) => are_none(args),
        Head::Con(_) => are_written(args),
        Head::VecLit(_, elements) => are_none(args) && each_is_written(elements),
        _ => false,
    }
}

// Whether an argument is such a constant, or a type.
#[cycle(written)]
fn is_written_argument(arg: &Arg) -> bool
    ensures { IsTrue result ↔ IfTerm IsWritten arg.now }
{
    match arg {
        Arg::OfTerm(e) => is_written(e),
        Arg::OfType(_) => true,
    }
}

#[cycle(written)]
fn are_written(args: &[Arg]) -> bool
    ensures { IsTrue result ↔ AreWritten args.now }
{
    for arg in args {
        if !is_written_argument(arg) {
            return false;
        }
    }
    true
}

#[cycle(written)]
fn each_is_written(elements: &[Term]) -> bool
    ensures { IsTrue result ↔ EachWritten elements.now }
{
    for element in elements {
        if !is_written(element) {
            return false;
        }
    }
    true
}
