//! Variables as terms, arguments and elements.
ghost use Rattle.std.specs.Prelude.{◌≡◌, ◌↔◌, [], IsTrue};
ghost use Rattle.rewriting.specs.Shapes.{IsVariable};
ghost use Rattle.quiet_sides.specs.Tests.{IfTerm, AreNames, EachVariable};

use chw_terms::{Arg, Head, Term};

/// Whether there are no arguments.
pub(crate) fn are_none(args: &[Arg]) -> bool
    ensures { IsTrue result ↔ (args.now ≡ []) }
{
    args.is_empty()
}

/// Whether a term is a variable.
pub(crate) fn is_variable(term: &Term) -> bool
    ensures { IsTrue result ↔ IsVariable term.now }
{
    match &term.head {
        Head::Var(_) => are_none(&term.args),
        _ => false,
    }
}

// Whether an argument is a variable, or a type.
fn is_name(arg: &Arg) -> bool
    ensures { IsTrue result ↔ IfTerm IsVariable arg.now }
{
    match arg {
        Arg::OfTerm(e) => is_variable(e),
        Arg::OfType(_) => true,
    }
}

/// Whether the terms among the arguments are variables.
pub(crate) fn are_names(args: &[Arg]) -> bool
    ensures { IsTrue result ↔ AreNames args.now }
{
    for arg in args {
        if !is_name(arg) {
            return false;
        }
    }
    true
}

/// Whether the elements are variables.
pub(crate) fn are_variables(elements: &[Term]) -> bool
    ensures { IsTrue result ↔ EachVariable elements.now }
{
    for element in elements {
        if !is_variable(element) {
            return false;
        }
    }
    true
}
