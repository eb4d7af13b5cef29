//! Primitives on variables.
ghost use Rattle.std.specs.Prelude.{◌↔◌, ◌⊎◌, IsTrue};
ghost use Rattle.chw_prims.specs.Schemas.{row_of};
ghost use Rattle.quiet_sides.specs.Quiet.{IsContent, IsPlainArgument, IsPlainRow};
ghost use Rattle.quiet_sides.specs.Tests.{IfTerm, ArePlain, IsLifting};

use crate::lifted::is_lifting;
use crate::names::is_variable;
use crate::written::is_written;
use chw_prims::{Prim, Row};
use chw_terms::{Arg, Term};

// Whether no rule writes the primitive out or joins it with others.
fn is_plain(which: Prim) -> bool
    ensures { IsTrue result ↔ IsPlainRow (row_of which) }
{
    match Row::of(which) {
        Row::Binary(_) | Row::WideSum(_) | Row::WideProduct(_) | Row::Unary(_) => true,
        Row::Shift(_) | Row::Compare(_) | Row::Extend(_) | Row::Truncate(_) => true,
        Row::Cut | Row::Joined | Row::Reduce | Row::Packed(_) | Row::Unpacked(_) => true,
        Row::Element(_) | Row::Constant | Row::Delay | Row::Memory | Row::Crossing => true,
        _ => false,
    }
}

// Whether a primitive's argument of this number is its content at the beginning.
fn is_content(which: Prim, number: usize) -> bool
    ensures { IsTrue result ↔ IsContent which number }
{
    match which {
        Prim::Pure | Prim::Register => number == 2,
        Prim::BlockRam => number == 4,
        _ => false,
    }
}

// Whether a primitive may have the term as its argument of this number.
fn is_plain_term(which: Prim, number: usize, term: &Term) -> bool
    ensures { IsTrue result ↔ IsPlainArgument which number term.now }
{
    is_variable(term) || is_content(which, number) && is_written(term)
}

fn is_plain_argument(which: Prim, number: usize, arg: &Arg) -> bool
    ensures { IsTrue result ↔ IfTerm (IsPlainArgument which number) arg.now }
{
    match arg {
        Arg::OfTerm(e) => is_plain_term(which, number, e),
        Arg::OfType(_) => true,
    }
}

fn are_plain(which: Prim, args: &[Arg]) -> bool
    ensures { IsTrue result ↔ ArePlain which args.now }
{
    for (i, arg) in args.iter().enumerate() {
        if !is_plain_argument(which, i, arg) {
            return false;
        }
    }
    true
}

/// Whether a primitive at these arguments is quiet.
pub(crate) fn is_quiet_prim(which: Prim, args: &[Arg]) -> bool
    ensures { IsTrue result ↔ (IsLifting which args.now ⊎ (IsPlainRow (row_of which) × ArePlain which args.now)) }
{
    is_lifting(which, args) || is_plain(which) && are_plain(which, args)
}
