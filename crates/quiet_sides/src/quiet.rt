//! Whether a right side is quiet.
ghost use Rattle.std.specs.Prelude.{◌↔◌, IsTrue};
ghost use Rattle.quiet_sides.specs.Quiet.{IsQuiet};
ghost use Rattle.quiet_sides.specs.Tests.{QuietHead};

use crate::choices::are_quiet;
use crate::names::{are_names, are_none, are_variables, is_variable};
use crate::prims::is_quiet_prim;
use chw_terms::{Arg, Head, Term};

// Whether the head at these arguments is a quiet term.
fn is_quiet_head(head: &Head, args: &[Arg]) -> bool
    ensures { IsTrue result ↔ QuietHead head.now args.now }
{
    match head {
        Head::Var(_) | Head::Lit(_, _) => are_none(args),
        Head::Made(_) | Head::Con(_) => are_names(args),
        Head::PrimOf(which) => is_quiet_prim(*which, args),
        Head::VecLit(_, elements) => are_none(args) && are_variables(elements),
        Head::Case(on, alts) => are_none(args) && is_variable(on) && are_quiet(alts),
        Head::Global(_) | Head::Lam(_, _) | Head::TyLam(_, _) | Head::LetRec(_, _) => false,
    }
}

/// Whether a term is quiet: as a right side it has no step, at its own place or below it. The test takes no memory, and looks at no type.
pub fn is_quiet(term: &Term) -> bool
    ensures { IsTrue result ↔ IsQuiet term.now }
{
    is_quiet_head(&term.head, &term.args)
}
