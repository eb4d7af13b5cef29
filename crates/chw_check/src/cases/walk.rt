//! The first case of a term that leaves out what is sought.
ghost use Rattle.std.specs.Prelude.{IfOk};
ghost use Rattle.chw_terms.specs.TermView.{tree_of};
ghost use Rattle.chw_check.specs.CasesFound.{IsFound, IsFoundInArg};

use crate::cases::alternatives::left_out;
use crate::cases::lacks::{Lacks, Sought};
use chw_base::NoMemory;
use chw_terms::{Arg, Head, Term};
use con_places::Constructors;
use std::alloc::Global;

/// What the first case of the term that leaves out what is sought leaves out: an outer case comes before those in it, and else the order is
/// that of the text.
#[cycle(first_in)]
pub(crate) fn first_in(
    alloc: Global,
    constructors: &Constructors<'_>,
    sought: Sought,
    t: &Term,
) -> Result<Option<Lacks>, NoMemory>
    ensures { IfOk result (IsFound constructors.now sought t.now) }
{
    if let Some(lacks) = first_in_head(alloc, constructors, sought, &t.head)? {
        return Ok(Some(lacks));
    }
    for arg in &t.args {
        if let Some(lacks) = first_in_arg(alloc, constructors, sought, arg)? {
            return Ok(Some(lacks));
        }
    }
    Ok(None)
}

#[cycle(first_in)]
fn first_in_arg(
    alloc: Global,
    constructors: &Constructors<'_>,
    sought: Sought,
    arg: &Arg,
) -> Result<Option<Lacks>, NoMemory>
    ensures { IfOk result (IsFoundInArg constructors.now sought arg.now) }
{
    match arg {
        Arg::OfTerm(e) => first_in(alloc, constructors, sought, e),
        Arg::OfType(_) => Ok(None),
    }
}

#[cycle(first_in)]
fn first_in_head(
    alloc: Global,
    constructors: &Constructors<'_>,
    sought: Sought,
    head: &Head,
) -> Result<Option<Lacks>, NoMemory>
    ensures { IfOk result (IsFound constructors.now sought (tree_of head.now)) }
{
    match head {
        Head::Var(_) | Head::Global(_) | Head::Made(_) => Ok(None),
        Head::Con(_) | Head::PrimOf(_) | Head::Lit(_, _) => Ok(None),
        Head::Lam(_, body) | Head::TyLam(_, body) => first_in(alloc, constructors, sought, body),
        Head::LetRec(bindings, body) => {
            for binding in bindings {
                if let Some(lacks) = first_in(alloc, constructors, sought, &binding.body)? {
                    return Ok(Some(lacks));
                }
            }
            first_in(alloc, constructors, sought, body)
        }
        Head::VecLit(_, elements) => {
            for element in elements {
                if let Some(lacks) = first_in(alloc, constructors, sought, element)? {
                    return Ok(Some(lacks));
                }
            }
            Ok(None)
        }
        Head::Case(on, alts) => {
            if let Some(lacks) = left_out(alloc, constructors, sought, alts)? {
                return Ok(Some(lacks));
            }
            if let Some(lacks) = first_in(alloc, constructors, sought, on)? {
                return Ok(Some(lacks));
            }
            for alternative in alts {
                if let Some(lacks) = first_in(alloc, constructors, sought, &alternative.body)? {
                    return Ok(Some(lacks));
                }
            }
            Ok(None)
        }
    }
}
