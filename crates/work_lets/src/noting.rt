//! The walk over a term that notes the variables which occur in it, each where it stands.
ghost use Rattle.std.specs.Prelude.{◌+◌, OnOk};
ghost use Rattle.chw_terms.specs.Occurs.{occurs};
ghost use Rattle.chw_terms.specs.Sought.{any_of, occurs_in, occurs_in_binding, occurs_in_alt};
ghost use Rattle.chw_terms.specs.TermTree.{var, letrec, case_of};
ghost use Rattle.chw_terms.specs.TermView.{tree_of, group_of, alts_of};
ghost use Rattle.work_lets.specs.Searching.{Noted, beyond};

use crate::closing::{count, deeper};
use crate::reached::{Search, note};
use chw_base::{NoMemory, VarIx};
use chw_terms::{Alt, Arg, Binding, Head, Term};

/// Notes the variables that occur in a term, which stands under so many binders, as they are called outside of these.
#[cycle(note_term)]
pub(crate) fn note_term(term: &Term, under: u32, search: &mut Search) -> Result<(), NoMemory>
    ensures { OnOk result (Noted search.old (beyond (occurs term.now) under) search.new) }
{
    note_head(&term.head, under, search)?;
    note_args(&term.args, under, search)
}

#[cycle(note_term)]
fn note_args(args: &[Arg], under: u32, search: &mut Search) -> Result<(), NoMemory>
    ensures { OnOk result (Noted search.old (beyond (any_of occurs_in args.now) under) search.new) }
{
    for arg in args {
        note_arg(arg, under, search)?;
    }
    Ok(())
}

#[cycle(note_term)]
fn note_arg(arg: &Arg, under: u32, search: &mut Search) -> Result<(), NoMemory>
    ensures { OnOk result (Noted search.old (beyond (occurs_in arg.now) under) search.new) }
{
    match arg {
        Arg::OfTerm(e) => note_term(e, under, search),
        Arg::OfType(_) => Ok(()),
    }
}

#[cycle(note_term)]
fn note_head(head: &Head, under: u32, search: &mut Search) -> Result<(), NoMemory>
    ensures { OnOk result (Noted search.old (beyond (occurs (tree_of head.now)) under) search.new) }
{
    match head {
        Head::Var(x) => note_var(*x, under, search),
        Head::Lam(_, body) => note_under(body, under, 1, search),
        Head::TyLam(_, body) => note_term(body, under, search),
        Head::LetRec(bindings, body) => note_letrec(bindings, body, under, search),
        Head::VecLit(_, elements) => note_elements(elements, under, search),
        Head::Case(on, alts) => note_case(on, alts, under, search),
        Head::Global(_) | Head::Made(_) | Head::Con(_) | Head::PrimOf(_) | Head::Lit(_, _) => {
            Ok(())
        }
    }
}

// A variable, which may be one of the binders.
fn note_var(x: VarIx, under: u32, search: &mut Search) -> Result<(), NoMemory>
    ensures { OnOk result (Noted search.old (beyond (occurs (var x.number)) under) search.new) }
{
    if x.number < under {
        return Ok(());
    }
    let number = x.number - under;
    note(VarIx { number }, search)
}

// A term under so many more binders.
#[cycle(note_term)]
fn note_under(term: &Term, under: u32, more: u32, search: &mut Search) -> Result<(), NoMemory>
    ensures { OnOk result (Noted search.old (beyond (occurs term.now) (under + more)) search.new) }
{
    let inner = deeper(under, more)?;
    note_term(term, inner, search)
}

#[cycle(note_term)]
fn note_letrec(
    bindings: &[Binding],
    body: &Term,
    under: u32,
    search: &mut Search,
) -> Result<(), NoMemory>
    ensures { OnOk result (Noted search.old (beyond (occurs (letrec (group_of bindings.now) body.now)) under) search.new) }
{
    let inner = deeper(under, count(bindings)?)?;
    note_sides(bindings, inner, search)?;
    note_term(body, inner, search)
}

// The right sides of a group; its binders are already passed.
#[cycle(note_term)]
fn note_sides(bindings: &[Binding], under: u32, search: &mut Search) -> Result<(), NoMemory>
    ensures { OnOk result (Noted search.old (beyond (any_of occurs_in_binding bindings.now) under) search.new) }
{
    for binding in bindings {
        note_term(&binding.body, under, search)?;
    }
    Ok(())
}

#[cycle(note_term)]
fn note_elements(elements: &[Term], under: u32, search: &mut Search) -> Result<(), NoMemory>
    ensures { OnOk result (Noted search.old (beyond (any_of occurs elements.now) under) search.new) }
{
    for element in elements {
        note_term(element, under, search)?;
    }
    Ok(())
}

#[cycle(note_term)]
fn note_case(on: &Term, alts: &[Alt], under: u32, search: &mut Search) -> Result<(), NoMemory>
    ensures { OnOk result (Noted search.old (beyond (occurs (case_of on.now (alts_of alts.now))) under) search.new) }
{
    note_term(on, under, search)?;
    note_alts(alts, under, search)
}

#[cycle(note_term)]
fn note_alts(alts: &[Alt], under: u32, search: &mut Search) -> Result<(), NoMemory>
    ensures { OnOk result (Noted search.old (beyond (any_of occurs_in_alt alts.now) under) search.new) }
{
    for alt in alts {
        note_alt(alt, under, search)?;
    }
    Ok(())
}

#[cycle(note_term)]
fn note_alt(alt: &Alt, under: u32, search: &mut Search) -> Result<(), NoMemory>
    ensures { OnOk result (Noted search.old (beyond (occurs_in_alt alt.now) under) search.new) }
{
    note_under(&alt.body, under, alt.pattern.binders(), search)
}
