//! The one walk over a term that renumbers its variables where they stand.
ghost use Rattle.std.specs.Prelude.{◌≡◌, map, OnOk};
ghost use Rattle.chw_types.specs.TypeMoves.{lift_by};
ghost use Rattle.chw_terms.specs.TermMoves.{rename};
ghost use Rattle.chw_terms.specs.TermTree.{letrec, case_of};
ghost use Rattle.chw_terms.specs.TermView.{tree_of, group_of, alts_of};
ghost use Rattle.chw_typing.specs.Groups.{rename_arg};
ghost use Rattle.moved_in_place.specs.Moves.{renamed, renamed_binding, renamed_alt};

use crate::numbers::{Renumbering, deeper, renumber};
use chw_base::{NoMemory, narrow};
use chw_terms::{Alt, Arg, Binding, Head, Term};

// The term with its variables renumbered from this place on.
#[cycle(walk)]
pub(crate) fn walk<R: Renumbering>(term: &mut Term, how: &R, at: u32) -> Result<(), NoMemory>
    ensures { OnOk result (term.new ≡ rename term.old (lift_by at (R.renaming how.now))) }
{
    walk_head(&mut term.head, how, at)?;
    walk_args(&mut term.args, how, at)
}

#[cycle(walk)]
fn walk_args<R: Renumbering>(args: &mut [Arg], how: &R, at: u32) -> Result<(), NoMemory>
    ensures { OnOk result (args.new ≡ map (rename_arg (lift_by at (R.renaming how.now))) args.old) }
{
    for arg in args.iter_mut() {
        walk_arg(arg, how, at)?;
    }
    Ok(())
}

#[cycle(walk)]
fn walk_arg<R: Renumbering>(arg: &mut Arg, how: &R, at: u32) -> Result<(), NoMemory>
    ensures { OnOk result (arg.new ≡ rename_arg (lift_by at (R.renaming how.now)) arg.old) }
{
    match arg {
        Arg::OfTerm(e) => walk(e, how, at),
        Arg::OfType(_) => Ok(()),
    }
}

#[cycle(walk)]
fn walk_head<R: Renumbering>(head: &mut Head, how: &R, at: u32) -> Result<(), NoMemory>
    ensures { OnOk result (tree_of head.new ≡ rename (tree_of head.old) (lift_by at (R.renaming how.now))) }
{
    match head {
        Head::Var(x) => renumber(x, how, at),
        Head::Lam(_, body) => walk_under(body, how, at, 1),
        Head::TyLam(_, body) => walk(body, how, at),
        Head::LetRec(bindings, body) => walk_letrec(bindings, body, how, at),
        Head::VecLit(_, elements) => walk_elements(elements, how, at),
        Head::Case(on, alts) => walk_case(on, alts, how, at),
        Head::Global(_) | Head::Made(_) | Head::Con(_) | Head::PrimOf(_) | Head::Lit(_, _) => {
            Ok(())
        }
    }
}

// A term under so many more binders.
#[cycle(walk)]
fn walk_under<R: Renumbering>(
    term: &mut Term,
    how: &R,
    at: u32,
    binders: u32,
) -> Result<(), NoMemory>
    ensures { OnOk result (term.new ≡ renamed (R.renaming how.now) at binders term.old) }
{
    let inner = deeper(at, binders)?;
    walk(term, how, inner)
}

#[cycle(walk)]
fn walk_letrec<R: Renumbering>(
    bindings: &mut [Binding],
    body: &mut Term,
    how: &R,
    at: u32,
) -> Result<(), NoMemory>
    ensures { OnOk result (letrec (group_of bindings.new) body.new ≡ rename (letrec (group_of bindings.old) body.old) (lift_by at (R.renaming how.now))) }
{
    let inner = deeper(at, narrow(bindings.len())?)?;
    walk_bindings(bindings, how, inner)?;
    walk(body, how, inner)
}

// The right sides of a group; its binders are already passed.
#[cycle(walk)]
pub(crate) fn walk_bindings<R: Renumbering>(
    bindings: &mut [Binding],
    how: &R,
    at: u32,
) -> Result<(), NoMemory>
    ensures { OnOk result (bindings.new ≡ map (renamed_binding (lift_by at (R.renaming how.now))) bindings.old) }
{
    for binding in bindings.iter_mut() {
        walk(&mut binding.body, how, at)?;
    }
    Ok(())
}

#[cycle(walk)]
fn walk_elements<R: Renumbering>(elements: &mut [Term], how: &R, at: u32) -> Result<(), NoMemory>
    ensures { OnOk result (elements.new ≡ map (λ e. rename e (lift_by at (R.renaming how.now))) elements.old) }
{
    for element in elements.iter_mut() {
        walk(element, how, at)?;
    }
    Ok(())
}

#[cycle(walk)]
fn walk_case<R: Renumbering>(
    on: &mut Term,
    alts: &mut [Alt],
    how: &R,
    at: u32,
) -> Result<(), NoMemory>
    ensures { OnOk result (case_of on.new (alts_of alts.new) ≡ rename (case_of on.old (alts_of alts.old)) (lift_by at (R.renaming how.now))) }
{
    walk(on, how, at)?;
    walk_alts(alts, how, at)
}

#[cycle(walk)]
fn walk_alts<R: Renumbering>(alts: &mut [Alt], how: &R, at: u32) -> Result<(), NoMemory>
    ensures { OnOk result (alts.new ≡ map (renamed_alt (R.renaming how.now) at) alts.old) }
{
    for alt in alts.iter_mut() {
        let binders = alt.pattern.binders();
        walk_under(&mut alt.body, how, at, binders)?;
    }
    Ok(())
}
