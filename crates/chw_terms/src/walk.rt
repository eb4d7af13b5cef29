//! The one walk over a term that changes its variables and its types.
ghost use Rattle.std.specs.Prelude.{◌≡◌, map, IfOk};
ghost use Rattle.chw_types.specs.TypeMoves.{raised};
ghost use Rattle.chw_terms.specs.TermMoves.{in_place_of};
ghost use Rattle.chw_terms.specs.TermTree.{var, lam, letrec, vec_lit, case_of};
ghost use Rattle.chw_terms.specs.TermView.{tree_of, terms_of, group_of, alts_of};
ghost use Rattle.chw_terms.specs.Moved.{IsLeaf, moved, moved_arg, moved_binding, moved_alt, renamed};

use crate::moves::{Move, Renumbering, count, deeper};
use crate::renumbering::renumber;
use crate::term::{Alt, Arg, Binding, Head, Term};
use chw_base::{NoMemory, VarIx};
use chw_types::Ty;
use std::alloc::Global;

// The term with all its parts moved, from this place among the variables and this one among the type variables on.
#[cycle(walk)]
pub(crate) fn walk(
    alloc: Global,
    t: &Term,
    what: Move<'_>,
    at: u32,
    types: u32,
) -> Result<Term, NoMemory>
    ensures { IfOk result (λ e. e ≡ moved what.entry at types t.now) }
{
    let head = walk_head(alloc, &t.head, what, at, types)?;
    let args = walk_args(alloc, &t.args, what, at, types)?;
    head.applied(args)
}

#[cycle(walk)]
fn walk_args(
    alloc: Global,
    args: &[Arg],
    what: Move<'_>,
    at: u32,
    types: u32,
) -> Result<Vec<Arg>, NoMemory>
    ensures { IfOk result (λ e. e.items ≡ map (moved_arg what.entry at types) args.now) }
{
    let mut done = Vec::new(alloc);
    for arg in args {
        done.push(walk_arg(alloc, arg, what, at, types)?)?;
    }
    Ok(done)
}

#[cycle(walk)]
fn walk_arg(alloc: Global, arg: &Arg, what: Move<'_>, at: u32, types: u32) -> Result<Arg, NoMemory>
    ensures { IfOk result (λ e. e ≡ moved_arg what.entry at types arg.now) }
{
    match arg {
        Arg::OfTerm(e) => Ok(Arg::OfTerm(walk(alloc, e, what, at, types)?)),
        Arg::OfType(t) => Ok(Arg::OfType(what.ty(alloc, t, types)?)),
    }
}

#[cycle(walk)]
fn walk_head(
    alloc: Global,
    head: &Head,
    what: Move<'_>,
    at: u32,
    types: u32,
) -> Result<Term, NoMemory>
    ensures { IfOk result (λ e. e ≡ moved what.entry at types (tree_of head.now)) }
{
    match head {
        Head::Var(x) => walk_var(alloc, *x, what, at, types),
        Head::Lam(ty, body) => walk_lam(alloc, ty, body, what, at, types),
        Head::TyLam(kind, body) => {
            let inner = deeper(types, 1)?;
            let body = walk(alloc, body, what, at, inner)?;
            Term::ty_lam(alloc, *kind, body)
        }
        Head::LetRec(bindings, body) => walk_letrec(alloc, bindings, body, what, at, types),
        Head::VecLit(ty, elements) => walk_vec(alloc, ty, elements, what, at, types),
        Head::Case(on, alts) => walk_case(alloc, on, alts, what, at, types),
        Head::Global(_) | Head::Made(_) | Head::Con(_) | Head::PrimOf(_) | Head::Lit(_, _) => {
            copy_leaf(alloc, head)
        }
    }
}

#[cycle(walk)]
fn walk_lam(
    alloc: Global,
    ty: &Ty,
    body: &Term,
    what: Move<'_>,
    at: u32,
    types: u32,
) -> Result<Term, NoMemory>
    ensures { IfOk result (λ e. e ≡ moved what.entry at types (lam ty.now body.now)) }
{
    let inner = deeper(at, 1)?;
    let ty = what.ty(alloc, ty, types)?;
    let body = walk(alloc, body, what, inner, types)?;
    Term::lam(alloc, ty, body)
}

#[cycle(walk)]
fn walk_letrec(
    alloc: Global,
    bindings: &[Binding],
    body: &Term,
    what: Move<'_>,
    at: u32,
    types: u32,
) -> Result<Term, NoMemory>
    ensures { IfOk result (λ e. e ≡ moved what.entry at types (letrec (group_of bindings.now) body.now)) }
{
    let inner = deeper(at, count(bindings)?)?;
    let mut group = Vec::new(alloc);
    for binding in bindings {
        group.push(walk_binding(alloc, binding, what, inner, types)?)?;
    }
    let body = walk(alloc, body, what, inner, types)?;
    Term::letrec(alloc, group, body)
}

#[cycle(walk)]
fn walk_binding(
    alloc: Global,
    binding: &Binding,
    what: Move<'_>,
    at: u32,
    types: u32,
) -> Result<Binding, NoMemory>
    ensures { IfOk result (λ e. e ≡ moved_binding what.entry at types binding.now) }
{
    let ty = what.ty(alloc, &binding.ty, types)?;
    let body = walk(alloc, &binding.body, what, at, types)?;
    Ok(Binding { ty, body })
}

#[cycle(walk)]
fn walk_vec(
    alloc: Global,
    ty: &Ty,
    elements: &[Term],
    what: Move<'_>,
    at: u32,
    types: u32,
) -> Result<Term, NoMemory>
    ensures { IfOk result (λ e. e ≡ moved what.entry at types (vec_lit ty.now (terms_of elements.now))) }
{
    let mut done = Vec::new(alloc);
    for element in elements {
        done.push(walk(alloc, element, what, at, types)?)?;
    }
    let ty = what.ty(alloc, ty, types)?;
    Ok(Term::vec_lit(alloc, ty, done))
}

#[cycle(walk)]
fn walk_case(
    alloc: Global,
    on: &Term,
    alts: &[Alt],
    what: Move<'_>,
    at: u32,
    types: u32,
) -> Result<Term, NoMemory>
    ensures { IfOk result (λ e. e ≡ moved what.entry at types (case_of on.now (alts_of alts.now))) }
{
    let mut done = Vec::new(alloc);
    for alt in alts {
        done.push(walk_alt(alloc, alt, what, at, types)?)?;
    }
    let on = walk(alloc, on, what, at, types)?;
    Term::case(alloc, on, done)
}

#[cycle(walk)]
fn walk_alt(alloc: Global, alt: &Alt, what: Move<'_>, at: u32, types: u32) -> Result<Alt, NoMemory>
    ensures { IfOk result (λ e. e ≡ moved_alt what.entry at types alt.now) }
{
    let inner = deeper(at, alt.pattern.binders())?;
    let pattern = alt.pattern.copy(alloc)?;
    let body = walk(alloc, &alt.body, what, inner, types)?;
    Ok(Alt { pattern, body })
}

#[cycle(walk)]
fn walk_var(alloc: Global, x: VarIx, what: Move<'_>, at: u32, types: u32) -> Result<Term, NoMemory>
    ensures { IfOk result (λ e. e ≡ moved what.entry at types (var x.number)) }
{
    match what {
        Move::Rename(how, _) => Ok(Term::var(alloc, renumber(x, how, at)?)),
        Move::PutTerm(v, arg) => {
            let place = u64::from(v) + u64::from(at);
            put_for_var(alloc, x, place, arg, at, types)
        }
        Move::PutType(_) => Ok(Term::var(alloc, x)),
    }
}

// What a variable becomes where the term is put for the one at the place, from outside of so many binders and type binders. The term is
// raised only where it is put, so that it is copied once for each.
#[cycle(walk)]
fn put_for_var(
    alloc: Global,
    x: VarIx,
    place: u64,
    arg: &Term,
    binders: u32,
    types: u32,
) -> Result<Term, NoMemory>
    ensures { IfOk result (λ e. e ≡ in_place_of place (renamed (raised 0 binders) types 0 arg.now) x.number) }
{
    let number = x.number;
    if u64::from(number) < place {
        Ok(Term::var(alloc, x))
    } else if u64::from(number) == place {
        walk(
            alloc,
            arg,
            Move::Rename(Renumbering::Raise(binders), types),
            0,
            0,
        )
    } else {
        Ok(Term::var(alloc, VarIx { number: number - 1 }))
    }
}

// A head that has no variables, no types and no parts, once more.
fn copy_leaf(alloc: Global, head: &Head) -> Result<Term, NoMemory>
    requires { IsLeaf head.now }
    ensures { IfOk result (λ e. e ≡ tree_of head.now) }
{
    match head {
        Head::Global(d) => Ok(Term::global(alloc, *d)),
        Head::Made(m) => Ok(Term::made(alloc, *m)),
        Head::Con(c) => Ok(Term::con(alloc, *c)),
        Head::PrimOf(which) => Ok(Term::prim_of(alloc, *which)),
        Head::Lit(sort, bits) => Ok(Term::lit(alloc, *sort, bits.copy(alloc)?)),
        _ => unreachable!(),
    }
}
