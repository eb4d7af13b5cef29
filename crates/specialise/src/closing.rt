//! Calls as closed terms: the one walk that renames variables and puts origins for made definitions.
ghost use Rattle.std.specs.Prelude.{◌≡◌, ◌+◌, ◌<◌, length, map, IfOk};
ghost use Rattle.chw_types.specs.TypeMoves.{lift_by};
ghost use Rattle.chw_terms.specs.TermTree.{lam, letrec, vec_lit, case_of};
ghost use Rattle.chw_terms.specs.TermView.{tree_of, terms_of, group_of, alts_of};
ghost use Rattle.rewriting.specs.Origins.{origins_of, origin_at};
ghost use Rattle.rewriting.specs.Calls.{to_lambdas};
ghost use Rattle.specialise.specs.Closed.{numbers, closed, closed_arg, closed_binding, closed_alt};

use chw_base::{MadeId, NoMemory, VarIx, narrow};
use chw_terms::{Alt, Arg, Binding, Head, Scene, Term};
use chw_types::Ty;
use std::alloc::Global;

// The place under so many more binders.
fn deeper(place: u32, binders: usize) -> Result<u32, NoMemory>
    ensures { IfOk result (λ n. n ≡ place + binders) }
{
    place.checked_add(narrow(binders)?).ok_or(NoMemory)
}

// Where a variable comes, under a lambda for each of these.
fn to_lambda(free: &[VarIx], x: u32) -> Result<u32, NoMemory>
    ensures { IfOk result (λ y. y ≡ to_lambdas (numbers free.now) x) }
{
    for (n, variable) in free.iter().enumerate() {
        if variable.number == x {
            return narrow(free.len() - 1 - n);
        }
    }
    Ok(x)
}

// The same below so many binders of the term.
fn renamed(free: &[VarIx], under: u32, x: VarIx) -> Result<VarIx, NoMemory>
    ensures { IfOk result (λ y. y.number ≡ lift_by under (to_lambdas (numbers free.now)) x.number) }
{
    if x.number < under {
        return Ok(x);
    }
    let outside = to_lambda(free, x.number - under)?;
    let number = deeper(under, outside as usize)?;
    Ok(VarIx { number })
}

// The origin of a made definition; of a number that none has, that number's made definition.
fn origin_at(alloc: Global, scene: &Scene, at: MadeId) -> Result<Term, NoMemory>
    ensures { IfOk result (λ e. e ≡ origin_at (origins_of scene.now) at.number) }
{
    match scene.made.get(at.number as usize) {
        Some(it) => it.origin.copy(alloc),
        None => Ok(Term::made(alloc, at)),
    }
}

/// The term below so many binders of its own, with the free variables as those of lambdas, and with origins for made definitions.
#[cycle(close)]
pub(crate) fn close(
    alloc: Global,
    scene: &Scene,
    free: &[VarIx],
    under: u32,
    t: &Term,
) -> Result<Term, NoMemory>
    ensures { IfOk result (λ e. e ≡ closed (origins_of scene.now) (lift_by under (to_lambdas (numbers free.now))) t.now) }
{
    let head = close_head(alloc, scene, free, under, &t.head)?;
    let args = close_args(alloc, scene, free, under, &t.args)?;
    head.applied(args)
}

#[cycle(close)]
fn close_args(
    alloc: Global,
    scene: &Scene,
    free: &[VarIx],
    under: u32,
    args: &[Arg],
) -> Result<Vec<Arg>, NoMemory>
    ensures { IfOk result (λ e. e.items ≡ map (closed_arg (origins_of scene.now) (lift_by under (to_lambdas (numbers free.now)))) args.now) }
{
    let mut done = Vec::new(alloc);
    for arg in args {
        done.push(close_arg(alloc, scene, free, under, arg)?)?;
    }
    Ok(done)
}

#[cycle(close)]
fn close_arg(
    alloc: Global,
    scene: &Scene,
    free: &[VarIx],
    under: u32,
    arg: &Arg,
) -> Result<Arg, NoMemory>
    ensures { IfOk result (λ e. e ≡ closed_arg (origins_of scene.now) (lift_by under (to_lambdas (numbers free.now))) arg.now) }
{
    match arg {
        Arg::OfTerm(e) => Ok(Arg::OfTerm(close(alloc, scene, free, under, e)?)),
        Arg::OfType(t) => Ok(Arg::OfType(t.copy(alloc)?)),
    }
}

#[cycle(close)]
fn close_head(
    alloc: Global,
    scene: &Scene,
    free: &[VarIx],
    under: u32,
    head: &Head,
) -> Result<Term, NoMemory>
    ensures { IfOk result (λ e. e ≡ closed (origins_of scene.now) (lift_by under (to_lambdas (numbers free.now))) (tree_of head.now)) }
{
    match head {
        Head::Var(x) => Ok(Term::var(alloc, renamed(free, under, *x)?)),
        Head::Global(d) => Ok(Term::global(alloc, *d)),
        Head::Made(m) => origin_at(alloc, scene, *m),
        Head::Con(c) => Ok(Term::con(alloc, *c)),
        Head::PrimOf(which) => Ok(Term::prim_of(alloc, *which)),
        Head::Lit(sort, bits) => Ok(Term::lit(alloc, *sort, bits.copy(alloc)?)),
        Head::Lam(ty, body) => close_lam(alloc, scene, free, under, ty, body),
        Head::TyLam(kind, body) => {
            let inner = close(alloc, scene, free, under, body)?;
            Term::ty_lam(alloc, *kind, inner)
        }
        Head::LetRec(bindings, body) => close_letrec(alloc, scene, free, under, bindings, body),
        Head::VecLit(ty, elements) => close_vec(alloc, scene, free, under, ty, elements),
        Head::Case(on, alts) => close_case(alloc, scene, free, under, on, alts),
    }
}

#[cycle(close)]
fn close_lam(
    alloc: Global,
    scene: &Scene,
    free: &[VarIx],
    under: u32,
    ty: &Ty,
    body: &Term,
) -> Result<Term, NoMemory>
    ensures { IfOk result (λ e. e ≡ closed (origins_of scene.now) (lift_by under (to_lambdas (numbers free.now))) (lam ty.now body.now)) }
{
    let inner = deeper(under, 1)?;
    let ty = ty.copy(alloc)?;
    let body = close(alloc, scene, free, inner, body)?;
    Term::lam(alloc, ty, body)
}

#[cycle(close)]
fn close_letrec(
    alloc: Global,
    scene: &Scene,
    free: &[VarIx],
    under: u32,
    bindings: &[Binding],
    body: &Term,
) -> Result<Term, NoMemory>
    ensures { IfOk result (λ e. e ≡ closed (origins_of scene.now) (lift_by under (to_lambdas (numbers free.now))) (letrec (group_of bindings.now) body.now)) }
{
    let inner = deeper(under, bindings.len())?;
    let group = close_group(alloc, scene, free, inner, bindings)?;
    let body = close(alloc, scene, free, inner, body)?;
    Term::letrec(alloc, group, body)
}

#[cycle(close)]
fn close_vec(
    alloc: Global,
    scene: &Scene,
    free: &[VarIx],
    under: u32,
    ty: &Ty,
    elements: &[Term],
) -> Result<Term, NoMemory>
    ensures { IfOk result (λ e. e ≡ closed (origins_of scene.now) (lift_by under (to_lambdas (numbers free.now))) (vec_lit ty.now (terms_of elements.now))) }
{
    let all = close_all(alloc, scene, free, under, elements)?;
    let ty = ty.copy(alloc)?;
    Ok(Term::vec_lit(alloc, ty, all))
}

#[cycle(close)]
fn close_case(
    alloc: Global,
    scene: &Scene,
    free: &[VarIx],
    under: u32,
    on: &Term,
    alts: &[Alt],
) -> Result<Term, NoMemory>
    ensures { IfOk result (λ e. e ≡ closed (origins_of scene.now) (lift_by under (to_lambdas (numbers free.now))) (case_of on.now (alts_of alts.now))) }
{
    let done = close_alts(alloc, scene, free, under, alts)?;
    let on = close(alloc, scene, free, under, on)?;
    Term::case(alloc, on, done)
}

#[cycle(close)]
fn close_all(
    alloc: Global,
    scene: &Scene,
    free: &[VarIx],
    under: u32,
    elements: &[Term],
) -> Result<Vec<Term>, NoMemory>
    ensures { IfOk result (λ e. e.items ≡ map (closed (origins_of scene.now) (lift_by under (to_lambdas (numbers free.now)))) elements.now) }
{
    let mut done = Vec::new(alloc);
    for element in elements {
        done.push(close(alloc, scene, free, under, element)?)?;
    }
    Ok(done)
}

#[cycle(close)]
fn close_group(
    alloc: Global,
    scene: &Scene,
    free: &[VarIx],
    under: u32,
    bindings: &[Binding],
) -> Result<Vec<Binding>, NoMemory>
    ensures { IfOk result (λ e. e.items ≡ map (closed_binding (origins_of scene.now) (lift_by under (to_lambdas (numbers free.now)))) bindings.now) }
{
    let mut done = Vec::new(alloc);
    for binding in bindings {
        done.push(close_binding(alloc, scene, free, under, binding)?)?;
    }
    Ok(done)
}

#[cycle(close)]
fn close_binding(
    alloc: Global,
    scene: &Scene,
    free: &[VarIx],
    under: u32,
    binding: &Binding,
) -> Result<Binding, NoMemory>
    ensures { IfOk result (λ e. e ≡ closed_binding (origins_of scene.now) (lift_by under (to_lambdas (numbers free.now))) binding.now) }
{
    let ty = binding.ty.copy(alloc)?;
    let body = close(alloc, scene, free, under, &binding.body)?;
    Ok(Binding { ty, body })
}

#[cycle(close)]
fn close_alts(
    alloc: Global,
    scene: &Scene,
    free: &[VarIx],
    under: u32,
    alts: &[Alt],
) -> Result<Vec<Alt>, NoMemory>
    ensures { IfOk result (λ e. e.items ≡ map (closed_alt (origins_of scene.now) (lift_by under (to_lambdas (numbers free.now)))) alts.now) }
{
    let mut done = Vec::new(alloc);
    for alt in alts {
        done.push(close_alt(alloc, scene, free, under, alt)?)?;
    }
    Ok(done)
}

#[cycle(close)]
fn close_alt(
    alloc: Global,
    scene: &Scene,
    free: &[VarIx],
    under: u32,
    alt: &Alt,
) -> Result<Alt, NoMemory>
    ensures { IfOk result (λ e. e ≡ closed_alt (origins_of scene.now) (lift_by under (to_lambdas (numbers free.now))) alt.now) }
{
    let inner = deeper(under, alt.pattern.binders() as usize)?;
    let pattern = alt.pattern.copy(alloc)?;
    let body = close(alloc, scene, free, inner, &alt.body)?;
    Ok(Alt { pattern, body })
}
