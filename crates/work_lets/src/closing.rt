//! Renaming the variables of a term where bindings of a letrec around it go.
ghost use Rattle.std.specs.Prelude.{◌≡◌, ◌+◌, map, length, reverse, IfOk};
ghost use Rattle.chw_terms.specs.TermTree.{var, lam, letrec, vec_lit, case_of};
ghost use Rattle.chw_terms.specs.TermView.{tree_of, terms_of, group_of, alts_of};
ghost use Rattle.rewriting.specs.Shapes.{closed_up};
ghost use Rattle.work_lets.specs.Closings.{closes, one_more, closed, closed_arg, closed_binding, closed_alt, IsLeaf};

use chw_base::{NoMemory, VarIx, narrow};
use chw_terms::{Alt, Arg, Binding, Head, Term};
use chw_types::Ty;
use std::alloc::Global;

/// Where the variables of a letrec come when bindings go.
#[derive(Drop)]
pub(crate) struct Closing {
    /// For each variable of the letrec, the innermost first, how many of those before it stay.
    places: Vec<u32>,
    /// How many stay.
    left: u32,
}

// One more than the number, where one more stays.
fn counted(left: u32, stays: bool) -> Result<u32, NoMemory>
    ensures { IfOk result (λ n. n ≡ one_more left stays) }
{
    if stays {
        left.checked_add(1).ok_or(NoMemory)
    } else {
        Ok(left)
    }
}

/// By marks of the bindings that stay, the first one first.
pub(crate) fn closing_of(alloc: Global, marks: &[bool]) -> Result<Closing, NoMemory>
    ensures { IfOk result (λ c. closes c ≡ closed_up (reverse marks.now)) }
{
    let mut closing = Closing {
        places: Vec::new(alloc),
        left: 0,
    };
    for mark in marks.iter().rev() {
        closing.places.push(closing.left)?;
        closing.left = counted(closing.left, *mark)?;
    }
    Ok(closing)
}

// The place under so many more binders.
pub(crate) fn deeper(place: u32, binders: u32) -> Result<u32, NoMemory>
    ensures { IfOk result (λ n. n ≡ place + binders) }
{
    place.checked_add(binders).ok_or(NoMemory)
}

// How many bindings there are.
pub(crate) fn count(bindings: &[Binding]) -> Result<u32, NoMemory>
    ensures { IfOk result (λ n. n ≡ length bindings.now) }
{
    narrow(bindings.len())
}

// Where a variable of the letrec's scope comes.
fn place_of(number: u32, closing: &Closing) -> Result<u32, NoMemory>
    ensures { IfOk result (λ n. n ≡ closes closing.now number) }
{
    let places = closing.places.as_slice();
    let bound = narrow(places.len())?;
    if number < bound {
        Ok(places[number as usize])
    } else {
        deeper(closing.left, number - bound)
    }
}

// The variable under so many binders.
fn close_var(alloc: Global, x: VarIx, closing: &Closing, at: u32) -> Result<Term, NoMemory>
    ensures { IfOk result (λ e. e ≡ closed closing.now at (var x.number)) }
{
    if x.number < at {
        return Ok(Term::var(alloc, x));
    }
    let number = deeper(at, place_of(x.number - at, closing)?)?;
    Ok(Term::var(alloc, VarIx { number }))
}

/// The term, which stands under so many binders within the letrec's scope.
#[cycle(close)]
pub(crate) fn close(alloc: Global, t: &Term, closing: &Closing, at: u32) -> Result<Term, NoMemory>
    ensures { IfOk result (λ e. e ≡ closed closing.now at t.now) }
{
    let head = close_head(alloc, &t.head, closing, at)?;
    let args = close_args(alloc, &t.args, closing, at)?;
    head.applied(args)
}

#[cycle(close)]
fn close_args(alloc: Global, args: &[Arg], closing: &Closing, at: u32) -> Result<Vec<Arg>, NoMemory>
    ensures { IfOk result (λ e. e.items ≡ map (closed_arg closing.now at) args.now) }
{
    let mut done = Vec::new(alloc);
    for arg in args {
        done.push(close_arg(alloc, arg, closing, at)?)?;
    }
    Ok(done)
}

#[cycle(close)]
fn close_arg(alloc: Global, arg: &Arg, closing: &Closing, at: u32) -> Result<Arg, NoMemory>
    ensures { IfOk result (λ e. e ≡ closed_arg closing.now at arg.now) }
{
    match arg {
        Arg::OfTerm(e) => Ok(Arg::OfTerm(close(alloc, e, closing, at)?)),
        Arg::OfType(t) => Ok(Arg::OfType(t.copy(alloc)?)),
    }
}

#[cycle(close)]
fn close_head(alloc: Global, head: &Head, closing: &Closing, at: u32) -> Result<Term, NoMemory>
    ensures { IfOk result (λ e. e ≡ closed closing.now at (tree_of head.now)) }
{
    match head {
        Head::Var(x) => close_var(alloc, *x, closing, at),
        Head::Lam(ty, body) => close_lam(alloc, ty, body, closing, at),
        Head::TyLam(kind, body) => {
            let body = close(alloc, body, closing, at)?;
            Term::ty_lam(alloc, *kind, body)
        }
        Head::LetRec(bindings, body) => close_letrec(alloc, bindings, body, closing, at),
        Head::VecLit(ty, elements) => close_vec(alloc, ty, elements, closing, at),
        Head::Case(on, alts) => close_case(alloc, on, alts, closing, at),
        Head::Global(_) | Head::Made(_) | Head::Con(_) | Head::PrimOf(_) | Head::Lit(_, _) => {
            copy_leaf(alloc, head)
        }
    }
}

#[cycle(close)]
fn close_lam(
    alloc: Global,
    ty: &Ty,
    body: &Term,
    closing: &Closing,
    at: u32,
) -> Result<Term, NoMemory>
    ensures { IfOk result (λ e. e ≡ closed closing.now at (lam ty.now body.now)) }
{
    let inner = deeper(at, 1)?;
    let ty = ty.copy(alloc)?;
    let body = close(alloc, body, closing, inner)?;
    Term::lam(alloc, ty, body)
}

#[cycle(close)]
fn close_letrec(
    alloc: Global,
    bindings: &[Binding],
    body: &Term,
    closing: &Closing,
    at: u32,
) -> Result<Term, NoMemory>
    ensures { IfOk result (λ e. e ≡ closed closing.now at (letrec (group_of bindings.now) body.now)) }
{
    let inner = deeper(at, count(bindings)?)?;
    let mut group = Vec::new(alloc);
    for binding in bindings {
        group.push(close_binding(alloc, binding, closing, inner)?)?;
    }
    let body = close(alloc, body, closing, inner)?;
    Term::letrec(alloc, group, body)
}

/// The binding; the binders of its group are already passed.
#[cycle(close)]
pub(crate) fn close_binding(
    alloc: Global,
    binding: &Binding,
    closing: &Closing,
    at: u32,
) -> Result<Binding, NoMemory>
    ensures { IfOk result (λ e. e ≡ closed_binding closing.now at binding.now) }
{
    let ty = binding.ty.copy(alloc)?;
    let body = close(alloc, &binding.body, closing, at)?;
    Ok(Binding { ty, body })
}

#[cycle(close)]
fn close_vec(
    alloc: Global,
    ty: &Ty,
    elements: &[Term],
    closing: &Closing,
    at: u32,
) -> Result<Term, NoMemory>
    ensures { IfOk result (λ e. e ≡ closed closing.now at (vec_lit ty.now (terms_of elements.now))) }
{
    let mut done = Vec::new(alloc);
    for element in elements {
        done.push(close(alloc, element, closing, at)?)?;
    }
    let ty = ty.copy(alloc)?;
    Ok(Term::vec_lit(alloc, ty, done))
}

#[cycle(close)]
fn close_case(
    alloc: Global,
    on: &Term,
    alts: &[Alt],
    closing: &Closing,
    at: u32,
) -> Result<Term, NoMemory>
    ensures { IfOk result (λ e. e ≡ closed closing.now at (case_of on.now (alts_of alts.now))) }
{
    let mut done = Vec::new(alloc);
    for alt in alts {
        done.push(close_alt(alloc, alt, closing, at)?)?;
    }
    let on = close(alloc, on, closing, at)?;
    Term::case(alloc, on, done)
}

#[cycle(close)]
fn close_alt(alloc: Global, alt: &Alt, closing: &Closing, at: u32) -> Result<Alt, NoMemory>
    ensures { IfOk result (λ e. e ≡ closed_alt closing.now at alt.now) }
{
    let inner = deeper(at, alt.pattern.binders())?;
    let pattern = alt.pattern.copy(alloc)?;
    let body = close(alloc, &alt.body, closing, inner)?;
    Ok(Alt { pattern, body })
}

// A head that has no variables and no parts, once more.
fn copy_leaf(alloc: Global, head: &Head) -> Result<Term, NoMemory>
    requires { IsLeaf head.now }
    ensures { IfOk result (λ e. e ≡ tree_of head.now) }
{
    match head {
        Head::Global(d) => Ok(Term::global(alloc, *d)),
        Head::Made(m) => Ok(Term::made(alloc, *m)),
        Head::Con(c) => Ok(Term::con(alloc, *c)),
        Head::PrimOf(which) => Ok(Term::prim_of(alloc, *which)),
        Head::Lit(sort, bits) => Ok(Term::lit(alloc, *sort, bits.copy(alloc)?)),
        _ => unreachable!(),
    }
}
