//! The terms that are written: functions on signals.
ghost use Rattle.std.specs.Prelude.{◌≡◌, [], ◌∷◌, IfOk};
ghost use Rattle.chw_types.specs.TypeTree.{fun};
ghost use Rattle.chw_prims.specs.declared.prim.Primitive.TheVariants.{Fmap, Pure};
ghost use Rattle.chw_terms.specs.TermTree.{app, ty_app, prim};
ghost use Rattle.chw_terms.specs.TermView.{applied};
ghost use Rattle.chw_typing.specs.Given.{types_then};
ghost use Rattle.rewriting.specs.Shapes.{fmap_of, pure_of};

use chw_base::NoMemory;
use chw_prims::Prim;
use chw_terms::{Head, Term};
use chw_types::Ty;
use std::alloc::Global;

// The functions of one type from another.
fn functions(alloc: Global, from: &Ty, to: &Ty) -> Result<Ty, NoMemory>
    ensures { IfOk result (λ t. t ≡ fun from.now to.now) }
{
    Ty::fun(alloc, from.copy(alloc)?, to.copy(alloc)?)
}

// The term at a type.
fn at_type(alloc: Global, of: Term, ty: &Ty) -> Result<Term, NoMemory>
    ensures { IfOk result (λ e. e ≡ ty_app of ty.now) }
{
    Term::ty_app(of, ty.copy(alloc)?)
}

// The term at a type of functions.
fn at_functions(alloc: Global, of: Term, from: &Ty, to: &Ty) -> Result<Term, NoMemory>
    ensures { IfOk result (λ e. e ≡ ty_app of (fun from.now to.now)) }
{
    Term::ty_app(of, functions(alloc, from, to)?)
}

// The primitive at a domain, with room for so many arguments.
fn at_domain(alloc: Global, which: Prim, dom: &Ty, room: usize) -> Result<Term, NoMemory>
    ensures { IfOk result (λ e. e ≡ ty_app (prim which) dom.now) }
{
    let args = Vec::with_capacity(alloc, room)?;
    let head = Head::PrimOf(which);
    at_type(alloc, Term { head, args }, dom)
}

// The term on a function and a signal.
fn on(alloc: Global, of: Term, function: Term, signal: &Term) -> Result<Term, NoMemory>
    ensures { IfOk result (λ e. e ≡ app (app of function) signal.now) }
{
    let of = Term::app(of, function)?;
    Term::app(of, signal.copy(alloc)?)
}

// The primitive at a domain and two types.
fn at_types(alloc: Global, which: Prim, dom: &Ty, from: &Ty, to: &Ty) -> Result<Term, NoMemory>
    ensures { IfOk result (λ e. e ≡ ty_app (ty_app (ty_app (prim which) dom.now) from.now) to.now) }
{
    let of = at_domain(alloc, which, dom, 5)?;
    let of = at_type(alloc, of, from)?;
    at_type(alloc, of, to)
}

/// The primitive at a domain and two types, on a function and a signal.
pub(crate) fn lifted(
    alloc: Global,
    which: Prim,
    dom: &Ty,
    from: &Ty,
    to: &Ty,
    function: Term,
    signal: &Term,
) -> Result<Term, NoMemory>
    ensures { IfOk result (λ e. e ≡ applied (prim which) (types_then (dom.now ∷ from.now ∷ to.now ∷ []) (function ∷ signal.now ∷ []))) }
{
    let of = at_types(alloc, which, dom, from, to)?;
    on(alloc, of, function, signal)
}

// The primitive at a domain and two types of functions.
fn at_both(
    alloc: Global,
    which: Prim,
    dom: &Ty,
    had: (&Ty, &Ty),
    gets: (&Ty, &Ty),
) -> Result<Term, NoMemory>
    ensures { IfOk result (λ e. e ≡ ty_app (ty_app (ty_app (prim which) dom.now) (fun had.entry.0.now had.entry.1.now)) (fun gets.entry.0.now gets.entry.1.now)) }
{
    let of = at_domain(alloc, which, dom, 5)?;
    let of = at_functions(alloc, of, had.0, had.1)?;
    at_functions(alloc, of, gets.0, gets.1)
}

/// The primitive at a domain and two types of functions, `a -> b` and `c -> d`, on a function and a signal.
pub(crate) fn lifted_between(
    alloc: Global,
    which: Prim,
    dom: &Ty,
    had: (&Ty, &Ty),
    gets: (&Ty, &Ty),
    function: Term,
    signal: &Term,
) -> Result<Term, NoMemory>
    ensures { IfOk result (λ e. e ≡ applied (prim which) (types_then (dom.now ∷ fun had.entry.0.now had.entry.1.now ∷ fun gets.entry.0.now gets.entry.1.now ∷ []) (function ∷ signal.now ∷ []))) }
{
    let of = at_both(alloc, which, dom, had, gets)?;
    on(alloc, of, function, signal)
}

// `fmap @dom @(from -> to) @to`
fn at_given(alloc: Global, dom: &Ty, from: &Ty, to: &Ty) -> Result<Term, NoMemory>
    ensures { IfOk result (λ e. e ≡ ty_app (ty_app (ty_app (prim Fmap) dom.now) (fun from.now to.now)) to.now) }
{
    let of = at_domain(alloc, Prim::Fmap, dom, 5)?;
    let of = at_functions(alloc, of, from, to)?;
    at_type(alloc, of, to)
}

/// `fmap @dom @(from -> to) @to function signal`
pub(crate) fn mapped_to_results(
    alloc: Global,
    dom: &Ty,
    from: &Ty,
    to: &Ty,
    function: Term,
    signal: &Term,
) -> Result<Term, NoMemory>
    ensures { IfOk result (λ e. e ≡ fmap_of dom.now (fun from.now to.now) to.now function signal.now) }
{
    let of = at_given(alloc, dom, from, to)?;
    on(alloc, of, function, signal)
}

// `(a -> b) -> (a -> c)`
fn functions_of_functions(alloc: Global, a: &Ty, b: &Ty, c: &Ty) -> Result<Ty, NoMemory>
    ensures { IfOk result (λ t. t ≡ fun (fun a.now b.now) (fun a.now c.now)) }
{
    Ty::fun(alloc, functions(alloc, a, b)?, functions(alloc, a, c)?)
}

// `fmap @dom @(b -> c) @((a -> b) -> (a -> c))`
fn at_composing(alloc: Global, dom: &Ty, a: &Ty, b: &Ty, c: &Ty) -> Result<Term, NoMemory>
    ensures { IfOk result (λ e. e ≡ ty_app (ty_app (ty_app (prim Fmap) dom.now) (fun b.now c.now)) (fun (fun a.now b.now) (fun a.now c.now))) }
{
    let of = at_domain(alloc, Prim::Fmap, dom, 5)?;
    let of = at_functions(alloc, of, b, c)?;
    Term::ty_app(of, functions_of_functions(alloc, a, b, c)?)
}

/// `fmap @dom @(b -> c) @((a -> b) -> (a -> c)) function signal`
pub(crate) fn mapped_to_composing(
    alloc: Global,
    dom: &Ty,
    a: &Ty,
    b: &Ty,
    c: &Ty,
    function: Term,
    signal: &Term,
) -> Result<Term, NoMemory>
    ensures { IfOk result (λ e. e ≡ fmap_of dom.now (fun b.now c.now) (fun (fun a.now b.now) (fun a.now c.now)) function signal.now) }
{
    let of = at_composing(alloc, dom, a, b, c)?;
    on(alloc, of, function, signal)
}

// `pure @dom @of`
fn pure_at(alloc: Global, dom: &Ty, ty: &Ty) -> Result<Term, NoMemory>
    ensures { IfOk result (λ e. e ≡ ty_app (ty_app (prim Pure) dom.now) ty.now) }
{
    let of = at_domain(alloc, Prim::Pure, dom, 3)?;
    at_type(alloc, of, ty)
}

/// `pure @dom @ty value`
pub(crate) fn constant(alloc: Global, dom: &Ty, ty: &Ty, value: Term) -> Result<Term, NoMemory>
    ensures { IfOk result (λ e. e ≡ pure_of dom.now ty.now value) }
{
    let of = pure_at(alloc, dom, ty)?;
    Term::app(of, value)
}
