//! The functions that are composed.
ghost use Rattle.std.specs.Prelude.{◌≡◌, IfOk};
ghost use Rattle.chw_types.specs.TypeTree.{fun};
ghost use Rattle.chw_terms.specs.TermMoves.{shift};
ghost use Rattle.chw_terms.specs.TermTree.{app, lam, var};
ghost use Rattle.rewriting.specs.Lifted.{composed, before_each, on_value, behind_each, each_composed};

use chw_base::{NoMemory, VarIx};
use chw_terms::{Term, shift};
use chw_types::Ty;
use std::alloc::Global;

// The variable of this number.
fn var(alloc: Global, number: u32) -> Term
    ensures { result ≡ var number }
{
    Term::var(alloc, VarIx { number })
}

// The term under so many more binders.
fn under(alloc: Global, term: &Term, binders: u32) -> Result<Term, NoMemory>
    ensures { IfOk result (λ e. e ≡ shift term.now 0 binders) }
{
    shift(alloc, term, VarIx { number: 0 }, binders)
}

// The function of two variables of these types.
fn of_two(alloc: Global, outer: Ty, inner: Ty, body: Term) -> Result<Term, NoMemory>
    ensures { IfOk result (λ e. e ≡ lam outer (lam inner body)) }
{
    let body = Term::lam(alloc, inner, body)?;
    Term::lam(alloc, outer, body)
}

// A function's parameter, of its parameter and its result.
fn parameter(parts: (Ty, Ty)) -> Ty
    ensures { result ≡ parts.0 }
{
    let (from, _) = parts;
    from
}

// `f (g x)`
fn body_composed(alloc: Global, f: &Term, g: &Term) -> Result<Term, NoMemory>
    ensures { IfOk result (λ e. e ≡ app (shift f.now 0 1) (app (shift g.now 0 1) (var 0))) }
{
    let first = Term::app(under(alloc, g, 1)?, var(alloc, 0))?;
    Term::app(under(alloc, f, 1)?, first)
}

/// `\(x : t) . f (g x)`, where g has the type of these parts, `t -> u`
pub(crate) fn composed(alloc: Global, parts: (Ty, Ty), f: &Term, g: &Term) -> Result<Term, NoMemory>
    ensures { IfOk result (λ e. e ≡ composed parts.0 f.now g.now) }
{
    let ty = parameter(parts);
    let body = body_composed(alloc, f, g)?;
    Term::lam(alloc, ty, body)
}

// The type of functions of these parts, and the parameter.
fn with_parameter(alloc: Global, parts: (Ty, Ty)) -> Result<(Ty, Ty), NoMemory>
    ensures { IfOk result (λ p. (p.0 ≡ fun parts.0 parts.1) × (p.1 ≡ parts.0)) }
{
    let (tx, r) = parts;
    let from = tx.copy(alloc)?;
    let of = Ty::fun(alloc, from, r)?;
    Ok((of, tx))
}

// `f (h x)`
fn body_before(alloc: Global, f: &Term) -> Result<Term, NoMemory>
    ensures { IfOk result (λ e. e ≡ app (shift f.now 0 2) (app (var 1) (var 0))) }
{
    let first = Term::app(var(alloc, 1), var(alloc, 0))?;
    Term::app(under(alloc, f, 2)?, first)
}

/// `\(h : tx -> r) . \(x : tx) . f (h x)`, where the parts are tx and r
pub(crate) fn before_each(alloc: Global, parts: (Ty, Ty), f: &Term) -> Result<Term, NoMemory>
    ensures { IfOk result (λ e. e ≡ before_each (fun parts.0 parts.1) parts.0 f.now) }
{
    let body = body_before(alloc, f)?;
    let (th, tx) = with_parameter(alloc, parts)?;
    of_two(alloc, th, tx, body)
}

// `h v`
fn body_on_value(alloc: Global, v: &Term) -> Result<Term, NoMemory>
    ensures { IfOk result (λ e. e ≡ app (var 0) (shift v.now 0 1)) }
{
    let v = under(alloc, v, 1)?;
    Term::app(var(alloc, 0), v)
}

/// `\(h : th) . h v`
pub(crate) fn on_value(alloc: Global, th: Ty, v: &Term) -> Result<Term, NoMemory>
    ensures { IfOk result (λ e. e ≡ on_value th v.now) }
{
    let body = body_on_value(alloc, v)?;
    Term::lam(alloc, th, body)
}

// `h (g x)`
fn body_behind(alloc: Global, g: &Term) -> Result<Term, NoMemory>
    ensures { IfOk result (λ e. e ≡ app (var 1) (app (shift g.now 0 2) (var 0))) }
{
    let first = Term::app(under(alloc, g, 2)?, var(alloc, 0))?;
    Term::app(var(alloc, 1), first)
}

/// `\(h : th) . \(x : tx) . h (g x)`, where g has the type of these parts, `tx -> r`
pub(crate) fn behind_each(
    alloc: Global,
    th: Ty,
    parts: (Ty, Ty),
    g: &Term,
) -> Result<Term, NoMemory>
    ensures { IfOk result (λ e. e ≡ behind_each th parts.0 g.now) }
{
    let tx = parameter(parts);
    let body = body_behind(alloc, g)?;
    of_two(alloc, th, tx, body)
}

// `h (k x)`
fn body_of_each(alloc: Global) -> Result<Term, NoMemory>
    ensures { IfOk result (λ e. e ≡ app (var 2) (app (var 1) (var 0))) }
{
    let first = Term::app(var(alloc, 1), var(alloc, 0))?;
    Term::app(var(alloc, 2), first)
}

// `\(k : tx -> r) . \(x : tx) . h (k x)`, where the parts are tx and r
fn one_composed(alloc: Global, parts: (Ty, Ty)) -> Result<Term, NoMemory>
    ensures { IfOk result (λ e. e ≡ lam (fun parts.0 parts.1) (lam parts.0 (app (var 2) (app (var 1) (var 0))))) }
{
    let body = body_of_each(alloc)?;
    let (tk, tx) = with_parameter(alloc, parts)?;
    of_two(alloc, tk, tx, body)
}

/// `\(h : th) . \(k : tx -> r) . \(x : tx) . h (k x)`, where the parts are tx and r
pub(crate) fn each_composed(alloc: Global, th: Ty, parts: (Ty, Ty)) -> Result<Term, NoMemory>
    ensures { IfOk result (λ e. e ≡ each_composed th (fun parts.0 parts.1) parts.0) }
{
    let body = one_composed(alloc, parts)?;
    Term::lam(alloc, th, body)
}
