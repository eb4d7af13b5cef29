//! What the rules make of an applied type lambda, lambda and letrec.
ghost use Rattle.std.specs.Prelude.{◌≡◌, IfOk};
ghost use Rattle.chw_terms.specs.declared.rule.Rule.TheVariants.{TyBeta, Beta, AppLet};
ghost use Rattle.flow_functions.specs.AtFirst.{AnswersAnywhere};

use chw_base::{NoMemory, narrow};
use chw_terms::{Arg, Head, Term, put_type_in};
use rule_parts::copies::{arg_under, copy_group, let_one};
use std::alloc::Global;

/// A type lambda gets its type, and closed naturals are evaluated: `(/\(a : Val) . e) @t  ==>  e` with t for a.
pub(crate) fn ty_beta(alloc: Global, head: &Head, first: &Arg) -> Result<Option<Term>, NoMemory>
    ensures { IfOk result (AnswersAnywhere TyBeta head.now first.now) }
{
    let Head::TyLam(_, body) = head else {
        return Ok(None);
    };
    let Arg::OfType(ty) = first else {
        return Ok(None);
    };
    Ok(Some(put_type_in(alloc, body, ty)?))
}

/// A lambda becomes a let: `(\(x : t) . e) a  ==>  letrec { x : t = a; } in e`.
pub(crate) fn beta(alloc: Global, head: &Head, first: &Arg) -> Result<Option<Term>, NoMemory>
    ensures { IfOk result (AnswersAnywhere Beta head.now first.now) }
{
    let Head::Lam(ty, body) = head else {
        return Ok(None);
    };
    let Arg::OfTerm(of) = first else {
        return Ok(None);
    };
    let ty = ty.copy(alloc)?;
    let body = body.copy(alloc)?;
    Ok(Some(let_one(alloc, ty, of, body)?))
}

/// An argument moves into a letrec: `(letrec g in e) a  ==>  letrec g in e a`.
pub(crate) fn app_let(alloc: Global, head: &Head, first: &Arg) -> Result<Option<Term>, NoMemory>
    ensures { IfOk result (AnswersAnywhere AppLet head.now first.now) }
{
    let Head::LetRec(bindings, body) = head else {
        return Ok(None);
    };
    let binders = narrow(bindings.len())?;
    let arg = arg_under(alloc, first, binders)?;
    let body = body.copy(alloc)?;
    let inner = body.with_arg(arg)?;
    let group = copy_group(alloc, bindings)?;
    Ok(Some(Term::letrec(alloc, group, inner)?))
}
