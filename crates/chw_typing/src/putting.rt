//! Another term in the place of a part.
ghost use Rattle.std.specs.Prelude.{◌≢◌, ◌∷◌};
ghost use Rattle.chw_terms.specs.TermTree.{TermTree, app, letrec, case_of};
ghost use Rattle.chw_terms.specs.TermView.{group_of, alts_of, tree_of};
ghost use Rattle.chw_typing.specs.PartSpines.{IsPut};
ghost use Rattle.chw_typing.specs.Steps.{IsPutInArg, IsPutInBody, IsPutInElements};

use crate::zeros::zeros_in_front;
use chw_terms::{Alt, Arg, Binding, Head, Term};

/// Puts another term at a path, if a whole spine stands there, and says whether one does. Nothing else of the term is touched. Where
/// none stands there, nothing changes.
#[cycle(set_part)]
pub fn set_part(term: &mut Term, path: &[u32], other: Term) -> bool
    ensures { IsPut term.old path.now other term.new result }
{
    if path.is_empty() {
        *term = other;
        return true;
    }
    let zeros = zeros_in_front(path, term.args.len());
    if zeros == path.len() {
        drop(other);
        return false;
    }
    let i = path[zeros];
    let rest = &path[zeros + 1..];
    let left = term.args.len() - zeros;
    if left == 0 {
        set_in_head(&mut term.head, i, rest, other)
    } else {
        set_in_arg(&mut term.args[left - 1], i, rest, other)
    }
}

#[cycle(set_part)]
fn set_in_arg(arg: &mut Arg, i: u32, rest: &[u32], other: Term) -> bool
    requires { i ≢ 0 }
    ensures { IsPutInArg arg.old (i ∷ rest.now) other arg.new result }
{
    match arg {
        Arg::OfTerm(e) => set_in_term(e, i, rest, other),
        Arg::OfType(_) => {
            drop(other);
            false
        }
    }
}

// An argument, which is the child 1 of its application.
#[cycle(set_part)]
fn set_in_term(e: &mut Term, i: u32, rest: &[u32], other: Term) -> bool
    requires { i ≢ 0 }
    ensures { (f : TermTree) → IsPut (app f e.old) (i ∷ rest.now) other (app f e.new) result }
{
    if i == 1 {
        set_part(e, rest, other)
    } else {
        drop(other);
        false
    }
}

#[cycle(set_part)]
fn set_in_head(head: &mut Head, i: u32, rest: &[u32], other: Term) -> bool
    ensures { IsPut (tree_of head.old) (i ∷ rest.now) other (tree_of head.new) result }
{
    match head {
        Head::Lam(_, body) => set_in_body(body, i, rest, other),
        Head::TyLam(_, body) => set_in_body(body, i, rest, other),
        Head::LetRec(bindings, body) => set_in_group(bindings, body, i, rest, other),
        Head::VecLit(_, elements) => set_in_elements(elements, i, rest, other),
        Head::Case(on, alts) => set_in_case(on, alts, i, rest, other),
        Head::Var(_)
        | Head::Global(_)
        | Head::Made(_)
        | Head::Con(_)
        | Head::PrimOf(_)
        | Head::Lit(_, _) => {
            drop(other);
            false
        }
    }
}

// The body of a lambda, which is its only child.
#[cycle(set_part)]
fn set_in_body(body: &mut Term, i: u32, rest: &[u32], other: Term) -> bool
    ensures { IsPutInBody body.old (i ∷ rest.now) other body.new result }
{
    if i == 0 {
        set_part(body, rest, other)
    } else {
        drop(other);
        false
    }
}

// A right side of a group, or behind them the body.
#[cycle(set_part)]
fn set_in_group(
    bindings: &mut [Binding],
    body: &mut Term,
    i: u32,
    rest: &[u32],
    other: Term,
) -> bool
    ensures { IsPut (letrec (group_of bindings.old) body.old) (i ∷ rest.now) other (letrec (group_of bindings.new) body.new) result }
{
    let side = i as usize;
    if side < bindings.len() {
        set_part(&mut bindings[side].body, rest, other)
    } else if side == bindings.len() {
        set_part(body, rest, other)
    } else {
        drop(other);
        false
    }
}

#[cycle(set_part)]
fn set_in_elements(elements: &mut [Term], i: u32, rest: &[u32], other: Term) -> bool
    ensures { IsPutInElements elements.old (i ∷ rest.now) other elements.new result }
{
    let at = i as usize;
    if at < elements.len() {
        set_part(&mut elements[at], rest, other)
    } else {
        drop(other);
        false
    }
}

// What a case is on, or behind it an alternative.
#[cycle(set_part)]
fn set_in_case(on: &mut Term, alts: &mut [Alt], i: u32, rest: &[u32], other: Term) -> bool
    ensures { IsPut (case_of on.old (alts_of alts.old)) (i ∷ rest.now) other (case_of on.new (alts_of alts.new)) result }
{
    if i == 0 {
        return set_part(on, rest, other);
    }
    let at = i as usize - 1;
    if at < alts.len() {
        set_part(&mut alts[at].body, rest, other)
    } else {
        drop(other);
        false
    }
}
