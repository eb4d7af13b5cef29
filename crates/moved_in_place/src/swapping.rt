//! A part that changes places with another term.
ghost use Rattle.std.specs.Prelude.{◌≢◌, ◌∷◌};
ghost use Rattle.chw_terms.specs.TermTree.{TermTree, app, letrec, case_of};
ghost use Rattle.chw_terms.specs.TermView.{group_of, alts_of, tree_of};
ghost use Rattle.chw_typing.specs.PartSpines.{IsPut};
ghost use Rattle.moved_in_place.specs.Swapped.{IsTaken, IsSwapped, IsSwappedInArg, IsSwappedInBody, IsSwappedInElements};

use crate::zeros::zeros_in_front;
use chw_terms::{Alt, Arg, Binding, Head, Term};
use std::mem;

/// Another term and the whole spine at a path change places, and the answer is whether a whole spine stands there. Where none stands there,
/// nothing changes.
pub fn swap_part(term: &mut Term, path: &[u32], other: &mut Term) -> bool
    ensures put { IsPut term.old path.now other.old term.new result }
    ensures taken { IsTaken term.old path.now other.old other.new result }
{
    swap_at(term, path, other)
}

#[cycle(swap_at)]
fn swap_at(term: &mut Term, path: &[u32], other: &mut Term) -> bool
    ensures { IsSwapped term.old path.now other.old term.new other.new result }
{
    if path.is_empty() {
        mem::swap(term, other);
        return true;
    }
    let zeros = zeros_in_front(path, term.args.len());
    if zeros == path.len() {
        return false;
    }
    let i = path[zeros];
    let rest = &path[zeros + 1..];
    let left = term.args.len() - zeros;
    if left == 0 {
        swap_in_head(&mut term.head, i, rest, other)
    } else {
        swap_in_arg(&mut term.args[left - 1], i, rest, other)
    }
}

#[cycle(swap_at)]
fn swap_in_arg(arg: &mut Arg, i: u32, rest: &[u32], other: &mut Term) -> bool
    requires { i ≢ 0 }
    ensures { IsSwappedInArg arg.old (i ∷ rest.now) other.old arg.new other.new result }
{
    match arg {
        Arg::OfTerm(e) => swap_in_term(e, i, rest, other),
        Arg::OfType(_) => false,
    }
}

// An argument, which is the child 1 of its application.
#[cycle(swap_at)]
fn swap_in_term(e: &mut Term, i: u32, rest: &[u32], other: &mut Term) -> bool
    requires { i ≢ 0 }
    ensures { (f : TermTree) → IsSwapped (app f e.old) (i ∷ rest.now) other.old (app f e.new) other.new result }
{
    if i == 1 {
        swap_at(e, rest, other)
    } else {
        false
    }
}

#[cycle(swap_at)]
fn swap_in_head(head: &mut Head, i: u32, rest: &[u32], other: &mut Term) -> bool
    ensures { IsSwapped (tree_of head.old) (i ∷ rest.now) other.old (tree_of head.new) other.new result }
{
    match head {
        Head::Lam(_, body) => swap_in_body(body, i, rest, other),
        Head::TyLam(_, body) => swap_in_body(body, i, rest, other),
        Head::LetRec(bindings, body) => swap_in_group(bindings, body, i, rest, other),
        Head::VecLit(_, elements) => swap_in_elements(elements, i, rest, other),
        Head::Case(on, alts) => swap_in_case(on, alts, i, rest, other),
        Head::Var(_)
        | Head::Global(_)
        | Head::Made(_)
        | Head::Con(_)
        | Head::PrimOf(_)
        | Head::Lit(_, _) => false,
    }
}

// The body of a lambda, which is its only child.
#[cycle(swap_at)]
fn swap_in_body(body: &mut Term, i: u32, rest: &[u32], other: &mut Term) -> bool
    ensures { IsSwappedInBody body.old (i ∷ rest.now) other.old body.new other.new result }
{
    if i == 0 {
        swap_at(body, rest, other)
    } else {
        false
    }
}

// A right side of a group, or behind them the body.
#[cycle(swap_at)]
fn swap_in_group(
    bindings: &mut [Binding],
    body: &mut Term,
    i: u32,
    rest: &[u32],
    other: &mut Term,
) -> bool
    ensures { IsSwapped (letrec (group_of bindings.old) body.old) (i ∷ rest.now) other.old (letrec (group_of bindings.new) body.new) other.new result }
{
    let side = i as usize;
    if side < bindings.len() {
        swap_at(&mut bindings[side].body, rest, other)
    } else if side == bindings.len() {
        swap_at(body, rest, other)
    } else {
        false
    }
}

#[cycle(swap_at)]
fn swap_in_elements(elements: &mut [Term], i: u32, rest: &[u32], other: &mut Term) -> bool
    ensures { IsSwappedInElements elements.old (i ∷ rest.now) other.old elements.new other.new result }
{
    let at = i as usize;
    if at < elements.len() {
        swap_at(&mut elements[at], rest, other)
    } else {
        false
    }
}

// What a case is on, or behind it an alternative.
#[cycle(swap_at)]
fn swap_in_case(on: &mut Term, alts: &mut [Alt], i: u32, rest: &[u32], other: &mut Term) -> bool
    ensures { IsSwapped (case_of on.old (alts_of alts.old)) (i ∷ rest.now) other.old (case_of on.new (alts_of alts.new)) other.new result }
{
    if i == 0 {
        return swap_at(on, rest, other);
    }
    let at = i as usize - 1;
    if at < alts.len() {
        swap_at(&mut alts[at].body, rest, other)
    } else {
        false
    }
}
