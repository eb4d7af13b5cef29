//! The part of a term at a path.
ghost use Rattle.std.specs.Prelude.{◌≡◌, ◌≢◌, ◌<◌, ◌≤◌, length, Some, None, IfSome, MatchOption};
ghost use Rattle.chw_terms.specs.TermTree.{TermTree, letrec, case_of};
ghost use Rattle.chw_terms.specs.TermView.{terms_of, group_of, alts_of, tree_of, applied_to, applied};
ghost use Rattle.chw_typing.specs.Paths.{child, element_at, part_at};
ghost use Rattle.chw_typing.specs.PartSpines.{spine_at};
ghost use Rattle.chw_typing.specs.Steps.{LeadsTo};

use crate::zeros::zeros_in_front;
use chw_terms::{Alt, Arg, Binding, Head, Term};

/// The part at a path, if a whole spine stands there: a head with all of its arguments. The functions of an application with several
/// arguments are parts of its tree, but nothing in memory.
pub fn part<'t>(term: &'t Term, path: &[u32]) -> Option<&'t Term>
    ensures whole { MatchOption result (spine_at term.now path.now ≡ None) (λ x. spine_at term.now path.now ≡ Some x.now) }
    ensures part { IfSome result (λ x. part_at term.now path.now ≡ Some x.now) }
{
    if path.is_empty() {
        return Some(term);
    }
    let zeros = zeros_in_front(path, term.args.len());
    if zeros == path.len() {
        return None;
    }
    let next = below(&term.head, &term.args, zeros, path[zeros])?;
    part(next, &path[zeros + 1..])
}

// The spine behind so many zeros and a number. The zeros lead to the function of so many of the last arguments.
fn below<'t>(head: &'t Head, args: &'t [Arg], zeros: usize, i: u32) -> Option<&'t Term>
    requires within { zeros ≤ length args.now }
    requires ends { zeros < length args.now → i ≢ 0 }
    ensures { MatchOption result (LeadsTo (applied (tree_of head.now) args.now) zeros i None) (λ x. LeadsTo (applied (tree_of head.now) args.now) zeros i (Some x.now)) }
{
    let left = args.len() - zeros;
    if left == 0 {
        child(head, i)
    } else {
        let place = left - 1;
        argument(&args[place], i)
    }
}

// An argument, which is the child 1 of its application.
fn argument(arg: &Arg, i: u32) -> Option<&Term>
    requires { i ≢ 0 }
    ensures { MatchOption result ((f : TermTree) → child (applied_to f arg.now) i ≡ None) (λ x. (f : TermTree) → child (applied_to f arg.now) i ≡ Some x.now) }
{
    match arg {
        Arg::OfTerm(e) => { if i == 1 { Some(e) } else { None } }
        Arg::OfType(_) => None,
    }
}

// The child of a head.
fn child(head: &Head, i: u32) -> Option<&Term>
    ensures { MatchOption result (child (tree_of head.now) i ≡ None) (λ x. child (tree_of head.now) i ≡ Some x.now) }
{
    match head {
        Head::Var(_) | Head::Global(_) | Head::Made(_) => None,
        Head::Con(_) | Head::PrimOf(_) | Head::Lit(_, _) => None,
        Head::Lam(_, body) | Head::TyLam(_, body) => { if i == 0 { Some(body) } else { None } }
        Head::LetRec(bindings, body) => side_or_body(bindings, body, i),
        Head::VecLit(_, elements) => element(elements, i),
        Head::Case(on, alts) => scrutinee_or_branch(on, alts, i),
    }
}

// A right side of a group, or behind them the body.
fn side_or_body<'t>(bindings: &'t [Binding], body: &'t Term, i: u32) -> Option<&'t Term>
    ensures { MatchOption result (child (letrec (group_of bindings.now) body.now) i ≡ None) (λ x. child (letrec (group_of bindings.now) body.now) i ≡ Some x.now) }
{
    let at = i as usize;
    if at < bindings.len() {
        return Some(&bindings[at].body);
    }
    if at == bindings.len() {
        Some(body)
    } else {
        None
    }
}

fn element(elements: &[Term], i: u32) -> Option<&Term>
    ensures { MatchOption result (element_at (terms_of elements.now) i ≡ None) (λ x. element_at (terms_of elements.now) i ≡ Some x.now) }
{
    let at = i as usize;
    if at < elements.len() {
        Some(&elements[at])
    } else {
        None
    }
}

// What a case is on, or behind it an alternative.
fn scrutinee_or_branch<'t>(on: &'t Term, alts: &'t [Alt], i: u32) -> Option<&'t Term>
    ensures { MatchOption result (child (case_of on.now (alts_of alts.now)) i ≡ None) (λ x. child (case_of on.now (alts_of alts.now)) i ≡ Some x.now) }
{
    if i == 0 {
        return Some(on);
    }
    let at = i as usize - 1;
    if at < alts.len() {
        Some(&alts[at].body)
    } else {
        None
    }
}
