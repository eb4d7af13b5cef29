//! Letrecs, and groups without letrecs.
ghost use Rattle.std.specs.Prelude.{◌≡◌, ◌↔◌, IfNone, IfSome, IsTrue};
ghost use Rattle.chw_terms.specs.TermTree.{letrec};
ghost use Rattle.chw_terms.specs.TermView.{group_of};
ghost use Rattle.rewriting.specs.Shapes.{IsLet, NoLetIn};

use chw_terms::{Binding, Head, Term};

// Whether a term is a letrec without arguments.
pub(crate) fn is_let(term: &Term) -> bool
    ensures { IsTrue result ↔ IsLet term.now }
{
    if !term.args.is_empty() {
        return false;
    }
    matches!(term.head, Head::LetRec(_, _))
}

// Whether no right side is a letrec.
pub(crate) fn has_no_let(group: &[Binding]) -> bool
    ensures { IsTrue result → NoLetIn (group_of group.now) }
{
    for binding in group {
        if is_let(&binding.body) {
            return false;
        }
    }
    true
}

// A letrec and its body, where the term is a letrec without arguments.
#[derive(Clone, Copy)]
pub(crate) struct Letrec<'a> {
    pub(crate) group: &'a [Binding],
    pub(crate) body: &'a Term,
}

pub(crate) fn as_let(term: &Term) -> Option<Letrec<'_>>
    ensures { IfSome result (λ it. term.now ≡ letrec (group_of it.group.now) it.body.now) }
{
    if !term.args.is_empty() {
        return None;
    }
    let Head::LetRec(group, body) = &term.head else {
        return None;
    };
    Some(Letrec {
        group: group.as_slice(),
        body,
    })
}

// The group and the body of a letrec.
pub(crate) fn take_let(term: Term) -> (Vec<Binding>, Term)
    requires { IsLet term }
    ensures { term ≡ letrec (group_of result.0.items) result.1 }
{
    let Term { head, args: _ } = term;
    match head {
        Head::LetRec(group, body) => (group, Box::into_inner(body)),
        _ => unreachable!(),
    }
}
