//! Letrecs in a letrec.
ghost use Rattle.std.specs.Prelude.{◌≡◌, ◌↔◌, IsTrue};
ghost use Rattle.chw_terms.specs.TermTree.{letrec};
ghost use Rattle.chw_terms.specs.TermView.{group_of};
ghost use Rattle.rewriting.specs.Shapes.{IsLet};
ghost use Rattle.moved_in_place.specs.Joined.{IsFirstLet};

use chw_base::VarIx;
use chw_terms::{Binding, Head, Term};
use std::alloc::Global;
use std::mem;

// Whether the term is a letrec.
pub(crate) fn is_let(term: &Term) -> bool
    ensures { IsTrue result ↔ IsLet term.now }
{
    if !term.args.is_empty() {
        return false;
    }
    matches!(term.head, Head::LetRec(_, _))
}

// The number of the first right side that is a letrec, or how many there are where none is.
pub(crate) fn first_let(group: &[Binding]) -> usize
    ensures { IsFirstLet group.now result }
{
    for (i, binding) in group.iter().enumerate() {
        if is_let(&binding.body) {
            return i;
        }
    }
    group.len()
}

// The term, with a variable in its place.
fn take_term(alloc: Global, term: &mut Term) -> Term
    ensures { result ≡ term.old }
{
    mem::replace(term, Term::var(alloc, VarIx { number: 0 }))
}

// The group of a letrec, of which the body comes into its place.
pub(crate) fn take_group(alloc: Global, term: &mut Term) -> Vec<Binding>
    requires { IsLet term.old }
    ensures { term.old ≡ letrec (group_of result.items) term.new }
{
    let Term { head, args: _ } = take_term(alloc, term);
    match head {
        Head::LetRec(group, body) => {
            let put = mem::replace(term, Box::into_inner(body));
            drop(put);
            group
        }
        _ => unreachable!(),
    }
}
