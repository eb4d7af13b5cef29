//! Letrecs in a letrec.
ghost use Rattle.std.specs.Prelude.{◌≡◌, IfSome, IfNone};
ghost use Rattle.chw_terms.specs.TermTree.{letrec};
ghost use Rattle.chw_terms.specs.TermView.{group_of};
ghost use Rattle.rewriting.specs.Shapes.{IsLet, NoLetIn};
ghost use Rattle.flow_lets.specs.Parts.{IsParted};

use chw_terms::{Binding, Head, Term};
use chw_types::Ty;

/// A letrec: its bindings, and its body.
#[derive(Clone, Copy)]
pub(crate) struct Inner<'a> {
    pub(crate) group: &'a [Binding],
    pub(crate) body: &'a Term,
}

/// A group in which a right side is a letrec: the bindings before the first one that has such a right side, its type, the letrec, and the
/// bindings behind it.
#[derive(Clone, Copy)]
pub(crate) struct Parted<'a> {
    pub(crate) front: &'a [Binding],
    pub(crate) ty: &'a Ty,
    pub(crate) inner: Inner<'a>,
    pub(crate) back: &'a [Binding],
}

/// The term as a letrec, where it is one.
pub(crate) fn as_letrec(term: &Term) -> Option<Inner<'_>>
    ensures some { IfSome result (λ it. term.now ≡ letrec (group_of it.group.now) it.body.now) }
    ensures none { IfNone result (IsLet term.now → ⊥) }
{
    if !term.args.is_empty() {
        return None;
    }
    let Head::LetRec(group, body) = &term.head else {
        return None;
    };
    Some(Inner {
        group: group.as_slice(),
        body,
    })
}

/// The parts of a group around its first right side that is a letrec. Nothing comes exactly where none is one.
pub(crate) fn first_let(group: &[Binding]) -> Option<Parted<'_>>
    ensures some { IfSome result (λ it. IsParted (group_of group.now) (group_of it.front.now) it.ty.now (group_of it.inner.group.now) it.inner.body.now (group_of it.back.now)) }
    ensures none { IfNone result (NoLetIn (group_of group.now)) }
{
    for (i, binding) in group.iter().enumerate() {
        if let Some(inner) = as_letrec(&binding.body) {
            return Some(Parted {
                front: &group[..i],
                ty: &binding.ty,
                inner,
                back: &group[i + 1..],
            });
        }
    }
    None
}
