//! Functions on signals, as rules see them.
ghost use Rattle.std.specs.Prelude.{◌≡◌, ◌↔◌, [], ◌∷◌, IsTrue, MatchOption};
ghost use Rattle.chw_types.specs.TypeTree.{TypeTree};
ghost use Rattle.chw_prims.specs.declared.prim.Primitive.{Primitive};
ghost use Rattle.chw_prims.specs.declared.prim.Primitive.TheVariants.{Fmap, Ap, Pure};
ghost use Rattle.chw_terms.specs.TermTree.{TermTree, prim};
ghost use Rattle.chw_terms.specs.TermView.{tree_of, applied};
ghost use Rattle.chw_typing.specs.Given.{types_then};
ghost use Rattle.rewriting.specs.Shapes.{fmap_of, ap_of, pure_of};

use chw_prims::Prim;
use chw_terms::{Arg, Head, Term};
use chw_types::Ty;

/// A function of one type from another, on a signal of a domain: of `fmap` a function of values, of `ap` a signal of functions.
#[derive(Clone, Copy)]
pub(crate) struct Lifted<'t> {
    pub(crate) dom: &'t Ty,
    pub(crate) from: &'t Ty,
    pub(crate) to: &'t Ty,
    pub(crate) function: &'t Term,
    pub(crate) signal: &'t Term,
}

// Three types and two terms as arguments.
fn as_lifted<'t>(args: &'t [Arg]) -> Option<Lifted<'t>>
    ensures { MatchOption result ((d a b : TypeTree) (f s : TermTree) → args.now ≡ types_then (d ∷ a ∷ b ∷ []) (f ∷ s ∷ []) → ⊥) (λ l. args.now ≡ types_then (l.dom.now ∷ l.from.now ∷ l.to.now ∷ []) (l.function.now ∷ l.signal.now ∷ [])) }
{
    match args {
        [
            Arg::OfType(dom),
            Arg::OfType(from),
            Arg::OfType(to),
            Arg::OfTerm(function),
            Arg::OfTerm(signal),
        ] => Some(Lifted {
            dom,
            from,
            to,
            function,
            signal,
        }),
        _ => None,
    }
}

// Whether a primitive is `fmap`, `ap` or `pure`.
fn is_fmap(which: Prim) -> bool
    ensures { IsTrue result ↔ (which ≡ Fmap) }
{
    match which {
        Prim::Fmap => true,
        _ => false,
    }
}

fn is_ap(which: Prim) -> bool
    ensures { IsTrue result ↔ (which ≡ Ap) }
{
    match which {
        Prim::Ap => true,
        _ => false,
    }
}

fn is_pure(which: Prim) -> bool
    ensures { IsTrue result ↔ (which ≡ Pure) }
{
    match which {
        Prim::Pure => true,
        _ => false,
    }
}

// The primitive that a head is.
fn primitive(head: &Head) -> Option<Prim>
    ensures { MatchOption result ((p : Primitive) → tree_of head.now ≡ prim p → ⊥) (λ p. tree_of head.now ≡ prim p) }
{
    match head {
        Head::PrimOf(which) => Some(*which),
        _ => None,
    }
}

/// `fmap @dom @from @to function signal`, and no further arguments.
pub(crate) fn as_fmap<'t>(head: &Head, args: &'t [Arg]) -> Option<Lifted<'t>>
    ensures { MatchOption result ((d a b : TypeTree) (f s : TermTree) → applied (tree_of head.now) args.now ≡ fmap_of d a b f s → ⊥) (λ l. applied (tree_of head.now) args.now ≡ fmap_of l.dom.now l.from.now l.to.now l.function.now l.signal.now) }
{
    let Some(which) = primitive(head) else {
        return None;
    };
    if is_fmap(which) {
        as_lifted(args)
    } else {
        None
    }
}

/// `ap @dom @from @to function signal`, and no further arguments.
pub(crate) fn as_ap<'t>(head: &Head, args: &'t [Arg]) -> Option<Lifted<'t>>
    ensures { MatchOption result ((d a b : TypeTree) (f s : TermTree) → applied (tree_of head.now) args.now ≡ ap_of d a b f s → ⊥) (λ l. applied (tree_of head.now) args.now ≡ ap_of l.dom.now l.from.now l.to.now l.function.now l.signal.now) }
{
    let Some(which) = primitive(head) else {
        return None;
    };
    if is_ap(which) { as_lifted(args) } else { None }
}

// Two types and a term as arguments: the term.
fn as_constant(args: &[Arg]) -> Option<&Term>
    ensures { MatchOption result ((d a : TypeTree) (v : TermTree) → args.now ≡ types_then (d ∷ a ∷ []) (v ∷ []) → ⊥) (λ v. (d a : TypeTree) × (args.now ≡ types_then (d ∷ a ∷ []) (v.now ∷ []))) }
{
    match args {
        [Arg::OfType(_), Arg::OfType(_), Arg::OfTerm(value)] => Some(value),
        _ => None,
    }
}

/// The value of `pure @dom @of value`, and no further arguments.
pub(crate) fn as_pure(term: &Term) -> Option<&Term>
    ensures { MatchOption result ((d a : TypeTree) (v : TermTree) → term.now ≡ pure_of d a v → ⊥) (λ v. (d a : TypeTree) × (term.now ≡ pure_of d a v.now)) }
{
    let Some(which) = primitive(&term.head) else {
        return None;
    };
    if is_pure(which) {
        as_constant(&term.args)
    } else {
        None
    }
}
