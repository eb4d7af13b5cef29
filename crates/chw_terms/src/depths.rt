//! How deep a term or a type nests.
ghost use Rattle.std.specs.Prelude.{◌≡◌, ◌+◌, max};
ghost use Rattle.chw_types.specs.Polynomials.{ended};
ghost use Rattle.chw_terms.specs.TermView.{tree_of};
ghost use Rattle.chw_terms.specs.Depth.{depth, type_depth, parts_depth};
ghost use Rattle.chw_terms.specs.Deepest.{arg_depth};

use crate::term::{Arg, Head, Term};
use chw_types::{Ty, TyNode};

/// The depth of a term: 1 where it has no parts, and else one more than that of its deepest part. The parts of a head with arguments are
/// the head and all arguments, terms and types, so that a spine counts one level; the types of lambdas, of bindings and of elements are
/// parts too; and a natural counts 1 however it is written.
///
/// It takes no memory. A depth over 4,294,967,295 is shown as that number.
pub fn depth(t: &Term) -> u32
    ensures { result ≡ ended (depth t.now) }
{
    one_more(parts(t))
}

// One level more.
fn one_more(depth: u32) -> u32
    ensures { result ≡ ended (depth + 1) }
{
    depth.saturating_add(1)
}

// The deeper of two.
fn deeper(a: u32, b: u32) -> u32
    ensures { result ≡ max a b }
{
    if a < b { b } else { a }
}

// The depth of a type.
#[tactic(auto, unfolding(crate::specs::Depth::type_depth))]
fn type_depth(t: &Ty) -> u32
    ensures { result ≡ ended (type_depth t.now) }
{
    match &t.node {
        TyNode::Var(_) | TyNode::NatLit(_) | TyNode::DomOf(_) => 1,
        TyNode::Sum(_, _) | TyNode::Times(_, _) => 1,
        TyNode::Unsigned(part)
        | TyNode::Signed(part)
        | TyNode::BitVector(part)
        | TyNode::Forall(_, part) => one_more(type_depth(part)),
        TyNode::Vec(a, b) | TyNode::Fun(a, b) | TyNode::Signal(a, b) => {
            one_more(deeper(type_depth(a), type_depth(b)))
        }
        TyNode::DataOf(_, args) => {
            let mut deepest = 0;
            for arg in args {
                deepest = deeper(deepest, type_depth(arg));
            }
            one_more(deepest)
        }
    }
}

// The depth of the deepest part, 0 where there is none.
#[cycle(parts)]
fn parts(t: &Term) -> u32
    ensures { result ≡ ended (parts_depth t.now) }
{
    let of_head = parts_of_head(&t.head);
    if t.args.is_empty() {
        return of_head;
    }
    let mut deepest = one_more(of_head);
    for a in &t.args {
        deepest = deeper(deepest, arg_depth(a));
    }
    deepest
}

#[cycle(parts)]
fn arg_depth(arg: &Arg) -> u32
    ensures { result ≡ ended (arg_depth arg.now) }
{
    match arg {
        Arg::OfTerm(e) => one_more(parts(e)),
        Arg::OfType(t) => type_depth(t),
    }
}

#[cycle(parts)]
#[tactic(auto, unfolding(crate::specs::Depth::parts_depth))]
fn parts_of_head(head: &Head) -> u32
    ensures { result ≡ ended (parts_depth (tree_of head.now)) }
{
    match head {
        Head::Var(_) | Head::Global(_) | Head::Made(_) => 0,
        Head::Con(_) | Head::PrimOf(_) | Head::Lit(_, _) => 0,
        Head::Lam(ty, body) => deeper(type_depth(ty), one_more(parts(body))),
        Head::TyLam(_, body) => one_more(parts(body)),
        Head::LetRec(bindings, body) => {
            let mut deepest = 0;
            for b in bindings {
                let one = deeper(type_depth(&b.ty), one_more(parts(&b.body)));
                deepest = deeper(deepest, one);
            }
            deeper(deepest, one_more(parts(body)))
        }
        Head::VecLit(ty, elements) => {
            let mut deepest = 0;
            for e in elements {
                deepest = deeper(deepest, one_more(parts(e)));
            }
            deeper(type_depth(ty), deepest)
        }
        Head::Case(on, alts) => {
            let mut deepest = 0;
            for a in alts {
                deepest = deeper(deepest, one_more(parts(&a.body)));
            }
            deeper(one_more(parts(on)), deepest)
        }
    }
}
