//! Whether a variable occurs in a term.
ghost use Rattle.std.specs.Prelude.{◌≡◌, ◌+◌, ◌-◌, ◌^◌, min};
ghost use Rattle.chw_terms.specs.TermTree.{var};
ghost use Rattle.chw_terms.specs.TermView.{tree_of};
ghost use Rattle.chw_terms.specs.Occurs.{occurs};
ghost use Rattle.chw_terms.specs.Sought.{Found, occurs_in};

use crate::term::{Arg, Head, Term};
use chw_base::VarIx;

/// Whether the variable occurs free in the term. It takes no memory.
pub fn occurs(t: &Term, v: VarIx) -> bool
    ensures { result ≡ occurs t.now v.number }
{
    occurs_at(t, u64::from(v.number))
}

// The place under so many more binders. No variable stands at the greatest place, or above it.
fn deeper(place: u64, binders: u64) -> u64
    ensures { result ≡ min (place + binders) (2 ^ 64 - 1) }
{
    place.saturating_add(binders)
}

// Whether a variable is the one that is sought.
fn is_at(x: VarIx, v: u64) -> bool
    ensures { Found (occurs (var x.number)) v result }
{
    u64::from(x.number) == v
}

#[cycle(occurs_at)]
fn occurs_at(t: &Term, v: u64) -> bool
    ensures { Found (occurs t.now) v result }
{
    if occurs_in_head(&t.head, v) {
        return true;
    }
    for a in &t.args {
        if occurs_in_arg(a, v) {
            return true;
        }
    }
    false
}

#[cycle(occurs_at)]
fn occurs_in_arg(arg: &Arg, v: u64) -> bool
    ensures { Found (occurs_in arg.now) v result }
{
    match arg {
        Arg::OfTerm(e) => occurs_at(e, v),
        Arg::OfType(_) => false,
    }
}

#[cycle(occurs_at)]
#[tactic(auto, unfolding(crate::specs::Occurs::occurs))]
fn occurs_in_head(head: &Head, v: u64) -> bool
    ensures { Found (occurs (tree_of head.now)) v result }
{
    match head {
        Head::Var(x) => is_at(*x, v),
        Head::Global(_) | Head::Made(_) | Head::Con(_) | Head::PrimOf(_) | Head::Lit(_, _) => false,
        Head::Lam(_, body) => occurs_at(body, deeper(v, 1)),
        Head::TyLam(_, body) => occurs_at(body, v),
        Head::LetRec(bindings, body) => {
            let inner = deeper(v, bindings.len() as u64);
            if occurs_at(body, inner) {
                return true;
            }
            for b in bindings {
                if occurs_at(&b.body, inner) {
                    return true;
                }
            }
            false
        }
        Head::VecLit(_, elements) => {
            for e in elements {
                if occurs_at(e, v) {
                    return true;
                }
            }
            false
        }
        Head::Case(on, alts) => {
            if occurs_at(on, v) {
                return true;
            }
            for a in alts {
                let inner = deeper(v, u64::from(a.pattern.binders()));
                if occurs_at(&a.body, inner) {
                    return true;
                }
            }
            false
        }
    }
}
