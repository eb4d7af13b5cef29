//! Alternatives of a case on a variable.
ghost use Rattle.std.specs.Prelude.{◌≡◌, ◌↔◌, ℕ, IsTrue, MatchOption};
ghost use Rattle.chw_terms.specs.TermTree.{var};
ghost use Rattle.chw_terms.specs.TermView.{alts_of};
ghost use Rattle.rewriting.specs.Shapes.{IsVariable, IsDefaultOrNone};
ghost use Rattle.quiet_sides.specs.Quiet.{IsProjection, IsOfMany};
ghost use Rattle.quiet_sides.specs.Tests.{GiveVariables, QuietAlternatives};

use crate::names::is_variable;
use chw_terms::{Alt, Head, Pattern, Term};

// The variable that a term is.
fn variable_of(term: &Term) -> Option<u32>
    ensures { MatchOption result ((x : ℕ) → term.now ≡ var x → ⊥) (λ x. term.now ≡ var x) }
{
    if !term.args.is_empty() {
        return None;
    }
    match &term.head {
        Head::Var(at) => Some(at.number),
        _ => None,
    }
}

// Whether alternatives take one part out of a constructor.
fn is_projection(alts: &[Alt]) -> bool
    ensures { IsTrue result ↔ IsProjection (alts_of alts.now) }
{
    let [alt] = alts else {
        return false;
    };
    let Pattern::OfCon(_, fields) = &alt.pattern else {
        return false;
    };
    match variable_of(&alt.body) {
        Some(field) => field < *fields,
        None => false,
    }
}

// Whether there is no alternative, or a default alone.
fn is_default_or_none(alts: &[Alt]) -> bool
    ensures { IsTrue result ↔ IsDefaultOrNone (alts_of alts.now) }
{
    match alts {
        [] => true,
        [alt] => matches!(&alt.pattern, Pattern::Default),
        _ => false,
    }
}

// Whether the first alternative is for a literal, or for a constructor and more follow than a default.
fn is_of_many(alts: &[Alt]) -> bool
    ensures { IsTrue result ↔ IsOfMany (alts_of alts.now) }
{
    let [first, more @ ..] = alts else {
        return false;
    };
    match &first.pattern {
        Pattern::OfLit(_, _) => true,
        Pattern::OfCon(_, _) => !is_default_or_none(more),
        Pattern::Default => false,
    }
}

// Whether each alternative gives a variable.
fn give_variables(alts: &[Alt]) -> bool
    ensures { IsTrue result ↔ GiveVariables alts.now }
{
    for alt in alts {
        if !is_variable(&alt.body) {
            return false;
        }
    }
    true
}

/// Whether a case with these alternatives on a variable is quiet.
pub(crate) fn are_quiet(alts: &[Alt]) -> bool
    ensures { IsTrue result ↔ QuietAlternatives alts.now }
{
    is_projection(alts) || is_of_many(alts) && give_variables(alts)
}
