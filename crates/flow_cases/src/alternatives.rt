//! Alternatives: which one takes a scrutinee, and moving them under binders.
ghost use Rattle.std.specs.Prelude.{◌≡◌, ◌↔◌, IfOk, IsTrue, MatchOption};
ghost use Rattle.chw_terms.specs.TermView.{alts_of};
ghost use Rattle.chw_typing.specs.Alternatives.{Hides};
ghost use Rattle.rewriting.specs.Shapes.{shift_alts};
ghost use Rattle.flow_cases.specs.Moves.{alt_under};
ghost use Rattle.flow_cases.specs.Taken.{pattern_of, IsLoneDefault, NoneTakes, Takes};

use chw_base::{ConId, NoMemory, VarIx};
use chw_bits::Bits;
use chw_terms::{Alt, Pattern, Scalar, Term, shift};
use std::alloc::Global;

/// What is known of a scrutinee: that it is a constructor with so many fields, or a literal.
#[derive(Clone, Copy)]
pub(crate) enum Known<'t> {
    Constructor(ConId, usize),
    Literal(Scalar, &'t Bits),
}

// Whether a pattern is for what is known.
fn takes(pattern: &Pattern, known: Known<'_>) -> bool
    ensures { IsTrue result ↔ Hides pattern.now (pattern_of known.entry) }
{
    match (pattern, known) {
        (Pattern::Default, _) => true,
        (Pattern::OfCon(at, _), Known::Constructor(con, _)) => at.number == con.number,
        (Pattern::OfLit(sort, bits), Known::Literal(of, word)) => *sort == of && *bits == *word,
        _ => false,
    }
}

/// The first alternative that takes what is known.
pub(crate) fn first_taking<'a>(alts: &'a [Alt], known: Known<'_>) -> Option<&'a Alt>
    ensures { MatchOption result (NoneTakes known.entry alts.now) (λ a. Takes known.entry alts.now a.now) }
{
    for alt in alts {
        if takes(&alt.pattern, known) {
            return Some(alt);
        }
    }
    None
}

/// The body of a default, where there is no other alternative.
pub(crate) fn lone_default(alts: &[Alt]) -> Option<&Term>
    ensures { MatchOption result ((f : _) → IsLoneDefault alts.now f → ⊥) (λ f. IsLoneDefault alts.now f.now) }
{
    let Some((only, others)) = alts.split_first() else {
        return None;
    };
    if !others.is_empty() {
        return None;
    }
    match only.pattern {
        Pattern::Default => Some(&only.body),
        _ => None,
    }
}

// An alternative under so many more binders.
fn alt_under(alloc: Global, alt: &Alt, by: u32) -> Result<Alt, NoMemory>
    ensures { IfOk result (λ made. made ≡ alt_under by alt.now) }
{
    let at = VarIx {
        number: alt.pattern.binders(),
    };
    let pattern = alt.pattern.copy(alloc)?;
    let body = shift(alloc, &alt.body, at, by)?;
    Ok(Alt { pattern, body })
}

/// The alternatives under so many more binders.
pub(crate) fn alts_under(alloc: Global, alts: &[Alt], by: u32) -> Result<Vec<Alt>, NoMemory>
    ensures { IfOk result (λ made. alts_of made.items ≡ shift_alts (alts_of alts.now) 0 by) }
{
    let mut done = Vec::new(alloc);
    for alt in alts {
        done.push(alt_under(alloc, alt, by)?)?;
    }
    Ok(done)
}
