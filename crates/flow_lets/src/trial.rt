//! The rule that joins letrecs, tried on a term at a place.
ghost use Rattle.std.specs.Prelude.{◌↔◌, IfOk, IsTrue};
ghost use Rattle.chw_terms.specs.TermTree.{letrec};
ghost use Rattle.chw_terms.specs.TermView.{group_of};
ghost use Rattle.rewriting.specs.Origins.{Origins};
ghost use Rattle.rewriting.specs.Spots.{Spot, spot_of};
ghost use Rattle.rewriting.specs.Shapes.{IsOfHead};
ghost use Rattle.flow_lets.specs.Flat.{AnswersFlat, AnswersLetrec, JoinsAt, JoinsCore};

use crate::joining::{letrec_with_body, letrec_with_side};
use crate::parts::{as_letrec, first_let};
use chw_base::NoMemory;
use chw_terms::{Binding, Head, Mode, Place, Term};
use rule_parts::copies::with_rest;
use std::alloc::Global;

// Whether the place is the head of a value or of a circuit.
fn is_of_head(mode: Mode) -> bool
    ensures { IsTrue result ↔ IsOfHead mode }
{
    matches!(mode, Mode::HV | Mode::HC)
}

// What the rule makes of a letrec. The first right side that is a letrec joins it:
// `letrec { front; x = letrec cs in e; back } in b  ==>  letrec { front; cs; x = e; back } in b`.
// Where there is none, a body that is one does: `letrec g in letrec cs in e  ==>  letrec { g; cs } in e`.
fn flat(alloc: Global, group: &[Binding], body: &Term) -> Result<Option<Term>, NoMemory>
    ensures { IfOk result (AnswersLetrec (letrec (group_of group.now) body.now)) }
{
    if let Some(parts) = first_let(group) {
        return Ok(Some(letrec_with_side(alloc, &parts, body)?));
    }
    let Some(inner) = as_letrec(body) else {
        return Ok(None);
    };
    Ok(Some(letrec_with_body(alloc, group, &inner)?))
}

// Whether the rule makes something of a letrec: a right side is a letrec, or the body is one.
fn joins_letrec(group: &[Binding], body: &Term) -> bool
    ensures { (o : Origins) (at : Spot) → (IsOfHead at.mode → ⊥) → IsTrue result ↔ JoinsCore o at (letrec (group_of group.now) body.now) }
{
    if let Some(_) = first_let(group) {
        return true;
    }
    let Some(_) = as_letrec(body) else {
        return false;
    };
    true
}

/// Whether the rule that joins letrecs makes something of a term at a place. Nothing is made.
pub fn joins(at: &Term, place: &Place) -> bool
    ensures { (o : Origins) → IsTrue result ↔ JoinsAt o (spot_of place.now) at.now }
{
    if is_of_head(place.mode) {
        return false;
    }
    let Head::LetRec(group, body) = &at.head else {
        return false;
    };
    joins_letrec(group, body)
}

/// What the rule that joins letrecs makes of a term at a place: of its head, and the arguments stay behind. Nothing comes exactly where
/// the rule makes nothing of it; so always at the head of a value or of a circuit.
///
/// Where a number would pass 32 bits, the answer is want of memory.
pub fn try_lets(alloc: Global, at: &Term, place: &Place) -> Result<Option<Term>, NoMemory>
    ensures { IfOk result (AnswersFlat (spot_of place.now) at.now) }
{
    if is_of_head(place.mode) {
        return Ok(None);
    }
    let Head::LetRec(group, body) = &at.head else {
        return Ok(None);
    };
    let made = flat(alloc, group, body)?;
    with_rest(alloc, made, &at.args)
}
