//! What the rule makes of a case on a case.
ghost use Rattle.std.specs.Prelude.{◌≡◌, ◌↔◌, [], reverse, IfOk, IsTrue};
ghost use Rattle.chw_types.specs.References.{HasNoCycle};
ghost use Rattle.chw_terms.specs.declared.rule.Rule.TheVariants.{CaseCase};
ghost use Rattle.chw_terms.specs.TermTree.{case_of, binders};
ghost use Rattle.chw_terms.specs.TermView.{alts_of};
ghost use Rattle.chw_typing.specs.Scopes.{setting_in};
ghost use Rattle.chw_typing.specs.Groups.{each_body};
ghost use Rattle.rewriting.specs.Named.{IsNamed};
ghost use Rattle.rewriting.specs.Origins.{origins_of};
ghost use Rattle.rewriting.specs.Spots.{spot_of};
ghost use Rattle.rewriting.specs.Shapes.{shift_alts};
ghost use Rattle.term_types.specs.Answers.{IsReady};
ghost use Rattle.term_frames.specs.Signatures.{IsSignature};
ghost use Rattle.flow_cases.specs.Answered.{AnswersCase};
ghost use Rattle.flow_cases.specs.Moves.{looked_at};

use crate::alternatives::alts_under;
use crate::parts::bare_head;
use chw_base::NoMemory;
use chw_terms::{Alt, Head, Mode, Place, Scene, Term};
use chw_types::{Data, Ty};
use chw_typing::found_laws::found_is_type;
use chw_typing::laws::{one_type, types_are_term_types};
use rewriting::scene_laws::{names_of_modes, settings_of_scenes};
use rule_parts::named::is_named;
use std::alloc::Global;
use term_types::{Signature, type_in_scope};

// The body of an alternative, which is looked at by a case with these alternatives.
fn body_looked_at(alloc: Global, alt: &Alt, outer: &[Alt]) -> Result<Term, NoMemory>
    ensures { IfOk result (λ e. e ≡ case_of alt.now.body (shift_alts (alts_of outer.now) 0 (binders alt.now.pattern))) }
{
    let inside = alts_under(alloc, outer, alt.pattern.binders())?;
    let body = alt.body.copy(alloc)?;
    Term::case(alloc, body, inside)
}

// An alternative whose body is looked at by a case with these alternatives.
fn looked_at(alloc: Global, alt: &Alt, outer: &[Alt]) -> Result<Alt, NoMemory>
    ensures { IfOk result (λ made. made ≡ looked_at outer.now alt.now) }
{
    let body = body_looked_at(alloc, alt, outer)?;
    let pattern = alt.pattern.copy(alloc)?;
    Ok(Alt { pattern, body })
}

// A case whose alternatives are looked at by a case each.
fn each_looked_at(alloc: Global, on: &Term, inner: &[Alt], outer: &[Alt]) -> Result<Term, NoMemory>
    ensures { IfOk result (λ e. e ≡ case_of on.now (each_body (λ n f. case_of f (shift_alts (alts_of outer.now) 0 n)) (alts_of inner.now))) }
{
    let mut done = Vec::new(alloc);
    for alt in inner {
        done.push(looked_at(alloc, alt, outer)?)?;
    }
    let on = on.copy(alloc)?;
    Term::case(alloc, on, done)
}

// Whether a type that is used no more is named in a mode.
fn is_type_named(alloc: Global, datas: &[Data], mode: Mode, ty: Ty) -> Result<bool, NoMemory>
    requires { HasNoCycle datas.now }
    ensures { IfOk result (λ is. IsTrue is ↔ IsNamed datas.now mode ty) }
{
    let outcome = is_named(alloc, datas, mode, &ty);
    drop(ty);
    outcome
}

/// A case whose type isn't named moves out of a scrutinee.
pub(crate) fn case_case(
    alloc: Global,
    scene: &Scene,
    signature: &Signature,
    place: &Place,
    on: &Term,
    alts: &[Alt],
) -> Result<Option<Term>, NoMemory>
    requires ready { IsReady (setting_in scene.now) [] (reverse place.now.vars) }
    requires order { HasNoCycle scene.now.program.now.datas }
    requires table { IsSignature scene.now.program.now signature.now }
    ensures { IfOk result (AnswersCase (origins_of scene.now) (spot_of place.now) CaseCase on.now alts.now) }
{
    // case (case e of inner) of alts  ==>  case e of inner, with a case of alts on each alternative
    let Some(head) = bare_head(on) else {
        return Ok(None);
    };
    let Head::Case(first, inner) = head else {
        return Ok(None);
    };
    settings_of_scenes();
    names_of_modes();
    types_are_term_types();
    one_type();
    found_is_type();
    let Some(ty) = type_in_scope(alloc, scene, signature, &place.vars, on)? else {
        return Ok(None);
    };
    if is_type_named(alloc, scene.program.datas.as_slice(), place.mode, ty)? {
        return Ok(None);
    }
    Ok(Some(each_looked_at(alloc, first, inner, alts)?))
}
