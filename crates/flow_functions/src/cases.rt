//! What the rules make of an applied case.
ghost use Rattle.std.specs.Prelude.{◌≡◌, [], reverse, IfOk};
ghost use Rattle.chw_terms.specs.declared.rule.Rule.TheVariants.{AppCase};
ghost use Rattle.chw_terms.specs.TermMoves.{shift};
ghost use Rattle.chw_terms.specs.TermTree.{var, app, ty_app, case_of};
ghost use Rattle.chw_terms.specs.TermView.{alts_of};
ghost use Rattle.chw_typing.specs.Scopes.{setting_in};
ghost use Rattle.chw_typing.specs.Groups.{each_body};
ghost use Rattle.rewriting.specs.Origins.{origins_of};
ghost use Rattle.rewriting.specs.Spots.{spot_of};
ghost use Rattle.rewriting.specs.Shapes.{shift_alts};
ghost use Rattle.term_types.specs.Answers.{IsReady};
ghost use Rattle.term_frames.specs.Signatures.{IsSignature};
ghost use Rattle.flow_functions.specs.AtFirst.{AnswersAt};
ghost use Rattle.flow_functions.specs.Moves.{at_type, at_name};

use chw_base::{NoMemory, VarIx};
use chw_terms::{Alt, Arg, Head, Place, Scene, Term, shift};
use chw_types::Ty;
use chw_typing::found_laws::found_is_type;
use rewriting::scene_laws::settings_of_scenes;
use rule_parts::copies::let_one;
use std::alloc::Global;
use term_types::{Signature, type_in_scope};

// An alternative whose body gets the type.
fn alt_at_type(alloc: Global, alt: &Alt, ty: &Ty) -> Result<Alt, NoMemory>
    ensures { IfOk result (λ made. made ≡ at_type ty.now alt.now) }
{
    let pattern = alt.pattern.copy(alloc)?;
    let body = Term::ty_app(alt.body.copy(alloc)?, ty.copy(alloc)?)?;
    Ok(Alt { pattern, body })
}

// A case each of whose alternatives gets the type.
fn case_at_type(alloc: Global, on: &Term, alts: &[Alt], ty: &Ty) -> Result<Term, NoMemory>
    ensures { IfOk result (λ e. e ≡ case_of on.now (each_body (λ n f. ty_app f ty.now) (alts_of alts.now))) }
{
    let mut done = Vec::new(alloc);
    for alt in alts {
        done.push(alt_at_type(alloc, alt, ty)?)?;
    }
    let on = on.copy(alloc)?;
    Term::case(alloc, on, done)
}

// An alternative whose body gets the variable that is new outside of the case.
fn alt_at_name(alloc: Global, alt: &Alt) -> Result<Alt, NoMemory>
    ensures { IfOk result (λ made. made ≡ at_name alt.now) }
{
    let at = VarIx {
        number: alt.pattern.binders(),
    };
    let pattern = alt.pattern.copy(alloc)?;
    let body = Term::app(shift(alloc, &alt.body, at, 1)?, Term::var(alloc, at))?;
    Ok(Alt { pattern, body })
}

// A case under one more binder, each of whose alternatives gets its variable.
fn case_at_name(alloc: Global, on: &Term, alts: &[Alt]) -> Result<Term, NoMemory>
    ensures { IfOk result (λ e. e ≡ case_of (shift on.now 0 1) (each_body (λ n f. app f (var n)) (shift_alts (alts_of alts.now) 0 1))) }
{
    let mut done = Vec::new(alloc);
    for alt in alts {
        done.push(alt_at_name(alloc, alt)?)?;
    }
    let on = shift(alloc, on, VarIx { number: 0 }, 1)?;
    Term::case(alloc, on, done)
}

/// An argument gets a name and moves into a case; a type moves as it is:
/// `(case s of { p -> e; .. }) a  ==>  letrec { x : t = a; } in case s of { p -> e x; .. }`.
pub(crate) fn app_case(
    alloc: Global,
    scene: &Scene,
    signature: &Signature,
    place: &Place,
    head: &Head,
    first: &Arg,
) -> Result<Option<Term>, NoMemory>
    requires ready { IsReady (setting_in scene.now) [] (reverse place.now.vars) }
    requires table { IsSignature scene.now.program.now signature.now }
    ensures { IfOk result (AnswersAt (origins_of scene.now) (spot_of place.now) AppCase head.now first.now) }
{
    let Head::Case(on, alts) = head else {
        return Ok(None);
    };
    let of = match first {
        Arg::OfType(ty) => return Ok(Some(case_at_type(alloc, on, alts, ty)?)),
        Arg::OfTerm(of) => of,
    };
    settings_of_scenes();
    found_is_type();
    let Some(ty) = type_in_scope(alloc, scene, signature, &place.vars, of)? else {
        return Ok(None);
    };
    let body = case_at_name(alloc, on, alts)?;
    Ok(Some(let_one(alloc, ty, of, body)?))
}
