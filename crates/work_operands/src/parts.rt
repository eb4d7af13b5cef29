//! Names for scrutinees and for elements.
ghost use Rattle.std.specs.Prelude.{◌≡◌, ◌<◌, [], map, reverse, length, set, IfOk};
ghost use Rattle.chw_types.specs.References.{HasNoCycle};
ghost use Rattle.chw_terms.specs.TermMoves.{shift};
ghost use Rattle.chw_terms.specs.TermTree.{var, case_of, vec_lit};
ghost use Rattle.chw_terms.specs.TermView.{alts_of, terms_of};
ghost use Rattle.chw_typing.specs.Scopes.{setting_in};
ghost use Rattle.rewriting.specs.Origins.{origins_of};
ghost use Rattle.rewriting.specs.Spots.{spot_of};
ghost use Rattle.rewriting.specs.Shapes.{shift_alts};
ghost use Rattle.rule_parts.specs.Cores.{HasTypeAt};
ghost use Rattle.term_types.specs.Answers.{IsReady};
ghost use Rattle.term_frames.specs.Signatures.{IsSignature};
ghost use Rattle.work_operands.specs.Firsts.{AnswersPart};
ghost use Rattle.work_operands.specs.Named.{alt_under_one, let_of};

use crate::arguments::new_name;
use crate::finding::{Named, first_element, name_needed};
use crate::operands::has_lets;
use chw_base::{NoMemory, VarIx};
use chw_terms::{Alt, Place, Scene, Term, shift};
use chw_types::Ty;
use rule_parts::copies::let_one;
use std::alloc::Global;
use term_types::Signature;

// An alternative under one more binder.
fn alt_under(alloc: Global, alt: &Alt) -> Result<Alt, NoMemory>
    ensures { IfOk result (λ made. made ≡ alt_under_one alt.now) }
{
    let at = VarIx {
        number: alt.pattern.binders(),
    };
    let pattern = alt.pattern.copy(alloc)?;
    let body = shift(alloc, &alt.body, at, 1)?;
    Ok(Alt { pattern, body })
}

// Alternatives under one more binder.
fn alts_under(alloc: Global, alts: &[Alt]) -> Result<Vec<Alt>, NoMemory>
    ensures { IfOk result (λ made. alts_of made.items ≡ shift_alts (alts_of alts.now) 0 1) }
{
    let mut made = Vec::new(alloc);
    for alt in alts {
        made.push(alt_under(alloc, alt)?)?;
    }
    Ok(made)
}

// `case x of alts`, where x is the variable of a new let around the case.
fn case_on_name(alloc: Global, alts: &[Alt]) -> Result<Term, NoMemory>
    ensures { IfOk result (λ e. e ≡ case_of (var 0) (shift_alts (alts_of alts.now) 0 1)) }
{
    let under = alts_under(alloc, alts)?;
    Term::case(alloc, new_name(alloc), under)
}

/// `case e of alts` ==> `letrec { x = e } in case x of alts`, where e needs a name.
pub(crate) fn name_scrutinee(
    alloc: Global,
    scene: &Scene,
    signature: &Signature,
    place: &Place,
    on: &Term,
    alts: &[Alt],
) -> Result<Option<Term>, NoMemory>
    requires order { HasNoCycle scene.now.program.now.datas }
    requires ready { IsReady (setting_in scene.now) [] (reverse place.now.vars) }
    requires table { IsSignature scene.now.program.now signature.now }
    requires typed { HasTypeAt (origins_of scene.now) (spot_of place.now) (case_of on.now (alts_of alts.now)) }
    ensures { IfOk result (AnswersPart (origins_of scene.now) (spot_of place.now) (case_of on.now (alts_of alts.now))) }
{
    let Some(ty) = name_needed(alloc, scene, signature, place, on)? else {
        return Ok(None);
    };
    let body = case_on_name(alloc, alts)?;
    Ok(Some(let_one(alloc, ty, on, body)?))
}

// The elements under one more binder.
fn elements_under(alloc: Global, elements: &[Term]) -> Result<Vec<Term>, NoMemory>
    ensures { IfOk result (λ made. made.items ≡ map (λ e. shift e 0 1) elements.now) }
{
    let mut made = Vec::new(alloc);
    for element in elements {
        made.push(shift(alloc, element, VarIx { number: 0 }, 1)?)?;
    }
    Ok(made)
}

// The elements under one more binder, with its variable for one of them.
fn elements_with_name(
    alloc: Global,
    elements: &[Term],
    number: usize,
) -> Result<Vec<Term>, NoMemory>
    requires { number < length elements.now }
    ensures { IfOk result (λ made. made.items ≡ set (map (λ x. shift x 0 1) elements.now) number (var 0)) }
{
    let mut under = elements_under(alloc, elements)?;
    under[number] = new_name(alloc);
    Ok(under)
}

// The vector of these elements.
fn vector_with_name(
    alloc: Global,
    ty: &Ty,
    elements: &[Term],
    number: usize,
) -> Result<Term, NoMemory>
    requires { number < length elements.now }
    ensures { IfOk result (λ e. e ≡ vec_lit ty.now (terms_of (set (map (λ x. shift x 0 1) elements.now) number (var 0)))) }
{
    let ty = ty.copy(alloc)?;
    let under = elements_with_name(alloc, elements, number)?;
    Ok(Term::vec_lit(alloc, ty, under))
}

// A vector of which one element has got its name.
fn with_element_named(
    alloc: Global,
    ty: &Ty,
    elements: &[Term],
    named: Named<'_>,
) -> Result<Term, NoMemory>
    requires { named.number < length elements.now }
    ensures { IfOk result (λ e. e ≡ let_of named.entry.ty named.entry.part.now
        (vec_lit ty.now (terms_of (set (map (λ x. shift x 0 1) elements.now) named.entry.number (var 0))))) }
{
    let Named {
        number,
        ty: of,
        part,
    } = named;
    let body = vector_with_name(alloc, ty, elements, number)?;
    let_one(alloc, of, part, body)
}

/// `[.. e ..]` ==> `letrec { x = e } in [.. x ..]`, where e is the first element that needs a name. Not in heads.
pub(crate) fn name_element(
    alloc: Global,
    scene: &Scene,
    signature: &Signature,
    place: &Place,
    ty: &Ty,
    elements: &[Term],
) -> Result<Option<Term>, NoMemory>
    requires order { HasNoCycle scene.now.program.now.datas }
    requires ready { IsReady (setting_in scene.now) [] (reverse place.now.vars) }
    requires table { IsSignature scene.now.program.now signature.now }
    requires typed { HasTypeAt (origins_of scene.now) (spot_of place.now) (vec_lit ty.now (terms_of elements.now)) }
    ensures { IfOk result (AnswersPart (origins_of scene.now) (spot_of place.now) (vec_lit ty.now (terms_of elements.now))) }
{
    if !has_lets(place.mode) {
        return Ok(None);
    }
    let Some(named) = first_element(alloc, scene, signature, place, elements)? else {
        return Ok(None);
    };
    Ok(Some(with_element_named(alloc, ty, elements, named)?))
}
