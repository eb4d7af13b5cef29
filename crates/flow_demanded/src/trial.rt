//! The rules on demanded arguments, tried on a term at a place.
ghost use Rattle.std.specs.Prelude.{◌≡◌, [], length, reverse, IfOk};
ghost use Rattle.chw_types.specs.References.{HasNoCycle};
ghost use Rattle.chw_prims.specs.Schemas.{schema_type};
ghost use Rattle.chw_terms.specs.declared.rule.Rule.TheVariants.{PrimLet, PrimCase};
ghost use Rattle.chw_terms.specs.TermTree.{prim};
ghost use Rattle.chw_terms.specs.TermView.{applied};
ghost use Rattle.chw_typing.specs.Scopes.{setting_in};
ghost use Rattle.rewriting.specs.Origins.{origins_of};
ghost use Rattle.rewriting.specs.Spots.{spot_of, asked_for};
ghost use Rattle.rule_parts.specs.Cores.{Answers, AnswersCore};
ghost use Rattle.term_types.specs.Answers.{IsReady};
ghost use Rattle.term_frames.specs.Signatures.{IsSignature};
ghost use Rattle.flow_demanded.specs.Rules.{IsOfDemanded};

use crate::demands::first_demanded;
use crate::forms::{Form, as_case, as_letrec};
use crate::looks::named_args;
use crate::moves::{into_case, into_letrec};
use chw_base::NoMemory;
use chw_prims::Prim;
use chw_terms::{Arg, Head, Place, Rule, Scene, Term};
use rule_parts::copies::with_rest;
use std::alloc::Global;
use term_types::Signature;

// A letrec moves out of the first demanded argument that is one: `p .. (letrec g in e) ..  ==>  letrec g in p .. e ..`.
fn prim_let(
    alloc: Global,
    scene: &Scene,
    signature: &Signature,
    place: &Place,
    which: Prim,
    args: &[Arg],
) -> Result<Option<Term>, NoMemory>
    requires order { HasNoCycle scene.now.program.now.datas }
    requires ready { IsReady (setting_in scene.now) [] (reverse place.now.vars) }
    requires table { IsSignature scene.now.program.now signature.now }
    requires whole { length args.now ≡ asked_for (schema_type which) }
    ensures { IfOk result (AnswersCore (origins_of scene.now) (spot_of place.now) PrimLet (applied (prim which) args.now)) }
{
    let form = Form::Letrec;
    let Some(it) = first_demanded(alloc, scene, signature, place, which, args, form)? else {
        return Ok(None);
    };
    let Some(of) = as_letrec(it.term) else {
        unreachable!()
    };
    Ok(Some(into_letrec(alloc, which, args, it.number, &of)?))
}

// A case moves out of the first demanded argument that is one, where none is a letrec:
// `p .. (case s of { q -> e; .. }) ..  ==>  case s of { q -> p .. e ..; .. }`.
fn prim_case(
    alloc: Global,
    scene: &Scene,
    signature: &Signature,
    place: &Place,
    which: Prim,
    args: &[Arg],
) -> Result<Option<Term>, NoMemory>
    requires order { HasNoCycle scene.now.program.now.datas }
    requires ready { IsReady (setting_in scene.now) [] (reverse place.now.vars) }
    requires table { IsSignature scene.now.program.now signature.now }
    requires whole { length args.now ≡ asked_for (schema_type which) }
    ensures { IfOk result (AnswersCore (origins_of scene.now) (spot_of place.now) PrimCase (applied (prim which) args.now)) }
{
    let before = Form::Letrec;
    if first_demanded(alloc, scene, signature, place, which, args, before)?.is_some() {
        return Ok(None);
    }
    let form = Form::Case;
    let Some(it) = first_demanded(alloc, scene, signature, place, which, args, form)? else {
        return Ok(None);
    };
    let Some(of) = as_case(it.term) else {
        unreachable!()
    };
    Ok(Some(into_case(alloc, which, args, it.number, &of)?))
}

// What a rule makes of a primitive on the arguments that it names.
fn of_whole(
    alloc: Global,
    rule: Rule,
    scene: &Scene,
    signature: &Signature,
    place: &Place,
    which: Prim,
    args: &[Arg],
) -> Result<Option<Term>, NoMemory>
    requires rule { IsOfDemanded rule }
    requires order { HasNoCycle scene.now.program.now.datas }
    requires ready { IsReady (setting_in scene.now) [] (reverse place.now.vars) }
    requires table { IsSignature scene.now.program.now signature.now }
    requires whole { length args.now ≡ asked_for (schema_type which) }
    ensures { IfOk result (AnswersCore (origins_of scene.now) (spot_of place.now) rule (applied (prim which) args.now)) }
{
    match rule {
        Rule::PrimLet => prim_let(alloc, scene, signature, place, which, args),
        Rule::PrimCase => prim_case(alloc, scene, signature, place, which, args),
        _ => unreachable!(),
    }
}

/// What a rule on demanded arguments makes of a term at a place: of a primitive on the arguments that it names, and the other arguments
/// stay behind. Nothing comes exactly where the rule makes nothing of it.
///
/// The data types have no cycle and the scene is sound, as in every typed program, and terms have the types of the variables in scope at
/// the place. The signature is that of the scene's program, which is made once for many terms.
/// Where a number would pass 32 bits, the answer is want of memory.
pub fn try_demanded(
    alloc: Global,
    rule: Rule,
    scene: &Scene,
    signature: &Signature,
    at: &Term,
    place: &Place,
) -> Result<Option<Term>, NoMemory>
    requires rule { IsOfDemanded rule }
    requires order { HasNoCycle scene.now.program.now.datas }
    requires ready { IsReady (setting_in scene.now) [] (reverse place.now.vars) }
    requires table { IsSignature scene.now.program.now signature.now }
    ensures { IfOk result (Answers (origins_of scene.now) (spot_of place.now) rule at.now) }
{
    let Head::PrimOf(which) = &at.head else {
        return Ok(None);
    };
    let Some(count) = named_args(*which) else {
        return Ok(None);
    };
    if at.args.len() < count {
        return Ok(None);
    }
    let (args, rest) = at.args.split_at(count);
    let made = of_whole(alloc, rule, scene, signature, place, *which, args)?;
    with_rest(alloc, made, rest)
}
