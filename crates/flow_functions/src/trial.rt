//! The rules on functions, tried on a term at a place.
ghost use Rattle.std.specs.Prelude.{[], reverse, IfOk};
ghost use Rattle.chw_typing.specs.Scopes.{setting_in};
ghost use Rattle.rewriting.specs.Origins.{origins_of};
ghost use Rattle.rewriting.specs.Spots.{spot_of};
ghost use Rattle.term_types.specs.Answers.{IsReady};
ghost use Rattle.term_frames.specs.Signatures.{IsSignature};
ghost use Rattle.flow_functions.specs.AtFirst.{AnswersAt};
ghost use Rattle.rule_parts.specs.Cores.{Answers};
ghost use Rattle.flow_functions.specs.Rules.{IsOfFunctions};

use crate::cases::app_case;
use crate::functions::{app_let, beta, ty_beta};
use chw_base::NoMemory;
use chw_terms::{Arg, Head, Place, Rule, Scene, Term};
use rule_parts::copies::with_rest;
use std::alloc::Global;
use term_types::Signature;

// What a rule makes of a head at its first argument.
fn at_first(
    alloc: Global,
    rule: Rule,
    scene: &Scene,
    signature: &Signature,
    place: &Place,
    head: &Head,
    first: &Arg,
) -> Result<Option<Term>, NoMemory>
    requires rule { IsOfFunctions rule }
    requires ready { IsReady (setting_in scene.now) [] (reverse place.now.vars) }
    requires table { IsSignature scene.now.program.now signature.now }
    ensures { IfOk result (AnswersAt (origins_of scene.now) (spot_of place.now) rule head.now first.now) }
{
    match rule {
        Rule::TyBeta => ty_beta(alloc, head, first),
        Rule::Beta => beta(alloc, head, first),
        Rule::AppLet => app_let(alloc, head, first),
        Rule::AppCase => app_case(alloc, scene, signature, place, head, first),
        _ => unreachable!(),
    }
}

/// What a rule on functions makes of a term at a place: of its head at the first argument, and the other arguments stay behind. Nothing
/// comes exactly where the rule makes nothing of it.
///
/// The scene is sound, as that of every typed program is, and terms have the types of the variables in scope at the place. The
/// signature is that of the scene's program, which is made once for many terms.
/// Where a number would pass 32 bits, the answer is want of memory.
pub fn try_function(
    alloc: Global,
    rule: Rule,
    scene: &Scene,
    signature: &Signature,
    at: &Term,
    place: &Place,
) -> Result<Option<Term>, NoMemory>
    requires rule { IsOfFunctions rule }
    requires ready { IsReady (setting_in scene.now) [] (reverse place.now.vars) }
    requires table { IsSignature scene.now.program.now signature.now }
    ensures { IfOk result (Answers (origins_of scene.now) (spot_of place.now) rule at.now) }
{
    let Some((first, rest)) = at.args.split_first() else {
        return Ok(None);
    };
    let made = at_first(alloc, rule, scene, signature, place, &at.head, first)?;
    with_rest(alloc, made, rest)
}
