//! The rules on cases, tried on a term at a place.
ghost use Rattle.std.specs.Prelude.{[], reverse, IfOk};
ghost use Rattle.chw_types.specs.References.{HasNoCycle};
ghost use Rattle.chw_typing.specs.Scopes.{setting_in};
ghost use Rattle.rewriting.specs.Origins.{origins_of};
ghost use Rattle.rewriting.specs.Spots.{spot_of};
ghost use Rattle.term_types.specs.Answers.{IsReady};
ghost use Rattle.term_frames.specs.Signatures.{IsSignature};
ghost use Rattle.rule_parts.specs.Cores.{Answers};
ghost use Rattle.flow_cases.specs.Answered.{AnswersCase};
ghost use Rattle.flow_cases.specs.Rules.{IsOfCases};

use crate::cases::case_case;
use crate::constructors::case_con;
use crate::lets::case_let;
use crate::projections::proj;
use chw_base::NoMemory;
use chw_terms::{Alt, Head, Place, Rule, Scene, Term};
use rule_parts::copies::with_rest;
use std::alloc::Global;
use term_types::Signature;

// What a rule makes of the case on a term with these alternatives.
fn of_case(
    alloc: Global,
    rule: Rule,
    scene: &Scene,
    signature: &Signature,
    place: &Place,
    on: &Term,
    alts: &[Alt],
) -> Result<Option<Term>, NoMemory>
    requires rule { IsOfCases rule }
    requires ready { IsReady (setting_in scene.now) [] (reverse place.now.vars) }
    requires order { HasNoCycle scene.now.program.now.datas }
    requires table { IsSignature scene.now.program.now signature.now }
    ensures { IfOk result (AnswersCase (origins_of scene.now) (spot_of place.now) rule on.now alts.now) }
{
    match rule {
        Rule::CaseCon => case_con(alloc, &signature.constructors, on, alts),
        Rule::CaseLet => case_let(alloc, on, alts),
        Rule::CaseCase => case_case(alloc, scene, signature, place, on, alts),
        Rule::Proj => proj(alloc, scene, signature, place, on, alts),
        _ => unreachable!(),
    }
}

/// What a rule on cases makes of a term at a place: of its head, and the arguments stay behind. Nothing comes exactly where the rule makes
/// nothing of it.
///
/// The scene is sound and no data type leads back to itself, as in every typed program, and terms have the types of the variables in scope
/// at the place. The signature is that of the scene's program, which is made once for many terms.
/// Where a number would pass 32 bits, or a type would be too large, the answer is want of memory.
pub fn try_cases(
    alloc: Global,
    rule: Rule,
    scene: &Scene,
    signature: &Signature,
    at: &Term,
    place: &Place,
) -> Result<Option<Term>, NoMemory>
    requires rule { IsOfCases rule }
    requires ready { IsReady (setting_in scene.now) [] (reverse place.now.vars) }
    requires order { HasNoCycle scene.now.program.now.datas }
    requires table { IsSignature scene.now.program.now signature.now }
    ensures { IfOk result (Answers (origins_of scene.now) (spot_of place.now) rule at.now) }
{
    let Head::Case(on, alts) = &at.head else {
        return Ok(None);
    };
    let made = of_case(alloc, rule, scene, signature, place, on, alts)?;
    with_rest(alloc, made, at.args.as_slice())
}
