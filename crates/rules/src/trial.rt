//! A rule other than the one that makes definitions, tried on a term at a place.
ghost use Rattle.std.specs.Prelude.{◌≡◌, ◌↔◌, [], reverse, IfOk, IsTrue};
ghost use Rattle.chw_types.specs.References.{HasNoCycle};
ghost use Rattle.chw_terms.specs.declared.rule.Rule.TheVariants.{Spec};
ghost use Rattle.chw_typing.specs.Scopes.{setting_in};
ghost use Rattle.looks.specs.Looking.{looked};
ghost use Rattle.rewriting.specs.Origins.{origins_of};
ghost use Rattle.rewriting.specs.Spots.{spot_of};
ghost use Rattle.term_types.specs.Answers.{IsReady};
ghost use Rattle.term_frames.specs.Signatures.{IsSignature};
ghost use Rattle.rule_parts.specs.Cores.{Answers, HasTypeAt, IsInstanceAnswer};
ghost use Rattle.rule_parts.specs.Laws.{IsOfCores};
ghost use Rattle.rules.specs.Joined.{Joins};
ghost use Rattle.rule_parts.specs.Kept.{KeepsTypes};

use crate::laws::answers_of_typed_terms;
use crate::typing::is_typed;
use chw_base::NoMemory;
use chw_terms::{Place, Rule, Scene, Term};
use flow_cases::try_cases;
use flow_demanded::try_demanded;
use flow_functions::try_function;
use flow_lets::{joins, try_lets};
use looks::Looks;
use std::alloc::Global;
use term_types::Signature;
use work_lets::try_work_lets;
use work_names::try_names;
use work_operands::try_operands;
use work_prims::try_prims;
use work_signals::try_signals;

// What a rule makes of a core of the term, whatever types it has: each but the one that names
// operands and the one that makes definitions.
fn made_of_core(
    alloc: Global,
    rule: Rule,
    scene: &Scene,
    signature: &Signature,
    at: &Term,
    place: &Place,
) -> Result<Option<Term>, NoMemory>
    requires core { IsOfCores rule }
    requires order { HasNoCycle scene.now.program.now.datas }
    requires ready { IsReady (setting_in scene.now) [] (reverse place.now.vars) }
    requires table { IsSignature scene.now.program.now signature.now }
    ensures { IfOk result (Answers (origins_of scene.now) (spot_of place.now) rule at.now) }
{
    match rule {
        Rule::TyBeta | Rule::Beta | Rule::AppLet | Rule::AppCase => {
            try_function(alloc, rule, scene, signature, at, place)
        }
        Rule::CaseCon | Rule::CaseLet | Rule::CaseCase | Rule::Proj => {
            try_cases(alloc, rule, scene, signature, at, place)
        }
        Rule::PrimLet | Rule::PrimCase => try_demanded(alloc, rule, scene, signature, at, place),
        Rule::Flat => try_lets(alloc, at, place),
        Rule::Dead | Rule::Inline => try_work_lets(alloc, rule, scene, at, place),
        Rule::Unfold | Rule::Eta => try_names(alloc, rule, scene, signature, at, place),
        Rule::Unroll | Rule::Elem | Rule::Delta => {
            try_prims(alloc, rule, scene, signature, at, place)
        }
        Rule::ApPure => try_signals(alloc, scene, signature, at, place),
        _ => unreachable!(),
    }
}

// The instance of a rule on a term that has a type.
fn made_of(
    alloc: Global,
    rule: Rule,
    scene: &Scene,
    signature: &Signature,
    at: &Term,
    place: &Place,
) -> Result<Option<Term>, NoMemory>
    requires other { rule ≡ Spec → ⊥ }
    requires order { HasNoCycle scene.now.program.now.datas }
    requires ready { IsReady (setting_in scene.now) [] (reverse place.now.vars) }
    requires table { IsSignature scene.now.program.now signature.now }
    requires typed { HasTypeAt (origins_of scene.now) (spot_of place.now) at.now }
    ensures { IfOk result (IsInstanceAnswer (origins_of scene.now) (spot_of place.now) rule at.now) }
{
    answers_of_typed_terms();
    match rule {
        Rule::Anf => try_operands(alloc, scene, signature, at, place),
        _ => made_of_core(alloc, rule, scene, signature, at, place),
    }
}

/// The instance of a rule on a term that has a type: the term that the rule makes of it. Nothing comes exactly where the rule has none.
///
/// The data types have no cycle and the scene is sound, as in every typed program. One look is counted, also where memory is wanting. The signature is that of the scene's program, which is made once for many terms.
/// Where a number would pass 32 bits, the answer is want of memory.
pub fn try_typed<L: Looks>(
    alloc: Global,
    rule: Rule,
    scene: &Scene,
    signature: &Signature,
    at: &Term,
    place: &Place,
    looks: &mut L,
) -> Result<Option<Term>, NoMemory>
    requires other { rule ≡ Spec → ⊥ }
    requires order { HasNoCycle scene.now.program.now.datas }
    requires ready { IsReady (setting_in scene.now) [] (reverse place.now.vars) }
    requires table { IsSignature scene.now.program.now signature.now }
    requires typed { HasTypeAt (origins_of scene.now) (spot_of place.now) at.now }
    ensures exact { IfOk result (IsInstanceAnswer (origins_of scene.now) (spot_of place.now) rule at.now) }
    ensures types { IfOk result (KeepsTypes scene.now (spot_of place.now) at.now) }
    ensures one_look { L.looks looks.new ≡ looked (L.looks looks.old) }
{
    looks.look();
    answers_of_typed_terms();
    made_of(alloc, rule, scene, signature, at, place)
}

/// Whether the rule that joins letrecs has an instance on a term that has a type. Nothing is made. One look is counted.
pub fn joins_typed<L: Looks>(scene: &Scene, at: &Term, place: &Place, looks: &mut L) -> bool
    requires typed { HasTypeAt (origins_of scene.now) (spot_of place.now) at.now }
    ensures exact { IsTrue result ↔ Joins (origins_of scene.now) (spot_of place.now) at.now }
    ensures one_look { L.looks looks.new ≡ looked (L.looks looks.old) }
{
    looks.look();
    answers_of_typed_terms();
    joins(at, place)
}

/// The instance of a rule on a term, as at `try_typed`. A term without a type has none.
pub fn try_rule<L: Looks>(
    alloc: Global,
    rule: Rule,
    scene: &Scene,
    at: &Term,
    place: &Place,
    looks: &mut L,
) -> Result<Option<Term>, NoMemory>
    requires other { rule ≡ Spec → ⊥ }
    requires order { HasNoCycle scene.now.program.now.datas }
    requires ready { IsReady (setting_in scene.now) [] (reverse place.now.vars) }
    ensures exact { IfOk result (IsInstanceAnswer (origins_of scene.now) (spot_of place.now) rule at.now) }
    ensures types { IfOk result (KeepsTypes scene.now (spot_of place.now) at.now) }
    ensures one_look { L.looks looks.new ≡ looked (L.looks looks.old) }
{
    looks.look();
    answers_of_typed_terms();
    let signature = Signature::of(alloc, scene.program)?;
    let made = made_where_typed(alloc, rule, scene, &signature, at, place);
    drop(signature);
    made
}

// The same with the signature, where the term has a type.
fn made_where_typed(
    alloc: Global,
    rule: Rule,
    scene: &Scene,
    signature: &Signature,
    at: &Term,
    place: &Place,
) -> Result<Option<Term>, NoMemory>
    requires other { rule ≡ Spec → ⊥ }
    requires order { HasNoCycle scene.now.program.now.datas }
    requires ready { IsReady (setting_in scene.now) [] (reverse place.now.vars) }
    requires table { IsSignature scene.now.program.now signature.now }
    ensures exact { IfOk result (IsInstanceAnswer (origins_of scene.now) (spot_of place.now) rule at.now) }
{
    answers_of_typed_terms();
    if !is_typed(alloc, scene, signature, at, place)? {
        return Ok(None);
    }
    made_of(alloc, rule, scene, signature, at, place)
}
