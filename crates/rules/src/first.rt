//! The first rule with an instance.
ghost use Rattle.std.specs.Prelude.{◌≡◌, ◌≤◌, ◌+◌, [], reverse, option_map, IfOk};
ghost use Rattle.chw_types.specs.References.{HasNoCycle};
ghost use Rattle.chw_typing.specs.Scopes.{setting_in};
ghost use Rattle.chw_terms.specs.declared.rule.Rule.TheVariants.{Flat, Spec};
ghost use Rattle.looks.specs.Looking.{looked};
ghost use Rattle.rewriting.specs.Origins.{origins_of};
ghost use Rattle.rewriting.specs.Spots.{spot_of};
ghost use Rattle.term_types.specs.Answers.{IsReady};
ghost use Rattle.term_frames.specs.Signatures.{IsSignature};
ghost use Rattle.rule_parts.specs.Cores.{HasTypeAt};
ghost use Rattle.trials.specs.Trials.{built, HasSomeType, IsFirstRule};
ghost use Rattle.rules.specs.Tried.{joined_if, put, put_special, AnswersRule};

use crate::trial::{joins_typed, try_typed};
use chw_base::NoMemory;
use chw_terms::{Place, Rule, Scene, Term};
use looks::Looks;
use made_table::Table;
use rewriting::scene_laws::settings_of_scenes;
use specialise::{Special, try_special};
use std::alloc::Global;
use term_types::Signature;
use trials::{Change, Trial};

// The rules, in their order.
const BUILT: [Rule; 21] = [
    Rule::TyBeta,
    Rule::Beta,
    Rule::AppLet,
    Rule::AppCase,
    Rule::CaseCon,
    Rule::CaseLet,
    Rule::CaseCase,
    Rule::Proj,
    Rule::PrimLet,
    Rule::PrimCase,
    Rule::Flat,
    Rule::Dead,
    Rule::Inline,
    Rule::Unfold,
    Rule::Unroll,
    Rule::Elem,
    Rule::Delta,
    Rule::ApPure,
    Rule::Eta,
    Rule::Spec,
    Rule::Anf,
];

// The rule puts the term that it makes, and no definition is added.
fn put_trial(rule: Rule, found: Option<Term>) -> Option<Trial>
    ensures { result ≡ option_map (put rule) found }
{
    match found {
        Some(new) => Some(Trial {
            rule,
            change: Change::Put(new),
            definition: None,
        }),
        None => None,
    }
}

// The term that the rule of made definitions makes is put, and its definition is added.
fn special_trial(found: Option<Special>) -> Option<Trial>
    ensures { result ≡ option_map put_special found }
{
    match found {
        Some(it) => Some(Trial {
            rule: Rule::Spec,
            change: Change::Put(it.new),
            definition: it.definition,
        }),
        None => None,
    }
}

// Letrecs are joined where the rule has an instance.
fn joined_trial(joins: bool) -> Option<Trial>
    ensures { result ≡ joined_if joins }
{
    if joins {
        Some(Trial {
            rule: Rule::Flat,
            change: Change::Join,
            definition: None,
        })
    } else {
        None
    }
}

// How this rule changes a term that has a type, and what it adds.
fn tried<L: Looks>(
    alloc: Global,
    table: &Table,
    rule: Rule,
    scene: &Scene,
    signature: &Signature,
    at: &Term,
    place: &Place,
    looks: &mut L,
) -> Result<Option<Trial>, NoMemory>
    requires same { scene.now.made.now ≡ table.now }
    requires order { HasNoCycle scene.now.program.now.datas }
    requires ready { IsReady (setting_in scene.now) [] (reverse place.now.vars) }
    requires table { IsSignature scene.now.program.now signature.now }
    requires typed { HasTypeAt (origins_of scene.now) (spot_of place.now) at.now }
    ensures exact { IfOk result (AnswersRule scene.now.program.now scene.now.made.now (spot_of place.now) rule at.now) }
    ensures one_look { L.looks looks.new ≡ looked (L.looks looks.old) }
{
    if let Rule::Spec = rule {
        let found = try_special(alloc, table, scene, signature, at, place, looks)?;
        return Ok(special_trial(found));
    }
    if let Rule::Flat = rule {
        return Ok(joined_trial(joins_typed(scene, at, place, looks)));
    }
    let found = try_typed(alloc, rule, scene, signature, at, place, looks)?;
    Ok(put_trial(rule, found))
}

/// The first rule with an instance on a term at a place, how it changes the term, and the made definition that it adds where it is the
/// rule of made definitions and none in the table has the origin. Nothing comes exactly where no rule has an instance.
/// What the rule that joins letrecs makes of the term isn't made here.
///
/// Each rule that is tried is one look, so there are twenty-one at most.
///
/// The scene's made definitions are those of the table. No data type leads back to itself and the scene is sound, as in every typed
/// program. Terms have the types of the variables in scope at the place, and the term has a type there. The signature is that of the
/// scene's program.
/// Where a number would pass 32 bits, the answer is want of memory.
pub fn first_rule<L: Looks>(
    alloc: Global,
    table: &Table,
    scene: &Scene,
    signature: &Signature,
    at: &Term,
    place: &Place,
    looks: &mut L,
) -> Result<Option<Trial>, NoMemory>
    requires same { scene.now.made.now ≡ table.now }
    requires order { HasNoCycle scene.now.program.now.datas }
    requires ready { IsReady (setting_in scene.now) [] (reverse place.now.vars) }
    requires table { IsSignature scene.now.program.now signature.now }
    requires typed { HasSomeType (setting_in scene.now) (reverse place.now.vars) at.now }
    ensures first { IfOk result (IsFirstRule built scene.now.program.now scene.now.made.now (spot_of place.now) at.now) }
    ensures looks { L.looks looks.new ≤ L.looks looks.old + 21 }
{
    settings_of_scenes();
    for rule in &BUILT {
        if let Some(trial) = tried(alloc, table, *rule, scene, signature, at, place, looks)? {
            return Ok(Some(trial));
        }
    }
    Ok(None)
}
