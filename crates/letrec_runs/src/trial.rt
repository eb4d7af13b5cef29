//! The first rule with an instance on a right side, where what it makes may be put there.
ghost use Rattle.std.specs.Prelude.{◌≡◌, ◌≤◌, ◌<◌, ◌+◌, ◌↔◌, ℕ, [], reverse, IfOk, IfSome, IsTrue};
ghost use Rattle.chw_types.specs.References.{HasNoCycle};
ghost use Rattle.chw_typing.specs.Scopes.{setting_in};
ghost use Rattle.chw_terms.specs.Depth.{depth};
ghost use Rattle.chw_terms.specs.declared.rule.Rule.TheVariants.{Spec};
ghost use Rattle.kept_letrecs.specs.Resting.{KeepsVariables};
ghost use Rattle.rewriting.specs.Origins.{origins_of};
ghost use Rattle.rewriting.specs.Spots.{spot_of};
ghost use Rattle.term_types.specs.Answers.{IsReady};
ghost use Rattle.term_frames.specs.Signatures.{IsSignature};
ghost use Rattle.trials.specs.Trials.{HasSomeType};
ghost use Rattle.trials.specs.declared.trial.Change.TheVariants.{Put};
ghost use Rattle.letrec_runs.specs.Rush.{IsSideStep};

use crate::keeping::keeps;
use chw_base::NoMemory;
use chw_terms::{Place, Rule, Scene, Term, depth};
use made_table::Table;
use std::alloc::Global;
use term_types::Signature;
use trials::{Change, Rules, Trial};

// A rule, and what it makes.
#[derive(Drop)]
pub(crate) struct Made {
    pub(crate) rule: Rule,
    pub(crate) new: Term,
}

// Whether a rule is that of made definitions.
fn is_special(rule: Rule) -> bool
    ensures { IsTrue result ↔ (rule ≡ Spec) }
{
    matches!(rule, Rule::Spec)
}

// What a change by this rule puts.
fn made_by(rule: Rule, change: Change) -> Option<Made>
    ensures { IfSome result (λ it. (it.rule ≡ rule) × (change ≡ Put it.new)) }
{
    match change {
        Change::Put(new) => Some(Made { rule, new }),
        Change::Join => None,
    }
}

// What a rule other than that of made definitions puts.
fn put_of(trial: Trial) -> Option<Made>
    ensures { IfSome result (λ it. (it.rule ≡ trial.rule) × (trial.change ≡ Put it.new) × (it.rule ≡ Spec → ⊥)) }
{
    let Trial {
        rule,
        change,
        definition,
    } = trial;
    drop(definition);
    if is_special(rule) {
        drop(change);
        return None;
    }
    made_by(rule, change)
}

// Whether each variable that occurs still does, and the new term isn't too deep.
fn may_be_put(alloc: Global, most: u32, old: &Term, new: &Term) -> Result<bool, NoMemory>
    ensures { IfOk result (λ yes. IsTrue yes → ((n : ℕ) → KeepsVariables n old.now new.now) × (depth new.now < most)) }
{
    if depth(new) >= most {
        return Ok(false);
    }
    keeps(alloc, old, new)
}

// The first rule with an instance on a right side, and what it makes, where that may be put there.
pub(crate) fn try_side<R: Rules>(
    alloc: Global,
    table: &Table,
    scene: &Scene,
    signature: &Signature,
    side: &Term,
    place: &Place,
    most: u32,
    rules: &mut R,
) -> Result<Option<Made>, NoMemory>
    requires same { scene.now.made.now ≡ table.now }
    requires order { HasNoCycle scene.now.program.now.datas }
    requires ready { IsReady (setting_in scene.now) [] (reverse place.now.vars) }
    requires table { IsSignature scene.now.program.now signature.now }
    requires typed { HasSomeType (setting_in scene.now) (reverse place.now.vars) side.now }
    ensures step { IfOk result (λ found. IfSome found (λ it. IsSideStep (origins_of scene.now) (spot_of place.now) most side.now it.rule it.new)) }
    ensures looks { R.looks rules.new ≤ R.looks rules.old + 21 }
{
    let Some(trial) = rules.first_rule(alloc, table, scene, signature, side, place)? else {
        return Ok(None);
    };
    let Some(made) = put_of(trial) else {
        return Ok(None);
    };
    if !may_be_put(alloc, most, side, &made.new)? {
        return Ok(None);
    }
    Ok(Some(made))
}
