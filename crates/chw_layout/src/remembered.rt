//! What data types at arguments of known outcomes came to, so that each is worked out once.
ghost use Rattle.std.specs.Prelude.{◌≡◌, List, IfSome, OnOk};
ghost use Rattle.std.specs.Bool.{OnTrue};
ghost use Rattle.chw_types.specs.declared.declarations.Data.{Data};
ghost use Rattle.chw_layout.specs.Outcomes.{IsOutcomeOf, AreRight};

use crate::outcome::Outcome;
use chw_base::NoMemory;

/// A data type at arguments of these outcomes, and what it came to.
#[derive(Drop)]
pub(crate) struct Instance {
    pub(crate) at: u32,
    pub(crate) outs: Vec<Outcome>,
    pub(crate) outcome: Outcome,
}

fn same_outcomes(a: &[Outcome], b: &[Outcome]) -> bool
    ensures { OnTrue result (a.now ≡ b.now) }
{
    if a.len() != b.len() {
        return false;
    }
    for (i, x) in a.iter().enumerate() {
        if *x != b[i] {
            return false;
        }
    }
    true
}

/// The outcome, where it was worked out.
pub(crate) fn recall(known: &[Instance], at: u32, outs: &[Outcome]) -> Option<Outcome>
    ensures { IfSome result (λ o. (datas : List Data) → AreRight datas known.now → IsOutcomeOf datas at outs.now o) }
{
    for instance in known {
        if instance.at == at && same_outcomes(&instance.outs, outs) {
            return Some(instance.outcome);
        }
    }
    None
}

/// Keeps an outcome.
pub(crate) fn remember(
    known: &mut Vec<Instance>,
    at: u32,
    outs: Vec<Outcome>,
    outcome: Outcome,
) -> Result<(), NoMemory>
    ensures { OnOk result ((datas : List Data) → AreRight datas known.old.items → IsOutcomeOf datas at outs.items outcome → AreRight datas known.new.items) }
{
    known.push(Instance { at, outs, outcome })?;
    Ok(())
}
