//! The naturals of types whose variables have outcomes.
ghost use Rattle.std.specs.Prelude.{◌≡◌};
ghost use Rattle.chw_types.specs.SamePromises.{natural_value};
ghost use Rattle.type_widths.specs.Outcomes.{number_at};

use crate::outcome::{Outcome, outcome_at};
use chw_types::{Ty, TyNode};

/// The natural that a type means, where sums and products end at 4,294,967,295; 0 where it is none.
#[tactic(auto, unfolding(chw_types::specs::SamePromises::natural_value))]
pub(crate) fn number(t: &Ty, env: &[Outcome]) -> u32
    ensures { result ≡ natural_value (number_at env.now) t.now }
{
    match &t.node {
        TyNode::Var(at) => outcome_at(env, at.number).number(),
        TyNode::NatLit(n) => *n,
        TyNode::Sum(a, b) => number(a, env).saturating_add(number(b, env)),
        TyNode::Times(a, b) => number(a, env).saturating_mul(number(b, env)),
        _ => 0,
    }
}
