//! Laws of runs, each as the contract of a call that does nothing.
ghost use Rattle.chw_norm.specs.Laws.{LastStatesAreTyped, NothingRefusesANormalRun, OneLastState};

use made_states::laws::states_stay_typed;
use opening::laws::opening_is_typed;
use rewriting::rule_laws::one_first;

/// A run that leads to a state without a step, and to shallow bodies all the way, is never refused.
pub fn nothing_refuses_a_normal_run()
    ensures { NothingRefusesANormalRun }
{
    one_first();
}

/// A program has one state at most to which a run leads and in which no step is left.
pub fn one_last_state()
    ensures { OneLastState }
{
    one_first();
}

/// The state to which a run of a tidy and typed program leads is typed.
pub fn last_states_are_typed()
    ensures { LastStatesAreTyped }
{
    opening_is_typed();
    states_stay_typed();
}
