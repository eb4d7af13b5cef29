//! A law of searches, as the contract of a call that does nothing.
ghost use Rattle.step_search.specs.Finding.{SuitsNextState};

use made_states::laws::any_step_stays_behind;

/// A search that stands at the place of a step of a typed state suits the state to which the step leads.
pub fn search_suits_next_state()
    ensures { SuitsNextState }
{
    any_step_stays_behind();
}
