//! The laws, each as the contract of a call that does nothing.
ghost use Rattle.made_states.specs.Laws.{StepsKeepOrigins, RunsKeepOrigins, OneOriginEach};
ghost use Rattle.made_states.specs.Laws.{SpecKeepsState, AnyStepKeepsState};
ghost use Rattle.made_states.specs.Laws.{RunsToTypedState, RunsKeepState};
ghost use Rattle.made_states.specs.Laws.{AnyStepStaysBehind, AnyStepIsSought};

use chw_typing::laws::typed_is_sound;
use opening::laws::opening_is_typed;
use rewriting::scene_laws::names_of_modes;

/// Steps and runs change no origin. In each state of a run no two made definitions have one
/// origin.
pub fn origins_stay()
    ensures steps { StepsKeepOrigins }
    ensures runs { RunsKeepOrigins }
    ensures one { OneOriginEach }
{}

/// A step by the rule that makes definitions, and so by any rule, leads from a typed state to a
/// typed one. So each state of a run of a tidy and typed program is typed.
pub fn states_stay_typed()
    ensures spec { SpecKeepsState }
    ensures steps { AnyStepKeepsState }
    ensures many { RunsToTypedState }
    ensures runs { RunsKeepState }
{
    typed_is_sound();
    names_of_modes();
    opening_is_typed();
}

/// A step after one of a typed state is sought from the place of that one on, or could be made
/// before. Since each step is the first one of its state, it is sought from there on.
pub fn any_step_stays_behind()
    ensures stay { AnyStepStaysBehind }
    ensures sought { AnyStepIsSought }
{}
