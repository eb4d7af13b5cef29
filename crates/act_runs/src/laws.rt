//! Laws of steps in a typed state and of runs of rewriting, each as the contract of a call that does nothing.
ghost use Rattle.act_runs.specs.States.{InstanceActs, StepActs, StepGives, EvaluatedActs, AbstractedActs, SpecialActs};
ghost use Rattle.act_runs.specs.Laws.{OpeningActs, BodiesGive, StepsKeepActs, RunsKeepActs, WholesAct, RunActs, RunGives};

use act_rules::context_laws::{opening_gives, plug_acts};
use act_rules::name_laws::{eta_function_acts, names_act, unfolding_acts};
use act_rules::prim_laws::primitives_act;
use act_rules::signal_laws::joins_act;
use act_rules::step_laws::{made_acts, spine_acts};
use acts::laws::acts_gives;
use chw_typing::laws::typed_is_sound;
use made_states::laws::states_stay_typed;
use opening::laws::opening_is_typed;
use rewriting::rule_laws::number_is_there;
use rewriting::scene_laws::{made_definitions_replaced, names_of_modes};
use rule_types::laws::new_states_keep;

/// What an instance of any rule but SPEC makes of a term acts as the term.
pub fn instances_act()
    ensures { InstanceActs }
{
    made_acts();
    spine_acts();
    unfolding_acts();
    primitives_act();
    joins_act();
    eta_function_acts();
    names_act();
    made_definitions_replaced();
    typed_is_sound();
}

/// After a step by such a rule the body of the made definition acts as before, and gives nothing that it didn't before.
pub fn steps_act()
    ensures acts { StepActs }
    ensures gives { StepGives }
{
    instances_act();
    plug_acts();
    made_definitions_replaced();
    acts_gives();
    typed_is_sound();
}

/// A closed term acts as it does with its closed naturals evaluated.
pub fn evaluated_acts()
    ensures { EvaluatedActs }
{
    typed_is_sound();
}

/// A term under a lambda for each of its free variables, and on these, acts as the term.
pub fn abstracted_acts()
    ensures { AbstractedActs }
{
    typed_is_sound();
}

/// After a step by SPEC the body acts by a chain as it did before.
pub fn special_acts()
    ensures { SpecialActs }
{
    abstracted_acts();
    plug_acts();
    made_definitions_replaced();
    names_of_modes();
    number_is_there();
    typed_is_sound();
}

/// In the state with which a program opens each body acts as its origin.
pub fn opening_acts()
    ensures { OpeningActs }
{
    plug_acts();
    unfolding_acts();
    made_definitions_replaced();
    typed_is_sound();
}

/// A step keeps each body acting as its origin, and so does a run. What acts so gives nothing that its origin doesn't.
pub fn runs_act()
    ensures steps { StepsKeepActs }
    ensures runs { RunsKeepActs }
    ensures gives { BodiesGive }
{
    steps_act();
    special_acts();
    new_states_keep();
    states_stay_typed();
    plug_acts();
    unfolding_acts();
    made_definitions_replaced();
    acts_gives();
    typed_is_sound();
}

/// A made definition as a whole acts as its origin.
pub fn wholes_act()
    ensures { WholesAct }
{
    made_definitions_replaced();
    typed_is_sound();
}

/// In each state of a run of a tidy and typed program each body acts as its origin, and what made definition 0 as a whole gives, the
/// program's top gives.
pub fn run_gives()
    ensures bodies { RunActs }
    ensures top { RunGives }
{
    opening_is_typed();
    opening_acts();
    runs_act();
    wholes_act();
    opening_gives();
    made_definitions_replaced();
    acts_gives();
    typed_is_sound();
}
