//! Laws of the meaning of steps, each as the contract of a call that does nothing.
ghost use Rattle.act_rules.specs.StepLaws.{MadeActs, SpineActs, InstanceActs, StepActs, StepGives};

use crate::case_laws::{
    app_case_acts, case_case_acts, known_case_acts, prim_case_acts, prim_let_acts, projections_act,
};
use crate::context_laws::plug_acts;
use crate::let_laws::{dead_acts, inline_acts, joined_lets_act};
use crate::rule_laws::{app_let_acts, beta_acts, case_let_acts, type_beta_acts};
use acts::laws::acts_gives;
use chw_typing::laws::typed_is_sound;
use rewriting::place_laws::{active_is_around, place_of_scene_is_typed};
use rewriting::scene_laws::{origins_keep_types, settings_of_scenes};

/// What a rule up to INLINE makes of its own shape acts as the shape.
pub fn made_acts()
    ensures { MadeActs }
{
    type_beta_acts();
    beta_acts();
    app_let_acts();
    case_let_acts();
    app_case_acts();
    case_case_acts();
    known_case_acts();
    projections_act();
    prim_let_acts();
    prim_case_acts();
    joined_lets_act();
    dead_acts();
    inline_acts();
}

/// A term with arguments acts so where the term does.
pub fn spine_acts()
    ensures { SpineActs }
{
    plug_acts();
}

/// What an instance of such a rule makes of a term acts as the term.
pub fn instance_acts()
    ensures { InstanceActs }
{
    made_acts();
    spine_acts();
    settings_of_scenes();
    origins_keep_types();
}

/// After a step by such a rule the body of the made definition acts as before, and gives nothing
/// that it didn't before.
pub fn step_acts()
    ensures acts { StepActs }
    ensures gives { StepGives }
{
    instance_acts();
    plug_acts();
    active_is_around();
    place_of_scene_is_typed();
    settings_of_scenes();
    origins_keep_types();
    acts_gives();
    typed_is_sound();
}
