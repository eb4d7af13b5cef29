//! The laws, each as the contract of a call that does nothing.
ghost use Rattle.rewriting.specs.PlaceLaws.{OneBelow, OneActive, OnePlace, BelowIsAround, ActiveIsAround, ActiveIsTyped, PlaceIsAround, ActiveIsComplete, PlaceOfSceneIsTyped};

use chw_typing::laws::typed_is_sound;

/// A path leads to one place.
pub fn one_place()
    ensures step { OneBelow }
    ensures steps { OneActive }
    ensures place { OnePlace }
{}

/// Active places of typed terms are places in the sense of typing, with the types of the variables in scope there.
pub fn active_is_around()
    ensures step { BelowIsAround }
    ensures steps { ActiveIsAround }
    ensures place { PlaceIsAround }
{}

/// So what is there has a type, in a scope of types that terms have.
pub fn active_is_typed()
    ensures { ActiveIsTyped }
{}

/// What is at an active place of a complete term is complete.
pub fn active_is_complete()
    ensures { ActiveIsComplete }
{}

/// So is what is at an active place of a made definition of a typed scene, and its cases are complete.
pub fn place_of_scene_is_typed()
    ensures { PlaceOfSceneIsTyped }
{
    typed_is_sound();
}
