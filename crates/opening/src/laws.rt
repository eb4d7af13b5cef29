//! The laws, each as the contract of a call that does nothing.
ghost use Rattle.opening.specs.Laws.{OpeningIsTyped, OpeningSceneIsTyped};

use rule_types::laws::steps_keep;

/// The state with which a tidy and typed program opens is typed, and so is the scene.
pub fn opening_is_typed()
    ensures state { OpeningIsTyped }
    ensures scene { OpeningSceneIsTyped }
{
    steps_keep();
}
