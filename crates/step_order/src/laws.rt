//! The laws, each as the contract of a call that does nothing.
ghost use Rattle.step_order.specs.Laws.{PlacesStayBehind, OtherRulesAddNone};
ghost use Rattle.step_order.specs.Laws.{StepsStayBehind, StepsAreSought};

/// A place that is active where an active place has got another term is sought from that place on,
/// or was active before.
pub fn places_stay_behind()
    ensures { PlacesStayBehind }
{}

/// Only the rule of made definitions adds one.
pub fn other_rules_add_none()
    ensures { OtherRulesAddNone }
{}

/// A step after one that adds no made definition is sought from the place of that one on, or was
/// possible before. Since each step is the first one of its state, it is sought from there on.
pub fn steps_stay_behind()
    ensures stay { StepsStayBehind }
    ensures sought { StepsAreSought }
{}
