//! The laws, each as the contract of a call that does nothing.
ghost use Rattle.rule_parts.specs.Laws.{MadeIsInstance, InstanceIsMade};

/// What a rule makes of a term with a type is its instance there; a rule that makes nothing of whole terms has no others.
pub fn made_is_instance()
    ensures made { MadeIsInstance }
    ensures instance { InstanceIsMade }
{}
