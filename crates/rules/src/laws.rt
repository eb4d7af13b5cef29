//! The laws, each as the contract of a call that does nothing.
ghost use Rattle.rules.specs.Laws.{AnswersAreInstances, InstanceAnswersKeep, UntypedHasNone};

use rule_parts::laws::made_is_instance;
use rule_types::laws::{instances_keep, names_keep};

/// What a rule makes of cores of a term with a type are its instances there, and a term without a type has none. An instance keeps types
/// and complete cases, but for the rule of made definitions.
pub fn answers_of_typed_terms()
    ensures instances { AnswersAreInstances }
    ensures untyped { UntypedHasNone }
    ensures kept { InstanceAnswersKeep }
{
    made_is_instance();
    instances_keep();
    names_keep();
}
