//! The laws, each as the contract of a call that does nothing.
ghost use Rattle.rule_types.specs.Laws.{CoresKeepType, CoresKeepComplete};
ghost use Rattle.rule_types.specs.Laws.{FunctionsKeepType, FunctionsKeepComplete};
ghost use Rattle.rule_types.specs.Laws.{CasesKeepType, CasesKeepComplete};
ghost use Rattle.rule_types.specs.Laws.{LetsKeepType, LetsKeepComplete};
ghost use Rattle.rule_types.specs.Laws.{DemandedKeepType, DemandedKeepComplete};
ghost use Rattle.rule_types.specs.Laws.{OperandsKeepType, OperandsKeepComplete};
ghost use Rattle.rule_types.specs.Laws.{NamesInWholesKeepType, NamesInWholesKeepComplete};
ghost use Rattle.rule_types.specs.Laws.{ScenesHaveTypedOrigins, NamesKeepType, NamesKeepComplete};
ghost use Rattle.rule_types.specs.Laws.{PrimitivesKeepType, PrimitivesKeepComplete};
ghost use Rattle.rule_types.specs.Laws.{SignalsKeepType, SignalsKeepComplete};
ghost use Rattle.rule_types.specs.Laws.{InstancesKeepType, InstancesKeepComplete};
ghost use Rattle.rule_types.specs.States.{StatesHaveTypedOrigins, StepsKeepState};
ghost use Rattle.rule_types.specs.States.{LiftedBecomesTyped};
ghost use Rattle.rule_types.specs.States.{CallOriginHasType, CallOriginIsComplete};
ghost use Rattle.rule_types.specs.States.{CallBecomesTyped, AfterKeepsState, OriginTellsType};
ghost use Rattle.rule_types.specs.States.{NumberHasType};

use chw_typing::laws::typed_is_sound;
use rewriting::scene_laws::{names_of_modes, settings_of_scenes};

/// A spine keeps its type, and stays complete, where its core does.
pub fn cores_keep()
    ensures types { CoresKeepType }
    ensures complete { CoresKeepComplete }
{}

/// What rules make of functions keeps types and complete terms.
pub fn functions_keep()
    ensures types { FunctionsKeepType }
    ensures complete { FunctionsKeepComplete }
{}

/// What rules make of a case keeps types and complete terms.
pub fn cases_keep()
    ensures types { CasesKeepType }
    ensures complete { CasesKeepComplete }
{}

/// What rules make of a letrec keeps types and complete terms.
pub fn lets_keep()
    ensures types { LetsKeepType }
    ensures complete { LetsKeepComplete }
{}

/// What rules make of a primitive with a demanded letrec or case keeps types and complete terms.
pub fn demanded_keep()
    ensures types { DemandedKeepType }
    ensures complete { DemandedKeepComplete }
{}

/// A name for an operand keeps types and complete terms.
pub fn operands_keep()
    ensures types { OperandsKeepType }
    ensures complete { OperandsKeepComplete }
{}

/// A name for an operand of a call, or for what a result place gives, keeps types and complete
/// terms.
pub fn names_in_wholes_keep()
    ensures types { NamesInWholesKeepType }
    ensures complete { NamesInWholesKeepComplete }
{}

/// What rules make of a definition's name keeps types and complete terms; so in a typed scene.
pub fn names_keep()
    ensures scenes { ScenesHaveTypedOrigins }
    ensures types { NamesKeepType }
    ensures complete { NamesKeepComplete }
{
    settings_of_scenes();
}

/// What rules make of a primitive on vectors, and of one on words, keeps types and complete terms.
pub fn primitives_keep()
    ensures types { PrimitivesKeepType }
    ensures complete { PrimitivesKeepComplete }
{}

/// What rules make of functions on signals keeps types, but for the names of made definitions. It
/// keeps complete terms.
pub fn signals_keep()
    ensures types { SignalsKeepType }
    ensures complete { SignalsKeepComplete }
{}

/// An instance of a rule keeps types, but for the rule of made definitions, and complete terms.
pub fn instances_keep()
    ensures types { InstancesKeepType }
    ensures complete { InstancesKeepComplete }
{}

/// A step by a rule that makes no definition leads from a typed state to a typed one.
pub fn steps_keep()
    ensures origins { StatesHaveTypedOrigins }
    ensures steps { StepsKeepState }
{
    typed_is_sound();
}

/// A lifted function with a lambda for each parameter becomes a typed made definition.
pub fn lifted_becomes_typed()
    ensures { LiftedBecomesTyped }
{}

/// A call as a closed term has the type of a function of its free variables. It is complete where
/// the call is.
pub fn call_origins()
    ensures types { CallOriginHasType }
    ensures complete { CallOriginIsComplete }
{
    names_of_modes();
}

/// A call of named types becomes a typed made definition.
pub fn call_becomes_typed()
    ensures { CallBecomesTyped }
{
    names_of_modes();
}

/// The state with the definition that a rule makes is typed.
pub fn new_states_keep()
    ensures { AfterKeepsState }
{
    typed_is_sound();
    names_of_modes();
}

/// A made definition has the type of a term that is its origin, up to naturals; so has the number
/// that is taken for the term.
pub fn origins_tell_types()
    ensures origin { OriginTellsType }
    ensures number { NumberHasType }
{}
