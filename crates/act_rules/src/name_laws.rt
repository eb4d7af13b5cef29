//! Laws of the meaning of rules on names, each as the contract of a call that does nothing.
ghost use Rattle.act_rules.specs.NameLaws.{OperandNameActs, ArgumentNameActs, ResultNameActs, UnfoldGlobalActs, UnfoldMadeActs, EtaFunctionActs, ElementActs, ElementAtActs};

use chw_typing::laws::typed_is_sound;

/// A term acts so with a name for an operand, for an argument of a call, and for itself.
pub fn names_act()
    ensures operands { OperandNameActs }
    ensures arguments { ArgumentNameActs }
    ensures results { ResultNameActs }
{
    typed_is_sound();
}

/// A definition's name acts so unfolded: as its body, and as the origin of a made definition.
pub fn unfolding_acts()
    ensures globals { UnfoldGlobalActs }
    ensures made { UnfoldMadeActs }
{
    typed_is_sound();
}

/// A lifted function acts so with its parameters written out.
pub fn eta_function_acts()
    ensures { EtaFunctionActs }
{
    typed_is_sound();
}

/// An element of a written vector acts as what takes it, by a type or by a literal.
pub fn elements_act()
    ensures by_types { ElementActs }
    ensures by_literals { ElementAtActs }
{
    typed_is_sound();
}
