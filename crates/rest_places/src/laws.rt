//! The laws, each as the contract of a call that does nothing.
ghost use Rattle.rest_places.specs.Laws.{SpineView, NotApplied, NoDefinition, NoMadeDefinition};
ghost use Rattle.rest_places.specs.Laws.{BindingsAreNamed, NoConstantLetrec, NoLetInSides};
ghost use Rattle.rest_places.specs.Laws.{NoLetInBody, NoCycle, RestBelow, BelowIsSmaller};
ghost use Rattle.rest_places.specs.Laws.{RestAtEachType};
ghost use Rattle.rest_places.specs.Laws.{CaseOnKnown, ClosedIsNumber, PutIsNumber};
ghost use Rattle.rest_places.specs.Laws.{ValuesHoldValues, NoneNeedsNames, OperandsAreVariables};
ghost use Rattle.rest_places.specs.Laws.{CallOperandsAreVariables, ResultIsNamed};
ghost use Rattle.rest_places.specs.PartLaws.{SidesAreAtRest, BodyIsAtRest, ScrutineeIsAtRest};
ghost use Rattle.rest_places.specs.PartLaws.{BranchesAreAtRest, NoDemandedLet, NoDemandedCase};
ghost use Rattle.rest_places.specs.PrimLaws.{SizesAreWithin, NoLimit, PrimArity, ConArity};
ghost use Rattle.rest_places.specs.PrimLaws.{NoGetOfWritten, NoAtOfWritten, NoWordsOnLiterals};
ghost use Rattle.rest_places.specs.PrimLaws.{Unrolls};
ghost use Rattle.rest_places.specs.Chains.{LiftedIsMade};
ghost use Rattle.rest_places.specs.CircuitHeads.{CircuitHeadsGo};
ghost use Rattle.rest_places.specs.Constants.{NoUnrolled, ConstantsAreKnown, ConstantsStand};
ghost use Rattle.rest_places.specs.Constants.{ValueHeadsGo};

use rewriting::scene_laws::names_of_modes;

/// A term whose type takes no arguments, by its head.
pub fn spine_view()
    ensures { SpineView }
{}

/// At rest no lambda, letrec or case has an argument.
pub fn not_applied()
    ensures { NotApplied }
{}

/// At rest no head is a name where it can't be called.
pub fn not_a_name()
    ensures definition { NoDefinition }
    ensures made { NoMadeDefinition }
{}

/// At rest the bindings of a letrec have named types; in constants there is no letrec.
pub fn no_unnamed_binding()
    ensures named { BindingsAreNamed }
    ensures constant { NoConstantLetrec }
{
    names_of_modes();
}

/// At rest no part of a letrec is one, and no binding of values leads back to itself.
pub fn no_let_in_let()
    ensures side { NoLetInSides }
    ensures body { NoLetInBody }
    ensures cycle { NoCycle }
{}

/// Below a place at rest there are places at rest, with smaller terms.
pub fn rest_below()
    ensures below { RestBelow }
    ensures retyped { RestAtEachType }
    ensures smaller { BelowIsSmaller }
{
    names_of_modes();
}

/// A case at rest looks at nothing that is known.
pub fn case_on_known()
    ensures { CaseOnKnown }
{}

/// Closed naturals are numbers.
pub fn closed_is_number()
    ensures closed { ClosedIsNumber }
    ensures put { PutIsNumber }
{}

/// In a term of a type of values only variables of such types occur.
pub fn values_hold_values()
    ensures { ValuesHoldValues }
{}

/// At rest operands of named types are variables, and a result place has a variable or a letrec.
pub fn operands_are_variables()
    ensures none { NoneNeedsNames }
    ensures core { OperandsAreVariables }
    ensures call { CallOperandsAreVariables }
    ensures result { ResultIsNamed }
{}

/// At rest no limit is passed, and the sizes of a primitive are within the limits where they count.
pub fn sizes_are_within()
    ensures none { NoLimit }
    ensures sizes { SizesAreWithin }
{}

/// How many arguments a primitive and a constructor take.
pub fn arities()
    ensures primitive { PrimArity }
    ensures constructor { ConArity }
{}

/// At rest no element is taken of a written vector.
pub fn element_there()
    ensures by_number { NoGetOfWritten }
    ensures by_word { NoAtOfWritten }
{}

/// At rest in constants no primitive on words has literals alone.
pub fn computes()
    ensures { NoWordsOnLiterals }
{}

/// At rest a primitive on vectors that is unrolled, with all its arguments, is within the limits.
pub fn unrolls()
    ensures { Unrolls }
{}

/// The right sides and the body of a letrec at rest, what a case at rest looks at and its
/// alternatives are at rest, with their types.
pub fn parts_are_at_rest()
    ensures side { SidesAreAtRest }
    ensures body { BodyIsAtRest }
    ensures scrutinee { ScrutineeIsAtRest }
    ensures branch { BranchesAreAtRest }
{
    names_of_modes();
}

/// At rest no demanded argument is a letrec or a case.
pub fn nothing_moves_out()
    ensures letrec { NoDemandedLet }
    ensures case { NoDemandedCase }
{}

/// The function of a chain at rest, with a representable result, is a made definition on all its
/// arguments.
pub fn lifted_is_made()
    ensures { LiftedIsMade }
{
    names_of_modes();
}

/// At rest no primitive that is unrolled has all its arguments.
pub fn nothing_unrolls()
    ensures { NoUnrolled }
{}

/// At rest a constant of a type of values is known by its type, and one of a representable type is
/// a constant of the normal form.
pub fn constants_are_known()
    ensures known { ConstantsAreKnown }
    ensures constant { ConstantsStand }
{
    names_of_modes();
    nothing_unrolls();
}

/// At rest the head of a value, of a type that isn't representable, is taken away by a rule of the
/// place above.
pub fn value_heads_go()
    ensures { ValueHeadsGo }
{
    names_of_modes();
    nothing_unrolls();
}

/// At rest the head of a circuit, of a type that is no port, is taken away by a rule of the place
/// above, or it is a signal of one value or a chain.
pub fn circuit_heads_go()
    ensures { CircuitHeadsGo }
{
    names_of_modes();
    nothing_unrolls();
}
