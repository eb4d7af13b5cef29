//! Worked examples of types, each as the contract of a call that does nothing.
ghost use Rattle.chw_typing.specs.Examples.{Identity, LambdaOverASignal, AppliedToASignal, SumOfNaturals, LetOfASignal, TwoForOneConstructor, AfterADefault, LiteralPattern, LookingAtAFunction, LookingAtACircuit, TooFewNames, VectorOfTwo, ArgumentOfTheKind, DegreeTooGreat, OnlyUpToNaturals};
ghost use Rattle.chw_typing.specs.ProgramExamples.{NoPort, NameMissing, OtherType, Incomplete, NoDefault};

/// Lambdas: none has a type that goes from a circuit to a value, and none is applied then; naturals of one polynomial are one width.
pub fn of_functions()
    ensures identity { Identity }
    ensures forgets { LambdaOverASignal }
    ensures applied { AppliedToASignal }
    ensures sum { SumOfNaturals }
{}

/// A letrec of a type of values has no binding of a circuit.
pub fn of_lets()
    ensures { LetOfASignal }
{}

/// Cases: what they look at, one alternative for a constructor, a default last, as many names as fields, no value made of a circuit.
pub fn of_cases()
    ensures twice { TwoForOneConstructor }
    ensures late { AfterADefault }
    ensures literal { LiteralPattern }
    ensures function { LookingAtAFunction }
    ensures circuit { LookingAtACircuit }
    ensures names { TooFewNames }
{}

/// A vector of two elements.
pub fn of_vectors()
    ensures { VectorOfTwo }
{}

/// Type arguments: of the kind that is asked for, and of no degree that leaves no type with a kind.
pub fn of_type_arguments()
    ensures kind { ArgumentOfTheKind }
    ensures degree { DegreeTooGreat }
{}

/// A term whose type is a variable's only up to naturals is put for it, and the type is kept.
pub fn of_putting()
    ensures { OnlyUpToNaturals }
{}

/// Programs that are not typed: a top that is no port, a name that is missing, a body of another type, cases that leave something out.
pub fn of_programs()
    ensures port { NoPort }
    ensures name { NameMissing }
    ensures other { OtherType }
    ensures constructor { Incomplete }
    ensures literal { NoDefault }
{}
