//! Worked examples, as the contract of a call that does nothing.
ghost use Rattle.rewriting.specs.RuleExamples.{LetJoins, BindingGoes, FunctionIsPut, ConstructorTaken, CaseMovesOut, PartsProjected, FunctionsComposed, OperandNamed, ArgumentMoves, LetLeavesVector, SumComputed, TruthComputed, FunctionsBehind, CallClosed};

/// Groups of bindings: names that change places, that go, and for which a term is put.
pub fn of_groups()
    ensures joined { LetJoins }
    ensures left_out { BindingGoes }
    ensures put { FunctionIsPut }
{}

/// Cases: of a constructor, of a case, and of a port.
pub fn of_cases()
    ensures taken { ConstructorTaken }
    ensures moved { CaseMovesOut }
    ensures parts { PartsProjected }
{}

/// New names: of lambdas, of an operand, and of the free variables of a call.
pub fn of_new_names()
    ensures composed { FunctionsComposed }
    ensures behind { FunctionsBehind }
    ensures operand { OperandNamed }
    ensures call { CallClosed }
{}

/// Arguments: of a case, of a primitive on vectors, and of primitives on words.
pub fn of_arguments()
    ensures moved { ArgumentMoves }
    ensures left { LetLeavesVector }
    ensures sum { SumComputed }
    ensures truth { TruthComputed }
{}
