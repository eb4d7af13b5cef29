//! Worked examples, each as the contract of a call that does nothing.
ghost use Rattle.rewriting.specs.PlaceExamples.{NamedSide, UnnamedSide, LetBody, ConstantScrutinee, DemandedFunctions, FirstContent, ConstantArgument, NoWordsInValues, TwoSteps};

/// Below a letrec of values: a right side of a named type and the body are active, and a right side of a function's type isn't.
pub fn of_letrecs()
    ensures named { NamedSide }
    ensures unnamed { UnnamedSide }
    ensures body { LetBody }
{}

/// Below circuits: a scrutinee that is a constant, the functions of an `ap`, what a register begins with, and a place two steps below.
pub fn of_circuits()
    ensures scrutinee { ConstantScrutinee }
    ensures functions { DemandedFunctions }
    ensures content { FirstContent }
    ensures steps { TwoSteps }
{}

/// Arguments of a primitive on words are active in constants alone.
pub fn of_constants()
    ensures argument { ConstantArgument }
    ensures values { NoWordsInValues }
{}
