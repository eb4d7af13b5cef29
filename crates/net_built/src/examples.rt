//! Worked examples, as the contract of a call that does nothing.
ghost use Rattle.net_built.specs.Examples.{CopyIsBuilt, RegisterIsBuilt, ProductIsBuilt, CaseOnDataIsBuilt, CaseOnWordsIsBuilt, CaseOnNothingIsBuilt, ChoiceOfNothingIsBuilt, ConstructorIsBuilt, SignedProductIsBuilt, ElementByNothingIsBuilt, AddressesAreBuilt, MemoryIsBuilt, PostorderIsBuilt};
ghost use Rattle.net_built.specs.Accumulator.{AccumulatorIsBuilt};

/// Bodies of circuits.
pub fn of_circuits()
    ensures copy { CopyIsBuilt }
    ensures register { RegisterIsBuilt }
    ensures product { ProductIsBuilt }
{}

/// Bodies of values: constructors and cases.
pub fn of_values()
    ensures constructor { ConstructorIsBuilt }
    ensures tag { CaseOnDataIsBuilt }
    ensures words { CaseOnWordsIsBuilt }
    ensures nothing { CaseOnNothingIsBuilt }
    ensures choice { ChoiceOfNothingIsBuilt }
{}

/// The cells of primitives, of addresses and of a memory.
pub fn of_cells()
    ensures product { SignedProductIsBuilt }
    ensures element { ElementByNothingIsBuilt }
    ensures addresses { AddressesAreBuilt }
    ensures memory { MemoryIsBuilt }
{}

/// The order of modules.
pub fn of_modules()
    ensures { PostorderIsBuilt }
{}

/// The net of a whole program.
pub fn of_programs()
    ensures { AccumulatorIsBuilt }
{}
