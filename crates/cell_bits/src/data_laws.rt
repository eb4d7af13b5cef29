//! Laws of the cells of constructors, fields, choices and elements, each as the contract of a call that does nothing.
ghost use Rattle.cell_bits.specs.AddressLaws.{AddressesBear, NarrowKeeps, NarrowNumbers};
ghost use Rattle.cell_bits.specs.ChoiceLaws.{CasesBear, CasesOfBear, ChoiceBears, TestedBears, TestsBear};
ghost use Rattle.cell_bits.specs.DataLaws.{ConstructorsBear, FieldsBear, FieldsBearEach};
ghost use Rattle.cell_bits.specs.ElementLaws.{ElementsBear, IndexedBear, VectorsBear};

/// The cells of a constructor give its encoding, where its fields have theirs.
pub fn constructors_bear_encodings()
    ensures { ConstructorsBear }
{}

/// The variables of an alternative's fields have the fields' bits.
pub fn fields_bear_values()
    ensures apart { FieldsBear }
    ensures in_order { FieldsBearEach }
{}

/// What a case tests has the tag of data, and all bits of a scalar.
pub fn tested_wires_bear_tags()
    ensures { TestedBears }
{}

/// The wires of tests tell of each word whether the tested wire has it.
pub fn tests_tell_words()
    ensures { TestsBear }
{}

/// A choice gives the result of the first test that is true, or the last result.
pub fn choices_bear_results()
    ensures { ChoiceBears }
{}

/// A case gives the result of the first alternative that stands for the tested bits, or of the last alternative.
pub fn cases_bear_results()
    ensures on_tested { CasesBear }
    ensures on_whole { CasesOfBear }
{}

/// The cell of a vector gives the bits of its elements in order.
pub fn vectors_bear_elements()
    ensures { VectorsBear }
{}

/// The cells of elements give their bits, where the vector has those of all in order.
pub fn elements_bear_values()
    ensures one { ElementsBear }
    ensures indexed { IndexedBear }
{}

/// The cells of an address give one of 12 bits, whose number is that of the address, and 4,095 in place of greater ones.
pub fn addresses_bear_numbers()
    ensures bears { AddressesBear }
    ensures number { NarrowNumbers }
    ensures keeps { NarrowKeeps }
{}
