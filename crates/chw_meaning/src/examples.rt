//! Worked examples of the meaning, each as the contract of a call that does nothing. The values of the designs are those of Clash's own
//! simulation, but for the choices of this language: the first value of a block RAM, and places outside its content. Those of the whole
//! programs are Clash's own or those of another program that was written for this language. The small terms were worked by hand.
ghost use Rattle.chw_meaning.specs.Shown.{CounterShown, AccumulatorShown, SumsShown, MemoryShown, CrossingShown, SwappingShown, PairShown, SignedShown, FilterShown, OneResetShown, MoreResetsShown, OtherResetShown, ResetMemoryShown};
ghost use Rattle.chw_meaning.specs.Whole.{WholeProgram};
ghost use Rattle.chw_meaning.specs.TopsShown.{PairInShown, WithoutWidthShown, EndlessPartShown, TwoInputsShown, OtherTickShown, BothTickShown, PairOutShown, ProductOutShown, RecursiveOutShown, ProductInShown, VectorOutShown, NestedVectorShown, ValueInShown, ResetShown};
ghost use Rattle.chw_meaning.specs.Corners.{EndlessHasNone, LookedAtHasNone, LazyCases, OtherCases, Recursion, Polymorphism, SignalsOfFunctions, PartialConstructors, VectorsOfSignals, OneElement, Indices, Replacing, Folds, Orders, WidthZero, Words, Turns};

use crate::laws::computed_meaning_is_so;

/// A counter, an accumulator, sums of products by a Mealy machine, signed arithmetic on samples, and a filter of four taps.
pub fn of_one_clock()
    ensures counter { CounterShown }
    ensures accumulator { AccumulatorShown }
    ensures sums { SumsShown }
    ensures signed { SignedShown }
    ensures filter { FilterShown }
{}

/// A block RAM: what it shows first, a read and a write at one address, a read and a write outside its content.
pub fn of_memory()
    ensures { MemoryShown }
{}

/// Two clocks: ticks of the one leave what the other clocks alone, and registers that tick together take each other's value.
pub fn of_two_clocks()
    ensures crossing { CrossingShown }
    ensures swapping { SwappingShown }
    ensures pair { PairShown }
{}

/// Resets: in one event, in the first, in two in a row, of another clock; and a block RAM, which none reaches.
pub fn of_resets()
    ensures one { OneResetShown }
    ensures more { MoreResetsShown }
    ensures other { OtherResetShown }
    ensures memory { ResetMemoryShown }
{}

/// What a case looks at. What never ends has no value, nor has a case that looks at it.
pub fn of_cases()
    ensures endless { EndlessHasNone }
    ensures looked_at { LookedAtHasNone }
    ensures lazy { LazyCases }
    ensures others { OtherCases }
{}

/// Recursive lets, polymorphic functions, signals of functions and of partial constructors.
pub fn of_functions()
    ensures recursion { Recursion }
    ensures polymorphism { Polymorphism }
    ensures signals { SignalsOfFunctions }
    ensures partial { PartialConstructors }
{}

/// Vectors: signals in them, single elements, indices past the end, replaced elements, folds and the order of elements.
pub fn of_vectors()
    ensures signals { VectorsOfSignals }
    ensures elements { OneElement }
    ensures indices { Indices }
    ensures replacing { Replacing }
    ensures folds { Folds }
    ensures orders { Orders }
{}

/// Words, words of width 0, and counts of turns.
pub fn of_words()
    ensures words { Words }
    ensures empty { WidthZero }
    ensures turns { Turns }
{}

/// The accumulator as a whole program: a history that fits its ports, and what its output means.
pub fn of_a_program()
    ensures { WholeProgram }
{
    computed_meaning_is_so();
}

/// Inputs of whole programs: a pair, inputs without width before and behind others, two inputs, a product of signals; and a data value
/// on which a function is given.
pub fn of_inputs()
    ensures pair { PairInShown }
    ensures without_width { WithoutWidthShown }
    ensures endless { EndlessPartShown }
    ensures two { TwoInputsShown }
    ensures product { ProductInShown }
    ensures value { ValueInShown }
{
    computed_meaning_is_so();
}

/// A whole program whose domain has a reset.
pub fn of_a_reset()
    ensures { ResetShown }
{
    computed_meaning_is_so();
}

/// Outputs of whole programs: pairs and products with their fields in order, vectors with their elements in order.
pub fn of_outputs()
    ensures pair { PairOutShown }
    ensures product { ProductOutShown }
    ensures recursive { RecursiveOutShown }
    ensures vector { VectorOutShown }
    ensures nested { NestedVectorShown }
{
    computed_meaning_is_so();
}

/// A block RAM beside a second clock: only its own ticks write, read and move its output.
pub fn of_memory_beside_a_clock()
    ensures other { OtherTickShown }
    ensures both { BothTickShown }
{
    computed_meaning_is_so();
}
