//! The laws, each as the contract of a call that does nothing.
ghost use Rattle.chw_typing.specs.GroupLaws.{OccursAfterRename, OccursAfterSub, RenameWhereOccurs, PutIsInPlace, InPlaceWhereAbsent, ShiftIsExchange, ExchangedBack, SpineRenamed, DeclaredJoined, SizeJoined, FirstOfJoined, SecondOfJoined, JoinedRenamed, JoinedPut, ReachedIsBinding, WithMoreTwice, DeclaredLength, DeclaredRenamed, DeclaredPut, CountRenamed, CountPut, PatternsOfEach, PatternsRenamed, PatternsPut, NoneHiddenByPatterns, CoveredByPatterns, FreeAreOccurring, FreeAreDistinct};

/// Where a variable occurs after renaming, and after putting terms for variables.
pub fn occurrences()
    ensures after_renaming { OccursAfterRename }
    ensures after_putting { OccursAfterSub }
{}

/// Only where a renaming brings the variables that occur matters.
pub fn rename_where_occurs()
    ensures { RenameWhereOccurs }
{}

/// Putting a term that stands in the scope of the result: the other putting is this one, and without the variable it only brings the
/// others down.
pub fn putting_in_place()
    ensures put { PutIsInPlace }
    ensures absent { InPlaceWhereAbsent }
{}

/// Variables that change places.
pub fn exchanging()
    ensures shift { ShiftIsExchange }
    ensures back { ExchangedBack }
{}

/// The arguments of a spine are renamed each for itself; so also where they are raised.
pub fn renaming_spines()
    ensures { SpineRenamed }
{}

/// Two groups as one, and the variables that they bind.
pub fn joining_groups()
    ensures declared { DeclaredJoined }
    ensures size { SizeJoined }
    ensures scope { WithMoreTwice }
    ensures first { FirstOfJoined }
    ensures second { SecondOfJoined }
    ensures renamed { JoinedRenamed }
    ensures put { JoinedPut }
{}

/// Only bindings of a group are reached from its body.
pub fn reached_bindings()
    ensures { ReachedIsBinding }
{}

/// A group declares a type for each variable, and keeps them where variables are renamed and terms are put.
pub fn declared_types()
    ensures length { DeclaredLength }
    ensures renamed { DeclaredRenamed }
    ensures put { DeclaredPut }
{}

/// A vector keeps its number of elements where variables are renamed and terms are put.
pub fn counts()
    ensures renamed { CountRenamed }
    ensures put { CountPut }
{}

/// Alternatives keep their patterns where bodies change, variables are renamed and terms are put.
pub fn patterns_kept()
    ensures each { PatternsOfEach }
    ensures renamed { PatternsRenamed }
    ensures put { PatternsPut }
{}

/// Which alternatives are hidden, and whether they cover all, depends on the patterns alone.
pub fn by_patterns()
    ensures hidden { NoneHiddenByPatterns }
    ensures covered { CoveredByPatterns }
{}

/// The free variables of a term are those that occur, each once.
pub fn free_variables()
    ensures occurring { FreeAreOccurring }
    ensures distinct { FreeAreDistinct }
{}
