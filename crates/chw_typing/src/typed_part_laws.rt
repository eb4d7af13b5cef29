//! The laws, each as the contract of a call that does nothing.
ghost use Rattle.chw_typing.specs.TypedPartLaws.{TypedInScope, LoweredKeepsType, InPlaceKeepsType, InPlacePutsTerms, PutGroupKept, ClosedTermsMove, ClosedKeepsType, MoreMadeKeepsType, MoreMadeKeepsTermTypes, MoreMadeIsSound, BodiesDontMatter, FunctionsCompose, AppliedKeepsKind, TypeAppliedKeepsKind, RenameOccurringKeepsType, RenamedGroupKept, RenamedAltsKept, GroupsJoin, SameTypesKeepAlternatives};

/// What occurs in a typed term is in scope.
pub fn typed_in_scope()
    ensures { TypedInScope }
{}

/// Types are kept where each variable that occurs goes to one of its type.
pub fn renaming_occurring_keeps_types()
    ensures term { RenameOccurringKeepsType }
    ensures group { RenamedGroupKept }
    ensures alternatives { RenamedAltsKept }
{}

/// A term keeps its type where a variable that doesn't occur goes, and where a term is put for one.
pub fn one_variable_less()
    ensures lowered { LoweredKeepsType }
    ensures put { InPlaceKeepsType }
    ensures terms { InPlacePutsTerms }
{}

/// A group keeps its types where terms of the variables' types are put for them.
pub fn putting_keeps_groups()
    ensures { PutGroupKept }
{}

/// A term without free variables keeps its type in every scope.
pub fn closed_terms()
    ensures moved { ClosedTermsMove }
    ensures anywhere { ClosedKeepsType }
{}

/// Two groups as one are typed where both are.
pub fn groups_join()
    ensures { GroupsJoin }
{}

/// Alternatives keep their types where the scrutinee's and the result's are the same up to naturals.
pub fn same_types_keep_alternatives()
    ensures { SameTypesKeepAlternatives }
{}

/// More made definitions keep what is typed, and of made definitions only the types matter.
pub fn more_made()
    ensures has_type { MoreMadeKeepsType }
    ensures term_types { MoreMadeKeepsTermTypes }
    ensures sound { MoreMadeIsSound }
    ensures bodies { BodiesDontMatter }
{}

/// What is applied has the kind of its result.
pub fn kinds_of_applications()
    ensures compose { FunctionsCompose }
    ensures applied { AppliedKeepsKind }
    ensures at_a_type { TypeAppliedKeepsKind }
{}
