//! Laws of terms, each as the contract of a call that does nothing.
ghost use Rattle.chw_terms.specs.TermPromises.{RenameAfterRename, SubAfterRename, RenameAfterSub, SubAfterSub, RenameByNone, SubByNone, RenameIsSub, ShiftAgain, ShiftAfterShift, ShiftAfterPut, ShiftBelowPut, PutAfterShift, PutAfterPut, SubWhereOccurs, PutWhereAbsent, ShiftWhereAbsent, OccursAfterShift, AbsentAfterShift, OccursAfterTypesRenamed, OccursAfterTypesPut};
ghost use Rattle.chw_terms.specs.TypesPromises.{TypesRenameAfterRename, TypesSubAfterRename, TypesRenameAfterSub, TypesSubAfterSub, TypesRenameByNone, TypesSubByNone, TypesRenameIsSub, TypesRenameThroughRename, TypesRenameThroughSub, TypesSubThroughRename, TypesSubThroughSub, PutTypesAfterShift, PutTypesAfterPut, ShiftTypesAfterPutTypes, PutTypesAfterShiftTypes, PutTypesAfterPutTypes, EvaluatedOnce, EvaluatedThroughRename, EvaluatedThroughTypesRename, EvaluatedThroughSub, EvaluatedThroughTypesSub, PutTypeInAfterShift, PutTypeInAfterPut};

/// Renaming all variables at once: two renamings are one, and where each variable stays nothing changes.
pub fn renaming()
    ensures twice { RenameAfterRename }
    ensures none { RenameByNone }
{}

/// Putting a term for each variable at once, before and after renaming and putting. A renaming is a putting of variables.
pub fn putting()
    ensures after_renaming { SubAfterRename }
    ensures renamed { RenameAfterSub }
    ensures twice { SubAfterSub }
    ensures none { SubByNone }
    ensures renaming { RenameIsSub }
{}

/// Renaming all type variables at once.
pub fn renaming_types()
    ensures twice { TypesRenameAfterRename }
    ensures none { TypesRenameByNone }
{}

/// Putting a type for each type variable at once, before and after renaming and putting.
pub fn putting_types()
    ensures after_renaming { TypesSubAfterRename }
    ensures renamed { TypesRenameAfterSub }
    ensures twice { TypesSubAfterSub }
    ensures none { TypesSubByNone }
    ensures renaming { TypesRenameIsSub }
{}

/// Variables and type variables don't mix: the one are renamed and put before or after the other.
pub fn variables_and_types()
    ensures renamed_renamed { TypesRenameThroughRename }
    ensures renamed_put { TypesRenameThroughSub }
    ensures put_renamed { TypesSubThroughRename }
    ensures put_put { TypesSubThroughSub }
{}

/// Shifting after shifting: within what the first made room for it is one shift, and elsewhere the order doesn't matter.
pub fn shift_after_shift()
    ensures within { ShiftAgain }
    ensures apart { ShiftAfterShift }
{}

/// Shifting after putting is putting after shifting, with the places moved.
pub fn shift_after_put()
    ensures above { ShiftAfterPut }
    ensures below { ShiftBelowPut }
{}

/// Putting for a variable that a shift made room for gives the term as it was before.
pub fn put_after_shift()
    ensures { PutAfterShift }
{}

/// The order of two puttings, with the places moved.
pub fn put_after_put()
    ensures { PutAfterPut }
{}

/// Only what is put for the variables that occur matters. So any term may be put for one that doesn't occur, and a shift at its
/// place undoes that.
pub fn put_where_absent()
    ensures any_term { PutWhereAbsent }
    ensures undone { ShiftWhereAbsent }
    ensures at_once { SubWhereOccurs }
{}

/// A shift takes each variable along, and the variables that it makes room for don't occur.
pub fn occurs_after_shift()
    ensures along { OccursAfterShift }
    ensures absent { AbsentAfterShift }
{}

/// Types hold no variables of terms.
pub fn occurs_beside_types()
    ensures renamed { OccursAfterTypesRenamed }
    ensures put { OccursAfterTypesPut }
{}

/// A type is put after shifting and putting terms as before it.
pub fn put_types_beside_terms()
    ensures after_shift { PutTypesAfterShift }
    ensures after_put { PutTypesAfterPut }
{}

/// Shifting type variables after putting a type is putting after shifting, with the places moved.
pub fn shift_types_after_put_types()
    ensures { ShiftTypesAfterPutTypes }
{
    chw_types::laws::shift_after_put();
}

/// Putting for a type variable that a shift made room for gives the term as it was before.
pub fn put_types_after_shift_types()
    ensures { PutTypesAfterShiftTypes }
{
    chw_types::laws::put_after_shift();
}

/// The order of two puttings of types, with the places moved.
pub fn put_types_after_put_types()
    ensures { PutTypesAfterPutTypes }
{
    chw_types::laws::put_after_put();
}

/// Evaluating closed naturals: once is enough, and it goes through renaming and putting.
pub fn evaluating()
    ensures once { EvaluatedOnce }
    ensures renamed { EvaluatedThroughRename }
    ensures types_renamed { EvaluatedThroughTypesRename }
    ensures put { EvaluatedThroughSub }
    ensures types_put { EvaluatedThroughTypesSub }
{}

/// The argument of a type lambda is put after shifting and putting terms as before it.
pub fn put_type_in_beside_terms()
    ensures after_shift { PutTypeInAfterShift }
    ensures after_put { PutTypeInAfterPut }
{}
