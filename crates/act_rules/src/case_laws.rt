//! Laws of the meaning of rules on cases, each as the contract of a call that does nothing.
ghost use Rattle.act_rules.specs.CaseLaws.{CaseAppActs, CaseTypeAppActs, CaseCaseActs, CaseConActs, CaseLitActs, CaseDefaultActs, ProjectionsAct, PrimLetActs, PrimCaseActs};

use chw_typing::laws::typed_is_sound;

/// A case on an argument or on a type acts so with the argument inside.
pub fn app_case_acts()
    ensures terms { CaseAppActs }
    ensures types { CaseTypeAppActs }
{
    typed_is_sound();
}

/// A case of a case acts so with the outer one inside.
pub fn case_case_acts()
    ensures { CaseCaseActs }
{
    typed_is_sound();
}

/// A primitive on a letrec acts so inside of the letrec.
pub fn prim_let_acts()
    ensures { PrimLetActs }
{
    typed_is_sound();
}

/// A primitive on a case acts so inside of the case.
pub fn prim_case_acts()
    ensures { PrimCaseActs }
{
    typed_is_sound();
}

/// A case of what has a constructor, or of a literal, acts so by the alternative that takes it; so does a default alone.
pub fn known_case_acts()
    ensures constructors { CaseConActs }
    ensures literals { CaseLitActs }
    ensures defaults { CaseDefaultActs }
{
    typed_is_sound();
}

/// A case of a port acts so by its projections.
pub fn projections_act()
    ensures { ProjectionsAct }
{
    typed_is_sound();
}
