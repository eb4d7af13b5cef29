//! Laws of what is checked of programs, each as the contract of a call that does nothing.
ghost use Rattle.chw_check.specs.Faults.{IsTypeFault};
ghost use Rattle.chw_check.specs.Laws.{CompleteLeavesNothingOut, WhatFitsIsSound};
ghost use Rattle.chw_check.specs.declared.fault.TypeFault.{TypeFault};
ghost use Rattle.chw_terms.specs.Tidy.{IsTidy};
ghost use Rattle.chw_terms.specs.declared.program.Program.{Program};
ghost use Rattle.chw_typing.specs.Programs.{IsTyped};

/// What the terms of a tidy program are typed over is sound, if each written type in it has a kind that it may have there.
pub fn what_fits_is_sound()
    ensures { WhatFitsIsSound }
{}

/// A term that has a type is complete exactly where no case in it leaves out a constructor or a default.
pub fn complete_leaves_nothing_out()
    ensures { CompleteLeavesNothingOut }
{}

/// A program that is tidy and typed has no fault.
pub fn typed_has_no_fault()
    ensures { (p : Program) (fault : TypeFault) → IsTidy p → IsTyped p → IsTypeFault p fault → ⊥ }
{}
