//! A law of the faults of names. It is a function that does nothing, and says its law of all descriptions.
ghost use Rattle.chw_grammar.specs.declared.program.Tree.{Tree};
ghost use Rattle.chw_resolve.specs.Faults.{IsNameFault, IsWellNamed};
ghost use Rattle.chw_resolve.specs.declared.fault.NameFault.{NameFault};

use data_kinds::laws::a_cycle_leads_back;

/// A description that breaks nothing has no fault.
pub fn well_named_has_no_fault()
    ensures { (tree : Tree) (fault : NameFault) → IsWellNamed tree → IsNameFault tree fault → ⊥ }
{
    a_cycle_leads_back();
}
