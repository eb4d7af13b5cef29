//! The laws, as the contract of a call that does nothing.
ghost use Rattle.chw_typing.specs.Alike.{SameKeepsRepresentable, SameKeepsLeaves};

use type_laws::laws::fields_keep_same;

/// What is the same up to naturals as a closed type is representable if that one is; and it is a port if that one is, with the same leaves.
pub fn same_types_keep_names()
    ensures representable { SameKeepsRepresentable }
    ensures leaves { SameKeepsLeaves }
{
    fields_keep_same();
}
