//! Parts of types.
ghost use Rattle.std.specs.Prelude.{◌≡◌};
ghost use Rattle.chw_limits.specs.Parts.{type_has};
ghost use Rattle.chw_limits.specs.Sought.{tests_of};

use crate::sought::Sought;
use chw_grammar::{TypeNode, TypeTree};

/// Whether the type has a part that is sought.
pub fn type_has(ty: &TypeTree, sought: Sought) -> bool
    ensures { result ≡ type_has (tests_of sought) ty.now }
{
    match &ty.node {
        TypeNode::Forall(_, _, body) => type_has(body, sought),
        TypeNode::Arrow(from, to) => type_has(from, sought) || type_has(to, sought),
        TypeNode::Sum(parts) | TypeNode::Product(parts) | TypeNode::Named(_, parts) => {
            for part in parts {
                if type_has(part, sought) {
                    return true;
                }
            }
            false
        }
        TypeNode::Variable(_) => false,
        TypeNode::Numeral(digits) => sought.numeral(digits.bytes.as_slice()),
    }
}
