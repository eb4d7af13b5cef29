//! Parts of terms.
ghost use Rattle.std.specs.Prelude.{◌≡◌};
ghost use Rattle.chw_limits.specs.Parts.{pattern_has, term_has};
ghost use Rattle.chw_limits.specs.Sought.{tests_of};

use crate::sought::Sought;
use crate::types::type_has;
use chw_grammar::{Argument, Pattern, TermNode, TermTree};

/// Whether the pattern has a part that is sought.
fn pattern_has(pattern: &Pattern, sought: Sought) -> bool
    ensures { result ≡ pattern_has (tests_of sought) pattern.now }
{
    match pattern {
        Pattern::Constructor(_, _) | Pattern::Default => false,
        Pattern::Literal(literal) => sought.literal(literal.bytes.as_slice()),
    }
}

/// Whether the term has a part that is sought.
pub fn term_has(term: &TermTree, sought: Sought) -> bool
    ensures { result ≡ term_has (tests_of sought) term.now }
{
    match &term.node {
        TermNode::Lambda(_, ty, body) => type_has(ty, sought) || term_has(body, sought),
        TermNode::TypeLambda(_, _, body) => term_has(body, sought),
        TermNode::LetRec(bindings, body) => {
            for binding in bindings {
                if type_has(&binding.ty, sought) || term_has(&binding.term, sought) {
                    return true;
                }
            }
            term_has(body, sought)
        }
        TermNode::Case(scrutinee, alternatives) => {
            if term_has(scrutinee, sought) {
                return true;
            }
            for alternative in alternatives {
                if pattern_has(&alternative.pattern, sought)
                    || term_has(&alternative.term, sought)
                {
                    return true;
                }
            }
            false
        }
        TermNode::Apply(head, arguments) => {
            if term_has(head, sought) {
                return true;
            }
            for argument in arguments {
                let found = match argument {
                    Argument::OfTerm(term) => term_has(term, sought),
                    Argument::OfType(ty) => type_has(ty, sought),
                };
                if found {
                    return true;
                }
            }
            false
        }
        TermNode::Name(_) | TermNode::Constructor(_) => false,
        TermNode::Literal(literal) => sought.literal(literal.bytes.as_slice()),
        TermNode::VecLit(ty, elements) => {
            if sought.vector(elements.len()) || type_has(ty, sought) {
                return true;
            }
            for element in elements {
                if term_has(element, sought) {
                    return true;
                }
            }
            false
        }
    }
}
