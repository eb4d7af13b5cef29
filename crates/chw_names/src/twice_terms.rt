//! Names that a term declares twice in one place.
ghost use Rattle.std.specs.Prelude.{◌≡◌, OnOk};
ghost use Rattle.chw_grammar.specs.TermView.{terms_of, bindings_of, alternatives_of, arguments_of};
ghost use Rattle.chw_names.specs.Twices.{alternatives_twices, arguments_twices, bindings_twices, term_twices, terms_twices};
ghost use Rattle.chw_names.specs.Words.{Meets};

use crate::least::Least;
use crate::patterns::{alternatives, bindings, pattern};
use chw_base::NoMemory;
use chw_grammar::{Alternative, Argument, Binding, TermNode, TermTree};
use std::alloc::Global;

/// Meets the words of a term that declare a name again in its place, and the later ones of equal alternatives.
#[cycle(term)]
pub fn term<'t>(alloc: Global, least: &mut Least<'t>, tree: &'t TermTree) -> Result<(), NoMemory>
    ensures { OnOk result (Meets least.old least.new (term_twices tree.now)) }
{
    match &tree.node {
        TermNode::Lambda(_, _, body) => term(alloc, least, body),
        TermNode::TypeLambda(_, _, body) => term(alloc, least, body),
        TermNode::LetRec(bound, body) => {
            let bound = bound.as_slice();
            bindings(alloc, least, bound)?;
            each_binding(alloc, least, bound)?;
            term(alloc, least, body)
        }
        TermNode::Case(scrutinee, cases) => {
            let cases = cases.as_slice();
            alternatives(alloc, least, cases)?;
            term(alloc, least, scrutinee)?;
            each_alternative(alloc, least, cases)
        }
        TermNode::Apply(head, arguments) => {
            term(alloc, least, head)?;
            each_argument(alloc, least, arguments.as_slice())
        }
        TermNode::Name(_) | TermNode::Constructor(_) | TermNode::Literal(_) => Ok(()),
        TermNode::VecLit(_, elements) => each_element(alloc, least, elements.as_slice()),
    }
}

/// Meets such words in the terms of bindings.
#[cycle(term)]
fn each_binding<'t>(
    alloc: Global,
    least: &mut Least<'t>,
    bindings: &'t [Binding],
) -> Result<(), NoMemory>
    ensures { OnOk result (Meets least.old least.new (bindings_twices (bindings_of bindings.now))) }
{
    for binding in bindings {
        term(alloc, least, &binding.term)?;
    }
    Ok(())
}

/// Meets such words in alternatives.
#[cycle(term)]
fn each_alternative<'t>(
    alloc: Global,
    least: &mut Least<'t>,
    alternatives: &'t [Alternative],
) -> Result<(), NoMemory>
    ensures { OnOk result (Meets least.old least.new (alternatives_twices (alternatives_of alternatives.now))) }
{
    for alternative in alternatives {
        pattern(alloc, least, &alternative.pattern)?;
        term(alloc, least, &alternative.term)?;
    }
    Ok(())
}

/// Meets such words in arguments.
#[cycle(term)]
fn each_argument<'t>(
    alloc: Global,
    least: &mut Least<'t>,
    arguments: &'t [Argument],
) -> Result<(), NoMemory>
    ensures { OnOk result (Meets least.old least.new (arguments_twices (arguments_of arguments.now))) }
{
    for argument in arguments {
        match argument {
            Argument::OfTerm(argument) => term(alloc, least, argument)?,
            Argument::OfType(_) => {}
        }
    }
    Ok(())
}

/// Meets such words in the elements of a vector.
#[cycle(term)]
fn each_element<'t>(
    alloc: Global,
    least: &mut Least<'t>,
    elements: &'t [TermTree],
) -> Result<(), NoMemory>
    ensures { OnOk result (Meets least.old least.new (terms_twices (terms_of elements.now))) }
{
    for element in elements {
        term(alloc, least, element)?;
    }
    Ok(())
}
