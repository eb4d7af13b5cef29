//! Names in a term that nothing declares.
ghost use Rattle.std.specs.Prelude.{◌≡◌, ◌++◌, OnOk, IfOk, flat_map, length};
ghost use Rattle.chw_grammar.specs.TermView.{terms_of, bindings_of, alternatives_of, arguments_of};
ghost use Rattle.chw_names.specs.Twices.{binding_name, pattern_words};
ghost use Rattle.chw_names.specs.Unknowns.{alternatives_unknowns, arguments_unknowns, bindings_unknowns, name_unknowns, pattern_unknowns, term_unknowns, terms_unknowns, type_unknowns, unless_among, within, Scopes, Walks};
ghost use Rattle.chw_names.specs.Words.{Meets};

use crate::globals::Globals;
use crate::least::Least;
use crate::unknown_types::ty;
use chw_base::NoMemory;
use chw_grammar::{Alternative, Argument, Binding, Pattern, TermNode, TermTree, TypeTree, Word};
use name_tables::Scope;

/// Meets the names in a term that nothing declares, where these type variables and these variables are in scope.
#[cycle(term)]
pub fn term<'t>(
    globals: &Globals<'t>,
    types: &mut Scope<'t>,
    values: &mut Scope<'t>,
    least: &mut Least<'t>,
    tree: &'t TermTree,
) -> Result<(), NoMemory>
    ensures { OnOk result (Walks Scopes (types.old, values.old) (types.new, values.new) least.old least.new (term_unknowns globals.now types.old values.old tree.now)) }
{
    match &tree.node {
        TermNode::Lambda(name, annotation, body) => {
            ty(globals, types, least, annotation)?;
            values.bind(name.bytes.as_slice())?;
            term(globals, types, values, least, body)?;
            values.unbind();
            Ok(())
        }
        TermNode::TypeLambda(name, _, body) => {
            types.bind(name.bytes.as_slice())?;
            term(globals, types, values, least, body)?;
            types.unbind();
            Ok(())
        }
        TermNode::LetRec(bindings, body) => {
            let bindings = bindings.as_slice();
            bind_all(values, bindings)?;
            each_binding(globals, types, values, least, bindings)?;
            term(globals, types, values, least, body)?;
            values.unbind_all(bindings.len());
            Ok(())
        }
        TermNode::Case(scrutinee, alternatives) => {
            term(globals, types, values, least, scrutinee)?;
            each_alternative(globals, types, values, least, alternatives.as_slice())
        }
        TermNode::Apply(head, arguments) => {
            term(globals, types, values, least, head)?;
            each_argument(globals, types, values, least, arguments.as_slice())
        }
        TermNode::Name(word) => {
            name(globals, values, least, word);
            Ok(())
        }
        TermNode::Constructor(word) => {
            constructor(globals, least, word);
            Ok(())
        }
        TermNode::Literal(_) => Ok(()),
        TermNode::VecLit(annotation, elements) => {
            ty(globals, types, least, annotation)?;
            each_element(globals, types, values, least, elements.as_slice())
        }
    }
}

/// Meets the names in a type and in a term that nothing declares, where these type variables and these variables are in scope.
#[cycle(term)]
pub fn typed<'t>(
    globals: &Globals<'t>,
    types: &mut Scope<'t>,
    values: &mut Scope<'t>,
    least: &mut Least<'t>,
    annotation: &'t TypeTree,
    tree: &'t TermTree,
) -> Result<(), NoMemory>
    ensures { OnOk result (Walks Scopes (types.old, values.old) (types.new, values.new) least.old least.new (type_unknowns globals.now types.old annotation.now ++ term_unknowns globals.now types.old values.old tree.now)) }
{
    ty(globals, types, least, annotation)?;
    term(globals, types, values, least, tree)
}

/// Meets the names in the types and terms of bindings that nothing declares.
#[cycle(term)]
fn each_binding<'t>(
    globals: &Globals<'t>,
    types: &mut Scope<'t>,
    values: &mut Scope<'t>,
    least: &mut Least<'t>,
    bindings: &'t [Binding],
) -> Result<(), NoMemory>
    ensures { OnOk result (Walks Scopes (types.old, values.old) (types.new, values.new) least.old least.new (bindings_unknowns globals.now types.old values.old (bindings_of bindings.now))) }
{
    for binding in bindings {
        typed(globals, types, values, least, &binding.ty, &binding.term)?;
    }
    Ok(())
}

/// Meets the names in alternatives that nothing declares.
#[cycle(term)]
fn each_alternative<'t>(
    globals: &Globals<'t>,
    types: &mut Scope<'t>,
    values: &mut Scope<'t>,
    least: &mut Least<'t>,
    alternatives: &'t [Alternative],
) -> Result<(), NoMemory>
    ensures { OnOk result (Walks Scopes (types.old, values.old) (types.new, values.new) least.old least.new (alternatives_unknowns globals.now types.old values.old (alternatives_of alternatives.now))) }
{
    for alternative in alternatives {
        let bound = bind_pattern(globals, values, least, &alternative.pattern)?;
        term(globals, types, values, least, &alternative.term)?;
        values.unbind_all(bound);
    }
    Ok(())
}

/// Meets the names in arguments that nothing declares.
#[cycle(term)]
fn each_argument<'t>(
    globals: &Globals<'t>,
    types: &mut Scope<'t>,
    values: &mut Scope<'t>,
    least: &mut Least<'t>,
    arguments: &'t [Argument],
) -> Result<(), NoMemory>
    ensures { OnOk result (Walks Scopes (types.old, values.old) (types.new, values.new) least.old least.new (arguments_unknowns globals.now types.old values.old (arguments_of arguments.now))) }
{
    for argument in arguments {
        match argument {
            Argument::OfTerm(argument) => term(globals, types, values, least, argument)?,
            Argument::OfType(argument) => ty(globals, types, least, argument)?,
        }
    }
    Ok(())
}

/// Meets the names in the elements of a vector that nothing declares.
#[cycle(term)]
fn each_element<'t>(
    globals: &Globals<'t>,
    types: &mut Scope<'t>,
    values: &mut Scope<'t>,
    least: &mut Least<'t>,
    elements: &'t [TermTree],
) -> Result<(), NoMemory>
    ensures { OnOk result (Walks Scopes (types.old, values.old) (types.new, values.new) least.old least.new (terms_unknowns globals.now types.old values.old (terms_of elements.now))) }
{
    for element in elements {
        term(globals, types, values, least, element)?;
    }
    Ok(())
}

/// Opens the binders of a letrec.
fn bind_all<'t>(values: &mut Scope<'t>, bindings: &'t [Binding]) -> Result<(), NoMemory>
    ensures { OnOk result (values.new ≡ within (flat_map binding_name bindings.now) values.old) }
{
    for binding in bindings {
        values.bind(binding.name.bytes.as_slice())?;
    }
    Ok(())
}

/// Opens the binders of a pattern, whose constructor is met where it isn't declared, and says how many they are.
fn bind_pattern<'t>(
    globals: &Globals<'t>,
    values: &mut Scope<'t>,
    least: &mut Least<'t>,
    pattern: &'t Pattern,
) -> Result<usize, NoMemory>
    ensures scope { OnOk result (values.new ≡ within (pattern_words pattern.now) values.old) }
    ensures bound { IfOk result (λ bound. bound ≡ length (pattern_words pattern.now)) }
    ensures unknown { OnOk result (Meets least.old least.new (pattern_unknowns globals.now pattern.now)) }
{
    match pattern {
        Pattern::Constructor(made, words) => {
            constructor(globals, least, made);
            bind_words(values, words.as_slice())?;
            Ok(words.len())
        }
        Pattern::Literal(_) | Pattern::Default => Ok(0),
    }
}

/// Opens binders of these names.
fn bind_words<'t>(values: &mut Scope<'t>, words: &'t [Word]) -> Result<(), NoMemory>
    ensures { OnOk result (values.new ≡ within words.now values.old) }
{
    for word in words {
        values.bind(word.bytes.as_slice())?;
    }
    Ok(())
}

/// Meets a lower name that is no variable in scope, no definition and no primitive.
fn name<'t>(globals: &Globals<'t>, values: &Scope<'t>, least: &mut Least<'t>, word: &'t Word)
    ensures { Meets least.old least.new (name_unknowns globals.now values.now word.now) }
{
    let name = word.bytes.as_slice();
    if values.find(name).is_none() && globals.definitions.find(name).is_none() {
        least.meet(word);
    }
}

/// Meets a name that is no constructor.
fn constructor<'t>(globals: &Globals<'t>, least: &mut Least<'t>, word: &'t Word)
    ensures { Meets least.old least.new (unless_among globals.now.constructors word.now) }
{
    if globals.constructors.find(word.bytes.as_slice()).is_none() {
        least.meet(word);
    }
}
