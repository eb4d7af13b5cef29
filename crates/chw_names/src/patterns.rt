//! Alternatives that are for the same, and names that a pattern or a letrec binds twice.
ghost use Rattle.std.specs.Prelude.{◌≡◌, [], OnOk, flat_map};
ghost use Rattle.chw_names.specs.Twices.{constructor_of_alternative, binding_name, pattern_words, second_alternatives};
ghost use Rattle.chw_names.specs.Words.{Meets, seconds, Declares};

use crate::declare::{declare, declare_apart};
use crate::least::Least;
use crate::literals::literals;
use chw_base::NoMemory;
use chw_grammar::{Alternative, Binding, Pattern};
use name_tables::Declared;
use std::alloc::Global;

/// Meets the later ones of alternatives that are for the same constructor or for equal literals.
pub fn alternatives<'t>(
    alloc: Global,
    least: &mut Least<'t>,
    alternatives: &'t [Alternative],
) -> Result<(), NoMemory>
    ensures { OnOk result (Meets least.old least.new (second_alternatives alternatives.now)) }
{
    constructors(alloc, least, alternatives)?;
    literals(alloc, least, alternatives)?;
    Ok(())
}

/// Meets the later ones of alternatives that are for the same constructor.
fn constructors<'t>(
    alloc: Global,
    least: &mut Least<'t>,
    alternatives: &'t [Alternative],
) -> Result<(), NoMemory>
    ensures { OnOk result (Meets least.old least.new (seconds [] (flat_map constructor_of_alternative alternatives.now))) }
{
    let mut names = Declared::new(alloc);
    let outcome = declare_constructors(&mut names, least, alternatives);
    drop(names);
    outcome
}

/// Declares the constructors that alternatives are for.
fn declare_constructors<'t>(
    names: &mut Declared<'t>,
    least: &mut Least<'t>,
    alternatives: &'t [Alternative],
) -> Result<(), NoMemory>
    ensures { OnOk result (Declares names.old names.new least.old least.new (flat_map constructor_of_alternative alternatives.now)) }
{
    for alternative in alternatives {
        declare_constructor(names, least, alternative)?;
    }
    Ok(())
}

/// Declares the constructor that an alternative is for.
fn declare_constructor<'t>(
    names: &mut Declared<'t>,
    least: &mut Least<'t>,
    alternative: &'t Alternative,
) -> Result<(), NoMemory>
    ensures { OnOk result (Declares names.old names.new least.old least.new (constructor_of_alternative alternative.now)) }
{
    match &alternative.pattern {
        Pattern::Constructor(word, _) => declare(names, least, word),
        Pattern::Literal(_) | Pattern::Default => Ok(()),
    }
}

/// Meets the names that a pattern binds again.
pub fn pattern<'t>(
    alloc: Global,
    least: &mut Least<'t>,
    pattern: &'t Pattern,
) -> Result<(), NoMemory>
    ensures { OnOk result (Meets least.old least.new (seconds [] (pattern_words pattern.now))) }
{
    match pattern {
        Pattern::Constructor(_, words) => declare_apart(alloc, least, words.as_slice()),
        Pattern::Literal(_) | Pattern::Default => Ok(()),
    }
}

/// Meets the names that a letrec binds again.
pub fn bindings<'t>(
    alloc: Global,
    least: &mut Least<'t>,
    bindings: &'t [Binding],
) -> Result<(), NoMemory>
    ensures { OnOk result (Meets least.old least.new (seconds [] (flat_map binding_name bindings.now))) }
{
    let mut names = Declared::new(alloc);
    let outcome = declare_bindings(&mut names, least, bindings);
    drop(names);
    outcome
}

/// Declares the names that a letrec binds.
fn declare_bindings<'t>(
    names: &mut Declared<'t>,
    least: &mut Least<'t>,
    bindings: &'t [Binding],
) -> Result<(), NoMemory>
    ensures { OnOk result (Declares names.old names.new least.old least.new (flat_map binding_name bindings.now)) }
{
    for binding in bindings {
        declare(names, least, &binding.name)?;
    }
    Ok(())
}
