//! The first name that is declared twice in one place.
ghost use Rattle.std.specs.Prelude.{◌≡◌, [], OnOk, IfOk, MatchOption, flat_map};
ghost use Rattle.chw_names.specs.Twices.{declaration_twices, global_twices, parameter_name, space_twices, top_twices, twices};
ghost use Rattle.chw_names.specs.Words.{Meets, seconds, IsLeast, Declares};

use crate::declare::{declare, declare_apart};
use crate::globals::names_in;
use crate::least::Least;
use crate::space::Space;
use crate::twice_terms::term;
use chw_base::NoMemory;
use chw_grammar::{Declaration, Parameter, Top, Tree, Word};
use name_tables::Declared;
use std::alloc::Global;

/// The first word in the text that declares a name again in its place, or that is the later one of two equal alternatives.
///
/// A literal whose value or width passes a limit counts as equal to the others that pass it and have all else the same.
pub fn twice<'t>(alloc: Global, tree: &'t Tree) -> Result<Option<&'t Word>, NoMemory>
    ensures { IfOk result (λ least. MatchOption least (twices tree.now ≡ []) (λ word. IsLeast (twices tree.now) word.now)) }
{
    let mut least = Least::new();
    within(alloc, &mut least, tree)?;
    Ok(least.word())
}

/// Meets the words that declare a name again, and the later ones of equal alternatives.
fn within<'t>(alloc: Global, least: &mut Least<'t>, tree: &'t Tree) -> Result<(), NoMemory>
    ensures { OnOk result (Meets least.old least.new (twices tree.now)) }
{
    let declarations = tree.declarations.as_slice();
    globals(alloc, least, declarations)?;
    within_declarations(alloc, least, declarations)?;
    top(alloc, least, &tree.top)?;
    Ok(())
}

/// Meets the words that declare a name of the whole description again.
fn globals<'t>(
    alloc: Global,
    least: &mut Least<'t>,
    declarations: &'t [Declaration],
) -> Result<(), NoMemory>
    ensures { OnOk result (Meets least.old least.new (global_twices declarations.now)) }
{
    space(alloc, least, declarations, Space::Domains)?;
    space(alloc, least, declarations, Space::DataTypes)?;
    space(alloc, least, declarations, Space::Constructors)?;
    space(alloc, least, declarations, Space::Definitions)?;
    Ok(())
}

/// Meets the words that declare a name of one name space again.
fn space<'t>(
    alloc: Global,
    least: &mut Least<'t>,
    declarations: &'t [Declaration],
    space: Space,
) -> Result<(), NoMemory>
    ensures { OnOk result (Meets least.old least.new (space_twices declarations.now space)) }
{
    let mut names = Declared::new(alloc);
    let outcome = names_in(&mut names, least, declarations, space);
    drop(names);
    outcome
}

/// Meets the words that declare a name again within one declaration.
fn within_declarations<'t>(
    alloc: Global,
    least: &mut Least<'t>,
    declarations: &'t [Declaration],
) -> Result<(), NoMemory>
    ensures { OnOk result (Meets least.old least.new (flat_map declaration_twices declarations.now)) }
{
    for declaration in declarations {
        within_declaration(alloc, least, declaration)?;
    }
    Ok(())
}

/// Meets the words that declare a name again within this declaration.
fn within_declaration<'t>(
    alloc: Global,
    least: &mut Least<'t>,
    declaration: &'t Declaration,
) -> Result<(), NoMemory>
    ensures { OnOk result (Meets least.old least.new (declaration_twices declaration.now)) }
{
    match declaration {
        Declaration::Domain(_, _) => Ok(()),
        Declaration::Data(_, words, _) => parameters(alloc, least, words.as_slice()),
        Declaration::Def(_, _, body) => term(alloc, least, body),
    }
}

/// Meets the later ones of equal parameters of a data type.
fn parameters<'t>(
    alloc: Global,
    least: &mut Least<'t>,
    parameters: &'t [Parameter],
) -> Result<(), NoMemory>
    ensures { OnOk result (Meets least.old least.new (seconds [] (flat_map parameter_name parameters.now))) }
{
    let mut names = Declared::new(alloc);
    let outcome = declare_parameters(&mut names, least, parameters);
    drop(names);
    outcome
}

/// Declares parameters.
fn declare_parameters<'t>(
    names: &mut Declared<'t>,
    least: &mut Least<'t>,
    parameters: &'t [Parameter],
) -> Result<(), NoMemory>
    ensures { OnOk result (Declares names.old names.new least.old least.new (flat_map parameter_name parameters.now)) }
{
    for parameter in parameters {
        declare(names, least, &parameter.name)?;
    }
    Ok(())
}

/// Meets the later ones of equal inputs or equal outputs.
fn top<'t>(alloc: Global, least: &mut Least<'t>, top: &'t Top) -> Result<(), NoMemory>
    ensures { OnOk result (Meets least.old least.new (top_twices top.now)) }
{
    declare_apart(alloc, least, top.inputs.as_slice())?;
    declare_apart(alloc, least, top.outputs.as_slice())?;
    Ok(())
}
