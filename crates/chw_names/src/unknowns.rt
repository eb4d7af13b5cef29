//! The first name that nothing declares.
ghost use Rattle.std.specs.Prelude.{◌≡◌, ◌++◌, List, ℕ, [], None, OnOk, IfOk, MatchOption, flat_map};
ghost use Rattle.name_tables.specs.Names.{is_among};
ghost use Rattle.chw_prims.specs.Names.{primitive_names};
ghost use Rattle.chw_names.specs.Twices.{parameter_name};
ghost use Rattle.chw_names.specs.Unknowns.{constructor_unknowns, declaration_unknowns, top_unknowns, unknowns, within, Walks};
ghost use Rattle.chw_names.specs.Words.{Meets, IsLeast, least_of, word_met};

use crate::globals::Globals;
use crate::least::Least;
use crate::unknown_terms::typed;
use crate::unknown_types::each_ty;
use chw_base::NoMemory;
use chw_grammar::{Constructor, Declaration, Parameter, Top, Tree, Word};
use chw_prims::name_laws::all_are_all;
use chw_prims::named;
use name_tables::Scope;
use std::alloc::Global;

/// The first name in the text that nothing declares where it stands.
///
/// A name that is declared twice counts as declared.
pub fn unknown<'t>(alloc: Global, tree: &'t Tree) -> Result<Option<&'t Word>, NoMemory>
    ensures { IfOk result (λ least. MatchOption least (unknowns tree.now ≡ []) (λ word. IsLeast (unknowns tree.now) word.now)) }
{
    let mut twices = Least::new();
    let globals = Globals::of(alloc, &mut twices, tree.declarations.as_slice())?;
    let found = unknown_among(alloc, &globals, tree);
    drop(globals);
    found
}

/// The first name in the text that is none of these where it stands, and that nothing else declares there.
fn unknown_among<'t>(
    alloc: Global,
    globals: &Globals<'t>,
    tree: &'t Tree,
) -> Result<Option<&'t Word>, NoMemory>
    ensures { IfOk result (λ least. word_met least ≡ least_of None (flat_map (declaration_unknowns globals.now) tree.now.declarations ++ top_unknowns globals.now tree.now.top)) }
{
    let mut least = Least::new();
    within_declarations(alloc, globals, &mut least, tree.declarations.as_slice())?;
    top(globals, &mut least, &tree.top);
    Ok(least.word())
}

/// Meets the names within declarations that nothing declares.
fn within_declarations<'t>(
    alloc: Global,
    globals: &Globals<'t>,
    least: &mut Least<'t>,
    declarations: &'t [Declaration],
) -> Result<(), NoMemory>
    ensures { OnOk result (Meets least.old least.new (flat_map (declaration_unknowns globals.now) declarations.now)) }
{
    for declaration in declarations {
        within_declaration(alloc, globals, least, declaration)?;
    }
    Ok(())
}

/// Meets the names within this declaration that nothing declares.
fn within_declaration<'t>(
    alloc: Global,
    globals: &Globals<'t>,
    least: &mut Least<'t>,
    declaration: &'t Declaration,
) -> Result<(), NoMemory>
    ensures { OnOk result (Meets least.old least.new (declaration_unknowns globals.now declaration.now)) }
{
    match declaration {
        Declaration::Domain(_, _) => Ok(()),
        Declaration::Data(_, parameters, constructors) => {
            let mut types = Scope::new(alloc);
            let (parameters, constructors) = (parameters.as_slice(), constructors.as_slice());
            let outcome = within_data(globals, &mut types, least, parameters, constructors);
            drop(types);
            outcome
        }
        Declaration::Def(_, annotation, body) => {
            let mut types = Scope::new(alloc);
            let mut values = Scope::new(alloc);
            let outcome = typed(globals, &mut types, &mut values, least, annotation, body);
            drop(types);
            drop(values);
            outcome
        }
    }
}

/// Meets the names within a data type that nothing declares, and leaves its parameters open.
fn within_data<'t>(
    globals: &Globals<'t>,
    types: &mut Scope<'t>,
    least: &mut Least<'t>,
    parameters: &'t [Parameter],
    constructors: &'t [Constructor],
) -> Result<(), NoMemory>
    ensures { OnOk result (Meets least.old least.new (flat_map (constructor_unknowns globals.now (within (flat_map parameter_name parameters.now) types.old)) constructors.now)) }
{
    bind_parameters(types, parameters)?;
    within_constructors(globals, types, least, constructors)?;
    Ok(())
}

/// Opens the parameters of a data type.
fn bind_parameters<'t>(types: &mut Scope<'t>, parameters: &'t [Parameter]) -> Result<(), NoMemory>
    ensures { OnOk result (types.new ≡ within (flat_map parameter_name parameters.now) types.old) }
{
    for parameter in parameters {
        types.bind(parameter.name.bytes.as_slice())?;
    }
    Ok(())
}

/// Meets the names in the fields of constructors that nothing declares.
fn within_constructors<'t>(
    globals: &Globals<'t>,
    types: &mut Scope<'t>,
    least: &mut Least<'t>,
    constructors: &'t [Constructor],
) -> Result<(), NoMemory>
    ensures { OnOk result (Walks (List (List ℕ)) types.old types.new least.old least.new (flat_map (constructor_unknowns globals.now types.old) constructors.now)) }
{
    for constructor in constructors {
        each_ty(globals, types, least, constructor.fields.as_slice())?;
    }
    Ok(())
}

/// Meets the definition of the top where it isn't one of the description.
fn top<'t>(globals: &Globals<'t>, least: &mut Least<'t>, top: &'t Top)
    ensures { Meets least.old least.new (top_unknowns globals.now top.now) }
{
    let name = top.definition.bytes.as_slice();
    if is_primitive(name) || globals.definitions.find(name).is_none() {
        least.meet(&top.definition);
    }
}

/// Whether a primitive has this name.
fn is_primitive(name: &[u8]) -> bool
    ensures { result ≡ is_among primitive_names name.now }
{
    all_are_all();
    named(name).is_some()
}
