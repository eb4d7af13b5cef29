//! Data types and definitions.
ghost use Rattle.std.specs.Prelude.{◌≡◌, [], map, IfOk, OnOk};
ghost use Rattle.chw_resolve.specs.Programs.{parameter_kind, parameters_in, constructor_in, data_type_in, definition_in};
ghost use Rattle.chw_resolve.specs.Terms.{term_in};
ghost use Rattle.chw_resolve.specs.Types.{type_in};

use crate::binders::bind_parameters;
use crate::names::name_of;
use crate::terms::term_in;
use crate::types::{kind_in, type_in, types_in};
use chw_base::{NoMemory, Seq};
use chw_grammar::{Constructor, Parameter, TermTree, TypeTree, Word};
use chw_names::Globals;
use chw_terms::{Def, Term};
use chw_types::{ConDecl, Data, Kind, Ty};
use name_tables::Scope;
use std::alloc::Global;

/// A declared data type. Its own kind, which is found later, stands as `Val`.
pub fn data_type_in<'t>(
    alloc: Global,
    globals: &Globals<'t>,
    word: &Word,
    parameters: &'t [Parameter],
    constructors: &'t [Constructor],
) -> Result<Data, NoMemory>
    ensures { IfOk result (λ made. made ≡ data_type_in globals.now word.now parameters.now constructors.now) }
{
    let cons = constructors_in(alloc, globals, parameters, constructors)?;
    let params = kinds_in(alloc, parameters)?;
    let name = name_of(alloc, word)?;
    Ok(Data {
        name,
        params: Seq::from(params),
        kind: Kind::Val,
        cons: Seq::from(cons),
    })
}

/// The constructors of a data type with these parameters.
fn constructors_in<'t>(
    alloc: Global,
    globals: &Globals<'t>,
    parameters: &'t [Parameter],
    constructors: &'t [Constructor],
) -> Result<Vec<ConDecl>, NoMemory>
    ensures { IfOk result (λ cons. cons.items ≡ map (constructor_in globals.now (parameters_in parameters.now)) constructors.now) }
{
    let mut variables = Scope::new(alloc);
    bind_parameters(&mut variables, parameters)?;
    all_constructors_in(alloc, globals, &mut variables, constructors)
}

/// Constructors, where these parameters are in scope.
fn all_constructors_in<'t>(
    alloc: Global,
    globals: &Globals<'t>,
    variables: &mut Scope<'t>,
    constructors: &'t [Constructor],
) -> Result<Vec<ConDecl>, NoMemory>
    ensures { IfOk result (λ cons. cons.items ≡ map (constructor_in globals.now variables.old) constructors.now) }
{
    let mut cons = Vec::new(alloc);
    for constructor in constructors {
        cons.push(constructor_in(alloc, globals, variables, constructor)?)?;
    }
    Ok(cons)
}

/// The kinds of parameters.
fn kinds_in(alloc: Global, parameters: &[Parameter]) -> Result<Vec<Kind>, NoMemory>
    ensures { IfOk result (λ kinds. kinds.items ≡ map parameter_kind parameters.now) }
{
    let mut kinds = Vec::new(alloc);
    for parameter in parameters {
        kinds.push(kind_in(parameter.kind))?;
    }
    Ok(kinds)
}

/// A constructor, where these parameters are in scope.
fn constructor_in<'t>(
    alloc: Global,
    globals: &Globals<'t>,
    variables: &mut Scope<'t>,
    constructor: &'t Constructor,
) -> Result<ConDecl, NoMemory>
    ensures made { IfOk result (λ made. made ≡ constructor_in globals.now variables.old constructor.now) }
    ensures scope { OnOk result (variables.new ≡ variables.old) }
{
    let name = name_of(alloc, &constructor.name)?;
    let fields = types_in(alloc, globals, variables, constructor.fields.as_slice())?;
    Ok(ConDecl {
        name,
        fields: Seq::from(fields),
    })
}

/// A definition.
pub fn definition_in<'t>(
    alloc: Global,
    globals: &Globals<'t>,
    word: &Word,
    ty: &'t TypeTree,
    body: &'t TermTree,
) -> Result<Def, NoMemory>
    ensures { IfOk result (λ made. made ≡ definition_in globals.now word.now ty.now body.now) }
{
    let name = name_of(alloc, word)?;
    let ty = closed_type_in(alloc, globals, ty)?;
    let body = closed_term_in(alloc, globals, body)?;
    Ok(Def { name, ty, body })
}

/// A type outside of all binders.
fn closed_type_in<'t>(
    alloc: Global,
    globals: &Globals<'t>,
    ty: &'t TypeTree,
) -> Result<Ty, NoMemory>
    ensures { IfOk result (λ made. made ≡ type_in globals.now [] ty.now) }
{
    let mut types = Scope::new(alloc);
    type_in(alloc, globals, &mut types, ty)
}

/// A term outside of all binders.
fn closed_term_in<'t>(
    alloc: Global,
    globals: &Globals<'t>,
    body: &'t TermTree,
) -> Result<Term, NoMemory>
    ensures { IfOk result (λ made. made ≡ term_in globals.now [] [] body.now) }
{
    let mut types = Scope::new(alloc);
    let mut values = Scope::new(alloc);
    term_in(alloc, globals, &mut types, &mut values, body)
}
