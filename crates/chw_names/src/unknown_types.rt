//! Names in a type that nothing declares.
ghost use Rattle.std.specs.Prelude.{List, ℕ, OnOk, flat_map};
ghost use Rattle.chw_names.specs.Unknowns.{named_unknowns, type_unknowns, unless_among, Walks};
ghost use Rattle.chw_names.specs.Words.{Meets};

use crate::globals::Globals;
use crate::least::Least;
use chw_base::NoMemory;
use chw_grammar::{TypeNode, TypeTree, Word};
use name_tables::Scope;

/// Meets the names in a type that nothing declares, where these type variables are in scope.
#[cycle(ty)]
pub fn ty<'t>(
    globals: &Globals<'t>,
    types: &mut Scope<'t>,
    least: &mut Least<'t>,
    tree: &'t TypeTree,
) -> Result<(), NoMemory>
    ensures { OnOk result (Walks (List (List ℕ)) types.old types.new least.old least.new (type_unknowns globals.now types.old tree.now)) }
{
    match &tree.node {
        TypeNode::Forall(variable, _, body) => {
            types.bind(variable.bytes.as_slice())?;
            ty(globals, types, least, body)?;
            types.unbind();
            Ok(())
        }
        TypeNode::Arrow(from, to) => {
            ty(globals, types, least, from)?;
            ty(globals, types, least, to)
        }
        TypeNode::Sum(parts) | TypeNode::Product(parts) => each_ty(
            globals,
            types,
            least,
            parts.as_slice(),
        ),
        TypeNode::Named(word, parts) => {
            named(globals, least, word);
            each_ty(globals, types, least, parts.as_slice())
        }
        TypeNode::Variable(word) => {
            variable(types, least, word);
            Ok(())
        }
        TypeNode::Numeral(_) => Ok(()),
    }
}

/// Meets the names in several types that nothing declares.
#[cycle(ty)]
pub fn each_ty<'t>(
    globals: &Globals<'t>,
    types: &mut Scope<'t>,
    least: &mut Least<'t>,
    trees: &'t [TypeTree],
) -> Result<(), NoMemory>
    ensures { OnOk result (Walks (List (List ℕ)) types.old types.new least.old least.new (flat_map (type_unknowns globals.now types.old) trees.now)) }
{
    for tree in trees {
        ty(globals, types, least, tree)?;
    }
    Ok(())
}

/// Meets a name of a type that is neither a data type nor a domain.
fn named<'t>(globals: &Globals<'t>, least: &mut Least<'t>, word: &'t Word)
    ensures { Meets least.old least.new (named_unknowns globals.now word.now) }
{
    let name = word.bytes.as_slice();
    if globals.data_types.find(name).is_none() && globals.domains.find(name).is_none() {
        least.meet(word);
    }
}

/// Meets a name that isn't in scope.
fn variable<'t>(scope: &Scope<'t>, least: &mut Least<'t>, word: &'t Word)
    ensures { Meets least.old least.new (unless_among scope.now word.now) }
{
    if scope.find(word.bytes.as_slice()).is_none() {
        least.meet(word);
    }
}
