//! The first limit that a tree passes.
ghost use Rattle.std.specs.Prelude.{◌≡◌, count_by};
ghost use Rattle.std.specs.List.{list_any};
ghost use Rattle.chw_limits.specs.Limits.{limit_of};
ghost use Rattle.chw_limits.specs.Parts.{is_definition, is_data_type, is_domain, constructor_has, declaration_has};
ghost use Rattle.chw_limits.specs.Sought.{tests_of};

use crate::sought::Sought;
use crate::terms::term_has;
use crate::types::type_has;
use crate::which::{Limit, Which};
use chw_base::limits::{
    DATA_TYPES, DEFINITIONS, DOMAINS, LITERAL_VALUE_BITS, TYPE_NUMERAL_BITS, WRITTEN_VECTOR,
};
use chw_grammar::{Constructor, Declaration, Tree};

/// The first limit that the tree passes, each of them looked for in the whole tree before the next. It takes no memory.
pub fn first_passed(tree: &Tree) -> Option<Limit>
    ensures { result ≡ limit_of tree.now }
{
    let declarations = tree.declarations.as_slice();
    let (which, number) = if definitions(declarations) > DEFINITIONS as usize {
        (Which::Definitions, DEFINITIONS)
    } else if data_types(declarations) > DATA_TYPES as usize {
        (Which::Data, DATA_TYPES)
    } else if domains(declarations) > DOMAINS as usize {
        (Which::Domains, DOMAINS)
    } else if have(declarations, Sought::LongVectors) {
        (Which::Vector, WRITTEN_VECTOR)
    } else if have(declarations, Sought::GreatValues) {
        (Which::Number, LITERAL_VALUE_BITS)
    } else if have(declarations, Sought::GreatNumbers) {
        (Which::Number, TYPE_NUMERAL_BITS)
    } else {
        return None;
    };
    Some(Limit { which, number })
}

/// How many definitions there are.
fn definitions(declarations: &[Declaration]) -> usize
    ensures { result ≡ count_by is_definition declarations.now }
{
    declarations
        .iter()
        .filter(|d| matches!(d, Declaration::Def(_, _, _)))
        .count()
}

/// How many data types there are.
fn data_types(declarations: &[Declaration]) -> usize
    ensures { result ≡ count_by is_data_type declarations.now }
{
    declarations
        .iter()
        .filter(|d| matches!(d, Declaration::Data(_, _, _)))
        .count()
}

/// How many domains there are.
fn domains(declarations: &[Declaration]) -> usize
    ensures { result ≡ count_by is_domain declarations.now }
{
    declarations
        .iter()
        .filter(|d| matches!(d, Declaration::Domain(_, _)))
        .count()
}

/// Whether a part that is sought stands in the declarations.
fn have(declarations: &[Declaration], sought: Sought) -> bool
    ensures { result ≡ list_any (declaration_has (tests_of sought)) declarations.now }
{
    declarations.iter().any(|d| declaration_has(d, sought))
}

/// Whether a part that is sought stands in the declaration.
fn declaration_has(declaration: &Declaration, sought: Sought) -> bool
    ensures { result ≡ declaration_has (tests_of sought) declaration.now }
{
    match declaration {
        Declaration::Domain(_, _) => false,
        Declaration::Data(_, _, constructors) => constructors_have(constructors.as_slice(), sought),
        Declaration::Def(_, ty, term) => type_has(ty, sought) || term_has(term, sought),
    }
}

/// Whether a part that is sought stands in the constructors.
fn constructors_have(constructors: &[Constructor], sought: Sought) -> bool
    ensures { result ≡ list_any (constructor_has (tests_of sought)) constructors.now }
{
    constructors.iter().any(|c| constructor_has(c, sought))
}

/// Whether a part that is sought stands in the fields of the constructor.
fn constructor_has(constructor: &Constructor, sought: Sought) -> bool
    ensures { result ≡ constructor_has (tests_of sought) constructor.now }
{
    constructor
        .fields
        .as_slice()
        .iter()
        .any(|ty| type_has(ty, sought))
}
