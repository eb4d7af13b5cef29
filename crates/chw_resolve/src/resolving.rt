//! The program of a description, or its first fault.
ghost use Rattle.std.specs.Prelude.{IfOk, OnOk};
ghost use Rattle.chw_base.specs.Outcome.{IfFault};
ghost use Rattle.chw_resolve.specs.Faults.{HasNames, IsNameFault, IsWellNamed};
ghost use Rattle.chw_resolve.specs.Programs.{IsProgramOf};
ghost use Rattle.chw_resolve.specs.Written.{WasRead};
ghost use Rattle.chw_terms.specs.Tidy.{IsTidy};

use crate::cycles::with_kinds;
use crate::fault::NameFault;
use crate::programs::program_of;
use chw_base::{Name, NoMemory, Or};
use chw_grammar::Tree;
use chw_limits::first_passed;
use chw_names::least::Least;
use chw_names::{Globals, twice, unknown};
use chw_terms::Program;
use std::alloc::Global;

/// The program of a description: its names are numbers, and it is tidy. Or the first fault of the description, in this order: a limit is
/// passed, a name is declared twice, a name is declared nowhere, data types refer to each other in a circle, definitions do. Each is
/// looked for in the whole description before the next.
///
/// A type that is applied to too many or too few types, and a literal that is out of its range, have their places in the program; but
/// they have no kind and no type.
///
/// The tree is the one that was read from the text; it holds its words itself.
pub fn resolve(alloc: Global, text: &[u8], tree: &Tree) -> Result<Program, Or<NameFault>>
    requires { WasRead text.now tree.now }
    ensures program { IfOk result (IsProgramOf tree.now) }
    ensures tidy { IfOk result IsTidy }
    ensures well_named { IfOk result (λ _. IsWellNamed tree.now) }
    ensures fault { IfFault result (IsNameFault tree.now) }
{
    check_names(alloc, tree)?;
    let program = bare_program(alloc, tree)?;
    with_kinds(alloc, program)
}

/// Checks that no limit is passed, that each name is declared once in its place, and that each name is declared where it stands.
fn check_names(alloc: Global, tree: &Tree) -> Result<(), Or<NameFault>>
    ensures ok { OnOk result (HasNames tree.now) }
    ensures fault { IfFault result (IsNameFault tree.now) }
{
    if let Some(limit) = first_passed(tree) {
        return Err(Or::Fault(NameFault::Limit(limit)));
    }
    if let Some(word) = twice(alloc, tree)? {
        let name = Name::copy_of(alloc, word.bytes.as_slice())?;
        return Err(Or::Fault(NameFault::Twice { name, at: word.at }));
    }
    if let Some(word) = unknown(alloc, tree)? {
        let name = Name::copy_of(alloc, word.bytes.as_slice())?;
        return Err(Or::Fault(NameFault::Unknown { name, at: word.at }));
    }
    Ok(())
}

/// The program of a description, in which the kinds of the data types aren't found yet.
fn bare_program(alloc: Global, tree: &Tree) -> Result<Program, NoMemory>
    ensures { IfOk result (IsProgramOf tree.now) }
{
    let mut twices = Least::new();
    let globals = Globals::of(alloc, &mut twices, tree.declarations.as_slice())?;
    program_of(alloc, tree, &globals)
}
