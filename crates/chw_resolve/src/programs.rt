//! The program of a tree.
ghost use Rattle.std.specs.Prelude.{◌≡◌, ◌+◌, IfOk, OnOk};
ghost use Rattle.chw_names.specs.Globals.{globals_of};
ghost use Rattle.chw_resolve.specs.Programs.{resets_from, top_in, IsProgramOf};
ghost use Rattle.chw_resolve.specs.Walks.{Adds, IsDeclared, ListsReset};

use crate::built_in::built_in;
use crate::declarations::{data_type_in, definition_in};
use crate::names::{name_of, names_of};
use crate::terms::behind_primitives;
use chw_base::{DomId, Name, NoMemory, Seq};
use chw_grammar::{Declaration, Top as WrittenTop, Tree};
use chw_names::Globals;
use chw_terms::{Def, Program, Top};
use chw_types::Data;
use std::alloc::Global;

/// The program of a tree, by the names that its declarations declare. The kinds of the declared data types are not found yet: each
/// stands as `Val`.
///
/// Where a name is declared by nothing, what has the number 0 stands for it.
pub fn program_of<'t>(
    alloc: Global,
    tree: &'t Tree,
    globals: &Globals<'t>,
) -> Result<Program, NoMemory>
    requires { globals.now ≡ globals_of tree.now.declarations }
    ensures { IfOk result (λ program. IsProgramOf tree.now program) }
{
    let declarations = tree.declarations.as_slice();
    let resets = resets_in(alloc, declarations)?;
    let top = top_in(alloc, globals, &tree.top)?;
    let declared = declared_in(alloc, globals, declarations)?;
    Ok(Program {
        domains: Seq::from(declared.domains),
        resets: Seq::from(resets),
        datas: Seq::from(declared.datas),
        defs: Seq::from(declared.defs),
        top,
    })
}

/// The domains that have a reset.
fn resets_in(alloc: Global, declarations: &[Declaration]) -> Result<Vec<DomId>, NoMemory>
    ensures { IfOk result (λ resets. resets.items ≡ resets_from 0 declarations.now) }
{
    let mut resets = Vec::new(alloc);
    let mut number = 0;
    for declaration in declarations {
        number = list_reset(&mut resets, number, declaration)?;
    }
    Ok(resets)
}

/// Lists the domain of this number, if the declaration declares one with a reset. The number of the next domain.
fn list_reset(
    resets: &mut Vec<DomId>,
    number: u32,
    declaration: &Declaration,
) -> Result<u32, NoMemory>
    ensures { IfOk result (ListsReset declaration.now number resets.old.items resets.new.items) }
{
    match declaration {
        Declaration::Domain(_, true) => {
            resets.push(DomId { number })?;
            after(number)
        }
        Declaration::Domain(_, false) => after(number),
        Declaration::Data(_, _, _) | Declaration::Def(_, _, _) => Ok(number),
    }
}

/// The number after this one.
fn after(number: u32) -> Result<u32, NoMemory>
    ensures { IfOk result (λ next. next ≡ number + 1) }
{
    number.checked_add(1).ok_or(NoMemory)
}

/// What was declared so far, in the order of declaration.
#[derive(Drop)]
struct Declared {
    domains: Vec<Name>,
    datas: Vec<Data>,
    defs: Vec<Def>,
}

/// What declarations declare, the built-in data types first.
fn declared_in<'t>(
    alloc: Global,
    globals: &Globals<'t>,
    declarations: &'t [Declaration],
) -> Result<Declared, NoMemory>
    ensures { IfOk result (IsDeclared globals.now declarations.now) }
{
    let mut declared = Declared {
        domains: Vec::new(alloc),
        datas: built_in(alloc)?,
        defs: Vec::new(alloc),
    };
    for declaration in declarations {
        declared.add(alloc, globals, declaration)?;
    }
    Ok(declared)
}

impl Declared {
    /// Adds what a declaration declares.
    fn add<'t>(
        &mut self,
        alloc: Global,
        globals: &Globals<'t>,
        declaration: &'t Declaration,
    ) -> Result<(), NoMemory>
        ensures { OnOk result (Adds globals.now declaration.now self.old self.new) }
    {
        match declaration {
            Declaration::Domain(word, _) => {
                let domain = name_of(alloc, word)?;
                self.domains.push(domain)?;
                Ok(())
            }
            Declaration::Data(word, parameters, constructors) => {
                let parameters = parameters.as_slice();
                let constructors = constructors.as_slice();
                let data = data_type_in(alloc, globals, word, parameters, constructors)?;
                self.datas.push(data)?;
                Ok(())
            }
            Declaration::Def(word, ty, body) => {
                let def = definition_in(alloc, globals, word, ty, body)?;
                self.defs.push(def)?;
                Ok(())
            }
        }
    }
}

/// The top of the program.
fn top_in<'t>(alloc: Global, globals: &Globals<'t>, top: &WrittenTop) -> Result<Top, NoMemory>
    ensures { IfOk result (λ made. made ≡ top_in globals.now top.now) }
{
    let place = globals
        .definitions
        .find(top.definition.bytes.as_slice())
        .unwrap_or(0);
    Ok(Top {
        def: behind_primitives(place),
        inputs: names_of(alloc, top.inputs.as_slice())?,
        outputs: names_of(alloc, top.outputs.as_slice())?,
    })
}
