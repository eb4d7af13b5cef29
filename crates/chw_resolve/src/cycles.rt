//! The kinds of the data types of a program, or a circle of data types or definitions.
ghost use Rattle.std.specs.Prelude.{◌≡◌, ◌<◌, ◌^◌, length, map, IfOk};
ghost use Rattle.chw_base.specs.Outcome.{IfFault};
ghost use Rattle.chw_resolve.specs.Faults.{IsCircle, data_name, def_name, name_at, names_at};
ghost use Rattle.chw_resolve.specs.Kinds.{GetsKinds};

use crate::fault::NameFault;
use chw_base::{Name, NoMemory, Or, Seq};
use chw_terms::{Def, Program};
use chw_types::Data;
use data_kinds::{definition_cycle, find_kinds};
use std::alloc::Global;

/// The program with the kinds of its data types, where neither data types nor definitions refer to each other in a circle.
pub(crate) fn with_kinds(alloc: Global, program: Program) -> Result<Program, Or<NameFault>>
    requires datas { length program.datas < 2 ^ 32 }
    requires defs { length program.defs < 2 ^ 32 }
    ensures ok { IfOk result (GetsKinds program) }
    ensures fault { IfFault result (IsCircle program.datas program.defs) }
{
    let Program {
        domains,
        resets,
        datas,
        defs,
        top,
    } = program;
    let mut datas = datas.into_vec();
    if let Some(nodes) = find_kinds(alloc, datas.as_mut_slice(), domains.as_slice())? {
        let names = data_names(alloc, datas.as_slice(), nodes.as_slice())?;
        return Err(Or::Fault(NameFault::DataCycle(names)));
    }
    if let Some(nodes) = definition_cycle(alloc, defs.as_slice())? {
        let names = def_names(alloc, defs.as_slice(), nodes.as_slice())?;
        return Err(Or::Fault(NameFault::DefCycle(names)));
    }
    let datas = Seq::from(datas);
    Ok(Program {
        domains,
        resets,
        datas,
        defs,
        top,
    })
}

/// The names of the data types with these numbers.
fn data_names(alloc: Global, datas: &[Data], nodes: &[u32]) -> Result<Seq<Name>, NoMemory>
    ensures { IfOk result (λ names. names ≡ names_at (map data_name datas.now) nodes.now) }
{
    let mut names = Vec::new(alloc);
    for node in nodes {
        let name = data_name(alloc, datas, *node)?;
        names.push(name)?;
    }
    Ok(Seq::from(names))
}

/// The name of the data type with this number.
fn data_name(alloc: Global, datas: &[Data], node: u32) -> Result<Name, NoMemory>
    ensures { IfOk result (λ name. name ≡ name_at (map data_name datas.now) node) }
{
    match datas.get(node as usize) {
        Some(data) => Name::copy_of(alloc, data.name.as_slice()),
        None => Name::copy_of(alloc, &[]),
    }
}

/// The names of the definitions with these numbers.
fn def_names(alloc: Global, defs: &[Def], nodes: &[u32]) -> Result<Seq<Name>, NoMemory>
    ensures { IfOk result (λ names. names ≡ names_at (map def_name defs.now) nodes.now) }
{
    let mut names = Vec::new(alloc);
    for node in nodes {
        let name = def_name(alloc, defs, *node)?;
        names.push(name)?;
    }
    Ok(Seq::from(names))
}

/// The name of the definition with this number.
fn def_name(alloc: Global, defs: &[Def], node: u32) -> Result<Name, NoMemory>
    ensures { IfOk result (λ name. name ≡ name_at (map def_name defs.now) node) }
{
    match defs.get(node as usize) {
        Some(def) => Name::copy_of(alloc, def.name.as_slice()),
        None => Name::copy_of(alloc, &[]),
    }
}
