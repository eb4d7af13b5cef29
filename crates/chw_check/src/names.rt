//! Copies of the names of declarations.
ghost use Rattle.std.specs.Prelude.{◌≡◌, ◌<◌, length, IfOk, IsSome};
ghost use Rattle.chw_check.specs.Names.{IsConName, IsDataName, IsDefName};
ghost use Rattle.chw_terms.specs.Constructors.{con_at};

use chw_base::{ConId, DataId, DefId, Name, NoMemory};
use chw_terms::Def;
use chw_types::Data;
use con_places::Constructors;
use std::alloc::Global;

/// The name of a data type.
pub(crate) fn data_name(alloc: Global, datas: &[Data], at: DataId) -> Result<Name, NoMemory>
    requires { at.number < length datas.now }
    ensures { IfOk result (IsDataName datas.now at.number) }
{
    Name::copy_of(alloc, datas[at.number as usize].name.as_slice())
}

/// The name of a definition.
pub(crate) fn def_name(alloc: Global, defs: &[Def], at: DefId) -> Result<Name, NoMemory>
    requires { at.number < length defs.now }
    ensures { IfOk result (IsDefName defs.now at.number) }
{
    Name::copy_of(alloc, defs[at.number as usize].name.as_slice())
}

/// The name of a constructor.
pub(crate) fn con_name(
    alloc: Global,
    constructors: &Constructors,
    at: ConId,
) -> Result<Name, NoMemory>
    requires { IsSome (con_at constructors.now at.number) }
    ensures { IfOk result (IsConName constructors.now at.number) }
{
    match constructors.at(at) {
        Some(con) => Name::copy_of(alloc, con.decl.name.as_slice()),
        None => unreachable!(),
    }
}
