//! Which types have values that are bits.
ghost use Rattle.std.specs.Prelude.{◌↔◌, IsTrue, IfOk, OnOk};
ghost use Rattle.chw_types.specs.References.{HasNoCycle};
ghost use Rattle.type_ports.specs.Representable.{Representable};
ghost use Rattle.type_ports.specs.RowsRight.{IsWholeTable};

use crate::port_table::PortTable;
use crate::rows::{Row, ask, settle};
use chw_base::NoMemory;
use chw_types::{Data, Ty};
use std::alloc::Global;

/// Whether a closed type is representable: a scalar, a vector of representable elements, or a data type all of whose fields are
/// representable, with the arguments put in. An argument that no field uses doesn't count.
///
/// Each data type that the type stands on is looked at once, so a chain of data types that each mention the one before twice takes
/// no longer than its text.
pub fn representable(alloc: Global, t: &Ty, datas: &[Data]) -> Result<bool, NoMemory>
    requires { HasNoCycle datas.now }
    ensures { IfOk result (λ r. IsTrue r ↔ Representable datas.now t.now) }
{
    PortTable::of(datas).representable(alloc, t)
}

/// The same by a table of rows, which gains those that are needed.
pub(crate) fn representable_by(
    alloc: Global,
    rows: &mut Vec<Row>,
    t: &Ty,
    datas: &[Data],
) -> Result<bool, NoMemory>
    requires order { HasNoCycle datas.now }
    requires table { IsWholeTable datas.now rows.old.items }
    ensures told { IfOk result (λ r. IsTrue r ↔ Representable datas.now t.now) }
    ensures table { OnOk result (IsWholeTable datas.now rows.new.items) }
{
    settle(alloc, rows, datas, t)?;
    Ok(ask(t, rows, &mut []))
}
