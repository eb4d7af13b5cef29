//! Ports, and their leaves.
ghost use Rattle.std.specs.Prelude.{◌≡◌, ◌∷◌, [], ◌++◌, length, map, reverse, IfOk, OnOk, IfSome, IfNone};
ghost use Rattle.std.specs.Bool.{OnTrue, OnFalse};
ghost use Rattle.chw_types.specs.Arguments.{arguments};
ghost use Rattle.chw_types.specs.TypeMoves.{sub};
ghost use Rattle.chw_types.specs.TypeView.{trees_of};
ghost use Rattle.chw_types.specs.References.{HasNoCycle};
ghost use Rattle.type_ports.specs.Ports.{leaf_of, Leaves, IsNoPort};
ghost use Rattle.type_ports.specs.PortsFound.{IsProduct, IsNoProduct, Looked};

use crate::port_table::{PortForm, PortTable};
use chw_base::{DomId, NoMemory};
use chw_types::{Data, Ty, put_arguments_within};
use std::alloc::Global;

/// A signal of a port: its domain, and the type of its values.
#[derive(Drop)]
pub struct Leaf {
    pub dom: DomId,
    pub payload: Ty,
}

/// The leaves of a closed type from left to right, where it is a port: a signal of representable values, or data of one constructor
/// with at least one field, all of whose fields are ports, with the arguments put in. `None` comes exactly where it is no port.
///
/// Where `PortTable::look_at` says so, the answer is want of memory.
pub fn leaves(alloc: Global, t: &Ty, datas: &[Data]) -> Result<Option<Vec<Leaf>>, NoMemory>
    requires { HasNoCycle datas.now }
    ensures some { IfOk result (λ r. IfSome r (λ ls. Leaves datas.now t.now ls.items)) }
    ensures none { IfOk result (λ r. IfNone r (IsNoPort datas.now t.now)) }
{
    let mut table = PortTable::of(datas);
    let found = leaves_by(alloc, t, &mut table);
    drop(table);
    found
}

// The same by a table of the data types.
fn leaves_by(alloc: Global, t: &Ty, table: &mut PortTable) -> Result<Option<Vec<Leaf>>, NoMemory>
    requires { HasNoCycle table.old }
    ensures some { IfOk result (λ r. IfSome r (λ ls. Leaves table.old t.now ls.items)) }
    ensures none { IfOk result (λ r. IfNone r (IsNoPort table.old t.now)) }
{
    let mut found = Vec::new(alloc);
    // What is still to be looked at, the leftmost last.
    let mut todo = Vec::new(alloc);
    todo.push(t.copy(alloc)?)?;
    while let Some(next) = todo.pop() {
        let port = look_at(alloc, &next, table, &mut found, &mut todo);
        drop(next);
        if !port? {
            return Ok(None);
        }
    }
    Ok(Some(found))
}

// Looks at a type: takes it as a leaf, or puts its fields on the list. It is no port where the answer is no.
fn look_at(
    alloc: Global,
    next: &Ty,
    table: &mut PortTable,
    found: &mut Vec<Leaf>,
    todo: &mut Vec<Ty>,
) -> Result<bool, NoMemory>
    requires { HasNoCycle table.old }
    ensures yes { IfOk result (λ r. OnTrue r (Looked table.old next.now found.old.items found.new.items todo.old.items todo.new.items)) }
    ensures no { IfOk result (λ r. OnFalse r (IsNoPort table.old next.now)) }
    ensures same { table.new ≡ table.old }
{
    match table.look_at(alloc, next, todo)? {
        PortForm::Single(dom, payload) => {
            push_leaf(alloc, dom, payload, found)?;
            Ok(true)
        }
        PortForm::Product => Ok(true),
        PortForm::Other => Ok(false),
    }
}

// Lists a leaf.
fn push_leaf(alloc: Global, dom: DomId, payload: &Ty, found: &mut Vec<Leaf>) -> Result<(), NoMemory>
    ensures { OnOk result (found.new.items ≡ found.old.items ++ leaf_of dom payload.now ∷ []) }
{
    let payload = payload.copy(alloc)?;
    found.push(Leaf { dom, payload })?;
    Ok(())
}

/// The fields of a data type of one constructor with at least one field, where it has this number of parameters.
pub(crate) fn product_fields(datas: &[Data], at: u32, args: usize) -> Option<&[Ty]>
    ensures some { IfSome result (λ fs. IsProduct datas.now at args fs.now) }
    ensures none { IfNone result (IsNoProduct datas.now at args) }
{
    let it = datas.get(at as usize)?;
    let cons = it.cons.as_slice();
    if it.params.len() != args || cons.len() != 1 {
        return None;
    }
    let fields = cons[0].fields.as_slice();
    if fields.is_empty() {
        return None;
    }
    Some(fields)
}

/// Puts the fields with the arguments put in on the list, the first field last. Their parts are
/// taken from `parts`. Where there is no room, the answer is want of memory, before the field is
/// made.
pub(crate) fn push_fields(
    alloc: Global,
    fields: &[Ty],
    args: &[Ty],
    todo: &mut Vec<Ty>,
    parts: &mut u32,
) -> Result<(), NoMemory>
    ensures { OnOk result (todo.new.items ≡ todo.old.items ++ map (λ f. sub f (arguments (trees_of args.now))) (reverse fields.now)) }
{
    for field in fields.iter().rev() {
        todo.push(put_arguments_within(alloc, field, args, parts)?)?;
    }
    Ok(())
}
