//! How many leaves a port has.
ghost use Rattle.std.specs.Prelude.{◌≡◌, ◌≤◌, IfOk, IfSome, IfNone, MatchOption};
ghost use Rattle.chw_check.specs.Counting.{CountsOn, HasLeaves, HasMoreLeaves};
ghost use Rattle.type_ports.specs.Ports.{IsNoPort};
ghost use Rattle.chw_types.specs.References.{HasNoCycle};

use chw_base::NoMemory;
use chw_types::Ty;
use std::alloc::Global;
use type_ports::{PortForm, PortTable};

/// How many leaves a closed type has, where it is a port with no more than so many. Nothing comes where it is no port, or has more.
///
/// A short type may have very many leaves. So they aren't listed: the count stops at the first one that is too many.
pub(crate) fn leaf_count(
    alloc: Global,
    t: &Ty,
    table: &mut PortTable,
    most: usize,
) -> Result<Option<usize>, NoMemory>
    requires { HasNoCycle table.old }
    ensures count { IfOk result (λ r. MatchOption r (HasMoreLeaves table.old t.now most) (λ n. HasLeaves table.old t.now n × (n ≤ most))) }
    ensures same { table.new ≡ table.old }
{
    let mut count = 0;
    // What is still to be looked at, the leftmost last.
    let mut todo = Vec::new(alloc);
    todo.push(t.copy(alloc)?)?;
    while let Some(next) = todo.pop() {
        let looked = look_at(alloc, &next, table, &mut todo);
        drop(next);
        let Some(more) = looked? else {
            return Ok(None);
        };
        if most - count < more {
            return Ok(None);
        }
        count += more;
    }
    Ok(Some(count))
}

// Looks at a type: tells how many leaves it is itself, or puts its fields on the list. It is no port where nothing comes.
fn look_at(
    alloc: Global,
    next: &Ty,
    table: &mut PortTable,
    todo: &mut Vec<Ty>,
) -> Result<Option<usize>, NoMemory>
    requires { HasNoCycle table.old }
    ensures some { IfOk result (λ r. IfSome r (λ n. CountsOn table.old next.now n todo.old.items todo.new.items)) }
    ensures none { IfOk result (λ r. IfNone r (IsNoPort table.old next.now)) }
    ensures same { table.new ≡ table.old }
{
    match table.look_at(alloc, next, todo)? {
        PortForm::Single(_, _) => Ok(Some(1)),
        PortForm::Product => Ok(Some(0)),
        PortForm::Other => Ok(None),
    }
}
