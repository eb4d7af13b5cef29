//! The kinds of data types, each found when those in its fields have theirs.
ghost use Rattle.std.specs.Prelude.{◌≡◌, ◌<◌, ◌^◌, length, map, IfOk, IfSome, IfNone, OnErr};
ghost use Rattle.std.specs.List.{slice_get};
ghost use Rattle.chw_terms.specs.References.{DataRefers};
ghost use Rattle.graph_order.specs.References.{HasNoCycle};
ghost use Rattle.graph_order.specs.Orders.{IsOrder, LeastFirst};
ghost use Rattle.data_kinds.specs.Cycles.{IsCycleOf};
ghost use Rattle.data_kinds.specs.Kinds.{HaveTheirKinds, IsKindOfFields, SameButKinds, SetsKind};
ghost use Rattle.data_kinds.specs.Named.{field_datas};

use crate::circuits::kind_by_fields;
use crate::datas::data_order;
use chw_base::{Name, NoMemory};
use chw_types::{Data, Kind};
use graph_order::Ordering;
use std::alloc::Global;

// The kind of the data type of this number, by those of its fields.
fn kind_at(datas: &[Data], at: usize, domains: &[Name]) -> Kind
    requires { at < length datas.now }
    ensures { IsKindOfFields datas.now (length domains.now) (slice_get datas.now at) result }
{
    kind_by_fields(&datas[at], datas, domains)
}

// Sets the kind of the data type of this number, where those in its fields have theirs.
fn set_kind(datas: &mut [Data], at: usize, domains: &[Name])
    requires { at < length datas.old }
    ensures { SetsKind datas.old (length domains.now) at datas.new }
{
    let kind = kind_at(datas, at, domains);
    datas[at].kind = kind;
}

// Sets the kinds of all data types, in this order.
fn set_kinds(datas: &mut [Data], order: &[u32], domains: &[Name])
    requires { IsOrder (map field_datas datas.old) order.now }
    ensures same { SameButKinds datas.old datas.new }
    ensures kinds { HaveTheirKinds datas.new (length domains.now) }
{
    for number in order {
        set_kind(datas, *number as usize, domains);
    }
}

/// Sets the kind of each data type: `Cir` where a field has it, with the parameters in scope, and else `Val`. A field without a kind
/// counts as none that has it. What the kinds were before doesn't matter, and nothing else changes.
///
/// Where a data type refers to itself, by its fields or by way of others, no kinds are set and the answer is a cycle: some data types
/// by their numbers, each once, of which each stands in a field of the one before and the first in a field of the last. The least
/// number stands first. A number past the last data type is no reference.
///
/// The cycle is the first that `order_of` of the crate `graph_order` finds where each data type lists those in its fields, in the order
/// of the text. The references are gathered in time linear in the fields, and the kind of a field is found at most once.
pub fn find_kinds(
    alloc: Global,
    datas: &mut [Data],
    domains: &[Name],
) -> Result<Option<Vec<u32>>, NoMemory>
    requires { length datas.old < 2 ^ 32 }
    ensures kinds { IfOk result (λ cycle. IfNone cycle (HaveTheirKinds datas.new (length domains.now))) }
    ensures no_cycle { IfOk result (λ cycle. IfNone cycle (HasNoCycle (DataRefers datas.new))) }
    ensures same { SameButKinds datas.old datas.new }
    ensures cycle { IfOk result (λ cycle. IfSome cycle (λ nodes. IsCycleOf (DataRefers datas.old) nodes.items)) }
    ensures least { IfOk result (λ cycle. IfSome cycle (λ nodes. LeastFirst nodes.items)) }
    ensures some_cycle { IfOk result (λ cycle. IfSome cycle (λ _. HasNoCycle (DataRefers datas.old) → ⊥)) }
    ensures unset { IfOk result (λ cycle. IfSome cycle (λ _. datas.new ≡ datas.old)) }
    ensures untouched { OnErr result (datas.new ≡ datas.old) }
{
    match data_order(alloc, datas)? {
        Ordering::Order(order) => {
            set_kinds(datas, &order, domains);
            Ok(None)
        }
        Ordering::Cycle(nodes) => Ok(Some(nodes)),
    }
}
