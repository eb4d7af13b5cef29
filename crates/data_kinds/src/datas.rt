//! The data types that stand in types, and an order of them or a cycle.
ghost use Rattle.std.specs.Prelude.{◌≡◌, ◌<◌, ◌^◌, ◌++◌, length, map, IfOk, OnOk};
ghost use Rattle.chw_terms.specs.References.{DataRefers};
ghost use Rattle.graph_order.specs.References.{HasNoCycle};
ghost use Rattle.graph_order.specs.Orders.{IsOrder, LeastFirst, OfCycle, OfOrder, numbers};
ghost use Rattle.data_kinds.specs.Cycles.{IsCycleOf};
ghost use Rattle.data_kinds.specs.Named.{datas_in, con_datas, field_datas};

use chw_base::NoMemory;
use chw_types::{ConDecl, Data, Ty, TyNode};
use graph_order::{Ordering, order_of};
use std::alloc::Global;

// Adds the numbers of the data types in a type.
#[tactic(auto, unfolding(crate::specs::Named::datas_in))]
fn add_datas(t: &Ty, found: &mut Vec<u32>) -> Result<(), NoMemory>
    ensures { OnOk result (found.new.items ≡ found.old.items ++ datas_in t.now) }
{
    match &t.node {
        TyNode::Var(_) => Ok(()),
        TyNode::NatLit(_) => Ok(()),
        TyNode::Sum(a, b) => {
            add_datas(a, found)?;
            add_datas(b, found)
        }
        TyNode::Times(a, b) => {
            add_datas(a, found)?;
            add_datas(b, found)
        }
        TyNode::DomOf(_) => Ok(()),
        TyNode::Unsigned(w) => add_datas(w, found),
        TyNode::Signed(w) => add_datas(w, found),
        TyNode::BitVector(w) => add_datas(w, found),
        TyNode::Vec(n, of) => {
            add_datas(n, found)?;
            add_datas(of, found)
        }
        TyNode::DataOf(at, args) => {
            found.push(at.number)?;
            for arg in args {
                add_datas(arg, found)?;
            }
            Ok(())
        }
        TyNode::Fun(from, to) => {
            add_datas(from, found)?;
            add_datas(to, found)
        }
        TyNode::Signal(dom, of) => {
            add_datas(dom, found)?;
            add_datas(of, found)
        }
        TyNode::Forall(_, of) => add_datas(of, found),
    }
}

// Adds those in the fields of a constructor.
fn add_con_datas(con: &ConDecl, found: &mut Vec<u32>) -> Result<(), NoMemory>
    ensures { OnOk result (found.new.items ≡ found.old.items ++ con_datas con.now) }
{
    for field in con.fields.as_slice() {
        add_datas(field, found)?;
    }
    Ok(())
}

// The numbers of the data types in the fields of a data type.
fn field_datas(alloc: Global, it: &Data) -> Result<Vec<u32>, NoMemory>
    ensures { IfOk result (λ found. found.items ≡ field_datas it.now) }
{
    let mut found = Vec::new(alloc);
    for con in it.cons.as_slice() {
        add_con_datas(con, &mut found)?;
    }
    Ok(found)
}

// For each data type the numbers of those in its fields, as often as they stand there.
fn data_graph(alloc: Global, datas: &[Data]) -> Result<Vec<Vec<u32>>, NoMemory>
    ensures graph { IfOk result (λ graph. numbers graph.items ≡ map field_datas datas.now) }
    ensures size { IfOk result (λ graph. length graph.items ≡ length datas.now) }
{
    let mut graph = Vec::new(alloc);
    for it in datas {
        graph.push(field_datas(alloc, it)?)?;
    }
    Ok(graph)
}

/// An order of the data types in which each stands after those in its fields, or a cycle of them.
pub(crate) fn data_order(alloc: Global, datas: &[Data]) -> Result<Ordering, NoMemory>
    requires { length datas.now < 2 ^ 32 }
    ensures order { IfOk result (λ r. OfOrder r (IsOrder (map field_datas datas.now))) }
    ensures no_cycle { IfOk result (λ r. OfOrder r (λ _. HasNoCycle (DataRefers datas.now))) }
    ensures cycle { IfOk result (λ r. OfCycle r (IsCycleOf (DataRefers datas.now))) }
    ensures least { IfOk result (λ r. OfCycle r LeastFirst) }
    ensures some_cycle { IfOk result (λ r. OfCycle r (λ _. HasNoCycle (DataRefers datas.now) → ⊥)) }
{
    let graph = data_graph(alloc, datas)?;
    order_of(alloc, &graph)
}
