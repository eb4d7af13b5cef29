//! An order of the nodes of a graph, or a cycle of their references.
ghost use Rattle.std.specs.Prelude.{◌<◌, ◌^◌, length, IfOk};
ghost use Rattle.graph_order.specs.Orders.{IsCycle, IsOrder, LeastFirst, OfCycle, OfOrder};
ghost use Rattle.graph_order.specs.References.{HasNoCycle, Refers};

use crate::graph::Graph;
use crate::search::Search;
use chw_base::{NoMemory, Or};
use std::alloc::Global;

/// What a graph of references has: an order, or a cycle.
#[derive(Debug, Drop)]
pub enum Ordering {
    /// All nodes, each once and after all that it refers to.
    Order(Vec<u32>),
    /// Some nodes, each once, of which each refers to the next and the last to the first. The least stands first.
    Cycle(Vec<u32>),
}

/// An order of the nodes of a graph, or a cycle. There is an order exactly where there is no cycle.
///
/// Node `i` refers to the numbers in list `i` of `lists`. A number past the last node is no reference, and a node that refers to itself
/// is a cycle of one.
///
/// The search goes depth first: it begins nodes by their numbers, from 0 on, and looks at the references of each as they stand in its
/// list. A node comes into the order as soon as all that it refers to has. The cycle is the first that is closed so. Time and memory
/// are linear in the nodes and references.
pub fn order_of<G: Graph>(alloc: Global, graph: &G) -> Result<Ordering, NoMemory>
    requires { length (G.lists graph.now) < 2 ^ 32 }
    ensures order { IfOk result (λ r. OfOrder r (IsOrder (G.lists graph.now))) }
    ensures no_cycle { IfOk result (λ r. OfOrder r (λ _. HasNoCycle (Refers (G.lists graph.now)))) }
    ensures cycle { IfOk result (λ r. OfCycle r (IsCycle (G.lists graph.now))) }
    ensures least { IfOk result (λ r. OfCycle r LeastFirst) }
    ensures some_cycle { IfOk result (λ r. OfCycle r (λ _. HasNoCycle (Refers (G.lists graph.now)) → ⊥)) }
{
    let mut search = Search::new(alloc, graph)?;
    for node in 0..graph.node_count() as u32 {
        match search.visit(alloc, graph, node) {
            Ok(()) => {}
            Err(Or::Memory) => return Err(NoMemory),
            Err(Or::Fault(nodes)) => return Ok(Ordering::Cycle(nodes)),
        }
    }
    Ok(Ordering::Order(search.order))
}
