//! The laws of orders and cycles. Each is a function that does nothing, and says its law of all graphs.
ghost use Rattle.std.specs.Prelude.{ℕ, List};
ghost use Rattle.graph_order.specs.Orders.{IsCycle, IsOrder, Places};
ghost use Rattle.graph_order.specs.References.{HasNoCycle, Refers};

/// An order gives each node a place, later than those of the nodes that it refers to.
pub fn an_order_gives_places()
    ensures { (graph : List (List ℕ)) (nodes : List ℕ) → IsOrder graph nodes → Places graph }
{}

/// Where there is an order, no references lead from anywhere back to it.
pub fn an_order_excludes_cycles()
    ensures { (graph : List (List ℕ)) (nodes : List ℕ) → IsOrder graph nodes → HasNoCycle (Refers graph) }
{}

/// Where there is a list of nodes that is a cycle, references lead back.
pub fn a_cycle_leads_back()
    ensures { (graph : List (List ℕ)) (nodes : List ℕ) → IsCycle graph nodes → HasNoCycle (Refers graph) → ⊥ }
{}
