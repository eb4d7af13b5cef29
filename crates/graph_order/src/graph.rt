//! What a search asks of a graph.
ghost use Rattle.std.specs.Prelude.{◌≡◌, ℕ, ◌-◌, ◌<◌, ◌≤◌, List, length};
ghost use Rattle.graph_order.specs.Orders.{numbers};
ghost use Rattle.graph_order.specs.References.{reference_at, reference_count};

/// A graph of references: nodes by their numbers, from 0 on, each of which names some numbers.
///
/// A number that is that of a node is a reference to it. Any other is none.
pub trait Graph {
    /// The numbers that each node names, by the number of the node.
    ghost lists: { Self → List (List ℕ) };

    /// How many nodes there are.
    fn node_count(&self) -> usize
        ensures { result ≡ length (lists self.now) };

    /// How many numbers a node names.
    fn degree(&self, node: u32) -> usize
        ensures { result ≡ reference_count (lists self.now) node };

    /// The number that a node names where this many are left, itself among them.
    fn reference(&self, node: u32, left: usize) -> Option<u32>
        requires some { 0 < left }
        requires fits { left ≤ reference_count (lists self.now) node }
        ensures { result ≡ reference_at (lists self.now) node (reference_count (lists self.now) node - left) };
}

/// Node `i` names the numbers in list `i`.
impl Graph for Vec<Vec<u32>> {
    ghost lists = { λ graph. numbers graph.items };

    fn node_count(&self) -> usize {
        self.len()
    }

    fn degree(&self, node: u32) -> usize {
        match self.get(node as usize) {
            Some(references) => references.len(),
            None => 0,
        }
    }

    fn reference(&self, node: u32, left: usize) -> Option<u32> {
        match self.get(node as usize) {
            Some(references) => references.get(references.len() - left).copied(),
            None => None,
        }
    }
}
