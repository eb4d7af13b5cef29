//! A cycle of nodes, taken from the path of a search.
ghost use Rattle.std.specs.Prelude.{◌<◌, ◌≤◌, ℕ, List, length, drop, slice_index, All, IfOk};
ghost use Rattle.graph_order.specs.Orders.{IsCycle, LeastFirst};

use chw_base::NoMemory;
use std::alloc::Global;

// The place of the least node.
fn least_at(nodes: &[u32]) -> usize
    requires { 0 < length nodes.now }
    ensures within { result < length nodes.now }
    ensures least { All (λ node. slice_index nodes.now result ≤ node) nodes.now }
{
    let mut least = 0;
    for (i, node) in nodes.iter().enumerate() {
        if *node < nodes[least] {
            least = i;
        }
    }
    least
}

/// The nodes of a path from a place on, turned so that the least stands first. A cycle stays one.
pub(crate) fn cycle(alloc: Global, path: &[u32], depth: usize) -> Result<Vec<u32>, NoMemory>
    requires { depth < length path.now }
    ensures cycle { IfOk result (λ nodes. (graph : List (List ℕ)) → IsCycle graph (drop depth path.now) → IsCycle graph nodes.items) }
    ensures least { IfOk result (λ nodes. LeastFirst nodes.items) }
{
    let end = &path[depth..];
    let mut nodes = Vec::from_slice(alloc, end)?;
    nodes.rotate_left(least_at(end));
    Ok(nodes)
}
