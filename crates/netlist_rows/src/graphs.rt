//! Graphs, and what `order_of` finds in them.
use chw_base::{NoMemory, Or};
use graph_order::{Ordering, order_of};
use net_notation::groups_of;
use row_tables::{Unread, put, put_number};
use std::alloc::{AllocError, Global};

// As many nodes as the chains have.
const CHAIN: u32 = 100_000;

// The graph of a text: nodes are parted by semicolons, the numbers that one names by spaces.
fn graph(alloc: Global, text: &str) -> Result<Vec<Vec<u32>>, Or<Unread>> {
    if text == "none" {
        return Ok(Vec::new(alloc));
    }
    groups_of(alloc, text)
}

// The nodes that are found, and whether they are in order.
fn found(alloc: Global, graph: &Vec<Vec<u32>>) -> Result<(Vec<u32>, bool), Or<Unread>> {
    if graph.len() > CHAIN as usize {
        return Err(Or::Fault(Unread));
    }
    match order_of(alloc, graph)? {
        Ordering::Order(nodes) => Ok((nodes, true)),
        Ordering::Cycle(nodes) => Ok((nodes, false)),
    }
}

/// Writes `order` or `cycle`, and the nodes.
pub(crate) fn put_graph(alloc: Global, text: &str, out: &mut Vec<u8>) -> Result<(), Or<Unread>> {
    let (nodes, in_order) = found(alloc, &graph(alloc, text)?)?;
    put(out, if in_order { "order" } else { "cycle" })?;
    put_numbers(out, &nodes)?;
    Ok(())
}

/// Writes numbers, with a space before each.
pub(crate) fn put_numbers(out: &mut Vec<u8>, numbers: &[u32]) -> Result<(), NoMemory> {
    for number in numbers {
        put_number(out, " ", *number)?;
    }
    Ok(())
}

// Nodes of which each names the next, and the last this number.
fn chain(alloc: Global, last: u32) -> Result<Vec<Vec<u32>>, AllocError> {
    let mut graph = Vec::new(alloc);
    for node in 1..CHAIN {
        graph.push(vec![in alloc; node]?)?;
    }
    graph.push(vec![in alloc; last]?)?;
    Ok(graph)
}

/// Writes what a long chain has whose last node names this number. It is ordered from its end, and where it is closed it is one cycle.
pub(crate) fn put_chain(alloc: Global, last: &str, out: &mut Vec<u8>) -> Result<(), Or<Unread>> {
    let Ok(last) = last.parse::<u32>() else {
        return Err(Or::Fault(Unread));
    };
    let graph = chain(alloc, last)?;
    let (mut nodes, in_order) = found(alloc, &graph)?;
    if in_order {
        nodes.reverse();
    }
    Ok(put_places(out, in_order, &nodes)?)
}

// Writes whether nodes stand as in the chain, an order from its end and a cycle from its start.
fn put_places(out: &mut Vec<u8>, in_order: bool, nodes: &[u32]) -> Result<(), NoMemory> {
    let mut places = nodes.iter().enumerate();
    let right = nodes.len() == CHAIN as usize && places.all(|(i, node)| *node as usize == i);
    if in_order {
        put(out, "order, as the chain from its end: ")?;
    } else {
        put(out, "cycle, as the chain from its start: ")?;
    }
    put(out, if right { "true" } else { "false" })
}
