//! Rows of graphs and of small nets: the order that each has, or the cycle. Flat nets of nets, and
//! the nets that are left where equal wires are shared.
#![tactic(auto)]

mod flat;
mod formed;
mod graphs;
mod nets;
mod shared;
mod slow;

use chw_base::Or;
use flat::{put_flat, put_flat_found};
use formed::put_formed;
use graphs::{put_chain, put_graph};
use nets::put_found;
use row_tables::{Unread, print_rows};
use shared::put_shared;
use std::alloc::Global;
use std::io;

fn main(rt: HostRuntime) -> io::Result<()> {
    netlist::laws::an_order_excludes_loops();
    print_rows(&rt, answer)
}

// Writes what a call gives.
fn answer(alloc: Global, call: &str, text: &str, out: &mut Vec<u8>) -> Result<(), Or<Unread>> {
    match call {
        "graph" => put_graph(alloc, text, out),
        "chain" => put_chain(alloc, text, out),
        "has" | "order" => put_found(alloc, call, text, out),
        "formed" => put_formed(alloc, text, out),
        "flatten" => put_flat(alloc, text, out),
        "found" => put_flat_found(alloc, text, out),
        "share" => put_shared(alloc, text, out),
        _ => Err(Or::Fault(Unread)),
    }
}
