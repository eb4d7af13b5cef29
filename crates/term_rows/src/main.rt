//! Rows of types and of terms, each with what a call gives: types and the types of primitives,
//! terms, parts of terms at paths, types without zeros, the kinds of data types and cycles, and
//! unrolling.
#![tactic(auto)]

mod kinds;
mod places;
mod ports;
mod spine;
mod terms;
mod types;
mod unrolled;
mod zeros;

use chw_base::Or;
use row_tables::{Unread, print_rows};
use std::alloc::Global;
use std::io;

fn main(rt: HostRuntime) -> io::Result<()> {
    print_rows(&rt, answer)
}

// Writes what a call gives.
fn answer(alloc: Global, call: &str, text: &str, out: &mut Vec<u8>) -> Result<(), Or<Unread>> {
    match call {
        "kind_of"
        | "same"
        | "representable"
        | "leaves"
        | "type_text"
        | "shift_type"
        | "put_type"
        | "put_arguments"
        | "schema" => types::answer(alloc, call, text, out),
        "part" | "set_part" => places::answer(alloc, call, text, out),
        "without_zeros" => zeros::answer(alloc, text, out),
        "kinds" | "data_cycle" | "definition_cycle" => kinds::answer(alloc, call, text, out),
        "can_unroll" | "unroll" => unrolled::answer(alloc, call, text, out),
        _ => terms::answer(alloc, call, text, out),
    }
}
