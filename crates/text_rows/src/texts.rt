//! The tokens, the trees and the canonical texts of texts.
use crate::printed::put_printed;
use crate::split::{put_terminals, put_tokens};
use crate::tree::{put_cuts, put_tree};
use chw_base::Or;
use row_tables::{Unread, bytes_of};
use std::alloc::Global;

/// Writes what a call gives.
pub(crate) fn answer(
    alloc: Global,
    call: &str,
    text: &str,
    out: &mut Vec<u8>,
) -> Result<(), Or<Unread>> {
    let text = bytes_of(alloc, text)?;
    let outcome = answer_of(alloc, call, &text, out);
    drop(text);
    outcome
}

// Writes what a call gives of a text.
fn answer_of(alloc: Global, call: &str, text: &[u8], out: &mut Vec<u8>) -> Result<(), Or<Unread>> {
    if text.len() > 2_000_000 {
        return Err(Or::Fault(Unread));
    }
    match call {
        "tokens" => put_tokens(alloc, text, out),
        "terminals" => put_terminals(alloc, text, out),
        "tree" => put_tree(alloc, text, out),
        "cuts" => put_cuts(alloc, text, out),
        "print" => put_printed(alloc, text, out),
        _ => Err(Or::Fault(Unread)),
    }
}
