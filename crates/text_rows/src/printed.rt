//! The canonical text of a text.
use crate::trees::tree_of;
use chw_base::{NoMemory, Or};
use chw_text::print;
use row_tables::{Unread, put, put_bytes};
use std::alloc::Global;

/// Writes the canonical text, and after it that of the canonical text, where it is another.
pub fn put_printed(alloc: Global, text: &[u8], out: &mut Vec<u8>) -> Result<(), Or<Unread>> {
    let once = canonical(alloc, text)?;
    let outcome = put_canonical(alloc, &once, out);
    drop(once);
    outcome
}

// Writes a canonical text, and after it its own canonical text, where it is another.
fn put_canonical(alloc: Global, once: &[u8], out: &mut Vec<u8>) -> Result<(), Or<Unread>> {
    let twice = canonical(alloc, once)?;
    let outcome = put_both(once, &twice, out);
    drop(twice);
    Ok(outcome?)
}

fn put_both(once: &[u8], twice: &[u8], out: &mut Vec<u8>) -> Result<(), NoMemory> {
    put_bytes(out, once)?;
    if once == twice {
        return Ok(());
    }
    put(out, "; then ")?;
    put_bytes(out, twice)
}

// The canonical text of a text that is a description.
fn canonical(alloc: Global, text: &[u8]) -> Result<Vec<u8>, Or<Unread>> {
    let Some(tree) = tree_of(alloc, text) else {
        return Err(Or::Fault(Unread));
    };
    let printed = print(alloc, &tree);
    drop(tree);
    Ok(printed?)
}
