//! The names and the limits of whole descriptions.
use crate::trees::tree_in;
use chw_base::{NoMemory, Or};
use chw_grammar::{Tree, Word};
use chw_limits::{Limit, first_passed};
use chw_names::{twice, unknown};
use row_tables::{Unread, put, put_number};
use std::alloc::Global;

/// Writes what a call gives of the tree of a text.
pub fn put_found_in(
    alloc: Global,
    call: &str,
    text: &str,
    out: &mut Vec<u8>,
) -> Result<(), Or<Unread>> {
    let tree = tree_in(alloc, text)?;
    let outcome = put_of_tree(alloc, call, &tree, out);
    drop(tree);
    Ok(outcome?)
}

fn put_of_tree(alloc: Global, call: &str, tree: &Tree, out: &mut Vec<u8>) -> Result<(), NoMemory> {
    match call {
        "twice" => put_word(twice(alloc, tree)?, out),
        "unknown" => put_word(unknown(alloc, tree)?, out),
        _ => put_limit(first_passed(tree), out),
    }
}

// Writes a name and its place.
fn put_word(word: Option<&Word>, out: &mut Vec<u8>) -> Result<(), NoMemory> {
    match word {
        Some(word) => {
            out.extend_from_slice(word.bytes.as_slice())?;
            put_number(out, " at ", word.at)
        }
        None => put(out, "none"),
    }
}

// Writes a limit and its number.
fn put_limit(limit: Option<Limit>, out: &mut Vec<u8>) -> Result<(), NoMemory> {
    match limit {
        Some(limit) => {
            put(out, limit.which.word())?;
            put_number(out, " ", limit.number)
        }
        None => put(out, "none"),
    }
}
