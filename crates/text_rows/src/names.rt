//! Names, the limits on trees, and the parts of literals.
use crate::limits::put_found_in;
use crate::literals::{put_literal, put_numeral};
use crate::tables::{put_binders, put_names, put_walk};
use chw_base::{NoMemory, Or};
use row_tables::{Unread, put, put_number};
use std::alloc::Global;

/// Writes what a call gives.
pub(crate) fn answer(
    alloc: Global,
    call: &str,
    text: &str,
    out: &mut Vec<u8>,
) -> Result<(), Or<Unread>> {
    match call {
        "twice" | "unknown" | "limit" => put_found_in(alloc, call, text, out),
        "literal" => Ok(put_literal(text, out)?),
        "numeral" => Ok(put_numeral(text, out)?),
        "names" => put_names(alloc, text, out),
        "binders" => put_binders(alloc, text, out),
        "walk" => put_walk(alloc, text, out),
        _ => Err(Or::Fault(Unread)),
    }
}

/// Writes a number after a sign, or that there is none.
pub(crate) fn put_found(
    out: &mut Vec<u8>,
    sign: &str,
    number: Option<u32>,
) -> Result<(), NoMemory> {
    match number {
        Some(number) => put_number(out, sign, number),
        None => {
            put(out, sign)?;
            put(out, "none")
        }
    }
}
