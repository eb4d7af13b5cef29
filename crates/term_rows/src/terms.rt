//! Terms: each call on every form of term.
use crate::spine::put_spine;
use chw_base::Or;
use chw_terms::{
    depth, evaluate, exchange, lower, numeral, occurs, put, put_here, put_type_in, shift,
    shift_types,
};
use free_variables::free_in;
use row_notation::{Parts, put_number, put_term, put_type, read};
use row_tables::Unread;
use std::alloc::Global;

/// Writes what a call gives.
pub(crate) fn answer(
    alloc: Global,
    call: &str,
    text: &str,
    out: &mut Vec<u8>,
) -> Result<(), Or<Unread>> {
    let parts = read(alloc, text)?;
    match call {
        "evaluate" => put_evaluated(alloc, &parts, out),
        "occurs" => put_occurs(&parts, out),
        "free_in" => put_free(alloc, &parts, out),
        "depth" => put_depth(&parts, out),
        "spine" => put_spine(alloc, parts.number(0)?, out),
        _ => put_moved(alloc, call, &parts, out),
    }
}

// Writes what a term becomes.
fn put_moved(
    alloc: Global,
    call: &str,
    parts: &Parts,
    out: &mut Vec<u8>,
) -> Result<(), Or<Unread>> {
    let moved = match call {
        "copy" => parts.term(0)?.copy(alloc)?,
        "shift" => shift(alloc, parts.term(1)?, parts.var(0)?, parts.number(0)?)?,
        "shift_types" => shift_types(alloc, parts.term(0)?, parts.ty_var(0)?, parts.number(1)?)?,
        "put" => put(alloc, parts.term(2)?, parts.var(0)?, parts.term(1)?)?,
        "put_here" => put_here(alloc, parts.term(2)?, parts.var(0)?, parts.term(1)?)?,
        "lower" => lower(alloc, parts.term(1)?, parts.var(0)?)?,
        "exchange" => exchange(alloc, parts.term(0)?, parts.number(0)?, parts.number(1)?)?,
        "put_type_in" => put_type_in(alloc, parts.term(0)?, parts.ty(0)?)?,
        _ => return Err(Or::Fault(Unread)),
    };
    Ok(put_term(out, &moved)?)
}

fn put_evaluated(alloc: Global, parts: &Parts, out: &mut Vec<u8>) -> Result<(), Or<Unread>> {
    let evaluated = evaluate(alloc, parts.ty(0)?)?;
    put_type(out, &evaluated)?;
    match numeral(&evaluated) {
        Some(number) => Ok(put_number(out, ", the numeral ", number)?),
        None => Ok(row_tables::put(out, ", no numeral")?),
    }
}

fn put_occurs(parts: &Parts, out: &mut Vec<u8>) -> Result<(), Or<Unread>> {
    let occurs = occurs(parts.term(1)?, parts.var(0)?);
    Ok(row_tables::put(out, if occurs { "true" } else { "false" })?)
}

fn put_free(alloc: Global, parts: &Parts, out: &mut Vec<u8>) -> Result<(), Or<Unread>> {
    let free = free_in(alloc, parts.term(0)?)?;
    if free.is_empty() {
        return Ok(row_tables::put(out, "none")?);
    }
    let mut sign = "v";
    for variable in &free {
        put_number(out, sign, variable.number)?;
        sign = " v";
    }
    Ok(())
}

fn put_depth(parts: &Parts, out: &mut Vec<u8>) -> Result<(), Or<Unread>> {
    Ok(put_number(out, "", depth(parts.term(0)?))?)
}
