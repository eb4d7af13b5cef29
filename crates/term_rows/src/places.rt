//! Parts of terms at paths: the numbers of a row are the path.
use chw_base::{NoMemory, Or};
use chw_typing::{part, set_part};
use row_notation::{Parts, put_term, read};
use row_tables::Unread;
use std::alloc::Global;

/// Writes what a call gives.
pub(crate) fn answer(
    alloc: Global,
    call: &str,
    text: &str,
    out: &mut Vec<u8>,
) -> Result<(), Or<Unread>> {
    let parts = read(alloc, text)?;
    match call {
        "part" => put_part(alloc, &parts, out),
        "set_part" => put_changed(alloc, &parts, out),
        _ => Err(Or::Fault(Unread)),
    }
}

// The path of a row.
fn path(alloc: Global, parts: &Parts) -> Result<Vec<u32>, Or<Unread>> {
    let mut path = Vec::new(alloc);
    for place in 0..parts.types.len() {
        path.push(parts.number(place)?).map_err(NoMemory::from)?;
    }
    Ok(path)
}

// Writes the part at a path.
fn put_part(alloc: Global, parts: &Parts, out: &mut Vec<u8>) -> Result<(), Or<Unread>> {
    let path = path(alloc, parts)?;
    match part(parts.term(0)?, &path) {
        Some(found) => Ok(put_term(out, found)?),
        None => Ok(row_tables::put(out, "none")?),
    }
}

// Writes the second term with the first one at a path.
fn put_changed(alloc: Global, parts: &Parts, out: &mut Vec<u8>) -> Result<(), Or<Unread>> {
    let path = path(alloc, parts)?;
    let other = parts.term(0)?.copy(alloc)?;
    let mut changed = parts.term(1)?.copy(alloc)?;
    if !set_part(&mut changed, &path, other) {
        row_tables::put(out, "none, and as it was: ")?;
    }
    Ok(put_term(out, &changed)?)
}
