//! Types: each call on every form of type, and the type of each primitive.
use crate::ports::{both, put_leaves};
use chw_base::{Name, Or};
use chw_prims::schema;
use chw_terms::Head;
use chw_types::{Ty, kind_of, put_arguments, put_type, same, shift_type};
use row_notation::{Parts, kind_name, read};
use row_tables::{Unread, put};
use std::alloc::Global;
use type_ports::{representable, type_text};

/// Writes what a call gives.
pub(crate) fn answer(
    alloc: Global,
    call: &str,
    text: &str,
    out: &mut Vec<u8>,
) -> Result<(), Or<Unread>> {
    let parts = read(alloc, text)?;
    match call {
        "kind_of" => put_kind(alloc, &parts, out),
        "same" => put_truth(out, same(alloc, parts.ty(0)?, parts.ty(1)?)?),
        "representable" => put_truth(out, representable(alloc, parts.ty(0)?, &both(alloc)?)?),
        "leaves" => put_leaves(alloc, parts.ty(0)?, out),
        "type_text" => put_named(alloc, parts.ty(0)?, out),
        _ => put_moved(alloc, call, &parts, out),
    }
}

// Writes the text of what a type becomes, where no data type and no domain has a name.
fn put_moved(
    alloc: Global,
    call: &str,
    parts: &Parts,
    out: &mut Vec<u8>,
) -> Result<(), Or<Unread>> {
    let moved = moved(alloc, call, parts)?;
    let written = type_text(alloc, &moved, &[], &[])?;
    Ok(out.extend_from_slice(written.as_slice())?)
}

// What a type becomes, and the type of a primitive.
fn moved(alloc: Global, call: &str, parts: &Parts) -> Result<Ty, Or<Unread>> {
    match call {
        "shift_type" => {
            let from = parts.ty_var(0)?;
            Ok(shift_type(alloc, parts.ty(2)?, from, parts.number(1)?)?)
        }
        "put_type" => {
            let at = parts.ty_var(0)?;
            Ok(put_type(alloc, parts.ty(2)?, at, parts.ty(1)?)?)
        }
        "put_arguments" => match parts.types.as_slice() {
            [field, args @ ..] => Ok(put_arguments(alloc, field, args)?),
            _ => Err(Or::Fault(Unread)),
        },
        "schema" => match &parts.term(0)?.head {
            Head::PrimOf(primitive) => Ok(schema(alloc, *primitive)?),
            _ => Err(Or::Fault(Unread)),
        },
        _ => Err(Or::Fault(Unread)),
    }
}

fn put_truth(out: &mut Vec<u8>, truth: bool) -> Result<(), Or<Unread>> {
    Ok(put(out, if truth { "true" } else { "false" })?)
}

// The kind of a type, behind those of the variables in scope, the outermost first. There is one
// domain.
fn put_kind(alloc: Global, parts: &Parts, out: &mut Vec<u8>) -> Result<(), Or<Unread>> {
    let domains = [Name::from(Vec::new(alloc))];
    let found = kind_of(parts.ty(0)?, &parts.kinds, &both(alloc)?, &domains);
    Ok(put(out, found.map_or("none", kind_name))?)
}

// The text of a type, where the domain 0 is `A`.
fn put_named(alloc: Global, ty: &Ty, out: &mut Vec<u8>) -> Result<(), Or<Unread>> {
    let domains = [Name::from(Vec::from_slice(alloc, b"A")?)];
    let written = type_text(alloc, ty, &both(alloc)?, &domains)?;
    Ok(out.extend_from_slice(written.as_slice())?)
}
