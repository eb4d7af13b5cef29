//! Data types with their kinds, and cycles of data types and of definitions.
use chw_base::{Name, Or};
use chw_terms::{Def, Term};
use chw_types::{Data, Ty};
use data_kinds::{definition_cycle, find_kinds};
use row_notation::{kind_name, put_number, read};
use row_tables::{Unread, put};
use std::alloc::Global;

/// Writes what a call gives.
pub(crate) fn answer(
    alloc: Global,
    call: &str,
    text: &str,
    out: &mut Vec<u8>,
) -> Result<(), Or<Unread>> {
    let parts = read(alloc, text)?;
    match call {
        "kinds" => put_kinds(alloc, parts.datas, out),
        "data_cycle" => {
            let mut datas = parts.datas;
            if datas.len() > 100 {
                return Err(Or::Fault(Unread));
            }
            put_cycle(&find_kinds(alloc, &mut datas, &[])?, out)
        }
        "definition_cycle" => {
            let defs = definitions(alloc, parts.terms)?;
            if defs.len() > 100 {
                return Err(Or::Fault(Unread));
            }
            put_cycle(&definition_cycle(alloc, &defs)?, out)
        }
        _ => Err(Or::Fault(Unread)),
    }
}

// Writes the kinds of data types, where one domain is declared.
fn put_kinds(alloc: Global, mut datas: Vec<Data>, out: &mut Vec<u8>) -> Result<(), Or<Unread>> {
    let domains = [Name::from(Vec::from_slice(alloc, b"Sys")?)];
    if datas.len() > 100 || find_kinds(alloc, &mut datas, &domains)?.is_some() {
        return Err(Or::Fault(Unread));
    }
    for (place, data) in datas.iter().enumerate() {
        put(out, if place == 0 { "" } else { " " })?;
        put(out, kind_name(data.kind))?;
    }
    Ok(())
}

// Writes the numbers of a cycle.
fn put_cycle(cycle: &Option<Vec<u32>>, out: &mut Vec<u8>) -> Result<(), Or<Unread>> {
    let Some(numbers) = cycle else {
        return Ok(put(out, "none")?);
    };
    for (place, number) in numbers.iter().enumerate() {
        put_number(out, if place == 0 { "" } else { " " }, *number)?;
    }
    Ok(())
}

// Definitions with these bodies.
fn definitions(alloc: Global, bodies: Vec<Term>) -> Result<Vec<Def>, Or<Unread>> {
    let mut defs = Vec::new(alloc);
    for body in bodies {
        defs.push(Def {
            name: Name::from(Vec::from_slice(alloc, b"f")?),
            ty: Ty::nat(0),
            body,
        })?;
    }
    Ok(defs)
}
