//! What is found of the names of a description.
use crate::trees::tree_of;
use chw_base::{Name, NoMemory, Or};
use chw_resolve::{NameFault, resolve};
use chw_terms::Program;
use chw_types::Kind;
use row_tables::{Unread, bytes_of, put, put_number};
use std::alloc::Global;

/// Writes the first fault of a text, or the kinds of its program where they are asked for.
pub(crate) fn put_resolved(
    alloc: Global,
    text: &str,
    with_kinds: bool,
    out: &mut Vec<u8>,
) -> Result<(), Or<Unread>> {
    let text = bytes_of(alloc, text)?;
    let resolved = program(alloc, &text);
    drop(text);
    let outcome = put_outcome(&resolved, with_kinds, out);
    drop(resolved);
    outcome
}

fn put_outcome(
    resolved: &Result<Program, Or<NameFault>>,
    with_kinds: bool,
    out: &mut Vec<u8>,
) -> Result<(), Or<Unread>> {
    match resolved {
        Ok(program) if with_kinds => Ok(put_kinds(out, program)?),
        Ok(_) => Ok(put(out, "none")?),
        Err(Or::Fault(fault)) => Ok(put_fault(out, fault)?),
        Err(Or::Memory) => Err(Or::Memory),
    }
}

// The program of a text, or its first fault. Of a text without a tree the fault is want of memory.
fn program(alloc: Global, text: &[u8]) -> Result<Program, Or<NameFault>> {
    let Some(tree) = tree_of(alloc, text) else {
        return Err(Or::Memory);
    };
    let resolved = resolve(alloc, text, &tree);
    drop(tree);
    resolved
}

fn put_fault(out: &mut Vec<u8>, fault: &NameFault) -> Result<(), NoMemory> {
    match fault {
        NameFault::Limit(limit) => {
            put(out, "limit ")?;
            put(out, limit.which.word())?;
            put_number(out, " ", limit.number)
        }
        NameFault::Twice { name, at } => put_place(out, "twice", name, *at),
        NameFault::Unknown { name, at } => put_place(out, "unknown", name, *at),
        NameFault::DataCycle(names) => put_listed(out, "data cycle", names.as_slice()),
        NameFault::DefCycle(names) => put_listed(out, "def cycle", names.as_slice()),
    }
}

fn put_place(out: &mut Vec<u8>, what: &str, name: &Name, at: u32) -> Result<(), NoMemory> {
    put(out, what)?;
    put(out, " ")?;
    out.extend_from_slice(name.as_slice())?;
    put_number(out, " ", at)
}

fn put_listed(out: &mut Vec<u8>, what: &str, names: &[Name]) -> Result<(), NoMemory> {
    put(out, what)?;
    for name in names {
        put(out, " ")?;
        out.extend_from_slice(name.as_slice())?;
    }
    Ok(())
}

fn put_kinds(out: &mut Vec<u8>, program: &Program) -> Result<(), NoMemory> {
    for data in program.datas.as_slice() {
        out.push(letter(data.kind))?;
    }
    put_number(out, " ", program.top.def.number)
}

// The first letter of a kind.
fn letter(kind: Kind) -> u8 {
    match kind {
        Kind::Nat => b'N',
        Kind::Dom => b'D',
        Kind::Val => b'V',
        Kind::Cir => b'C',
    }
}
