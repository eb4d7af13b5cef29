//! What the types, terms and declarations of a description become.
use crate::trees::tree_of;
use chw_base::{DomId, NoMemory, Or};
use chw_grammar::Tree;
use chw_names::Globals;
use chw_names::least::Least;
use chw_resolve::program_of;
use chw_terms::Program;
use row_notation::{put_data, put_names, put_number, put_term, put_type};
use row_tables::{Unread, put};
use std::alloc::Global;

/// Writes a part of the program of a text: the type or the body of the last definition, the domains
/// that have a reset, or the rest.
pub(crate) fn answer(
    alloc: Global,
    call: &str,
    text: &str,
    out: &mut Vec<u8>,
) -> Result<(), Or<Unread>> {
    let Some(program) = program(alloc, text.as_bytes()) else {
        return Err(Or::Fault(Unread));
    };
    let outcome = put_part(call, &program, out);
    drop(program);
    outcome
}

fn put_part(call: &str, program: &Program, out: &mut Vec<u8>) -> Result<(), Or<Unread>> {
    let Some(last) = program.defs.as_slice().last() else {
        return Err(Or::Fault(Unread));
    };
    match call {
        "type" => Ok(put_type(out, &last.ty)?),
        "body" => Ok(put_term(out, &last.body)?),
        "rest" => Ok(put_program(out, program)?),
        "resets" => Ok(put_resets(out, program.resets.as_slice())?),
        _ => Err(Or::Fault(Unread)),
    }
}

// The program of a text that is a description.
fn program(alloc: Global, text: &[u8]) -> Option<Program> {
    let tree = tree_of(alloc, text)?;
    let program = program_from(alloc, &tree);
    drop(tree);
    program
}

// The program of a tree.
fn program_from(alloc: Global, tree: &Tree) -> Option<Program> {
    let mut least = Least::new();
    let Ok(globals) = Globals::of(alloc, &mut least, tree.declarations.as_slice()) else {
        return None;
    };
    let program = program_of(alloc, tree, &globals);
    drop(globals);
    program.ok()
}

// Writes the numbers of the domains that have a reset.
fn put_resets(out: &mut Vec<u8>, resets: &[DomId]) -> Result<(), NoMemory> {
    put(out, "resets")?;
    for reset in resets {
        put_number(out, " ", reset.number)?;
    }
    Ok(())
}

// Writes the domains, the data types but for their kinds, the definitions' names, and the top.
fn put_program(out: &mut Vec<u8>, program: &Program) -> Result<(), NoMemory> {
    put(out, "domains")?;
    put_names(out, program.domains.as_slice())?;
    put(out, "; data ")?;
    for data in program.datas.as_slice() {
        put_data(out, data)?;
    }
    put(out, "; defs")?;
    for def in program.defs.as_slice() {
        put(out, " ")?;
        out.extend_from_slice(def.name.as_slice())?;
    }
    put_number(out, "; top ", program.top.def.number)?;
    put_names(out, program.top.inputs.as_slice())?;
    put(out, " ->")?;
    put_names(out, program.top.outputs.as_slice())
}
