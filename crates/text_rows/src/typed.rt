//! The types of the bodies of a text's definitions.
ghost use Rattle.std.specs.Prelude.{IfOk, IfSome, IsTrue};
ghost use Rattle.chw_terms.specs.Tidy.{IsTidy};
ghost use Rattle.chw_typing.specs.Programs.{IsSound, setting_of};

use crate::trees::tree_of;
use chw_base::{NoMemory, Or};
use chw_check::kinds::first_unkinded;
use chw_check::laws::what_fits_is_sound;
use chw_resolve::resolve;
use chw_terms::{Def, Program, Scene};
use chw_types::Ty;
use row_tables::{Unread, bytes_of, put};
use std::alloc::Global;
use term_types::type_of;
use type_ports::type_text;

/// The program of a text, where it has one.
fn program(alloc: Global, text: &[u8]) -> Option<Program>
    ensures { IfSome result IsTidy }
{
    let tree = tree_of(alloc, text)?;
    let resolved = resolve(alloc, text, &tree);
    drop(tree);
    resolved.ok()
}

/// The program of a text in the notation of rows.
pub(crate) fn program_in(alloc: Global, text: &str) -> Result<Program, Or<Unread>>
    ensures { IfOk result IsTidy }
{
    let text = bytes_of(alloc, text)?;
    let program = program(alloc, &text);
    drop(text);
    program.ok_or(Or::Fault(Unread))
}

/// Writes the types of the bodies of a text's definitions in order, each with `;` after it, and
/// `none` for a body without a type.
pub(crate) fn put_types(alloc: Global, text: &str, out: &mut Vec<u8>) -> Result<(), Or<Unread>> {
    let Some(program) = program(alloc, text.as_bytes()) else {
        return Ok(put(out, "no program")?);
    };
    let outcome = put_types_in(alloc, &program, out);
    drop(program);
    Ok(outcome?)
}

// The same of a program, or that a type in it has no kind.
fn put_types_in(alloc: Global, program: &Program, out: &mut Vec<u8>) -> Result<(), NoMemory>
    requires { IsTidy program.now }
{
    if !has_kinds(alloc, program) {
        return put(out, "a type without a kind");
    }
    for def in program.defs.as_slice() {
        put_type_of(alloc, program, def, out)?;
    }
    Ok(())
}

// Whether each type that is written in a program has a kind that it may have there.
fn has_kinds(alloc: Global, program: &Program) -> bool
    requires { IsTidy program.now }
    ensures { IsTrue result → IsSound (setting_of program.now) }
{
    what_fits_is_sound();
    match first_unkinded(alloc, program) {
        Ok(None) => true,
        _ => false,
    }
}

// Writes the type of a definition's body.
fn put_type_of(
    alloc: Global,
    program: &Program,
    def: &Def,
    out: &mut Vec<u8>,
) -> Result<(), NoMemory>
    requires { IsSound (setting_of program.now) }
{
    let scene = Scene { program, made: &[] };
    let found = type_of(alloc, &scene, &[], &def.body);
    let Scene {
        program: _,
        made: _,
    } = scene;
    let outcome = put_found(alloc, program, &found, out);
    drop(found);
    outcome
}

fn put_found(
    alloc: Global,
    program: &Program,
    found: &Result<Option<Ty>, NoMemory>,
    out: &mut Vec<u8>,
) -> Result<(), NoMemory> {
    match found {
        Ok(Some(ty)) => {
            put_text(alloc, program, ty, out)?;
            put(out, ";")
        }
        Ok(None) => put(out, "none;"),
        Err(NoMemory) => Err(NoMemory),
    }
}

// Writes the text of a type.
fn put_text(alloc: Global, program: &Program, ty: &Ty, out: &mut Vec<u8>) -> Result<(), NoMemory> {
    let name = type_text(
        alloc,
        ty,
        program.datas.as_slice(),
        program.domains.as_slice(),
    )?;
    let outcome = out.extend_from_slice(name.as_slice());
    drop(name);
    Ok(outcome?)
}
