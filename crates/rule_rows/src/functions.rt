//! What a rule on applied functions makes of a term in the notation of types and terms.
ghost use Rattle.std.specs.Prelude.{[], reverse};
ghost use Rattle.chw_typing.specs.Programs.{IsSound, setting_of};
ghost use Rattle.chw_typing.specs.Scopes.{setting_in};
ghost use Rattle.term_types.specs.Answers.{IsReady};
ghost use Rattle.flow_functions.specs.Rules.{IsOfFunctions};

use crate::programs::{DESCRIPTION, program_of};
use chw_base::{NoMemory, Or};
use chw_terms::{GapBuffer, Mode, Place, Program, Rule, Scene, Term};
use flow_functions::try_function;
use row_notation::{Parts, put_term, read};
use row_tables::{Unread, put};
use std::alloc::Global;
use term_types::Signature;

/// Writes what a rule makes of the term of a row.
pub(crate) fn put_made(
    alloc: Global,
    rule: Rule,
    text: &str,
    out: &mut Vec<u8>,
) -> Result<(), Or<Unread>>
    requires { IsOfFunctions rule }
{
    let parts = read(alloc, text)?;
    let outcome = put_made_of(alloc, rule, &parts, out);
    drop(parts);
    outcome
}

// The same, where the term is the first of the parts.
fn put_made_of(
    alloc: Global,
    rule: Rule,
    parts: &Parts<'_>,
    out: &mut Vec<u8>,
) -> Result<(), Or<Unread>>
    requires { IsOfFunctions rule }
{
    let term = parts.term(0)?;
    let program = program_of(alloc, DESCRIPTION)?;
    let outcome = put_made_in(alloc, &program, rule, term, out);
    drop(program);
    Ok(outcome?)
}

// The same, where the scene has the definitions of a program.
fn put_made_in(
    alloc: Global,
    program: &Program,
    rule: Rule,
    term: &Term,
    out: &mut Vec<u8>,
) -> Result<(), NoMemory>
    requires rule { IsOfFunctions rule }
    requires sound { IsSound (setting_of program.now) }
{
    let scene = Scene { program, made: &[] };
    let place = Place {
        mode: Mode::V,
        result: true,
        vars: GapBuffer::of(alloc, Vec::new(alloc)),
    };
    let made = tried(alloc, rule, &scene, term, &place);
    drop(place);
    let Scene {
        program: _,
        made: _,
    } = scene;
    let outcome = put_outcome(&made, out);
    drop(made);
    outcome
}

fn put_outcome(made: &Result<Option<Term>, NoMemory>, out: &mut Vec<u8>) -> Result<(), NoMemory> {
    match made {
        Ok(Some(e)) => put_term(out, e),
        Ok(None) => put(out, "nothing"),
        Err(NoMemory) => Err(NoMemory),
    }
}

// What a rule makes of a term at a place, by the signature of the scene's program.
fn tried(
    alloc: Global,
    rule: Rule,
    scene: &Scene,
    term: &Term,
    place: &Place,
) -> Result<Option<Term>, NoMemory>
    requires rule { IsOfFunctions rule }
    requires ready { IsReady (setting_in scene.now) [] (reverse place.now.vars) }
{
    let signature = Signature::of(alloc, scene.program)?;
    let made = try_function(alloc, rule, scene, &signature, term, place);
    drop(signature);
    made
}
