//! What a rule makes of a row's term, beside what the row says.
ghost use Rattle.std.specs.Prelude.{◌≡◌, [], reverse};
ghost use Rattle.chw_types.specs.References.{HasNoCycle};
ghost use Rattle.chw_terms.specs.Tidy.{IsTidy};
ghost use Rattle.chw_terms.specs.declared.rule.Rule.TheVariants.{Spec};
ghost use Rattle.chw_typing.specs.Programs.{IsSound, setting_of};
ghost use Rattle.chw_typing.specs.Scopes.{setting_in};
ghost use Rattle.term_types.specs.Answers.{IsReady};

use crate::scopes::{VARIABLES, below_lambdas, variables_of};
use chw_base::{NoMemory, Or};
use chw_terms::{GapBuffer, Mode, Place, Program, Rule, Scene, Term};
use chw_typing::named_laws::data_types_in_order;
use looks::LookCount;
use row_notation::put_term;
use row_tables::{Unread, put};
use rules::try_rule;
use std::alloc::Global;

// The body of the definition of this name.
fn body_of<'p>(program: &'p Program, name: &[u8]) -> Option<&'p Term> {
    for def in program.defs.as_slice() {
        if def.name.as_slice() == name {
            return Some(&def.body);
        }
    }
    None
}

// The rule's instance on the term.
fn tried(
    alloc: Global,
    rule: Rule,
    scene: &Scene,
    term: &Term,
    place: &Place,
) -> Result<Option<Term>, NoMemory>
    requires other { rule ≡ Spec → ⊥ }
    requires order { HasNoCycle scene.now.program.now.datas }
    requires ready { IsReady (setting_in scene.now) [] (reverse place.now.vars) }
{
    let mut looks = LookCount::new();
    try_rule(alloc, rule, scene, term, place, &mut looks)
}

fn text_of(alloc: Global, term: &Term) -> Result<Vec<u8>, NoMemory> {
    let mut text = Vec::new(alloc);
    put_term(&mut text, term)?;
    Ok(text)
}

// Writes whether two terms are one, and the first one where they aren't.
fn put_same(alloc: Global, made: &Term, after: &Term, out: &mut Vec<u8>) -> Result<(), NoMemory> {
    let text = text_of(alloc, made)?;
    let outcome = put_same_text(alloc, &text, after, out);
    drop(text);
    outcome
}

fn put_same_text(
    alloc: Global,
    made: &[u8],
    after: &Term,
    out: &mut Vec<u8>,
) -> Result<(), NoMemory> {
    let text = text_of(alloc, after)?;
    let is_same = made == text.as_slice();
    drop(text);
    if is_same {
        return put(out, "as after");
    }
    put(out, "not as after: ")?;
    Ok(out.extend_from_slice(made)?)
}

// Writes what was made beside what the row says.
fn put_answer(
    alloc: Global,
    made: &Result<Option<Term>, NoMemory>,
    after: Option<&Term>,
    out: &mut Vec<u8>,
) -> Result<(), NoMemory> {
    match (made, after) {
        (Ok(Some(made)), Some(after)) => put_same(alloc, made, after, out),
        (Ok(Some(made)), None) => {
            put(out, "an instance: ")?;
            put_term(out, made)
        }
        (Ok(None), Some(_)) => put(out, "no instance, but after"),
        (Ok(None), None) => put(out, "no instance"),
        (Err(NoMemory), _) => Err(NoMemory),
    }
}

// The same at the place of the term of `before`.
fn put_at(
    alloc: Global,
    scene: &Scene,
    rule: Rule,
    before: &Term,
    place: &Place,
    out: &mut Vec<u8>,
) -> Result<(), NoMemory>
    requires other { rule ≡ Spec → ⊥ }
    requires order { HasNoCycle scene.now.program.now.datas }
    requires ready { IsReady (setting_in scene.now) [] (reverse place.now.vars) }
{
    let count = place.vars.len();
    let after = body_of(scene.program, b"after").map(|body| below_lambdas(body, count));
    let made = tried(alloc, rule, scene, below_lambdas(before, count), place);
    let outcome = put_answer(alloc, &made, after, out);
    drop(made);
    outcome
}

// The same in the scene of the program.
fn put_in(
    alloc: Global,
    scene: &Scene,
    rule: Rule,
    mode: Mode,
    is_result: bool,
    out: &mut Vec<u8>,
) -> Result<(), Or<Unread>>
    requires other { rule ≡ Spec → ⊥ }
    requires order { HasNoCycle scene.now.program.now.datas }
    requires sound { IsSound (setting_in scene.now) }
{
    let Some(before) = body_of(scene.program, b"before") else {
        return Err(Or::Fault(Unread));
    };
    let vars = variables_of(alloc, scene, before, VARIABLES)?;
    let place = Place {
        mode,
        result: is_result,
        vars: GapBuffer::of(alloc, vars),
    };
    let outcome = put_at(alloc, scene, rule, before, &place, out);
    drop(place);
    Ok(outcome?)
}

/// Writes what a rule makes of the term of `before`, beside the term of `after`.
pub(crate) fn put_compared(
    alloc: Global,
    program: &Program,
    rule: Rule,
    mode: Mode,
    is_result: bool,
    out: &mut Vec<u8>,
) -> Result<(), Or<Unread>>
    requires other { rule ≡ Spec → ⊥ }
    requires tidy { IsTidy program.now }
    requires sound { IsSound (setting_of program.now) }
{
    data_types_in_order();
    let scene = Scene { program, made: &[] };
    let put = put_in(alloc, &scene, rule, mode, is_result, out);
    let Scene {
        program: _,
        made: _,
    } = scene;
    put
}
