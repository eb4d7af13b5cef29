//! A rule that is tried so many times, to be timed.
ghost use Rattle.std.specs.Prelude.{◌≡◌, [], reverse};
ghost use Rattle.chw_terms.specs.declared.rule.Rule.TheVariants.{Spec};
ghost use Rattle.chw_types.specs.References.{HasNoCycle};
ghost use Rattle.chw_typing.specs.Programs.{IsSound, setting_of};
ghost use Rattle.chw_typing.specs.Scopes.{setting_in};
ghost use Rattle.rewriting.specs.Origins.{origins_of};
ghost use Rattle.rewriting.specs.Spots.{spot_of};
ghost use Rattle.rule_parts.specs.Cores.{HasTypeAt};
ghost use Rattle.term_types.specs.Answers.{IsReady};
ghost use Rattle.term_frames.specs.Signatures.{IsSignature};

use crate::names::rule_named;
use crate::programs::{DESCRIPTION, program_of};
use crate::sums::sums;
use chw_base::{NoMemory, Or};
use chw_terms::{GapBuffer, Mode, Place, Program, Rule, Scene, Term};
use chw_typing::named_laws::data_types_in_order;
use looks::LookCount;
use row_tables::{Unread, put_number};
use rules::{is_typed, try_typed};
use std::alloc::Global;
use term_types::Signature;

// How often the rule has no instance on a typed term, of so many times.
fn count_typed(
    alloc: Global,
    rule: Rule,
    times: u32,
    scene: &Scene,
    signature: &Signature,
    term: &Term,
    place: &Place,
) -> Result<u32, NoMemory>
    requires other { rule ≡ Spec → ⊥ }
    requires order { HasNoCycle scene.now.program.now.datas }
    requires ready { IsReady (setting_in scene.now) [] (reverse place.now.vars) }
    requires table { IsSignature scene.now.program.now signature.now }
    requires typed { HasTypeAt (origins_of scene.now) (spot_of place.now) term.now }
{
    let mut looks = LookCount::new();
    let mut count: u32 = 0;
    for _time in 0..times {
        let made = try_typed(alloc, rule, scene, signature, term, place, &mut looks)?;
        if made.is_none() {
            count = count.saturating_add(1);
        }
        drop(made);
    }
    Ok(count)
}

// The same of a term, and 0 where it has no type.
fn count_at(
    alloc: Global,
    rule: Rule,
    times: u32,
    scene: &Scene,
    signature: &Signature,
    term: &Term,
    place: &Place,
) -> Result<u32, NoMemory>
    requires other { rule ≡ Spec → ⊥ }
    requires order { HasNoCycle scene.now.program.now.datas }
    requires ready { IsReady (setting_in scene.now) [] (reverse place.now.vars) }
    requires table { IsSignature scene.now.program.now signature.now }
{
    if is_typed(alloc, scene, signature, term, place)? {
        count_typed(alloc, rule, times, scene, signature, term, place)
    } else {
        Ok(0)
    }
}

// The same without variables in scope.
fn count_closed(
    alloc: Global,
    rule: Rule,
    times: u32,
    scene: &Scene,
    signature: &Signature,
    term: &Term,
) -> Result<u32, NoMemory>
    requires other { rule ≡ Spec → ⊥ }
    requires order { HasNoCycle scene.now.program.now.datas }
    requires sound { IsSound (setting_in scene.now) }
    requires table { IsSignature scene.now.program.now signature.now }
{
    let place = Place {
        mode: Mode::V,
        result: true,
        vars: GapBuffer::of(alloc, Vec::new(alloc)),
    };
    let count = count_at(alloc, rule, times, scene, signature, term, &place);
    drop(place);
    count
}

// The same on a large term, by the signature of a scene's program.
fn count_by(
    alloc: Global,
    rule: Rule,
    times: u32,
    scene: &Scene,
    signature: &Signature,
) -> Result<u32, NoMemory>
    requires other { rule ≡ Spec → ⊥ }
    requires order { HasNoCycle scene.now.program.now.datas }
    requires sound { IsSound (setting_in scene.now) }
    requires table { IsSignature scene.now.program.now signature.now }
{
    let term = sums(alloc)?;
    let count = count_closed(alloc, rule, times, scene, signature, &term);
    drop(term);
    count
}

// The same in a scene.
fn count_in(alloc: Global, rule: Rule, times: u32, scene: &Scene) -> Result<u32, NoMemory>
    requires other { rule ≡ Spec → ⊥ }
    requires order { HasNoCycle scene.now.program.now.datas }
    requires sound { IsSound (setting_in scene.now) }
{
    let signature = Signature::of(alloc, scene.program)?;
    let count = count_by(alloc, rule, times, scene, &signature);
    drop(signature);
    count
}

// The same in the scene of a program.
fn count_of(alloc: Global, rule: Rule, times: u32, program: &Program) -> Result<u32, NoMemory>
    requires other { rule ≡ Spec → ⊥ }
    requires order { HasNoCycle program.now.datas }
    requires sound { IsSound (setting_of program.now) }
{
    let scene = Scene { program, made: &[] };
    let count = count_in(alloc, rule, times, &scene);
    let Scene {
        program: _,
        made: _,
    } = scene;
    count
}

/// Writes how often the rule of a name has no instance on a term of 10,000 nodes, of so
/// many times.
pub(crate) fn put_trials(alloc: Global, text: &str, out: &mut Vec<u8>) -> Result<(), Or<Unread>> {
    let Some((name, times)) = text.split_once(' ') else {
        return Err(Or::Fault(Unread));
    };
    let rule = rule_named(name)?;
    let Ok(times) = times.parse::<u32>() else {
        return Err(Or::Fault(Unread));
    };
    let program = program_of(alloc, DESCRIPTION)?;
    data_types_in_order();
    let count = count_of(alloc, rule, times, &program);
    drop(program);
    Ok(put_number(out, "", count?)?)
}
