//! The search in a state: its made definitions in turn.
ghost use Rattle.std.specs.Prelude.{◌≡◌, ◌≤◌, IfOk, Some, slice_get};
ghost use Rattle.rewriting.specs.Typed.{IsTypedScene};
ghost use Rattle.term_frames.specs.Signatures.{IsSignature};
ghost use Rattle.trials.specs.Trials.{built};
ghost use Rattle.active_parts.specs.Grounds.{IsGround};
ghost use Rattle.step_search.specs.FoundSteps.{FindsFrom, FindsNext, FindsIn, IsFoundIn};
ghost use Rattle.step_search.specs.Begins.{BeginsIn};
ghost use Rattle.step_search.specs.Seen.{LooksFrom};
ghost use Rattle.step_search.specs.SeenPaths.{LooksIn};

use crate::finder::Finder;
use crate::in_bodies::in_made;
use crate::place::Found;
use crate::trail::Trail;
use active_parts::{Ground, SpareTypes};
use chw_base::{MadeId, NoMemory, narrow};
use chw_terms::{Made, Scene};
use chw_typing::named_laws::data_types_in_order;
use made_table::Table;
use norm_lines::StepAt;
use rewriting::place_laws::place_of_scene_is_typed;
use rewriting::scene_laws::settings_of_scenes;
use std::alloc::Global;
use term_types::Signature;
use trials::{Rules, Trial};

// The step with the number of its made definition, and its path with the first number first.
fn found_in(number: usize, found: Option<Trail>) -> Result<Option<Found>, NoMemory>
    ensures { IfOk result (IsFoundIn number found) }
{
    match found {
        Some(trail) => {
            let made = MadeId {
                number: narrow(number)?,
            };
            let Trail {
                back: mut path,
                trial,
            } = trail;
            let Trial {
                rule,
                change,
                definition,
            } = trial;
            path.reverse();
            let at = StepAt { made, path, rule };
            Ok(Some(Found {
                at,
                change,
                definition,
            }))
        }
        None => Ok(None),
    }
}

// Where the search begins in the made definition of this number, where it begins at that place.
fn begin_in(number: usize, from: &Finder) -> &[u32]
    requires { from.now.made.number ≤ number }
    ensures { BeginsIn number from.now.made.number from.now.path.items result.now }
{
    if number == from.made.number as usize {
        from.path.as_slice()
    } else {
        &[]
    }
}

// The first step in the made definition of this number, where the search begins at that place.
fn in_number<R: Rules>(
    alloc: Global,
    table: &Table,
    ground: &Ground,
    number: usize,
    it: &Made,
    from: &Finder,
    spare: &mut SpareTypes,
    rules: &mut R,
) -> Result<Option<Found>, NoMemory>
    requires ground { IsGround ground.now }
    requires same { ground.now.scene.now.made.now ≡ table.now }
    requires typed { IsTypedScene ground.now.scene.now }
    requires is { slice_get ground.now.scene.now.made.now number ≡ Some it.now }
    requires later { from.now.made.number ≤ number }
    ensures first { IfOk result (FindsIn built ground.now.scene.now.program.now ground.now.scene.now.made.now number from.now.made.number from.now.path.items) }
    ensures looks { LooksIn built ground.now.scene.now.program.now ground.now.scene.now.made.now number from.now.made.number from.now.path.items (R.looks rules.old) (R.looks rules.new) }
{
    place_of_scene_is_typed();
    let path = begin_in(number, from);
    found_in(
        number,
        in_made(alloc, table, ground, it, path, spare, rules)?,
    )
}

/// The first step of a state from a place on, how it changes the term there, and the made definition that it adds, if it adds one. The
/// steps at the places above that one are among these, since they may come anew where the term at the place has changed. Nothing comes
/// exactly where there is none.
///
/// At each place at which it looks, each of the twenty-one rules is one look at most. It looks at active places of the state: at that
/// place, above it, and after it, up to the place of the step.
///
/// The scene is typed, its made definitions are those of the table, and the signature is that of its program. Types that an earlier search
/// put into scope are kept as spare ones; they spare copies, and change no answer.
/// Where a number would pass 32 bits, the answer is want of memory.
pub fn next_from<R: Rules>(
    alloc: Global,
    table: &Table,
    scene: &Scene,
    signature: &Signature,
    from: &Finder,
    spare: &mut SpareTypes,
    rules: &mut R,
) -> Result<Option<Found>, NoMemory>
    requires same { scene.now.made.now ≡ table.now }
    requires typed { IsTypedScene scene.now }
    requires table { IsSignature scene.now.program.now signature.now }
    ensures first { IfOk result (FindsFrom built scene.now.program.now scene.now.made.now from.now.made.number from.now.path.items) }
    ensures looks { LooksFrom built scene.now.program.now scene.now.made.now from.now.made.number from.now.path.items (R.looks rules.old) (R.looks rules.new) }
{
    settings_of_scenes();
    data_types_in_order();
    let ground = Ground { scene, signature };
    let made = scene.made;
    for number in from.made.number as usize..made.len() {
        let found = in_number(
            alloc,
            table,
            &ground,
            number,
            &made[number],
            from,
            spare,
            rules,
        )?;
        if found.is_some() {
            return Ok(found);
        }
    }
    Ok(None)
}

/// The first step of a state, how it changes the term at its place, and the made definition that it adds, if it adds one. Nothing comes
/// exactly where there is none.
///
/// The scene is typed, its made definitions are those of the table, and the signature is that of its program.
/// Where a number would pass 32 bits, the answer is want of memory.
pub fn next<R: Rules>(
    alloc: Global,
    table: &Table,
    scene: &Scene,
    signature: &Signature,
    rules: &mut R,
) -> Result<Option<Found>, NoMemory>
    requires same { scene.now.made.now ≡ table.now }
    requires typed { IsTypedScene scene.now }
    requires table { IsSignature scene.now.program.now signature.now }
    ensures { IfOk result (FindsNext built scene.now.program.now scene.now.made.now) }
{
    let from = Finder::open(alloc);
    let mut spare = SpareTypes::new(alloc);
    next_from(alloc, table, scene, signature, &from, &mut spare, rules)
}
