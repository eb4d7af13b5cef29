//! Many steps in one letrec.
ghost use Rattle.std.specs.Prelude.{◌≡◌, ◌≤◌, [], reverse, IfOk, OnOk};
ghost use Rattle.chw_types.specs.References.{HasNoCycle};
ghost use Rattle.chw_terms.specs.Depth.{depth};
ghost use Rattle.chw_terms.specs.TermTree.{TermTree};
ghost use Rattle.chw_typing.specs.Scopes.{setting_in};
ghost use Rattle.rewriting.specs.Origins.{origins_of};
ghost use Rattle.rewriting.specs.Spots.{spot_of, HasLets};
ghost use Rattle.rule_types.specs.Laws.{AreTypedOrigins};
ghost use Rattle.term_types.specs.Answers.{IsReady};
ghost use Rattle.term_frames.specs.Signatures.{IsSignature};
ghost use Rattle.trials.specs.Trials.{HasSomeType};
ghost use Rattle.letrec_steps.specs.Local.{IsTypedHere};
ghost use Rattle.open_letrec.specs.Opened.{whole};
ghost use Rattle.letrec_runs.specs.Runs.{Runs};
ghost use Rattle.letrec_runs.specs.Rush.{place_in, IsResting, IsRestingLet};
ghost use Rattle.letrec_runs.specs.Sides.{AreMade};

use crate::lets::{is_let, take_let};
use crate::rush::{Rush, advance, is_let_at_rest};
use crate::trace::{Top, trace_one};
use chw_base::{MadeId, NoMemory, VarIx};
use chw_terms::{Place, Rule, Scene, Term};
use flow_lets::joins;
use made_table::Table;
use moved_in_place::join;
use norm_lines::StepAt;
use open_letrec::OpenLetrec;
use rewriting::scene_laws::settings_of_scenes;
use std::alloc::Global;
use std::mem;
use term_types::Signature;
use trials::Rules;

// Steps in a letrec that is taken apart, as long as they may be made.
fn run_on<R: Rules>(
    alloc: Global,
    top: Top<'_>,
    table: &Table,
    scene: &Scene,
    signature: &Signature,
    place: &Place,
    left: u32,
    most: u32,
    rush: Rush,
    trace: &mut Vec<StepAt>,
    rules: &mut R,
) -> Result<OpenLetrec, NoMemory>
    requires same { scene.now.made.now ≡ table.now }
    requires order { HasNoCycle scene.now.program.now.datas }
    requires table { IsSignature scene.now.program.now signature.now }
    requires origins { AreTypedOrigins (origins_of scene.now) }
    requires lets { HasLets place.now.mode }
    requires rests { IsResting (origins_of scene.now) (spot_of place.now) most rush.apart }
    requires stands { rush.place ≡ place_in place.now rush.apart }
    ensures { (y : TermTree) × Runs (origins_of scene.now) (spot_of place.now) left most top.entry.made.number top.entry.path.now (whole rush.apart) y trace.old.items trace.new.items (R.looks rules.old) (R.looks rules.new) 1 × IfOk result (λ o. whole o ≡ y) }
{
    let mut rush = rush;
    for _ in 0..left / 2 {
        let (next, goes_on) = advance(
            alloc, top, table, scene, signature, place, most, rush, trace, rules,
        )?;
        rush = next;
        if !goes_on {
            return Ok(rush.apart);
        }
    }
    Ok(rush.apart)
}

// The same of a letrec at rest, which is taken apart and put together.
fn run_taken<R: Rules>(
    alloc: Global,
    top: Top<'_>,
    table: &Table,
    scene: &Scene,
    signature: &Signature,
    place: &Place,
    left: u32,
    most: u32,
    term: Term,
    trace: &mut Vec<StepAt>,
    rules: &mut R,
) -> Result<Term, NoMemory>
    requires same { scene.now.made.now ≡ table.now }
    requires order { HasNoCycle scene.now.program.now.datas }
    requires table { IsSignature scene.now.program.now signature.now }
    requires origins { AreTypedOrigins (origins_of scene.now) }
    requires lets { HasLets place.now.mode }
    requires typed { IsTypedHere (origins_of scene.now) (spot_of place.now) term }
    requires shallow { depth term ≤ most }
    requires rests { IsRestingLet scene.now.program.now.datas place.now.mode term }
    ensures { (y : TermTree) × Runs (origins_of scene.now) (spot_of place.now) left most top.entry.made.number top.entry.path.now term y trace.old.items trace.new.items (R.looks rules.old) (R.looks rules.new) 1 × IfOk result (λ t. t ≡ y) }
{
    let (group, body) = take_let(term);
    let rush = Rush::begin(alloc, place, group, body)?;
    let apart = run_on(
        alloc, top, table, scene, signature, place, left, most, rush, trace, rules,
    )?;
    let (group, body) = apart.close()?;
    Term::letrec(alloc, group, body)
}

// The same of any term: of another one nothing is made.
fn run_in<R: Rules>(
    alloc: Global,
    top: Top<'_>,
    table: &Table,
    scene: &Scene,
    signature: &Signature,
    term: &mut Term,
    place: &Place,
    left: u32,
    most: u32,
    trace: &mut Vec<StepAt>,
    rules: &mut R,
) -> Result<(), NoMemory>
    requires same { scene.now.made.now ≡ table.now }
    requires order { HasNoCycle scene.now.program.now.datas }
    requires table { IsSignature scene.now.program.now signature.now }
    requires origins { AreTypedOrigins (origins_of scene.now) }
    requires lets { HasLets place.now.mode }
    requires typed { IsTypedHere (origins_of scene.now) (spot_of place.now) term.old }
    requires shallow { depth term.old ≤ most }
    ensures { (y : TermTree) × Runs (origins_of scene.now) (spot_of place.now) left most top.entry.made.number top.entry.path.now term.old y trace.old.items trace.new.items (R.looks rules.old) (R.looks rules.new) 1 × OnOk result (term.new ≡ y) }
{
    if !is_let_at_rest(alloc, scene.program.datas.as_slice(), place.mode, term)? {
        return Ok(());
    }
    let apart = mem::replace(term, Term::var(alloc, VarIx { number: 0 }));
    let new = run_taken(
        alloc, top, table, scene, signature, place, left, most, apart, trace, rules,
    )?;
    let stood = mem::replace(term, new);
    drop(stood);
    Ok(())
}

/// Makes many steps in one letrec, each the first one at the letrec or below it. It stands at this path of this made definition. While it
/// is apart, none looks at more than a right side. The first of them is that by which a letrec joins. Where none joins, nothing is done;
/// so of a term that is no letrec, or one with arguments. The steps that were made are appended to the trace, also where memory is wanting.
///
/// Not more steps than are left are made, none leads to a term that is deeper than the limit, and none makes a definition. There are
/// twenty-one looks at most for each step.
///
/// The steps end, though there may be more, where a rule acts on the letrec itself other than by joining what a step made, where what is
/// first stands below a right side or in the body, and where a right side loses a variable.
///
/// The scene's made definitions are those of the table, its origins are typed, no data type leads back to itself, and the signature is
/// that of the scene's program. The term has a type at the place, which is that of a value or a circuit, and is not deeper than the limit.
/// Where a number would pass 32 bits, the answer is want of memory. Where memory is wanting, any term may stand there.
pub fn run_sides<R: Rules>(
    alloc: Global,
    table: &Table,
    scene: &Scene,
    signature: &Signature,
    term: &mut Term,
    place: &Place,
    made: MadeId,
    path: &[u32],
    left: u32,
    most: u32,
    trace: &mut Vec<StepAt>,
    rules: &mut R,
) -> Result<(), NoMemory>
    requires same { scene.now.made.now ≡ table.now }
    requires order { HasNoCycle scene.now.program.now.datas }
    requires ready { IsReady (setting_in scene.now) [] (reverse place.now.vars) }
    requires table { IsSignature scene.now.program.now signature.now }
    requires typed { HasSomeType (setting_in scene.now) (reverse place.now.vars) term.old }
    requires origins { AreTypedOrigins (origins_of scene.now) }
    requires lets { HasLets place.now.mode }
    requires shallow { depth term.old ≤ most }
    ensures { (y : TermTree) × AreMade (origins_of scene.now) (spot_of place.now) made.number path.now term.old y left most trace.old.items trace.new.items (R.looks rules.old) (R.looks rules.new) × OnOk result (term.new ≡ y) }
{
    settings_of_scenes();
    if left == 0 {
        return Ok(());
    }
    if !is_let(term) {
        return Ok(());
    }
    if !joins(term, place) {
        return Ok(());
    }
    let top = Top { made, path };
    trace_one(alloc, top, trace, None, Rule::Flat)?;
    join(alloc, term)?;
    run_in(
        alloc,
        top,
        table,
        scene,
        signature,
        term,
        place,
        left - 1,
        most,
        trace,
        rules,
    )
}
