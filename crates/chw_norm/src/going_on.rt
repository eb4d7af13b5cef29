//! Further steps in the letrec at which a run has come.
ghost use Rattle.std.specs.Prelude.{◌≡◌, ◌≤◌, ◌+◌, ◌++◌, List, length, map, IfOk, IfSome, OnOk};
ghost use Rattle.chw_base.specs.declared.limits.TheConstants.{MADE_DEPTH};
ghost use Rattle.norm_lines.specs.Places.{where_of};
ghost use Rattle.norm_lines.specs.declared.place.StepAt.{StepAt};
ghost use Rattle.step_search.specs.Finding.{Suits};
ghost use Rattle.chw_norm.specs.GoingOn.{EndsAt, GoOnEnds, IsAtTop, RunEnds};
ghost use Rattle.chw_norm.specs.Running.{IsWithinLimits};
ghost use Rattle.chw_norm.specs.Underway.{IsBetweenSteps};

use crate::bodies::exact_bound;
use crate::progress::Progress;
use crate::top::{Top, top_of};
use chw_base::limits::MADE_DEPTH;
use chw_base::{MadeId, NoMemory, VarIx};
use chw_terms::{Scene, Term};
use chw_typing::named_laws::data_types_in_order;
use chw_typing::part_laws::{spines_are_parts, spines_below_spines, spines_of_parts};
use letrec_runs::run_sides;
use letrec_steps::laws::{places_below_tops, searches_from_tops, tops_after_steps};
use made_states::laws::states_stay_typed;
use moved_in_place::laws::swapped_back;
use norm_lines::StepAt;
use rewriting::scene_laws::settings_of_scenes;
use rule_types::laws::steps_keep;
use std::alloc::Global;
use step_search::Finder;
use trials::Rules;

// A copy of the path to a step.
fn path_of(at: &StepAt) -> Result<Vec<u32>, NoMemory>
    ensures { IfOk result (λ path. path.items ≡ at.now.path.items) }
{
    Ok(at.path.clone()?)
}

// A search stands at the place of the last of the steps behind so many; where there is none, it stands where it stood.
fn stand_at_last(finder: &mut Finder, trace: &[StepAt], before: usize) -> Result<(), NoMemory>
    ensures { OnOk result ((old added : List StepAt) → trace.now ≡ old ++ added → length old ≡ before → EndsAt finder.old.made.number finder.old.path.items (map where_of added) finder.new.made.number finder.new.path.items) }
{
    if trace.len() <= before {
        return Ok(());
    }
    let at = &trace[trace.len() - 1];
    let path = path_of(at)?;
    finder.made = at.made;
    finder.path = path;
    Ok(())
}

// How deep a term at this path may be.
fn most_below(path: &[u32]) -> u32
    requires { length path.now ≤ MADE_DEPTH }
    ensures { length path.now + result ≡ MADE_DEPTH }
{
    (MADE_DEPTH as usize - path.len()) as u32
}

// How many steps may still be made after so many.
fn left_after(left: u32, made: usize) -> u32
    requires { made ≤ left }
    ensures { result + made ≡ left }
{
    left - made as u32
}

/// Makes further first steps where the search stands near the letrec below the leading lambdas of its made definition, as many as may
/// still be made, and appends them to the trace. So many may be made afterwards. The search stands then at the place of the last one.
pub(crate) fn go_on<R: Rules>(
    alloc: Global,
    run: &mut Progress,
    finder: &mut Finder,
    left: u32,
    trace: &mut Vec<StepAt>,
    rules: &mut R,
) -> Result<u32, NoMemory>
    requires between { IsBetweenSteps run.old }
    requires within { IsWithinLimits run.old.made }
    requires suits { Suits run.old.program.now run.old.made finder.old }
    ensures { GoOnEnds run.old run.new finder.old finder.new trace.old.items trace.new.items left (R.looks rules.old) (R.looks rules.new) result }
{
    let Some(top) = top_near(alloc, run, finder)? else {
        return Ok(left);
    };
    let before = trace.len();
    run_at(alloc, run, finder.made, &top, left, trace, rules)?;
    stand_at_last(finder, trace.as_slice(), before)?;
    Ok(left_after(left, trace.len() - before))
}

// The term below the leading lambdas of the made definition at which the search stands, if the search stands there or at a part of it, and
// a letrec joins it.
fn top_near(alloc: Global, run: &Progress, finder: &Finder) -> Result<Option<Top>, NoMemory>
    requires between { IsBetweenSteps run.now }
    requires suits { Suits run.now.program.now run.now.made finder.now }
    ensures { IfOk result (λ r. IfSome r (λ top. IsAtTop run.now finder.now.made.number top.path.items top.place)) }
{
    places_below_tops();
    searches_from_tops();
    steps_keep();
    let Some(it) = run.made.list().get(finder.made.number as usize) else {
        return Ok(None);
    };
    let Some(top) = top_of(alloc, it)? else {
        return Ok(None);
    };
    if finder.path.len() > top.path.len().saturating_add(1) {
        return Ok(None);
    }
    Ok(Some(top))
}

// Makes first steps in the letrec there.
fn run_at<R: Rules>(
    alloc: Global,
    run: &mut Progress,
    made: MadeId,
    top: &Top,
    left: u32,
    trace: &mut Vec<StepAt>,
    rules: &mut R,
) -> Result<(), NoMemory>
    requires between { IsBetweenSteps run.old }
    requires within { IsWithinLimits run.old.made }
    requires top { IsAtTop run.old made.number top.now.path.items top.now.place }
    ensures { RunEnds run.old run.new trace.old.items trace.new.items left (R.looks rules.old) (R.looks rules.new) result }
{
    let mut stand_in = Term::var(alloc, VarIx { number: 0 });
    let ran = run_apart(alloc, run, made, top, left, &mut stand_in, trace, rules);
    drop(stand_in);
    ran
}

// The same, with a term that stands there meanwhile. The letrec is taken out of the body and put back.
fn run_apart<R: Rules>(
    alloc: Global,
    run: &mut Progress,
    made: MadeId,
    top: &Top,
    left: u32,
    part: &mut Term,
    trace: &mut Vec<StepAt>,
    rules: &mut R,
) -> Result<(), NoMemory>
    requires between { IsBetweenSteps run.old }
    requires within { IsWithinLimits run.old.made }
    requires top { IsAtTop run.old made.number top.now.path.items top.now.place }
    ensures { RunEnds run.old run.new trace.old.items trace.new.items left (R.looks rules.old) (R.looks rules.new) result }
{
    data_types_in_order();
    places_below_tops();
    settings_of_scenes();
    spines_are_parts();
    spines_below_spines();
    spines_of_parts();
    states_stay_typed();
    steps_keep();
    swapped_back();
    tops_after_steps();
    let path = top.path.as_slice();
    run.made.swap_part(made, path, part);
    let scene = Scene {
        program: run.program,
        made: run.made.list(),
    };
    let most = most_below(path);
    let ran = run_sides(
        alloc,
        &run.made,
        &scene,
        &run.signature,
        part,
        &top.place,
        made,
        path,
        left,
        most,
        trace,
        rules,
    );
    let Scene {
        program: _,
        made: _,
    } = scene;
    ran?;
    run.made.swap_part(made, path, part);
    let number = made.number as usize;
    run.bounds[number] = exact_bound(&run.made.list()[number].body);
    Ok(())
}
