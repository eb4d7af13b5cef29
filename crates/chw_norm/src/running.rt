//! A run: step by step, until no step is left or the run is refused.
ghost use Rattle.chw_terms.specs.Tidy.{IsTidy};
ghost use Rattle.chw_typing.specs.Programs.{IsTyped};
ghost use Rattle.trials.specs.Trials.{built};
ghost use Rattle.chw_norm.specs.Running.{Runs};
ghost use Rattle.chw_norm.specs.Searches.{RunLooks};

use crate::going_on::go_on;
use crate::progress::Progress;
use active_parts::SpareTypes;
use chw_base::Or;
use chw_terms::Program;
use made_states::laws::{any_step_stays_behind, states_stay_typed};
use made_table::Table;
use norm_lines::StepAt;
use std::alloc::Global;
use step_search::Finder;
use step_search::laws::search_suits_next_state;
use trials::Rules;

/// Why a run has no last state.
#[derive(Clone, Copy, Debug, PartialEq, Eq)]
pub enum RunFault {
    /// A step led to a body that is deeper than the limit.
    Depth,
    /// A step adds a made definition, and as many are held as may be.
    Full,
    /// So many steps, which is the budget, were made, and a step is left.
    Spent { steps: u32 },
}

/// Rewrites a program from the state with which it opens, always by the first step, until no step is left: its made definitions are then
/// answered. The steps that were made are appended to the trace, also where the run is refused or memory is wanting.
///
/// `Spent` comes exactly where a step is left after as many as the budget allows. `Full` comes exactly where a step within the budget
/// adds a made definition and `MADE_DEFINITIONS` are held; that step isn't in the trace. `Depth` comes exactly where a step leads to a
/// body that is deeper than `MADE_DEPTH`, the body of what it adds among them.
/// Each search begins at the place of the step before, the first one at the root of the first made definition. At each place at which it
/// looks, each of the twenty-one rules is one look at most.
/// Where a number would pass 32 bits, the answer is want of memory.
pub fn run<R: Rules>(
    alloc: Global,
    program: &Program,
    budget: u32,
    trace: &mut Vec<StepAt>,
    rules: &mut R,
) -> Result<Table, Or<RunFault>>
    requires tidy { IsTidy program.now }
    requires typed { IsTyped program.now }
    ensures runs { Runs built program.now budget trace.old.items trace.new.items result }
    ensures looks { RunLooks built program.now trace.old.items trace.new.items (R.looks rules.old) (R.looks rules.new) }
{
    search_suits_next_state();
    any_step_stays_behind();
    states_stay_typed();
    let mut run = Progress::begin(alloc, program)?;
    let mut finder = Finder::open(alloc);
    let mut spare = SpareTypes::new(alloc);
    let mut left = budget;
    while left > 0 {
        let Some(found) = run.next(alloc, &mut finder, &mut spare, rules)? else {
            return Ok(run.made);
        };
        run.advance(alloc, found, trace)?;
        left = go_on(alloc, &mut run, &mut finder, left - 1, trace, rules)?;
    }
    match run.next(alloc, &mut finder, &mut spare, rules)? {
        None => Ok(run.made),
        Some(_) => Err(Or::Fault(RunFault::Spent { steps: budget })),
    }
}
