//! How far a run has come, and one step more.
ghost use Rattle.std.specs.Prelude.{◌≡◌, length, IfOk, IfSome};
ghost use Rattle.chw_terms.specs.TermTree.{TermTree};
ghost use Rattle.chw_terms.specs.Tidy.{IsTidy};
ghost use Rattle.chw_typing.specs.Programs.{IsTyped};
ghost use Rattle.rewriting.specs.Runs.{IsOpening};
ghost use Rattle.made_table.specs.Held.{HoldsNone};
ghost use Rattle.trials.specs.Trials.{built};
ghost use Rattle.step_search.specs.Finding.{Moves, Suits};
ghost use Rattle.step_search.specs.FoundSteps.{FindsNext, IsNext};
ghost use Rattle.step_search.specs.Seen.{LooksFrom};
ghost use Rattle.chw_norm.specs.Underway.{IsBetweenSteps, StepEnds, GrowEnds, HasSpine, IsFlatThere, IsMadeThere, IsPutAt};

use crate::bodies::{bound_with, depths, exact_over_limit};
use crate::running::RunFault;
use active_parts::SpareTypes;
use chw_base::limits::MADE_DEPTH;
use chw_base::{NoMemory, Or, VarIx};
use chw_terms::{Made, Program, Scene, Term, depth};
use chw_typing::part_laws::{spines_are_parts, spines_below_spines, spines_of_parts};
use made_states::laws::states_stay_typed;
use made_table::Table;
use moved_in_place::join;
use moved_in_place::laws::{joined_is_no_deeper, swapped_back, with_part_no_deeper};
use norm_lines::StepAt;
use opening::laws::opening_is_typed;
use std::alloc::Global;
use step_search::{Finder, Found};
use term_types::Signature;
use trials::{Change, Rules};

/// What a run holds between two steps.
#[derive(Drop)]
pub(crate) struct Progress<'p> {
    pub program: &'p Program,
    pub signature: Signature<'p>,
    /// The made definitions.
    pub made: Table,
    /// For each of them a number that is at least the depth of its body, if it is within the limit.
    pub bounds: Vec<usize>,
}

impl<'p> Progress<'p> {
    /// The state with which the program opens.
    pub(crate) fn begin(alloc: Global, program: &'p Program) -> Result<Progress<'p>, NoMemory>
        requires tidy { IsTidy program.now }
        requires typed { IsTyped program.now }
        ensures program { IfOk result (λ r. r.program.now ≡ program.now) }
        ensures opens { IfOk result (λ r. IsOpening program.now r.made) }
        ensures between { IfOk result IsBetweenSteps }
    {
        opening_is_typed();
        let signature = Signature::of(alloc, program)?;
        let made = Table::open(alloc, program)?;
        let bounds = depths(alloc, made.list())?;
        Ok(Progress {
            program,
            signature,
            made,
            bounds,
        })
    }

    /// The first step that there is, by a search that suits the state.
    pub(crate) fn next<R: Rules>(
        &self,
        alloc: Global,
        finder: &mut Finder,
        spare: &mut SpareTypes,
        rules: &mut R,
    ) -> Result<Option<Found>, NoMemory>
        requires between { IsBetweenSteps self.now }
        requires suits { Suits self.now.program.now self.now.made finder.old }
        ensures first { IfOk result (FindsNext built self.now.program.now self.now.made) }
        ensures moves { Moves result finder.old finder.new }
        ensures looks { LooksFrom built self.now.program.now self.now.made finder.old.made.number finder.old.path.items (R.looks rules.old) (R.looks rules.new) }
    {
        let scene = Scene {
            program: self.program,
            made: self.made.list(),
        };
        let found = finder.next(alloc, &self.made, &scene, &self.signature, spare, rules);
        let Scene {
            program: _,
            made: _,
        } = scene;
        found
    }

    /// Makes the first step, and appends its place to the trace. Where there is no room for what it adds, nothing is appended.
    pub(crate) fn advance(
        &mut self,
        alloc: Global,
        found: Found,
        trace: &mut Vec<StepAt>,
    ) -> Result<(), Or<RunFault>>
        requires between { IsBetweenSteps self.old }
        requires next { IsNext built self.old.program.now self.old.made found }
        ensures { StepEnds found trace.old.items trace.new.items self.old self.new result }
    {
        spines_are_parts();
        spines_of_parts();
        spines_below_spines();
        states_stay_typed();
        let Found {
            at,
            change,
            definition,
        } = found;
        let added = self.grow(alloc, definition)?;
        let bound = self.make_change(alloc, &at, change)?;
        trace.push(at)?;
        let most = bound.max(added);
        if most <= MADE_DEPTH as usize {
            Ok(())
        } else {
            Err(Or::Fault(RunFault::Depth))
        }
    }

    // Adds a made definition, where there is one, and gives the depth of its body.
    fn grow(&mut self, alloc: Global, definition: Option<Made>) -> Result<usize, Or<RunFault>>
        requires fresh { IfSome definition (λ it. HoldsNone self.old.made it.origin) }
        ensures { GrowEnds definition self.old self.new result }
    {
        let Some(it) = definition else {
            return Ok(0);
        };
        let deep = depth(&it.body) as usize;
        self.bounds.push(deep)?;
        match self.made.add(alloc, it) {
            Ok(()) => Ok(deep),
            Err(Or::Fault(_)) => Err(Or::Fault(RunFault::Full)),
            Err(Or::Memory) => Err(Or::Memory),
        }
    }

    // Changes the term at the place of a step, and gives a bound of the body there.
    fn make_change(&mut self, alloc: Global, at: &StepAt, change: Change) -> Result<usize, NoMemory>
        requires spine { HasSpine self.old.made at.now }
        requires one_each { length self.old.bounds.items ≡ length self.old.made }
        ensures { IfOk result (λ bound. (new : TermTree) → IsMadeThere self.old.made at.now change new → IsPutAt at.now new self.old self.new bound) }
    {
        match change {
            Change::Put(new) => Ok(self.put(at, new)),
            Change::Join => self.join_there(alloc, at),
        }
    }

    // Joins letrecs at the place of a step, and gives a bound of the body there.
    fn join_there(&mut self, alloc: Global, at: &StepAt) -> Result<usize, NoMemory>
        requires spine { HasSpine self.old.made at.now }
        requires one_each { length self.old.bounds.items ≡ length self.old.made }
        ensures { IfOk result (λ bound. (new : TermTree) → IsFlatThere self.old.made at.now new → IsPutAt at.now new self.old self.new bound) }
    {
        let mut stand_in = Term::var(alloc, VarIx { number: 0 });
        let bound = self.join_apart(alloc, at, &mut stand_in);
        drop(stand_in);
        bound
    }

    // The same, with a term that stands there meanwhile. Nothing is copied: the letrec is taken out of the body and put back.
    fn join_apart(&mut self, alloc: Global, at: &StepAt, part: &mut Term) -> Result<usize, NoMemory>
        requires spine { HasSpine self.old.made at.now }
        requires one_each { length self.old.bounds.items ≡ length self.old.made }
        ensures { IfOk result (λ bound. (new : TermTree) → IsFlatThere self.old.made at.now new → IsPutAt at.now new self.old self.new bound) }
    {
        joined_is_no_deeper();
        with_part_no_deeper();
        swapped_back();
        let number = at.made.number as usize;
        let path = at.path.as_slice();
        self.made.swap_part(at.made, path, part);
        join(alloc, part)?;
        self.made.swap_part(at.made, path, part);
        let bound = exact_over_limit(self.bounds[number], &self.made.list()[number].body);
        self.bounds[number] = bound;
        Ok(bound)
    }

    // Puts a term at the place of a step, and gives a bound of the body there.
    fn put(&mut self, at: &StepAt, new: Term) -> usize
        requires spine { HasSpine self.old.made at.now }
        requires one_each { length self.old.bounds.items ≡ length self.old.made }
        ensures { IsPutAt at.now new self.old self.new result }
    {
        let number = at.made.number as usize;
        let bound = bound_with(self.bounds[number], at.path.as_slice(), &new);
        self.made.set_part(at.made, at.path.as_slice(), new);
        let bound = exact_over_limit(bound, &self.made.list()[number].body);
        self.bounds[number] = bound;
        bound
    }
}
