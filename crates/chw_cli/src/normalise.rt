//! The command `normalise`: the steps by which a description is rewritten, and the definitions that
//! they make.
ghost use Rattle.std.specs.Prelude.{List, Ok, IfOk, IfErr, OnOk};
ghost use Rattle.chw_cli.specs.Answer.{NormaliseAnswer};
ghost use Rattle.chw_cli.specs.Descriptions.{HasProgram};
ghost use Rattle.chw_base.specs.Outcome.{IfFault};
ghost use Rattle.chw_cli.specs.Refusals.{IsRefusalOf, RefusesLast, RefusesNormalise};
ghost use Rattle.chw_norm.specs.Rules.{built};
ghost use Rattle.chw_norm.specs.Running.{ShallowRun};
ghost use Rattle.chw_terms.specs.Tidy.{IsTidy};
ghost use Rattle.chw_typing.specs.Programs.{IsTyped};
ghost use Rattle.judge.specs.States.{IsFinished, RefusesState};
ghost use Rattle.normal_form.specs.Entries.{IsEntry};
ghost use Rattle.rewriting.specs.Runs.{Step};
ghost use Rattle.rewriting.specs.Steps.{HasNoStep};
ghost use Rattle.rewriting.specs.Typed.{IsTypedScene};

use crate::describe::Description;
use crate::refusal::Refusal;
use chw_base::{Name, Or};
use chw_norm::laws::last_states_are_typed;
use chw_norm::run;
use chw_terms::{Made, Program, Scene};
use judge::{StateFault, judge_state, state_line};
use net_means::net_fits::laws::runs_begin_with_top;
use norm_lines::put_lines;
use rules::AllRules;
use std::alloc::Global;

/// The lines of the run of a description's program by so many steps at most, or why there are none.
pub(crate) fn normalised(
    alloc: Global,
    description: &Description,
    budget: u32,
) -> Result<Vec<u8>, Refusal>
    requires { HasProgram description.now.tree description.now.checked }
    ensures normalised { IfOk result (λ bytes. NormaliseAnswer description.now.tree budget (Ok bytes.items)) }
    ensures refused { IfErr result (RefusesNormalise description.now.tree budget) }
{
    let mut trace = Vec::new(alloc);
    let mut rules = AllRules::new();
    let program = description.checked.program();
    let made = run(alloc, program, budget, &mut trace, &mut rules)?;
    check_last(alloc, program, made.list())?;
    let mut bytes = Vec::new(alloc);
    put_lines(&mut bytes, trace.as_slice(), made.list())?;
    Ok(bytes)
}

// Checks that the last state of a run is a normal one of which no made definition uses itself.
#[tactic(auto, using(crate::proofs::Normal::refusal_refuses))]
fn check_last(alloc: Global, program: &Program, made: &[Made]) -> Result<(), Refusal>
    requires tidy { IsTidy program.now }
    requires typed { IsTyped program.now }
    requires run { (steps : List Step) × ShallowRun built program.now steps made.now }
    requires ended { HasNoStep built program.now made.now }
    ensures finished { OnOk result (IsFinished program.now made.now) }
    ensures refused { IfErr result (RefusesLast program.now made.now) }
{
    last_states_are_typed();
    runs_begin_with_top();
    let scene = Scene { program, made };
    let outcome = judged(alloc, &scene);
    let Scene {
        program: _,
        made: _,
    } = scene;
    match outcome {
        Ok(()) => Ok(()),
        Err(Or::Memory) => Err(Refusal::Memory),
        Err(Or::Fault(fault)) => Err(refusal_of_state(alloc, program, &fault)),
    }
}

// Judges the last state of a run, and keeps no more of it than why it is refused.
fn judged(alloc: Global, scene: &Scene) -> Result<(), Or<StateFault>>
    requires typed { IsTypedScene scene.now }
    requires entry { IsEntry scene.now.program.now scene.now.made.now }
    requires ended { HasNoStep built scene.now.program.now scene.now.made.now }
    ensures finished { OnOk result (IsFinished scene.now.program.now scene.now.made.now) }
    ensures fault { IfFault result (RefusesState scene.now.program.now scene.now.made.now) }
{
    match judge_state(alloc, scene) {
        Ok(_) => Ok(()),
        Err(fault) => Err(fault),
    }
}

/// A refused state as a refusal with its line.
pub(crate) fn refusal_of_state(alloc: Global, program: &Program, fault: &StateFault) -> Refusal
    ensures { IsRefusalOf program.now fault.now result }
{
    match state_line(alloc, program, fault) {
        Ok(line) => Refusal::State(Name::from(line)),
        Err(_) => Refusal::Memory,
    }
}
