//! A program, compiled.
ghost use Rattle.std.specs.Prelude.{◌≡◌, ℕ, IfOk};
ghost use Rattle.chw_base.specs.Outcome.{IfFault};
ghost use Rattle.chw_terms.specs.Tidy.{IsTidy};
ghost use Rattle.chw_typing.specs.Programs.{IsTyped};
ghost use Rattle.judge.specs.States.{IsFinished, RefusesState};
ghost use Rattle.net_built.specs.Built.{Built};
ghost use Rattle.netlist.specs.Sound.{Sound};
ghost use Rattle.net_flat.specs.Flattened.{IsFlatOf};
ghost use Rattle.net_rules.specs.WellFormed.{WellFormed};
ghost use Rattle.answers.specs.Compilation.Compiling.{EndsIn, HasCounts, HasFewWires, HasNet, IsCircuitOf, IsCompileFault, IsCompiled, IsNetFault};

use crate::compiled::fault::CompileFault;
use crate::compiled::states::last_state;
use chw_base::{NoMemory, Or};
use chw_norm::laws::last_states_are_typed;
use chw_terms::{Made, Program, Scene};
use judge::{StateFault, judge_state};
use net_build::build;
use net_flat::TooLarge;
use net_flat::flatten::flatten;
use net_means::laws::built_nets_mean;
use net_means::net_fits::laws::runs_begin_with_top;
use netlist::laws::an_order_excludes_loops;
use netlist::ordering::order;
use netlist::{Flat, Loop, Net, Order};
use normal_form::Normal;
use std::alloc::Global;

/// A net, its flat net, and an order of the flat net's cells, with the counts of the run by which the net is found.
#[derive(Debug, Drop)]
pub struct Compiled {
    pub net: Net,
    pub flat: Flat,
    pub order: Order,
    /// How many steps the run has.
    pub steps: u32,
    /// How many made definitions there are in the state in which it ends.
    pub definitions: u32,
}

// A net, with the counts of the run by which it is found.
#[derive(Drop)]
struct Counted {
    net: Net,
    steps: u32,
    definitions: u32,
}

// The state in which a run ends as a normal one of which no made definition uses itself.
fn normal_of<'a>(
    alloc: Global,
    program: &'a Program,
    made: &'a [Made],
) -> Result<Normal<'a>, Or<StateFault>>
    requires tidy { IsTidy program.now }
    requires typed { IsTyped program.now }
    requires state { (budget : ℕ) × EndsIn program.now budget made.now }
    ensures state { IfOk result (λ n. n ≡ record { program = program.now; made = made.now }) }
    ensures finished { IfOk result (λ _. IsFinished program.now made.now) }
    ensures fault { IfFault result (RefusesState program.now made.now) }
{
    last_states_are_typed();
    runs_begin_with_top();
    let scene = Scene { program, made };
    let outcome = judge_state(alloc, &scene);
    let Scene {
        program: _,
        made: _,
    } = scene;
    outcome
}

// The net of the state in which a run ends.
fn net_of_state(alloc: Global, program: &Program, made: &[Made]) -> Result<Net, Or<StateFault>>
    requires tidy { IsTidy program.now }
    requires typed { IsTyped program.now }
    requires state { (budget : ℕ) × EndsIn program.now budget made.now }
    ensures finished { IfOk result (λ _. IsFinished program.now made.now) }
    ensures net { IfOk result (Built program.now made.now) }
    ensures well_formed { IfOk result (λ net. WellFormed net) }
    ensures fault { IfFault result (RefusesState program.now made.now) }
{
    let normal = normal_of(alloc, program, made)?;
    Ok(build(alloc, &normal)?)
}

// The net of a program.
fn net_of(alloc: Global, program: &Program, budget: u32) -> Result<Counted, Or<CompileFault>>
    requires tidy { IsTidy program.now }
    requires typed { IsTyped program.now }
    ensures net { IfOk result (λ it. HasNet program.now budget it.net) }
    ensures well_formed { IfOk result (λ it. WellFormed it.net) }
    ensures counts { IfOk result (λ it. HasCounts program.now budget it.steps it.definitions) }
    ensures fault { IfFault result (IsCompileFault program.now budget) }
{
    let last = last_state(alloc, program, budget)?;
    let steps = last.steps;
    let definitions = last.made.len();
    match net_of_state(alloc, program, last.made.list()) {
        Ok(net) => Ok(Counted {
            net,
            steps,
            definitions,
        }),
        Err(Or::Fault(fault)) => Err(Or::Fault(CompileFault::State(fault))),
        Err(Or::Memory) => Err(Or::Memory),
    }
}

// The flat net of a net, where it has no more wires than the limit.
fn flat_of(alloc: Global, net: &Net) -> Result<Flat, Or<CompileFault>>
    requires { WellFormed net.now }
    ensures flat { IfOk result (IsFlatOf net.now) }
    ensures few { IfOk result (λ flat. HasFewWires flat) }
    ensures sound { IfOk result (λ flat. Sound flat) }
    ensures fault { IfFault result (IsNetFault net.now) }
{
    match flatten(alloc, net) {
        Ok(flat) => Ok(flat),
        Err(Or::Fault(TooLarge)) => Err(Or::Fault(CompileFault::TooLarge)),
        Err(Or::Memory) => Err(Or::Memory),
    }
}

// The circuit of a net.
fn circuit_of(alloc: Global, it: Counted) -> Result<Compiled, Or<CompileFault>>
    requires { WellFormed it.net }
    ensures circuit { IfOk result (IsCircuitOf it.net) }
    ensures steps { IfOk result (λ made. made.steps ≡ it.steps) }
    ensures definitions { IfOk result (λ made. made.definitions ≡ it.definitions) }
    ensures fault { IfFault result (IsNetFault it.net) }
{
    an_order_excludes_loops();
    let Counted {
        net,
        steps,
        definitions,
    } = it;
    let flat = flat_of(alloc, &net)?;
    match order(alloc, &flat) {
        Ok(order) => Ok(Compiled {
            net,
            flat,
            order,
            steps,
            definitions,
        }),
        Err(Or::Fault(Loop { cycle })) => Err(Or::Fault(CompileFault::Loop(cycle))),
        Err(Or::Memory) => Err(Or::Memory),
    }
}

/// A program, compiled by so many steps of rewriting at most.
///
/// A program that isn't is refused for its run, then for the state in which that ends, then for the size of its net, then for a loop.
pub fn compile(alloc: Global, program: &Program, budget: u32) -> Result<Compiled, Or<CompileFault>>
    requires tidy { IsTidy program.now }
    requires typed { IsTyped program.now }
    ensures compiled { IfOk result (IsCompiled program.now budget) }
    ensures fault { IfFault result (IsCompileFault program.now budget) }
{
    last_states_are_typed();
    built_nets_mean();
    let counted = net_of(alloc, program, budget)?;
    circuit_of(alloc, counted)
}
