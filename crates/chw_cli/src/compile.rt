//! The program of a description, compiled: what `emit` prints and `simulate` steps.
ghost use Rattle.std.specs.Prelude.{IfOk, IfErr};
ghost use Rattle.chw_cli.specs.Refusals.{IsCompileRefusal, RefusesCompile};
ghost use Rattle.chw_terms.specs.Tidy.{IsTidy};
ghost use Rattle.chw_typing.specs.Programs.{IsTyped};
ghost use Rattle.answers.specs.Compilation.Compiling.{IsCompiled};

use crate::normalise::refusal_of_state;
use crate::refusal::Refusal;
use answers::compiled::{CompileFault, Compiled, compile};
use chw_base::Or;
use chw_norm::RunFault;
use chw_terms::Program;
use std::alloc::Global;

/// A program, compiled by so many steps of rewriting at most, or why it can't be.
pub(crate) fn compiled_of(
    alloc: Global,
    program: &Program,
    budget: u32,
) -> Result<Compiled, Refusal>
    requires tidy { IsTidy program.now }
    requires typed { IsTyped program.now }
    ensures compiled { IfOk result (IsCompiled program.now budget) }
    ensures refused { IfErr result (RefusesCompile program.now budget) }
{
    match compile(alloc, program, budget) {
        Ok(made) => Ok(made),
        Err(Or::Fault(fault)) => Err(refusal_of_compile(alloc, program, fault)),
        Err(Or::Memory) => Err(Refusal::Memory),
    }
}

// The refusal of a program that can't be compiled.
fn refusal_of_compile(alloc: Global, program: &Program, fault: CompileFault) -> Refusal
    ensures { IsCompileRefusal program.now fault result }
{
    match fault {
        CompileFault::Run(RunFault::Depth) => Refusal::DeepBody,
        CompileFault::Run(RunFault::Full) => Refusal::FullTable,
        CompileFault::Run(RunFault::Spent { steps }) => Refusal::Spent(steps),
        CompileFault::State(fault) => refusal_of_state(alloc, program, &fault),
        CompileFault::TooLarge => Refusal::TooLarge,
        CompileFault::Loop(cycle) => Refusal::Loop(cycle),
    }
}
