//! The state in which a run ends.
ghost use Rattle.std.specs.Prelude.{IfOk, OnOk};
ghost use Rattle.chw_base.specs.Outcome.{IfFault};
ghost use Rattle.chw_terms.specs.Tidy.{IsTidy};
ghost use Rattle.chw_typing.specs.Programs.{IsTyped};
ghost use Rattle.answers.specs.Compilation.Compiling.{HasSteps, IsCompileFault};

use crate::compiled::fault::CompileFault;
use chw_base::Or;
use chw_norm::run;
use chw_terms::Program;
use made_table::Table;
use rules::AllRules;
use std::alloc::Global;

/// The made definitions of the state in which a run ends, and how many steps it has.
#[derive(Drop)]
pub(crate) struct LastState {
    pub(crate) made: Table,
    pub(crate) steps: u32,
}

/// The state in which a run of so many steps at most ends.
pub(crate) fn last_state(
    alloc: Global,
    program: &Program,
    budget: u32,
) -> Result<LastState, Or<CompileFault>>
    requires tidy { IsTidy program.now }
    requires typed { IsTyped program.now }
    ensures state { IfOk result (λ last. HasSteps program.now budget last.steps last.made) }
    ensures fault { IfFault result (IsCompileFault program.now budget) }
{
    let mut trace = Vec::new(alloc);
    let mut rules = AllRules::new();
    match run(alloc, program, budget, &mut trace, &mut rules) {
        Ok(made) => Ok(LastState {
            made,
            steps: trace.len() as u32,
        }),
        Err(Or::Fault(fault)) => Err(Or::Fault(CompileFault::Run(fault))),
        Err(Or::Memory) => Err(Or::Memory),
    }
}
