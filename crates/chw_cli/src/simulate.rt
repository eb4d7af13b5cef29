//! The command `simulate`: a description, stepped by a stimulus.
ghost use Rattle.std.specs.Prelude.{ℕ, List, Ok, IfOk, IfErr};
ghost use Rattle.std.specs.Str.{IsUtf8};
ghost use Rattle.chw_base.specs.declared.limits.TheConstants.{STIMULUS_BYTES};
ghost use Rattle.chw_base.specs.declared.shelf.Fetched.TheVariants.{Whole};
ghost use Rattle.chw_cli.specs.Fetching.{RefusesFile};
ghost use Rattle.chw_cli.specs.Reads.{Gets, stimulus_in};
ghost use Rattle.chw_cli.specs.Refusals.{RefusesSimulation};
ghost use Rattle.chw_terms.specs.Tidy.{IsTidy};
ghost use Rattle.answers.specs.Compilation.Compiling.{IsCompiled};
ghost use Rattle.answers.specs.SimAnswer.Simulation.{IsSimulation};

use crate::fetch::stimulus_text;
use crate::refusal::Refusal;
use answers::compiled::Compiled;
use answers::sim_answer::lines_of;
use chw_base::{Name, Shelf};
use chw_terms::Program;
use chw_words::SimForm;
use std::alloc::Global;

/// The lines or the waves of what a program means at the events of the stimulus in a file, or why
/// there are none.
pub(crate) fn simulated<F: Shelf>(
    alloc: Global,
    program: &Program,
    made: &Compiled,
    file: &Name,
    form: SimForm,
    shelf: &mut F,
) -> Result<Vec<u8>, Refusal>
    requires file { IsUtf8 file.now }
    requires tidy { IsTidy program.now }
    requires compiled { (budget : ℕ) × IsCompiled program.now budget made.now }
    ensures lines { IfOk result (λ lines. (text : List ℕ)
        × Gets F.fetch_gives F.told F.faults file.now STIMULUS_BYTES (Ok Whole) text shelf.old shelf.new
        × IsSimulation program.now form text lines.items) }
    ensures refused { IfErr result (RefusesFile F.fetch_gives F.told F.faults (stimulus_in file.now)
        (RefusesSimulation program.now) shelf.old shelf.new) }
{
    let text = stimulus_text(alloc, file, shelf)?;
    Ok(lines_of(
        alloc,
        program,
        &made.flat,
        &made.order,
        text.as_slice(),
        form,
    )?)
}
