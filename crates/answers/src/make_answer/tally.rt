//! What is counted and summed up of a program.
ghost use Rattle.std.specs.Prelude.{◌≡◌, ℕ, IfOk};
ghost use Rattle.chw_base.specs.Outcome.{IfFault};
ghost use Rattle.chw_terms.specs.Tidy.{IsTidy};
ghost use Rattle.answers.specs.Compilation.Compiling.{IsCompiled};
ghost use Rattle.answers.specs.MakeAnswer.Tally.{IsSummed, IsTally, registers_of};
ghost use Rattle.net_means.specs.Outputs.{NetMeans};
ghost use Rattle.netlist.specs.Orders.{IsOrder};
ghost use Rattle.netlist.specs.Sound.{Sound};
ghost use Rattle.answers.specs.SimAnswer.Simulation.{IsSimFault};

use crate::compiled::Compiled;
use crate::make_answer::sums::sum_of;
use crate::sim_answer::laws::outputs_are_meant;
use crate::sim_answer::{SimFault, events_of};
use chw_base::Or;
use chw_terms::Program;
use netlist::{Cell, Flat, Order};
use std::alloc::Global;

/// What `make` answers.
#[derive(Clone, Copy, Debug)]
pub struct Tally {
    /// The made definitions of the state in which the run of rewriting ends.
    pub definitions: u32,
    /// The steps of this run.
    pub rewrites: u32,
    /// The cells of the flat net.
    pub cells: u64,
    /// Those of them that are registers.
    pub registers: u64,
    /// The sum of the numbers of the first output at the events of odd number, counted from 0, modulo 2 to the 64.
    pub sum: u64,
}

// How many cells of a flat net are registers.
fn registers_of(flat: &Flat) -> u64
    ensures { result ≡ registers_of flat.now }
{
    flat.cells
        .as_slice()
        .iter()
        .filter(|cell| matches!(cell, Cell::Reg(_, _, _, _)))
        .count() as u64
}

// The sum of what a program means at the events of a stimulus, as its flat net has it.
fn summed(
    alloc: Global,
    program: &Program,
    flat: &Flat,
    order: &Order,
    text: &[u8],
) -> Result<u64, Or<SimFault>>
    requires tidy { IsTidy program.now }
    requires sound { Sound flat.now }
    requires order { IsOrder flat.now order.now.cells }
    requires means { NetMeans program.now flat.now }
    ensures sum { IfOk result (IsSummed program.now text.now) }
    ensures fault { IfFault result (IsSimFault program.now text.now) }
{
    outputs_are_meant();
    let events = events_of(alloc, program, &flat.ports, text)?;
    Ok(sum_of(alloc, flat, order, events.as_slice())?)
}

/// What is counted and summed up of a program that is compiled, with the events of a stimulus.
///
/// A text is refused as it is where the program is simulated.
pub fn tally_of(
    alloc: Global,
    program: &Program,
    compiled: &Compiled,
    text: &[u8],
) -> Result<Tally, Or<SimFault>>
    requires tidy { IsTidy program.now }
    requires compiled { (budget : ℕ) × IsCompiled program.now budget compiled.now }
    ensures tally { (budget : ℕ) → IsCompiled program.now budget compiled.now →
        IfOk result (IsTally program.now budget text.now) }
    ensures fault { IfFault result (IsSimFault program.now text.now) }
{
    let flat = &compiled.flat;
    let sum = summed(alloc, program, flat, &compiled.order, text)?;
    Ok(Tally {
        definitions: compiled.definitions,
        rewrites: compiled.steps,
        cells: flat.cells.len() as u64,
        registers: registers_of(flat),
        sum,
    })
}
