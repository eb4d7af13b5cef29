//! The command `run`: the net of a Verilog text, stepped by a stimulus.
ghost use Rattle.std.specs.Prelude.{ℕ, List, Ok, IfOk, IfErr};
ghost use Rattle.std.specs.Str.{IsUtf8};
ghost use Rattle.chw_base.specs.declared.limits.TheConstants.{STIMULUS_BYTES, VERILOG_BYTES};
ghost use Rattle.chw_base.specs.declared.shelf.Fetched.TheVariants.{Whole};
ghost use Rattle.chw_cli.specs.Fetching.{RefusesFile};
ghost use Rattle.chw_cli.specs.Reads.{Gets, stimulus_in, verilog_in};
ghost use Rattle.chw_cli.specs.Refusals.{RefusesStimulus, RefusesVerilog};
ghost use Rattle.run_answer.specs.Circuits.{CanStep, IsCircuitOf, IsRunBy};

use crate::fetch::{stimulus_text, text_of};
use crate::refusal::Refusal;
use chw_base::limits::VERILOG_BYTES;
use chw_base::{Name, Shelf};
use run_answer::{Circuit, circuit_of, lines_of};
use std::alloc::Global;
use verilog_rules::{VCode, VFault};

/// The circuit of the Verilog text in a file, or why there is none.
pub(crate) fn read_circuit<F: Shelf>(
    alloc: Global,
    file: &Name,
    shelf: &mut F,
) -> Result<Circuit, Refusal>
    requires { IsUtf8 file.now }
    ensures circuit { IfOk result (λ c. (text : List ℕ)
        × Gets F.fetch_gives F.told F.faults file.now VERILOG_BYTES (Ok Whole) text shelf.old shelf.new × IsCircuitOf text c) }
    ensures refused { IfErr result (RefusesFile F.fetch_gives F.told F.faults (verilog_in file.now) RefusesVerilog shelf.old shelf.new) }
{
    let Some(text) = text_of(alloc, file, VERILOG_BYTES, shelf)? else {
        return Err(Refusal::Verilog(VFault {
            code: VCode::V06,
            at: 0,
        }));
    };
    Ok(circuit_of(alloc, text.as_slice())?)
}

/// The lines of a circuit that is stepped by the stimulus in a file, or why there are none.
pub(crate) fn run_lines<F: Shelf>(
    alloc: Global,
    circuit: &Circuit,
    file: &Name,
    shelf: &mut F,
) -> Result<Vec<u8>, Refusal>
    requires file { IsUtf8 file.now }
    requires steps { CanStep circuit.now }
    ensures lines { IfOk result (λ lines. (text : List ℕ)
        × Gets F.fetch_gives F.told F.faults file.now STIMULUS_BYTES (Ok Whole) text shelf.old shelf.new
        × IsRunBy circuit.now.flat text lines.items) }
    ensures refused { IfErr result (RefusesFile F.fetch_gives F.told F.faults (stimulus_in file.now)
        (RefusesStimulus circuit.now.flat) shelf.old shelf.new) }
{
    let text = stimulus_text(alloc, file, shelf)?;
    Ok(lines_of(alloc, circuit, text.as_slice())?)
}
