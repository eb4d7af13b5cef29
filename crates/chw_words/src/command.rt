//! What the words may ask for.

use chw_base::Name;
use thiserror::Error;

/// In which form a simulation is written.
#[derive(Clone, Copy, Debug, PartialEq, Eq)]
pub enum SimForm {
    /// The outputs at each event, one line for each.
    Lines,
    /// The waves of clocks, resets, inputs and outputs.
    Waves,
}

/// In which form a net is written.
#[derive(Clone, Copy, Debug, PartialEq, Eq)]
pub enum EmitForm {
    /// As the description is compiled, a module for each definition.
    Verilog,
    /// With equal wires shared, as one module.
    Shared,
    /// In single bits, as BLIF.
    Blif,
}

/// A command of the program.
#[derive(Debug, Drop)]
pub enum Command {
    /// To write the Verilog text of the description in a file, with at most so many rewrites, in
    /// this form.
    Emit {
        file: Name,
        budget: u32,
        form: EmitForm,
    },
    /// To simulate the description in a file by a stimulus, with at most so many rewrites, and to
    /// write what comes of it in this form.
    Simulate {
        file: Name,
        stimulus: Name,
        budget: u32,
        form: SimForm,
    },
    /// To write the canonical text of the description in a file.
    Check {
        file: Name,
    },
    /// To write the steps by which the description in a file is rewritten, at most so many, and the definitions that they make.
    Normalise {
        file: Name,
        budget: u32,
    },
    /// To step the net of a Verilog text by a stimulus, and to write its outputs at each event.
    Run {
        verilog: Name,
        stimulus: Name,
    },
    /// To compile and to simulate a filter with so many taps, and to write how large it is and the sum of its outputs.
    Make {
        taps: u32,
    },
}

/// The words are no command.
#[derive(Clone, Copy, Debug, PartialEq, Eq, Error)]
#[error("the words are no command")]
pub struct WordsFault;
