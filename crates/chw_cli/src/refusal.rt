//! Why the program gave no answer.
ghost use Rattle.std.specs.Prelude.{◌≡◌};
ghost use Rattle.chw_cli.specs.Refusals.{of_bits_fault, of_circuit_fault, of_lex_fault, of_name_fault, of_parse_fault, of_run_fault, of_sim_fault, of_stim_fault, of_type_fault, of_words_fault};
ghost use Rattle.chw_cli.specs.declared.refusal.Refusal.TheVariants.{Memory};

use answers::sim_answer::SimFault;
use bit_blast::TooMany;
use chw_base::{Name, NoMemory, Or, Seq, WireId};
use chw_check::TypeFault;
use chw_lexer::LexFault;
use chw_norm::RunFault;
use chw_parser::ParseFault;
use chw_resolve::NameFault;
use chw_words::WordsFault;
use run_answer::CircuitFault;
use stimulus::StimFault;
use verilog_rules::VFault;

/// Why the program gave no answer, with what its line shows.
#[derive(Debug, Drop)]
pub enum Refusal {
    /// The words are no command.
    Words,
    /// The file of this name isn't there, or couldn't be read.
    Read(Name),
    /// The text of the description is longer than the limit.
    LongText,
    /// No token begins at this byte.
    Lex(u32),
    /// The token at this byte goes on with no description; or the text ends too early, and this is
    /// its length.
    Syntax(u32),
    /// More than 200 brackets are open, or the description is nested more deeply than that.
    Depth,
    /// A limit on the description is passed, or a name or a reference in it is at fault.
    Names(NameFault),
    /// A type, a body, a case or the top of the description is at fault.
    Types(TypeFault),
    /// A step of rewriting leads to a body that is deeper than the limit.
    DeepBody,
    /// A step of rewriting adds a made definition, and as many are held as may be.
    FullTable,
    /// So many steps, which is the budget, were made, and a step is left.
    Spent(u32),
    /// No step is left, and the state isn't a normal one of which no made definition uses itself:
    /// the line that says why.
    State(Name),
    /// The Verilog text denotes no net: the first rule that it breaks, and where.
    Verilog(VFault),
    /// The text is no stimulus for the ports of the net: the first line that isn't taken, and why.
    Stimulus(StimFault),
    /// The text is a stimulus for the ports of the program, and this line has bits that encode no
    /// value of their input's type.
    Value(u32),
    /// The net has more flat wires than the limit.
    TooLarge,
    /// These flat wires drive each other in a circle that passes no register and no RAM, the one
    /// with the least number first.
    Loop(Seq<WireId>),
    /// The net of single bits has more nodes than the limit.
    Bits,
    /// The answer couldn't be written.
    Write,
    /// Memory was wanting.
    Memory,
}

impl From<NoMemory> for Refusal {
    ghost from_gives = { λ _ r. r ≡ Memory };

    fn from(_error: NoMemory) -> Refusal {
        Refusal::Memory
    }
}

impl From<Or<WordsFault>> for Refusal {
    ghost from_gives = { λ e r. r ≡ of_words_fault e };

    fn from(error: Or<WordsFault>) -> Refusal {
        match error {
            Or::Memory => Refusal::Memory,
            Or::Fault(_) => Refusal::Words,
        }
    }
}

impl From<Or<LexFault>> for Refusal {
    ghost from_gives = { λ e r. r ≡ of_lex_fault e };

    fn from(error: Or<LexFault>) -> Refusal {
        match error {
            Or::Memory => Refusal::Memory,
            Or::Fault(fault) => Refusal::Lex(fault.at),
        }
    }
}

impl From<Or<ParseFault>> for Refusal {
    ghost from_gives = { λ e r. r ≡ of_parse_fault e };

    fn from(error: Or<ParseFault>) -> Refusal {
        match error {
            Or::Memory => Refusal::Memory,
            Or::Fault(ParseFault::Syntax { at }) => Refusal::Syntax(at),
            Or::Fault(ParseFault::Depth { .. }) => Refusal::Depth,
        }
    }
}

impl From<Or<NameFault>> for Refusal {
    ghost from_gives = { λ e r. r ≡ of_name_fault e };

    fn from(error: Or<NameFault>) -> Refusal {
        match error {
            Or::Memory => Refusal::Memory,
            Or::Fault(fault) => Refusal::Names(fault),
        }
    }
}

impl From<Or<TypeFault>> for Refusal {
    ghost from_gives = { λ e r. r ≡ of_type_fault e };

    fn from(error: Or<TypeFault>) -> Refusal {
        match error {
            Or::Memory => Refusal::Memory,
            Or::Fault(fault) => Refusal::Types(fault),
        }
    }
}

impl From<Or<RunFault>> for Refusal {
    ghost from_gives = { λ e r. r ≡ of_run_fault e };

    fn from(error: Or<RunFault>) -> Refusal {
        match error {
            Or::Memory => Refusal::Memory,
            Or::Fault(RunFault::Depth) => Refusal::DeepBody,
            Or::Fault(RunFault::Full) => Refusal::FullTable,
            Or::Fault(RunFault::Spent { steps }) => Refusal::Spent(steps),
        }
    }
}

impl From<Or<CircuitFault>> for Refusal {
    ghost from_gives = { λ e r. r ≡ of_circuit_fault e };

    fn from(error: Or<CircuitFault>) -> Refusal {
        match error {
            Or::Memory => Refusal::Memory,
            Or::Fault(CircuitFault::Text(fault)) => Refusal::Verilog(fault),
            Or::Fault(CircuitFault::TooLarge) => Refusal::TooLarge,
            Or::Fault(CircuitFault::Loop(cycle)) => Refusal::Loop(cycle),
        }
    }
}

impl From<Or<StimFault>> for Refusal {
    ghost from_gives = { λ e r. r ≡ of_stim_fault e };

    fn from(error: Or<StimFault>) -> Refusal {
        match error {
            Or::Memory => Refusal::Memory,
            Or::Fault(fault) => Refusal::Stimulus(fault),
        }
    }
}

impl From<Or<SimFault>> for Refusal {
    ghost from_gives = { λ e r. r ≡ of_sim_fault e };

    fn from(error: Or<SimFault>) -> Refusal {
        match error {
            Or::Memory => Refusal::Memory,
            Or::Fault(SimFault::Stimulus(fault)) => Refusal::Stimulus(fault),
            Or::Fault(SimFault::Value { line }) => Refusal::Value(line),
        }
    }
}

impl From<Or<TooMany>> for Refusal {
    ghost from_gives = { λ e r. r ≡ of_bits_fault e };

    fn from(error: Or<TooMany>) -> Refusal {
        match error {
            Or::Memory => Refusal::Memory,
            Or::Fault(_) => Refusal::Bits,
        }
    }
}
