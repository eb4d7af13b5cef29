//! The answer to the words, before any of it is written.
ghost use Rattle.std.specs.Prelude.{◌≡◌, Ok, IfOk, IfErr};
ghost use Rattle.chw_cli.specs.Outcome.{AnswersBy, Refuses};
ghost use Rattle.chw_cli.specs.Reads.{Asks};
ghost use Rattle.chw_words.specs.Commands.{IsCommand};
ghost use Rattle.chw_words.specs.declared.command.Command.TheVariants.{Check, Emit, Make, Normalise, Run, Simulate};

use crate::compile::compiled_of;
use crate::describe::read_description;
use crate::emit::emitted;
use crate::make::made;
use crate::normalise::normalised;
use crate::refusal::Refusal;
use crate::run::{read_circuit, run_lines};
use crate::simulate::simulated;
use chw_base::{Name, Shelf};
use chw_text::print;
use chw_words::{Command, EmitForm, SimForm, read_words};
use std::alloc::Global;

/// The bytes to write, or why there are none.
pub(crate) fn answer<F: Shelf>(
    alloc: Global,
    words: &[Name],
    shelf: &mut F,
) -> Result<Vec<u8>, Refusal>
    ensures answers { IfOk result (λ bytes. AnswersBy (Asks F.fetch_gives F.told F.faults words.now shelf.old shelf.new) words.now (Ok bytes.items)) }
    ensures refuses { IfErr result (Refuses (Asks F.fetch_gives F.told F.faults words.now shelf.old shelf.new) words.now) }
{
    match read_words(alloc, words)? {
        Command::Emit { file, budget, form } => emit(alloc, words, &file, budget, form, shelf),
        Command::Simulate {
            file,
            stimulus,
            budget,
            form,
        } => simulate(alloc, words, &file, &stimulus, budget, form, shelf),
        Command::Check { file } => check(alloc, words, &file, shelf),
        Command::Normalise { file, budget } => normalise(alloc, words, &file, budget, shelf),
        Command::Run { verilog, stimulus } => run(alloc, words, &verilog, &stimulus, shelf),
        Command::Make { taps } => make(alloc, words, taps, shelf),
    }
}

/// The answer of `emit` to the description in a file.
fn emit<F: Shelf>(
    alloc: Global,
    words: &[Name],
    file: &Name,
    budget: u32,
    form: EmitForm,
    shelf: &mut F,
) -> Result<Vec<u8>, Refusal>
    requires { IsCommand words.now (Emit file.now budget form) }
    ensures answers { IfOk result (λ bytes. AnswersBy (Asks F.fetch_gives F.told F.faults words.now shelf.old shelf.new) words.now (Ok bytes.items)) }
    ensures refuses { IfErr result (Refuses (Asks F.fetch_gives F.told F.faults words.now shelf.old shelf.new) words.now) }
{
    let description = read_description(alloc, file, shelf)?;
    emitted(alloc, &description, budget, form)
}

/// The answer of `simulate` to the description and the stimulus in two files.
fn simulate<F: Shelf>(
    alloc: Global,
    words: &[Name],
    file: &Name,
    stimulus: &Name,
    budget: u32,
    form: SimForm,
    shelf: &mut F,
) -> Result<Vec<u8>, Refusal>
    requires { IsCommand words.now (Simulate file.now stimulus.now budget form) }
    ensures answers { IfOk result (λ bytes. AnswersBy (Asks F.fetch_gives F.told F.faults words.now shelf.old shelf.new) words.now (Ok bytes.items)) }
    ensures refuses { IfErr result (Refuses (Asks F.fetch_gives F.told F.faults words.now shelf.old shelf.new) words.now) }
{
    let description = read_description(alloc, file, shelf)?;
    let program = description.checked.program();
    let made = compiled_of(alloc, program, budget)?;
    simulated(alloc, program, &made, stimulus, form, shelf)
}

/// The answer of `check` to the description in a file.
fn check<F: Shelf>(
    alloc: Global,
    words: &[Name],
    file: &Name,
    shelf: &mut F,
) -> Result<Vec<u8>, Refusal>
    requires { IsCommand words.now (Check file.now) }
    ensures answers { IfOk result (λ bytes. AnswersBy (Asks F.fetch_gives F.told F.faults words.now shelf.old shelf.new) words.now (Ok bytes.items)) }
    ensures refuses { IfErr result (Refuses (Asks F.fetch_gives F.told F.faults words.now shelf.old shelf.new) words.now) }
{
    let description = read_description(alloc, file, shelf)?;
    Ok(print(alloc, &description.tree)?)
}

/// The answer of `normalise` to the description in a file.
fn normalise<F: Shelf>(
    alloc: Global,
    words: &[Name],
    file: &Name,
    budget: u32,
    shelf: &mut F,
) -> Result<Vec<u8>, Refusal>
    requires { IsCommand words.now (Normalise file.now budget) }
    ensures answers { IfOk result (λ bytes. AnswersBy (Asks F.fetch_gives F.told F.faults words.now shelf.old shelf.new) words.now (Ok bytes.items)) }
    ensures refuses { IfErr result (Refuses (Asks F.fetch_gives F.told F.faults words.now shelf.old shelf.new) words.now) }
{
    let description = read_description(alloc, file, shelf)?;
    normalised(alloc, &description, budget)
}

/// The answer of `run` to the Verilog text and the stimulus in two files.
fn run<F: Shelf>(
    alloc: Global,
    words: &[Name],
    verilog: &Name,
    stimulus: &Name,
    shelf: &mut F,
) -> Result<Vec<u8>, Refusal>
    requires { IsCommand words.now (Run verilog.now stimulus.now) }
    ensures answers { IfOk result (λ bytes. AnswersBy (Asks F.fetch_gives F.told F.faults words.now shelf.old shelf.new) words.now (Ok bytes.items)) }
    ensures refuses { IfErr result (Refuses (Asks F.fetch_gives F.told F.faults words.now shelf.old shelf.new) words.now) }
{
    let circuit = read_circuit(alloc, verilog, shelf)?;
    run_lines(alloc, &circuit, stimulus, shelf)
}

/// The answer of `make` to a number of taps. No file is read.
fn make<F: Shelf>(
    alloc: Global,
    words: &[Name],
    taps: u32,
    shelf: &mut F,
) -> Result<Vec<u8>, Refusal>
    requires { IsCommand words.now (Make taps) }
    ensures answers { IfOk result (λ bytes. AnswersBy (Asks F.fetch_gives F.told F.faults words.now shelf.old shelf.new) words.now (Ok bytes.items)) }
    ensures refuses { IfErr result (Refuses (Asks F.fetch_gives F.told F.faults words.now shelf.old shelf.new) words.now) }
{
    made(alloc, taps)
}
