//! Words, each with the command that they are.
use chw_base::{NoMemory, Or};
use chw_words::budget::read_budget;
use chw_words::{Command, EmitForm, SimForm, WordsFault, read_words};
use row_tables::{Unread, put, put_bytes, put_number, words_of};
use std::alloc::Global;

/// Writes the command that words are, with its files and its numbers.
pub(crate) fn put_command(alloc: Global, text: &str, out: &mut Vec<u8>) -> Result<(), Or<Unread>> {
    let words = words_of(alloc, text)?;
    let read = read_words(alloc, words.as_slice());
    drop(words);
    let outcome = put_outcome(&read, out);
    drop(read);
    Ok(outcome?)
}

fn put_outcome(read: &Result<Command, Or<WordsFault>>, out: &mut Vec<u8>) -> Result<(), NoMemory> {
    match read {
        Ok(command) => put_read(command, out),
        Err(Or::Fault(WordsFault)) => put(out, "none"),
        Err(Or::Memory) => Err(NoMemory),
    }
}

fn put_read(command: &Command, out: &mut Vec<u8>) -> Result<(), NoMemory> {
    match command {
        Command::Emit { file, budget, form } => {
            put_budgeted(out, "emit", file.as_slice(), *budget)?;
            put(out, emit_word(*form))
        }
        Command::Simulate {
            file,
            stimulus,
            budget,
            form,
        } => {
            put_file(out, "simulate", file.as_slice())?;
            put_budgeted(out, "", stimulus.as_slice(), *budget)?;
            put(out, sim_word(*form))
        }
        Command::Check { file } => put_file(out, "check", file.as_slice()),
        Command::Normalise { file, budget } => {
            put_budgeted(out, "normalise", file.as_slice(), *budget)
        }
        Command::Run { verilog, stimulus } => {
            put_file(out, "run", verilog.as_slice())?;
            put_file(out, "", stimulus.as_slice())
        }
        Command::Make { taps } => put_number(out, "make ", *taps),
    }
}

/// What is shown of the form of a net.
fn emit_word(form: EmitForm) -> &'static str {
    match form {
        EmitForm::Verilog => "",
        EmitForm::Shared => " as shared",
        EmitForm::Blif => " as bits",
    }
}

/// What is shown of the form of a simulation.
fn sim_word(form: SimForm) -> &'static str {
    match form {
        SimForm::Lines => "",
        SimForm::Waves => " as waves",
    }
}

fn put_file(out: &mut Vec<u8>, command: &str, file: &[u8]) -> Result<(), NoMemory> {
    put(out, command)?;
    put(out, " \"")?;
    put_bytes(out, file)?;
    put(out, "\"")
}

fn put_budgeted(
    out: &mut Vec<u8>,
    command: &str,
    file: &[u8],
    budget: u32,
) -> Result<(), NoMemory> {
    put_file(out, command, file)?;
    put_number(out, " with ", budget)
}

/// Writes the budget that a word is.
pub(crate) fn put_budget(text: &str, out: &mut Vec<u8>) -> Result<(), NoMemory> {
    match read_budget(text) {
        Some(budget) => put_number(out, "", budget),
        None => put(out, "none"),
    }
}
