//! The command that the words are.
ghost use Rattle.std.specs.Prelude.{◌≡◌, ℕ, false, IfOk, MatchOption, codes, map, option_map};
ghost use Rattle.chw_base.specs.Outcome.{IfFault, OfFault};
ghost use Rattle.clap.specs.Matches.{found_of};
ghost use Rattle.clap.specs.Walk.{Text, rows_of};
ghost use Rattle.clap.specs.Words.{app_of, kind_of, rule_of, subcommand_rows_of};
ghost use Rattle.clap.specs.declared.builder.command.Command.TheViews.{out-Command as fields_of};
ghost use Rattle.clap.specs.declared.error.kind.ErrorKind.TheVariants.{OutOfMemory};
ghost use Rattle.chw_words.specs.Commands.{AreNoCommand, IsCommand};
ghost use Rattle.chw_words.specs.Form.{AreTexts};
ghost use Rattle.chw_words.specs.Parsing.{AreBudgeted, BudgetIs, IsMatched, IsNoneMatched, budget_rule, budgeted_app, check_app, chw_app, compiling_app, descriptions_app, make_app, matched_under, run_app, simulate_app, word_rule};
ghost use Rattle.chw_words.specs.Splitting.{AreNoneUnflagged, IsFormed, IsUnflagged, IsUnformed};
ghost use Rattle.chw_words.specs.Splitting.{in_form};

use crate::budget::{DEFAULT_BUDGET, read_budget};
use crate::command::{Command, EmitForm, SimForm, WordsFault};
use crate::flags::{Asked, Split, asked_for, split_flags};
use crate::form::{has_form, texts};
use crate::taps::read_taps;
use chw_base::{Name, NoMemory, Or};
use clap::error::ErrorKind;
use clap::{Arg, ArgAction, ArgMatches, Error};
use std::alloc::{AllocError, Global};

// A word that stands for this, at its place among the words.
fn word_arg<'a>(alloc: Global, name: &'a str) -> Arg<'a>
    ensures rule { rule_of result ≡ word_rule name.now }
    ensures local { result.global ≡ false }
{
    Arg::new(alloc, name).required(true).action(ArgAction::Set)
}

// The option `--budget N`.
fn budget_arg<'a>(alloc: Global) -> Arg<'a>
    ensures rule { rule_of result ≡ budget_rule }
    ensures local { result.global ≡ false }
{
    Arg::new(alloc, "budget")
        .long("budget")
        .action(ArgAction::Set)
}

// A command of this name on a file, with a budget.
fn budgeted_parser<'a>(alloc: Global, name: &'a str) -> Result<clap::Command<'a>, AllocError>
    ensures app { IfOk result (λ c. app_of c ≡ budgeted_app name.now) }
    ensures local { IfOk result (λ c. (fields_of c).has_globals ≡ false) }
{
    clap::Command::new(alloc, name)
        .arg(word_arg(alloc, "file"))?
        .arg(budget_arg(alloc))
}

// `simulate FILE STIM`, with a budget.
fn simulate_parser<'a>(alloc: Global) -> Result<clap::Command<'a>, AllocError>
    ensures app { IfOk result (λ c. app_of c ≡ simulate_app) }
    ensures local { IfOk result (λ c. (fields_of c).has_globals ≡ false) }
{
    clap::Command::new(alloc, "simulate")
        .arg(word_arg(alloc, "file"))?
        .arg(word_arg(alloc, "stimulus"))?
        .arg(budget_arg(alloc))
}

// `check FILE`.
fn check_parser<'a>(alloc: Global) -> Result<clap::Command<'a>, AllocError>
    ensures app { IfOk result (λ c. app_of c ≡ check_app) }
    ensures local { IfOk result (λ c. (fields_of c).has_globals ≡ false) }
{
    clap::Command::new(alloc, "check").arg(word_arg(alloc, "file"))
}

// `run VERILOG STIM`.
fn run_parser<'a>(alloc: Global) -> Result<clap::Command<'a>, AllocError>
    ensures app { IfOk result (λ c. app_of c ≡ run_app) }
    ensures local { IfOk result (λ c. (fields_of c).has_globals ≡ false) }
{
    clap::Command::new(alloc, "run")
        .arg(word_arg(alloc, "verilog"))?
        .arg(word_arg(alloc, "stimulus"))
}

// `make N`.
fn make_parser<'a>(alloc: Global) -> Result<clap::Command<'a>, AllocError>
    ensures app { IfOk result (λ c. app_of c ≡ make_app) }
    ensures local { IfOk result (λ c. (fields_of c).has_globals ≡ false) }
{
    clap::Command::new(alloc, "make").arg(word_arg(alloc, "taps"))
}

// The commands on what descriptions are compiled to as clap reads them, each with its arguments.
fn compiling_parser<'a>(alloc: Global) -> Result<clap::Command<'a>, AllocError>
    ensures { IfOk result (λ c. app_of c ≡ compiling_app) }
{
    let chw = clap::Command::new(alloc, "chw")
        .no_binary_name(true)
        .disable_help_flag(true)
        .disable_help_subcommand(true)
        .subcommand_required(true);
    chw.subcommand(budgeted_parser(alloc, "emit")?)?
        .subcommand(simulate_parser(alloc)?)
}

// These, and the other commands on descriptions.
fn descriptions_parser<'a>(alloc: Global) -> Result<clap::Command<'a>, AllocError>
    ensures { IfOk result (λ c. app_of c ≡ descriptions_app) }
{
    compiling_parser(alloc)?
        .subcommand(check_parser(alloc)?)?
        .subcommand(budgeted_parser(alloc, "normalise")?)
}

// All commands as clap reads them.
fn parser<'a>(alloc: Global) -> Result<clap::Command<'a>, AllocError>
    ensures { IfOk result (λ c. app_of c ≡ chw_app) }
{
    descriptions_parser(alloc)?
        .subcommand(run_parser(alloc)?)?
        .subcommand(make_parser(alloc)?)
}

// A name of its own.
fn name(alloc: Global, text: &str) -> Result<Name, NoMemory>
    ensures { IfOk result (λ name. name ≡ text.now) }
{
    Name::copy_of(alloc, text.as_bytes())
}

// The budget that was said, or the default.
fn budget(said: Option<&str>) -> Option<u32>
    ensures { MatchOption result ((n : ℕ) → BudgetIs (option_map (λ s. s.now) said.entry) n → ⊥) (BudgetIs (option_map (λ s. s.now) said.entry)) }
{
    match said {
        Some(word) => read_budget(word),
        None => Some(DEFAULT_BUDGET),
    }
}

// What an error of clap's comes to.
fn refusal(error: &Error) -> Or<WordsFault>
    ensures { OfFault result (λ _. kind_of error.now ≡ OutOfMemory → ⊥) }
{
    match error.kind() {
        ErrorKind::OutOfMemory => Or::Memory,
        _ => Or::Fault(WordsFault),
    }
}

// The file and the budget that were matched, in its digits too.
fn budgeted(alloc: Global, matches: &ArgMatches) -> Result<(Name, u32), Or<WordsFault>>
    ensures budgeted { IfOk result (λ it. AreBudgeted (rows_of (found_of matches.now)) it.0 it.1) }
    ensures fault { IfFault result (λ _. (file : Text) (n : ℕ) → AreBudgeted (rows_of (found_of matches.now)) file n → ⊥) }
{
    let Some(file) = matches.get_str("file") else {
        return Err(Or::Fault(WordsFault));
    };
    let Some(budget) = budget(matches.get_str("budget")) else {
        return Err(Or::Fault(WordsFault));
    };
    Ok((name(alloc, file)?, budget))
}

// What was matched under `emit`.
fn emit(alloc: Global, matches: &ArgMatches) -> Result<Command, Or<WordsFault>>
    ensures command { IfOk result (IsMatched (matched_under (codes "emit") matches.now)) }
    ensures fault { IfFault result (λ _. IsNoneMatched (matched_under (codes "emit") matches.now)) }
{
    let (file, budget) = budgeted(alloc, matches)?;
    Ok(Command::Emit {
        file,
        budget,
        form: EmitForm::Verilog,
    })
}

// What was matched under `simulate`.
fn simulate(alloc: Global, matches: &ArgMatches) -> Result<Command, Or<WordsFault>>
    ensures command { IfOk result (IsMatched (matched_under (codes "simulate") matches.now)) }
    ensures fault { IfFault result (λ _. IsNoneMatched (matched_under (codes "simulate") matches.now)) }
{
    let Some(events) = matches.get_str("stimulus") else {
        return Err(Or::Fault(WordsFault));
    };
    let (file, budget) = budgeted(alloc, matches)?;
    Ok(Command::Simulate {
        file,
        stimulus: name(alloc, events)?,
        budget,
        form: SimForm::Lines,
    })
}

// What was matched under `normalise`.
fn normalise(alloc: Global, matches: &ArgMatches) -> Result<Command, Or<WordsFault>>
    ensures command { IfOk result (IsMatched (matched_under (codes "normalise") matches.now)) }
    ensures fault { IfFault result (λ _. IsNoneMatched (matched_under (codes "normalise") matches.now)) }
{
    let (file, budget) = budgeted(alloc, matches)?;
    Ok(Command::Normalise { file, budget })
}

// What was matched under `check`.
fn check(alloc: Global, matches: &ArgMatches) -> Result<Command, Or<WordsFault>>
    ensures command { IfOk result (IsMatched (matched_under (codes "check") matches.now)) }
    ensures fault { IfFault result (λ _. IsNoneMatched (matched_under (codes "check") matches.now)) }
{
    let Some(file) = matches.get_str("file") else {
        return Err(Or::Fault(WordsFault));
    };
    Ok(Command::Check {
        file: name(alloc, file)?,
    })
}

// What was matched under `run`.
fn run(alloc: Global, matches: &ArgMatches) -> Result<Command, Or<WordsFault>>
    ensures command { IfOk result (IsMatched (matched_under (codes "run") matches.now)) }
    ensures fault { IfFault result (λ _. IsNoneMatched (matched_under (codes "run") matches.now)) }
{
    let Some(verilog) = matches.get_str("verilog") else {
        return Err(Or::Fault(WordsFault));
    };
    let Some(stimulus) = matches.get_str("stimulus") else {
        return Err(Or::Fault(WordsFault));
    };
    Ok(Command::Run {
        verilog: name(alloc, verilog)?,
        stimulus: name(alloc, stimulus)?,
    })
}

// What was matched under `make`.
fn make(matches: &ArgMatches) -> Result<Command, Or<WordsFault>>
    ensures command { IfOk result (IsMatched (matched_under (codes "make") matches.now)) }
    ensures fault { IfFault result (λ _. IsNoneMatched (matched_under (codes "make") matches.now)) }
{
    let Some(word) = matches.get_str("taps") else {
        return Err(Or::Fault(WordsFault));
    };
    let Some(taps) = read_taps(word) else {
        return Err(Or::Fault(WordsFault));
    };
    Ok(Command::Make { taps })
}

// The command that was matched.
fn reading(alloc: Global, matches: &ArgMatches) -> Result<Command, Or<WordsFault>>
    ensures command { IfOk result (IsMatched (subcommand_rows_of matches.now)) }
    ensures fault { IfFault result (λ _. IsNoneMatched (subcommand_rows_of matches.now)) }
{
    let Some((command, matches)) = matches.subcommand() else {
        return Err(Or::Fault(WordsFault));
    };
    match command {
        "emit" => emit(alloc, matches),
        "simulate" => simulate(alloc, matches),
        "check" => check(alloc, matches),
        "normalise" => normalise(alloc, matches),
        "run" => run(alloc, matches),
        "make" => make(matches),
        _ => Err(Or::Fault(WordsFault)),
    }
}

// The command that the words are, none of which is a flag.
fn read_unflagged(alloc: Global, words: &[&str]) -> Result<Command, Or<WordsFault>>
    requires { AreTexts (map (λ s. s.now) words.now) }
    ensures command { IfOk result (IsUnflagged (map (λ s. s.now) words.now)) }
    ensures fault { IfFault result (λ _. AreNoneUnflagged (map (λ s. s.now) words.now)) }
{
    if !has_form(words) {
        return Err(Or::Fault(WordsFault));
    }
    match parser(alloc)?.try_get_matches_from(words) {
        Ok(matches) => reading(alloc, &matches),
        Err(error) => Err(refusal(&error)),
    }
}

// The command in the form that is asked for, where it has forms.
fn in_form(command: Command, asked: Asked) -> Command
    ensures { result ≡ in_form asked command }
{
    match command {
        Command::Emit {
            file,
            budget,
            form: _,
        } => Command::Emit {
            file,
            budget,
            form: asked.emit_form(),
        },
        Command::Simulate {
            file,
            stimulus,
            budget,
            form: _,
        } => Command::Simulate {
            file,
            stimulus,
            budget,
            form: asked.sim_form(),
        },
        other => other,
    }
}

// The command that words are that were taken apart.
fn read_split(alloc: Global, split: &Split<'_>) -> Result<Command, Or<WordsFault>>
    requires { AreTexts (map (λ s. s.now) split.now.rest.items) }
    ensures command { IfOk result (IsFormed (map (λ s. s.now) split.now.rest.items)
        (map (λ s. s.now) split.now.found.items)) }
    ensures fault { IfFault result (λ _. IsUnformed (map (λ s. s.now) split.now.rest.items)
        (map (λ s. s.now) split.now.found.items)) }
{
    let Some(asked) = asked_for(split.found.as_slice()) else {
        return Err(Or::Fault(WordsFault));
    };
    let command = read_unflagged(alloc, split.rest.as_slice())?;
    Ok(in_form(command, asked))
}

// The command that the words are, of which the first names it.
fn read_texts(alloc: Global, words: &[&str]) -> Result<Command, Or<WordsFault>>
    requires { AreTexts (map (λ s. s.now) words.now) }
    ensures command { IfOk result (IsCommand (map (λ s. s.now) words.now)) }
    ensures fault { IfFault result (λ _. AreNoCommand (map (λ s. s.now) words.now)) }
{
    let Some((command, others)) = words.split_first() else {
        return Err(Or::Fault(WordsFault));
    };
    let split = split_flags(alloc, *command, others)?;
    let outcome = read_split(alloc, &split);
    drop(split);
    outcome
}

/// The command that the words are. They don't hold the program's own name.
///
/// `WordsFault` comes where the words are no command.
pub fn read_words(alloc: Global, words: &[Name]) -> Result<Command, Or<WordsFault>>
    ensures command { IfOk result (IsCommand words.now) }
    ensures fault { IfFault result (λ _. AreNoCommand words.now) }
{
    let Some(texts) = texts(alloc, words)? else {
        return Err(Or::Fault(WordsFault));
    };
    read_texts(alloc, texts.as_slice())
}
