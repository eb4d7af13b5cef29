//! The commands of the program, read from its words: which words are a command, and which are none.
//!
//! A command is a variant of `Command`, a case of `IsCommand` (specs/Commands.antt), a subcommand of
//! `chw_app` and a case of `IsMatched` (specs/Parsing.antt), a case of `IsUnflagged`
//! (specs/Splitting.antt), and in src/reading.rt a subcommand of `parser` and a case of `reading`.
//! proofs/OneWord.antt shows the least that its proof has to say of its words;
//! proofs/BudgetWords.antt has what those with a budget share. Its cases of the other lemmas are in
//! proofs/Commands.antt, OneCommand.antt, Passes.antt, Exactly.antt and Lifting.antt.
//!
//! Flags are taken off before the words are read (src/flags.rt): `clap` reads words without flags,
//! and the flags say in which form the command writes.
#![tactic(auto)]

pub mod budget;
pub mod command;
mod flags;
mod form;
pub mod laws;
mod number;
pub mod reading;
pub mod taps;

pub use command::{Command, EmitForm, SimForm, WordsFault};
pub use reading::read_words;
