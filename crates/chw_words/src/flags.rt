//! The flags among the words of a command.
ghost use Rattle.std.specs.Prelude.{◌≡◌, ℕ, false, List, ◌∷◌, ◌++◌, map, codes};
ghost use Rattle.std.specs.Prelude.{IfOk, OnOk};
ghost use Rattle.std.specs.Str.{bytes_eq};
ghost use Rattle.chw_words.specs.Flags.{emit_flags, is_flag as is_flag_of};
ghost use Rattle.chw_words.specs.Splitting.{asked_of, flags_of, found_from, rest_from};
ghost use Rattle.chw_words.specs.Splitting.{emit_form, sim_form};

use crate::command::{EmitForm, SimForm};
use chw_base::NoMemory;
use std::alloc::Global;

/// For what the flags of a command ask.
#[derive(Clone, Copy, Debug, PartialEq, Eq)]
pub(crate) enum Asked {
    /// Nothing: there is no flag.
    Nothing,
    /// The waves of a simulation.
    Waves,
    /// Equal wires of a net to be shared.
    Sharing,
    /// A net in single bits.
    Bits,
}

impl Asked {
    /// The form of a net.
    pub(crate) fn emit_form(self) -> EmitForm
        ensures { result ≡ emit_form self }
    {
        match self {
            Asked::Sharing => EmitForm::Shared,
            Asked::Bits => EmitForm::Blif,
            Asked::Nothing | Asked::Waves => EmitForm::Verilog,
        }
    }

    /// The form of a simulation.
    pub(crate) fn sim_form(self) -> SimForm
        ensures { result ≡ sim_form self }
    {
        match self {
            Asked::Waves => SimForm::Waves,
            Asked::Nothing | Asked::Sharing | Asked::Bits => SimForm::Lines,
        }
    }
}

/// Words without their flags, and the flags.
#[derive(Drop)]
pub(crate) struct Split<'a> {
    pub(crate) rest: Vec<&'a str>,
    pub(crate) found: Vec<&'a str>,
    // Whether the last word of the rest is a `--budget` that wants a value.
    behind: bool,
}

// Whether the word is this one.
fn is_word(word: &str, it: &str) -> bool
    ensures { result ≡ bytes_eq word.now it.now }
{
    word.as_bytes() == it.as_bytes()
}

// Whether the word is a flag of `emit`.
fn is_emit_flag(word: &str) -> bool
    ensures { result ≡ is_flag_of emit_flags word.now }
{
    is_word(word, "--share") || is_word(word, "--blif")
}

// Whether the word is a flag of the command of this name.
fn is_flag(command: &str, word: &str) -> bool
    ensures { result ≡ is_flag_of (flags_of command.now) word.now }
{
    if command.as_bytes() == "simulate".as_bytes() {
        word.as_bytes() == "--vcd".as_bytes()
    } else {
        command.as_bytes() == "emit".as_bytes() && is_emit_flag(word)
    }
}

// Whether a value is wanted behind the word.
fn wants_value(word: &str) -> bool
    ensures { result ≡ bytes_eq word.now (codes "--budget") }
{
    is_word(word, "--budget")
}

impl<'a> Split<'a> {
    // Takes the next word.
    fn put(&mut self, command: &str, word: &'a str) -> Result<(), NoMemory>
        ensures rest { OnOk result ((words : List (List ℕ))
            → map (λ s. s.now) self.new.rest.items
            ++ rest_from (flags_of command.now) self.new.behind words
            ≡ map (λ s. s.now) self.old.rest.items
            ++ rest_from (flags_of command.now) self.old.behind (word.now ∷ words)) }
        ensures found { OnOk result ((words : List (List ℕ))
            → map (λ s. s.now) self.new.found.items
            ++ found_from (flags_of command.now) self.new.behind words
            ≡ map (λ s. s.now) self.old.found.items
            ++ found_from (flags_of command.now) self.old.behind (word.now ∷ words)) }
    {
        if self.behind {
            self.behind = false;
            self.rest.push(word)?;
            return Ok(());
        }
        if is_flag(command, word) {
            self.found.push(word)?;
            return Ok(());
        }
        self.behind = wants_value(word);
        self.rest.push(word)?;
        Ok(())
    }
}

/// The word of a command and those behind it, taken apart.
pub(crate) fn split_flags<'a>(
    alloc: Global,
    command: &'a str,
    words: &[&'a str],
) -> Result<Split<'a>, NoMemory>
    ensures rest { IfOk result (λ it. map (λ s. s.now) it.rest.items
        ≡ command.now ∷ rest_from (flags_of command.now) false (map (λ s. s.now) words.now)) }
    ensures found { IfOk result (λ it. map (λ s. s.now) it.found.items
        ≡ found_from (flags_of command.now) false (map (λ s. s.now) words.now)) }
{
    let mut rest = Vec::new(alloc);
    rest.push(command)?;
    let mut split = Split {
        rest,
        found: Vec::new(alloc),
        behind: false,
    };
    for word in words {
        split.put(command, *word)?;
    }
    Ok(split)
}

/// For what flags ask, where they ask for something: each command has at most one.
pub(crate) fn asked_for(found: &[&str]) -> Option<Asked>
    ensures { result ≡ asked_of (map (λ s. s.now) found.now) }
{
    let Some((first, others)) = found.split_first() else {
        return Some(Asked::Nothing);
    };
    if !others.is_empty() {
        None
    } else if is_word(first, "--vcd") {
        Some(Asked::Waves)
    } else if is_word(first, "--share") {
        Some(Asked::Sharing)
    } else if is_word(first, "--blif") {
        Some(Asked::Bits)
    } else {
        None
    }
}
