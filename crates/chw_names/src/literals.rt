//! Literals that are equal.
ghost use Rattle.std.specs.Prelude.{◌≡◌, OnOk, flat_map};
ghost use Rattle.chw_names.specs.Literals.{meaning_of, second_literals, sort_of, is_zero, DeclaresLiterals};
ghost use Rattle.chw_names.specs.Twices.{literal_of_alternative};
ghost use Rattle.chw_names.specs.Words.{Meets};

use crate::least::Least;
use chw_base::NoMemory;
use chw_grammar::{Alternative, Letter, Pattern, Word, read_literal};
use indexmap::IndexSet;
use std::alloc::Global;

/// The letter of a literal.
#[derive(Clone, Copy, Debug, PartialEq, Eq, Hash)]
pub enum Sort {
    /// `u`
    Unsigned,
    /// `s`
    Signed,
    /// `b`
    Bits,
}

/// What a literal says. Two literals are equal where they say the same.
#[derive(Clone, Copy, Debug, PartialEq, Eq, Hash)]
pub struct Meaning {
    pub sort: Sort,
    /// Whether the value is below zero.
    pub negative: bool,
    /// The value without its sign, where it is below two to the 128.
    pub value: Option<u128>,
    /// The width, where it is below two to the 32.
    pub width: Option<u32>,
}

/// What this literal says.
fn meaning_of(literal: &Word) -> Meaning
    ensures { result ≡ meaning_of literal.now }
{
    let literal = read_literal(literal.bytes.as_slice());
    Meaning {
        sort: sort_of(literal.letter),
        negative: literal.negative && !is_zero(literal.value),
        value: literal.value,
        width: literal.width,
    }
}

/// The letter.
fn sort_of(letter: Letter) -> Sort
    ensures { result ≡ sort_of letter }
{
    match letter {
        Letter::U => Sort::Unsigned,
        Letter::S => Sort::Signed,
        Letter::B => Sort::Bits,
    }
}

/// Whether the value is zero.
fn is_zero(value: Option<u128>) -> bool
    ensures { result ≡ is_zero value }
{
    match value {
        Some(value) => value == 0,
        None => false,
    }
}

/// Meets the later ones of alternatives that are for equal literals.
pub fn literals<'t>(
    alloc: Global,
    least: &mut Least<'t>,
    alternatives: &'t [Alternative],
) -> Result<(), NoMemory>
    ensures { OnOk result (Meets least.old least.new (second_literals (flat_map literal_of_alternative alternatives.now))) }
{
    let mut known = IndexSet::new(alloc);
    let outcome = declare_literals(&mut known, least, alternatives);
    drop(known);
    outcome
}

/// Declares the literals that alternatives are for, by what they say.
fn declare_literals<'t>(
    known: &mut IndexSet<Meaning>,
    least: &mut Least<'t>,
    alternatives: &'t [Alternative],
) -> Result<(), NoMemory>
    ensures { OnOk result (DeclaresLiterals known.old.keys known.new.keys least.old least.new (flat_map literal_of_alternative alternatives.now)) }
{
    for alternative in alternatives {
        literal(known, least, alternative)?;
    }
    Ok(())
}

/// Declares the literal that an alternative is for, by what it says.
fn literal<'t>(
    known: &mut IndexSet<Meaning>,
    least: &mut Least<'t>,
    alternative: &'t Alternative,
) -> Result<(), NoMemory>
    ensures { OnOk result (DeclaresLiterals known.old.keys known.new.keys least.old least.new (literal_of_alternative alternative.now)) }
{
    match &alternative.pattern {
        Pattern::Literal(word) => {
            if !known.insert(meaning_of(word))? {
                least.meet(word);
            }
            Ok(())
        }
        Pattern::Constructor(_, _) | Pattern::Default => Ok(()),
    }
}
