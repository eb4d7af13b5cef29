//! The definitions of a text: the declared variables.
ghost use Rattle.std.specs.Prelude.{◌≡◌, ℕ, ◌<◌, ◌≤◌, ◌^◌, [], ◌∷◌, List, length, map, codes};
ghost use Rattle.std.specs.Prelude.{IfOk};
ghost use Rattle.chw_base.specs.Outcome.{IfFault};
ghost use Rattle.wave_text.specs.Faults.{FailsAt};
ghost use Rattle.wave_read.specs.Reading.{Declares, behind_of, FailsBehind, HasDeclarations};
ghost use Rattle.wave_read.specs.Reading.{HasTimes, IsDefinition, end_of, variable_slots, words_in};
ghost use Rattle.wave_read.specs.Shown.{shown, variable_of};
ghost use Rattle.wave_read.specs.Slots.{FitsRow};
ghost use Rattle.wave_text.specs.VcdText.{AreChanges, AreDeclarations, IsWidth, Moment};
ghost use Rattle.wave_text.specs.Words.{Word as TextWord};

use crate::numbers::width_of;
use crate::rows::row_of;
use crate::slots::{Slot, is_word};
use crate::source::Declared;
use crate::words::{Left, Word, next};
use chw_base::Or;
use std::alloc::Global;

/// The width of these digits.
fn width_in(bytes: &[u8]) -> u32
    requires { (width : ℕ) × IsWidth bytes.now width }
    ensures { IsWidth bytes.now result }
{
    match width_of(bytes) {
        Some(width) => width,
        None => unreachable!(),
    }
}

/// The variable that the words behind `$var` declare.
#[tactic(auto, using(crate::proofs::RowSteps::variable_length))]
fn declared_of<'a>(words: &[Word<'a>]) -> Declared<'a>
    requires { FitsRow variable_slots (map shown words.now) }
    ensures { Declares (map shown words.now) (variable_of result) }
{
    let code = words[2];
    Declared {
        at: code.at,
        width: width_in(words[1].bytes),
        code: code.bytes,
        name: words[3].bytes,
    }
}

/// A definition, and what is left behind it.
#[derive(Clone, Copy)]
pub enum Definition<'a> {
    /// A declared variable.
    Variable(Declared<'a>, Left<'a>),
    /// The end of the definitions.
    Last(Left<'a>),
}

/// The variable that is declared behind `$var`.
fn variable<'a>(alloc: Global, left: Left<'a>) -> Result<Definition<'a>, Or<u32>>
    requires { end_of left < 2 ^ 32 }
    ensures definition { IfOk result (λ d. (w : TextWord) → w.bytes ≡ codes "$var"
        → IsDefinition (end_of left.entry) (w ∷ words_in left.entry) d) }
    ensures end { IfOk result (λ d. end_of (behind_of d) ≡ end_of left.entry) }
    ensures shorter { IfOk result (λ d.
        length (behind_of d).text.now ≤ length left.entry.text.now) }
    ensures fault { IfFault result (λ at. (w : TextWord) → w.bytes ≡ codes "$var"
        → FailsAt HasDeclarations (end_of left.entry) (w ∷ words_in left.entry) at) }
{
    let slots = [Slot::Wire, Slot::Width, Slot::Code, Slot::Name, Slot::End];
    let row = row_of(alloc, left, &slots)?;
    Ok(Definition::Variable(declared_of(row.words.as_slice()), row.left))
}

/// The end of the definitions, behind `$upscope`.
fn last<'a>(alloc: Global, left: Left<'a>) -> Result<Definition<'a>, Or<u32>>
    requires { end_of left < 2 ^ 32 }
    ensures definition { IfOk result (λ d. (w : TextWord) → w.bytes ≡ codes "$upscope"
        → IsDefinition (end_of left.entry) (w ∷ words_in left.entry) d) }
    ensures end { IfOk result (λ d. end_of (behind_of d) ≡ end_of left.entry) }
    ensures shorter { IfOk result (λ d.
        length (behind_of d).text.now ≤ length left.entry.text.now) }
    ensures fault { IfFault result (λ at. (w : TextWord) → w.bytes ≡ codes "$upscope"
        → FailsAt HasDeclarations (end_of left.entry) (w ∷ words_in left.entry) at) }
{
    let slots = [Slot::End, Slot::EndDefinitions, Slot::End];
    let row = row_of(alloc, left, &slots)?;
    Ok(Definition::Last(row.left))
}

/// The next definition.
fn next_definition<'a>(alloc: Global, left: Left<'a>) -> Result<Definition<'a>, Or<u32>>
    requires { end_of left < 2 ^ 32 }
    ensures definition { IfOk result (IsDefinition (end_of left.entry) (words_in left.entry)) }
    ensures end { IfOk result (λ d. end_of (behind_of d) ≡ end_of left.entry) }
    ensures shorter { IfOk result (λ d.
        length (behind_of d).text.now < length left.entry.text.now) }
    ensures fault { IfFault result
        (FailsAt HasDeclarations (end_of left.entry) (words_in left.entry)) }
{
    let Some((word, behind)) = next(left) else {
        return Err(Or::Fault(left.at + left.text.len() as u32));
    };
    if is_word(word.bytes, b"$var") {
        return variable(alloc, behind);
    }
    if is_word(word.bytes, b"$upscope") {
        return last(alloc, behind);
    }
    Err(Or::Fault(word.at))
}

/// The declared variables, and what is left behind the definitions.
#[derive(Drop)]
pub struct Definitions<'a> {
    pub declared: Vec<Declared<'a>>,
    pub left: Left<'a>,
}

/// The definitions of a text, behind its first words.
pub fn definitions_of<'a>(alloc: Global, left: Left<'a>) -> Result<Definitions<'a>, Or<u32>>
    requires { end_of left < 2 ^ 32 }
    ensures forms { IfOk result (λ d. (moments : List Moment)
        → AreChanges (words_in d.left) [] moments
        → AreDeclarations (words_in left.entry) (map variable_of d.declared.items) moments) }
    ensures fails { IfOk result (λ d. FailsBehind HasTimes HasDeclarations (end_of left.entry)
        (words_in d.left) (words_in left.entry)) }
    ensures end { IfOk result (λ d. end_of d.left ≡ end_of left.entry) }
    ensures fault { IfFault result
        (FailsAt HasDeclarations (end_of left.entry) (words_in left.entry)) }
{
    let mut declared = Vec::new(alloc);
    let mut rest = left;
    loop {
        match next_definition(alloc, rest)? {
            Definition::Variable(variable, behind) => {
                declared.push(variable)?;
                rest = behind;
            }
            Definition::Last(behind) => {
                return Ok(Definitions {
                    declared,
                    left: behind,
                });
            }
        }
    }
}
