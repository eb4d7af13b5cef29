//! Rows of words.
ghost use Rattle.std.specs.Prelude.{◌≡◌, ◌+◌, ◌<◌, ◌≤◌, ◌^◌, ◌++◌, [], ◌∷◌, length, map, IfOk};
ghost use Rattle.std.specs.Prelude.{IfErr};
ghost use Rattle.chw_base.specs.Outcome.{IfFault};
ghost use Rattle.wave_read.specs.Shown.{shown};
ghost use Rattle.wave_read.specs.Slots.{FailsRow, Fits, FitsRow};
ghost use Rattle.wave_text.specs.Words.{words_from};

use crate::slots::{Slot, fits};
use crate::words::{Left, Word, next};
use chw_base::Or;
use std::alloc::Global;

/// Words, and what is left behind them.
#[derive(Drop)]
pub struct Row<'a> {
    pub words: Vec<Word<'a>>,
    pub left: Left<'a>,
}

/// The first word that is left, where it may stand in the place, and what is left behind it.
pub fn word_in(left: Left<'_>, slot: Slot) -> Result<(Word<'_>, Left<'_>), u32>
    requires { left.at + length left.text.now < 2 ^ 32 }
    ensures word { IfOk result (λ r. words_from left.entry.at left.entry.text.now
        ≡ shown r.0 ∷ words_from r.1.at r.1.text.now) }
    ensures fits { IfOk result (λ r. Fits slot r.0.bytes.now) }
    ensures end { IfOk result (λ r.
        r.1.at + length r.1.text.now ≡ left.entry.at + length left.entry.text.now) }
    ensures shorter { IfOk result (λ r. length r.1.text.now < length left.entry.text.now) }
    ensures fault { IfErr result (FailsRow (slot ∷ []) (left.entry.at + length left.entry.text.now)
        (words_from left.entry.at left.entry.text.now)) }
{
    match next(left) {
        Some((word, behind)) => {
            if fits(slot, word.bytes) {
                Ok((word, behind))
            } else {
                Err(word.at)
            }
        }
        None => Err(left.at + left.text.len() as u32),
    }
}

/// The words that stand in these places, one by one, and what is left behind them.
pub fn row_of<'a>(alloc: Global, left: Left<'a>, slots: &[Slot]) -> Result<Row<'a>, Or<u32>>
    requires { left.at + length left.text.now < 2 ^ 32 }
    ensures words { IfOk result (λ r. words_from left.entry.at left.entry.text.now
        ≡ map shown r.words.items ++ words_from r.left.at r.left.text.now) }
    ensures fits { IfOk result (λ r. FitsRow slots.now (map shown r.words.items)) }
    ensures end { IfOk result (λ r.
        r.left.at + length r.left.text.now ≡ left.entry.at + length left.entry.text.now) }
    ensures shorter { IfOk result (λ r. length r.left.text.now ≤ length left.entry.text.now) }
    ensures fault { IfFault result (FailsRow slots.now (left.entry.at + length left.entry.text.now)
        (words_from left.entry.at left.entry.text.now)) }
{
    let mut words = Vec::new(alloc);
    let mut rest = left;
    for slot in slots {
        match word_in(rest, *slot) {
            Ok((word, behind)) => {
                words.push(word)?;
                rest = behind;
            }
            Err(at) => return Err(Or::Fault(at)),
        }
    }
    Ok(Row { words, left: rest })
}
