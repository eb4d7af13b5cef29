//! The changes and the times of a text, one by one.
ghost use Rattle.std.specs.Prelude.{◌≡◌, ◌<◌, ◌≤◌, ◌^◌, ◌↔◌, ◌∷◌, Bool, length};
ghost use Rattle.std.specs.Prelude.{IsTrue, IfOk, IfErr};
ghost use Rattle.chw_base.specs.Names.{AllOf, BeginsThen};
ghost use Rattle.wave_text.specs.Faults.{FailsAt};
ghost use Rattle.wave_read.specs.Reading.{HasChanges, IsItem, IsOther, IsShorter, end_of};
ghost use Rattle.wave_read.specs.Reading.{left_of, words_in};
ghost use Rattle.wave_read.specs.Shown.{is_bit, shown};
ghost use Rattle.waves.specs.Vcd.{digit_of};

use crate::numbers::time_of;
use crate::rows::word_in;
use crate::slots::{Slot, is_code};
use crate::source::Changed;
use crate::words::{Left, Word, next};

/// A time, and its place.
#[derive(Clone, Copy)]
pub struct Stamp {
    pub at: u32,
    pub time: u64,
}

/// What stands next, and what is left behind it.
#[derive(Clone, Copy)]
pub enum Item<'a> {
    Time(Stamp, Left<'a>),
    Change(Changed<'a>, Left<'a>),
    /// No word is left.
    Nothing,
}

/// Whether the byte is a zero or a one.
fn is_bit(byte: u8) -> bool
    ensures { result ≡ is_bit byte }
{
    byte == b'0' || byte == b'1'
}

fn are_bits(bytes: &[u8]) -> bool
    ensures { IsTrue result ↔ AllOf is_bit bytes.now }
{
    for byte in bytes {
        if !is_bit(*byte) {
            return false;
        }
    }
    true
}

/// Whether the bytes are zeros and ones, one at least.
fn is_value(bytes: &[u8]) -> bool
    ensures { IsTrue result ↔ BeginsThen is_bit is_bit bytes.now }
{
    match bytes {
        [] => false,
        [first, rest @ ..] => is_bit(*first) && are_bits(rest),
    }
}

/// The change of a word of the digit of a bit and of these bytes behind it.
fn scalar<'a>(word: Word<'a>, code: &'a [u8], behind: Left<'a>) -> Result<Item<'a>, u32>
    requires { (bit : Bool) × (word.bytes.now ≡ digit_of bit ∷ code.now) }
    ensures item { IfOk result
        (IsItem (end_of behind.entry) (shown word.entry ∷ words_in behind.entry)) }
    ensures end { IfOk result (λ it. end_of (left_of behind.entry it) ≡ end_of behind.entry) }
    ensures shorter { IfOk result (λ it.
        length (left_of behind.entry it).text.now ≤ length behind.entry.text.now) }
    ensures fault { IfErr result
        (FailsAt HasChanges (end_of behind.entry) (shown word.entry ∷ words_in behind.entry)) }
{
    if !is_code(code) {
        return Err(word.at);
    }
    let change = Changed {
        at: word.at,
        code_at: word.at,
        code,
        digits: &word.bytes[..1],
    };
    Ok(Item::Change(change, behind))
}

/// The change of a word of `b` and of these bytes behind it, and of the code in the next word.
fn vector<'a>(word: Word<'a>, digits: &'a [u8], behind: Left<'a>) -> Result<Item<'a>, u32>
    requires fits { end_of behind < 2 ^ 32 }
    requires bytes { word.bytes.now ≡ 98 ∷ digits.now }
    ensures item { IfOk result
        (IsItem (end_of behind.entry) (shown word.entry ∷ words_in behind.entry)) }
    ensures end { IfOk result (λ it. end_of (left_of behind.entry it) ≡ end_of behind.entry) }
    ensures shorter { IfOk result (λ it.
        length (left_of behind.entry it).text.now ≤ length behind.entry.text.now) }
    ensures fault { IfErr result
        (FailsAt HasChanges (end_of behind.entry) (shown word.entry ∷ words_in behind.entry)) }
{
    if !is_value(digits) {
        return Err(word.at);
    }
    match word_in(behind, Slot::Code) {
        Ok((code, left)) => {
            let change = Changed {
                at: word.at,
                code_at: code.at,
                code: code.bytes,
                digits,
            };
            Ok(Item::Change(change, left))
        }
        Err(at) => Err(at),
    }
}

/// The time of a word that begins with neither a digit of a bit nor `b`.
fn stamp_in<'a>(word: Word<'a>, behind: Left<'a>) -> Result<Item<'a>, u32>
    requires { IsOther word.bytes.now }
    ensures item { IfOk result
        (IsItem (end_of behind.entry) (shown word.entry ∷ words_in behind.entry)) }
    ensures end { IfOk result (λ it. end_of (left_of behind.entry it) ≡ end_of behind.entry) }
    ensures shorter { IfOk result (λ it.
        length (left_of behind.entry it).text.now ≤ length behind.entry.text.now) }
    ensures fault { IfErr result
        (FailsAt HasChanges (end_of behind.entry) (shown word.entry ∷ words_in behind.entry)) }
{
    match time_of(word.bytes) {
        Some(time) => Ok(Item::Time(Stamp { at: word.at, time }, behind)),
        None => Err(word.at),
    }
}

/// What this word begins.
fn item_of<'a>(word: Word<'a>, behind: Left<'a>) -> Result<Item<'a>, u32>
    requires { end_of behind < 2 ^ 32 }
    ensures item { IfOk result
        (IsItem (end_of behind.entry) (shown word.entry ∷ words_in behind.entry)) }
    ensures end { IfOk result (λ it. end_of (left_of behind.entry it) ≡ end_of behind.entry) }
    ensures shorter { IfOk result (λ it.
        length (left_of behind.entry it).text.now ≤ length behind.entry.text.now) }
    ensures fault { IfErr result
        (FailsAt HasChanges (end_of behind.entry) (shown word.entry ∷ words_in behind.entry)) }
{
    let [first, rest @ ..] = word.bytes else {
        return stamp_in(word, behind);
    };
    if is_bit(*first) {
        return scalar(word, rest, behind);
    }
    if *first == b'b' {
        return vector(word, rest, behind);
    }
    stamp_in(word, behind)
}

/// What stands next.
pub fn next_item(left: Left<'_>) -> Result<Item<'_>, u32>
    requires { end_of left < 2 ^ 32 }
    ensures item { IfOk result (IsItem (end_of left.entry) (words_in left.entry)) }
    ensures end { IfOk result (λ it. end_of (left_of left.entry it) ≡ end_of left.entry) }
    ensures shorter { IfOk result (λ it. IsShorter it left.entry.text.now) }
    ensures fault { IfErr result (FailsAt HasChanges (end_of left.entry) (words_in left.entry)) }
{
    match next(left) {
        Some((word, behind)) => item_of(word, behind),
        None => Ok(Item::Nothing),
    }
}
