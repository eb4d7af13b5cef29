//! The times of a text, each with its changes.
ghost use Rattle.std.specs.Prelude.{◌≡◌, ◌<◌, ◌^◌, [], ◌∷◌};
ghost use Rattle.std.specs.Prelude.{IfOk, IfSome, IfNone, IfErr};
ghost use Rattle.chw_base.specs.Outcome.{IfFault};
ghost use Rattle.wave_text.specs.Faults.{FailsAt};
ghost use Rattle.wave_read.specs.Reading.{HasChanges, HasTimes, IsLess, PutsChanges, end_of};
ghost use Rattle.wave_read.specs.Reading.{words_in};
ghost use Rattle.wave_text.specs.VcdText.{AreChanges, IsTime};
ghost use Rattle.wave_text.specs.Words.{Word as TextWord};

use crate::items::{Item, Stamp, next_item};
use crate::numbers::time_of;
use crate::source::{Changed, Moment};
use crate::times::Times;
use crate::words::{Left, next};
use chw_base::Or;
use std::alloc::Global;

/// The time behind changes, if there is one, and what is left behind that.
#[derive(Clone, Copy)]
struct Behind<'a> {
    next: Option<Stamp>,
    left: Left<'a>,
}

/// Puts the changes up to the next time or the end behind others.
fn changes_in<'a>(changes: &mut Vec<Changed<'a>>, left: Left<'a>) -> Result<Behind<'a>, Or<u32>>
    requires { end_of left < 2 ^ 32 }
    ensures puts { IfOk result (λ it. PutsChanges (end_of left.entry) (words_in left.entry)
        changes.old.items changes.new.items it.next (words_in it.left)) }
    ensures end { IfOk result (λ it. end_of it.left ≡ end_of left.entry) }
    ensures shorter { IfOk result (λ it. IsLess it.next it.left.text.now left.entry.text.now) }
    ensures fault { IfFault result (FailsAt HasChanges (end_of left.entry) (words_in left.entry)) }
{
    let mut rest = left;
    loop {
        match next_item(rest) {
            Ok(Item::Change(change, behind)) => {
                changes.push(change)?;
                rest = behind;
            }
            Ok(Item::Time(stamp, behind)) => {
                return Ok(Behind {
                    next: Some(stamp),
                    left: behind,
                });
            }
            Ok(Item::Nothing) => {
                return Ok(Behind {
                    next: None,
                    left: rest,
                });
            }
            Err(at) => return Err(Or::Fault(at)),
        }
    }
}

/// The first time and what is left behind it, where the text has one.
fn first_time(left: Left<'_>) -> Result<Option<(Stamp, Left<'_>)>, u32>
    requires { end_of left < 2 ^ 32 }
    ensures some { IfOk result (λ r. IfSome r (λ it. (w : TextWord)
        × (words_in left.entry ≡ w ∷ words_in it.1)
        × IsTime w.bytes it.0.time × (w.at ≡ it.0.at))) }
    ensures end { IfOk result (λ r. IfSome r (λ it. end_of it.1 ≡ end_of left.entry)) }
    ensures none { IfOk result (λ r. IfNone r (words_in left.entry ≡ [])) }
    ensures fault { IfErr result (FailsAt HasTimes (end_of left.entry) (words_in left.entry)) }
{
    let Some((word, behind)) = next(left) else {
        return Ok(None);
    };
    match time_of(word.bytes) {
        Some(time) => Ok(Some((Stamp { at: word.at, time }, behind))),
        None => Err(word.at),
    }
}

/// The times from this one on, each with its changes.
fn times_from<'a>(alloc: Global, first: Stamp, left: Left<'a>) -> Result<Times<'a>, Or<u32>>
    requires { end_of left < 2 ^ 32 }
    ensures forms { IfOk result (λ times. (w : TextWord) → IsTime w.bytes first.time
        → w.at ≡ first.at → AreChanges (w ∷ words_in left.entry) [] times) }
    ensures fault { IfFault result (λ at. (w : TextWord) → IsTime w.bytes first.time
        → w.at ≡ first.at → FailsAt HasTimes (end_of left.entry) (w ∷ words_in left.entry) at) }
{
    let mut moments = Vec::new(alloc);
    let mut changes = Vec::new(alloc);
    let mut next = Some(first);
    let mut rest = left;
    while let Some(stamp) = next {
        let before = changes.len();
        let read = changes_in(&mut changes, rest)?;
        next = read.next;
        rest = read.left;
        moments.push(Moment {
            at: stamp.at,
            time: stamp.time,
            count: changes.len() - before,
        })?;
    }
    Ok(Times::of(moments, changes))
}

/// The times behind the definitions, each with its changes.
pub fn times_in<'a>(alloc: Global, left: Left<'a>) -> Result<Times<'a>, Or<u32>>
    requires { end_of left < 2 ^ 32 }
    ensures forms { IfOk result (AreChanges (words_in left.entry) []) }
    ensures fault { IfFault result (FailsAt HasTimes (end_of left.entry) (words_in left.entry)) }
{
    match first_time(left) {
        Ok(Some((first, behind))) => times_from(alloc, first, behind),
        Ok(None) => Ok(Times::none(alloc)),
        Err(at) => Err(Or::Fault(at)),
    }
}
