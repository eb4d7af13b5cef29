//! The statements of a text.
ghost use Rattle.std.specs.Prelude.{◌≡◌, ◌+◌, ◌<◌, ◌^◌, [], length, IfOk, IfSome, IfNone};
ghost use Rattle.chw_base.specs.Outcome.{IfFault};
ghost use Rattle.blif_text.specs.BlifText.{TextSays};
ghost use Rattle.blif_read.specs.Reading.{IsFormFault, IsNext, IsPlaced, IsStuck, IsUnfit};
ghost use Rattle.blif_read.specs.Shown.{all_said, end_of, line_of, lines_left};

use crate::lines::{Left, Line, line_count, next_line};
use crate::places::{Place, place_behind};
use crate::saying::statement_of;
use crate::statement::Said;
use chw_base::Or;
use std::alloc::Global;

/// What of a text isn't read yet, and what may stand there first.
#[derive(Clone, Copy)]
pub struct At<'a> {
    pub left: Left<'a>,
    pub place: Place,
}

/// The statement of a line at a place, and what may stand behind it. A fault is the number of a
/// line that doesn't fit.
fn said_at<'a>(alloc: Global, line: &Line<'a>, place: Place) -> Result<(Said<'a>, Place), Or<u32>>
    ensures placed { IfOk result (λ r. IsPlaced place (line_of line.now) r.0 r.1) }
    ensures fault { IfFault result (IsUnfit place (line_of line.now)) }
{
    let number = line.number;
    let Some(says) = statement_of(alloc, line.words.as_slice())? else {
        return Err(Or::Fault(number));
    };
    match place_behind(place, &says) {
        Some(next) => Ok((Said { number, says }, next)),
        None => Err(Or::Fault(number)),
    }
}

/// The statement of the first line, and what is left behind it.
fn next_said<'a>(alloc: Global, at: At<'a>) -> Result<Option<(Said<'a>, At<'a>)>, Or<u32>>
    requires { end_of at.left < 2 ^ 32 }
    ensures some { IfOk result (λ r. IfSome r (λ p. IsNext at.entry p.0 p.1)) }
    ensures none { IfOk result (λ r. IfNone r (lines_left at.entry.left ≡ [])) }
    ensures fault { IfFault result (IsStuck at.entry) }
{
    let Some((line, left)) = next_line(alloc, at.left)? else {
        return Ok(None);
    };
    let (it, place) = said_at(alloc, &line, at.place)?;
    Ok(Some((it, At { left, place })))
}

/// The statements of a text. A fault is the number of the line that isn't of the form or is out of
/// place, or of the last line, where the text ends too early.
pub fn statements<'a>(alloc: Global, text: &'a [u8]) -> Result<Vec<Said<'a>>, Or<u32>>
    requires { length text.now + 1 < 2 ^ 32 }
    ensures says { IfOk result (λ all. TextSays text.now (all_said all.items)) }
    ensures fault { IfFault result (IsFormFault text.now) }
{
    let mut all = Vec::new(alloc);
    let mut at = At {
        left: Left { text, number: 1 },
        place: Place::AtModel,
    };
    while let Some((it, behind)) = next_said(alloc, at)? {
        all.push(it)?;
        at = behind;
    }
    match at.place {
        Place::BehindEnd => Ok(all),
        _ => Err(Or::Fault(line_count(text))),
    }
}
