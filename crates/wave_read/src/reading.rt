//! The wave of a text.
ghost use Rattle.std.specs.Prelude.{◌≡◌, ◌<◌, ◌^◌, List, length, IfOk};
ghost use Rattle.chw_base.specs.Outcome.{IfFault};
ghost use Rattle.wave_text.specs.Faults.{FailsAt, HasSource, IsVcdFault};
ghost use Rattle.wave_read.specs.Reading.{FailsBehind, HasDeclarations, end_of, words_in};
ghost use Rattle.wave_read.specs.Sources.{source_of};
ghost use Rattle.wave_text.specs.VcdText.{AreDeclarations, IsSource, VcdText};
ghost use Rattle.wave_text.specs.VcdText.{Declared as Variable, Moment as Time};
ghost use Rattle.wave_text.specs.Words.{words_of};

use crate::definitions::{Definitions, definitions_of};
use crate::denoting::wave_of;
use crate::moments::times_in;
use crate::rows::row_of;
use crate::slots::Slot;
use crate::source::Source;
use crate::words::Left;
use chw_base::Or;
use std::alloc::Global;
use wave_text::{VcdCode, VcdFault, Wave};

/// What is left behind the words with which a text begins.
fn behind_first<'a>(alloc: Global, text: &'a [u8]) -> Result<Left<'a>, Or<u32>>
    requires { length text.now < 2 ^ 32 }
    ensures forms { IfOk result (λ left. (declared : List Variable) (moments : List Time)
        → AreDeclarations (words_in left) declared moments
        → IsSource (words_of text.now) (record { declared = declared; moments = moments })) }
    ensures fails { IfOk result (λ left. FailsBehind HasDeclarations HasSource (length text.now)
        (words_in left) (words_of text.now)) }
    ensures end { IfOk result (λ left. end_of left ≡ length text.now) }
    ensures fault { IfFault result (FailsAt HasSource (length text.now) (words_of text.now)) }
{
    let slots = [
        Slot::Timescale,
        Slot::One,
        Slot::Ns,
        Slot::End,
        Slot::Scope,
        Slot::Module,
        Slot::Top,
        Slot::End,
    ];
    let row = row_of(alloc, Left { at: 0, text }, &slots)?;
    Ok(row.left)
}

/// The declarations and the times of a text.
fn source<'a>(alloc: Global, text: &'a [u8]) -> Result<Source<'a>, Or<u32>>
    requires { length text.now < 2 ^ 32 }
    ensures source { IfOk result (λ it. IsSource (words_of text.now) (source_of it)) }
    ensures fault { IfFault result (FailsAt HasSource (length text.now) (words_of text.now)) }
{
    let first = behind_first(alloc, text)?;
    let Definitions { declared, left } = definitions_of(alloc, first)?;
    let times = times_in(alloc, left)?;
    Ok(Source { declared, times })
}

/// The wave of a text.
///
/// A fault is what the text breaks first: its form, the codes, the widths of changes, the order of
/// times; and the place of it. Want of memory may come before it.
pub fn read_vcd(alloc: Global, text: &[u8]) -> Result<Wave, Or<VcdFault>>
    requires { length text.now < 2 ^ 32 }
    ensures wave { IfOk result (VcdText text.now) }
    ensures fault { IfFault result (IsVcdFault text.now) }
{
    match source(alloc, text) {
        Ok(source) => wave_of(alloc, &source),
        Err(Or::Memory) => Err(Or::Memory),
        Err(Or::Fault(at)) => Err(Or::Fault(VcdFault {
            code: VcdCode::X01,
            at,
        })),
    }
}
