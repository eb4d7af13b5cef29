//! The events of a text.
ghost use Rattle.std.specs.Prelude.{◌≡◌, ◌+◌, ◌<◌, ◌≤◌, ◌^◌, ◌++◌, ◌⊎◌, length, IfOk, OnOk};
ghost use Rattle.std.specs.List.{AllByRecursion};
ghost use Rattle.chw_base.specs.Outcome.{IfFault};
ghost use Rattle.chw_base.specs.declared.limits.TheConstants.{EVENTS};
ghost use Rattle.chw_clock.specs.Histories.{FitsEvent};
ghost use Rattle.stimulus.specs.Texts.{before, behind, texts};
ghost use Rattle.stimulus.specs.Stimulus.{IsBroken, IsFaultOf, IsRight, IsStimFault, LineOf, Stim, line_events};
ghost use Rattle.stimulus.specs.Words.{HasDigits};
ghost use Rattle.stimulus.specs.declared.fault.StimCode.TheVariants.{S01};

use crate::cut::cut;
use crate::event::{event_of, put_copies};
use crate::fault::{StimCode, StimFault};
use crate::form::{Words, have_digits, without_count, words_of};
use crate::names::have_names;
use chw_base::limits::{EVENTS, STIMULUS_BYTES};
use chw_base::{NoMemory, Or, Seq};
use chw_clock::{Event, Ports};
use std::alloc::Global;

/// How many equal events a line stands for, and one of them.
#[derive(Drop)]
struct Line {
    count: u32,
    event: Event,
}

// The code of a line that would break this but for its form, of which the digits of its parts are left.
fn code_of(parts: &[&[u8]], code: StimCode) -> StimCode
    ensures { (AllByRecursion HasDigits (texts parts.now) × (result ≡ code))
        ⊎ ((AllByRecursion HasDigits (texts parts.now) → ⊥) × (result ≡ S01)) }
{
    if have_digits(parts) {
        code
    } else {
        StimCode::S01
    }
}

/// The events of a line.
fn line_of(alloc: Global, text: &[u8], ports: &Ports) -> Result<Line, Or<StimCode>>
    ensures line { IfOk result (λ line. LineOf ports.now text.now line.count line.event) }
    ensures fault { IfFault result (IsBroken ports.now text.now) }
{
    let Some(line) = without_count(text) else {
        return Err(Or::Fault(StimCode::S01));
    };
    let Some(words) = words_of(alloc, line.body, ports.inputs.len())? else {
        return Err(Or::Fault(StimCode::S01));
    };
    if !have_names(&words, ports) {
        return Err(Or::Fault(code_of(&words.parts, StimCode::S02)));
    }
    match event_of(alloc, &words, ports) {
        Ok(event) => Ok(Line {
            count: line.count,
            event,
        }),
        Err(Or::Memory) => Err(Or::Memory),
        Err(Or::Fault(_)) => Err(Or::Fault(code_of(&words.parts, StimCode::S03))),
    }
}

/// Appends the events of a line.
fn put_line(
    alloc: Global,
    text: &[u8],
    ports: &Ports,
    events: &mut Vec<Event>,
) -> Result<(), Or<StimCode>>
    requires { length events.old.items ≤ EVENTS }
    ensures right { OnOk result (IsRight ports.now text.now) }
    ensures events { OnOk result (events.new.items ≡ events.old.items ++ line_events ports.now text.now) }
    ensures few { OnOk result (length events.new.items ≤ EVENTS) }
    ensures fault { IfFault result (IsFaultOf ports.now (length events.old.items) text.now) }
{
    let line = line_of(alloc, text, ports)?;
    if line.count as usize > EVENTS as usize - events.len() {
        return Err(Or::Fault(StimCode::S05));
    }
    put_copies(alloc, line.event, line.count, events)?;
    Ok(())
}

/// What of a text isn't read yet, and how many lines stand before it.
#[derive(Clone, Copy)]
struct Left<'a> {
    text: &'a [u8],
    lines: u32,
}

/// The first line, and what stands behind its line feed.
fn first_line(text: &[u8]) -> (&[u8], &[u8])
    ensures line { result.0.now ≡ before 10 text.now }
    ensures rest { result.1.now ≡ behind 10 text.now }
{
    match cut(text, b'\n') {
        Some((line, rest)) => (line, rest),
        None => (text, &[]),
    }
}

/// Appends the events of the first line that is left.
fn put_first<'a>(
    alloc: Global,
    left: Left<'a>,
    ports: &Ports,
    events: &mut Vec<Event>,
) -> Result<Left<'a>, Or<StimFault>>
    requires few { length events.old.items ≤ EVENTS }
    requires number { left.lines + 1 < 2 ^ 32 }
    ensures text { IfOk result (λ rest. rest.text.now ≡ behind 10 left.entry.text.now) }
    ensures lines { IfOk result (λ rest. rest.lines ≡ left.entry.lines + 1) }
    ensures right { OnOk result (IsRight ports.now (before 10 left.entry.text.now)) }
    ensures events { OnOk result (events.new.items ≡ events.old.items ++ line_events ports.now (before 10 left.entry.text.now)) }
    ensures few { OnOk result (length events.new.items ≤ EVENTS) }
    ensures number { IfFault result (λ fault. fault.line ≡ left.entry.lines + 1) }
    ensures fault { IfFault result (λ fault. IsFaultOf ports.now (length events.old.items) (before 10 left.entry.text.now) fault.code) }
{
    let (text, rest) = first_line(left.text);
    let lines = left.lines + 1;
    match put_line(alloc, text, ports, events) {
        Ok(()) => Ok(Left { text: rest, lines }),
        Err(Or::Memory) => Err(Or::Memory),
        Err(Or::Fault(code)) => Err(Or::Fault(StimFault { code, line: lines })),
    }
}

/// The events of a stimulus, for these ports.
///
/// A fault is the first line that isn't taken, with what it breaks first: its form, the names of the
/// ports, the widths of the inputs, the most events. A text that is too long has line 0.
///
/// Want of memory may come before the fault of the same line or of a later one. Ports with more domains than can be numbered
/// find no memory at a line that names one past these.
pub fn read_stimulus(alloc: Global, text: &[u8], ports: &Ports) -> Result<Seq<Event>, Or<StimFault>>
    ensures stimulus { IfOk result (λ events. Stim text.now ports.now events) }
    ensures fit { IfOk result (λ events. AllByRecursion (FitsEvent ports.now) events) }
    ensures fault { IfFault result (IsStimFault text.now ports.now) }
{
    if text.len() > STIMULUS_BYTES as usize {
        return Err(Or::Fault(StimFault {
            code: StimCode::S05,
            line: 0,
        }));
    }
    let mut events = Vec::new(alloc);
    let mut left = Left { text, lines: 0 };
    while !left.text.is_empty() {
        left = put_first(alloc, left, ports, &mut events)?;
    }
    Ok(Seq::from(events))
}
