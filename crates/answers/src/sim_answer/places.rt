//! The line of an event.
ghost use Rattle.std.specs.Prelude.{◌≡◌, false, IfOk, IfSome, IfNone, IsTrue};
ghost use Rattle.std.specs.List.{position};
ghost use Rattle.stimulus.specs.Stimulus.{count_of};
ghost use Rattle.stimulus.specs.Texts.{before, behind, has, is};
ghost use Rattle.answers.specs.SimAnswer.Places.{HasEvent, IsLineOf, IsOneLine};

use chw_base::{NoMemory, Or};
use chw_clock::Ports;
use memchr::memchr;
use std::alloc::Global;
use stimulus::laws::no_fault;
use stimulus::read_stimulus;

/// The place of the first line feed.
fn place(text: &[u8]) -> Option<usize>
    ensures { result ≡ position (is 10) text.now }
{
    memchr(b'\n', text)
}

/// What stands before the first line feed and behind it, where there is one.
fn cut(text: &[u8]) -> Option<(&[u8], &[u8])>
    ensures has { IfSome result (λ _. IsTrue (has 10 text.now)) }
    ensures before { IfSome result (λ r. r.0.now ≡ before 10 text.now) }
    ensures behind { IfSome result (λ r. r.1.now ≡ behind 10 text.now) }
    ensures none { IfNone result (has 10 text.now ≡ false) }
{
    let place = place(text)?;
    Some((&text[..place], &text[place + 1..]))
}

/// The first line, and what stands behind its line feed.
fn first_line(text: &[u8]) -> (&[u8], &[u8])
    ensures line { result.0.now ≡ before 10 text.now }
    ensures rest { result.1.now ≡ behind 10 text.now }
{
    match cut(text) {
        Some((line, rest)) => (line, rest),
        None => (text, &[]),
    }
}

/// How many events a line stands for. The line is read by itself.
fn event_count(alloc: Global, line: &[u8], ports: &Ports) -> Result<usize, NoMemory>
    requires { IsOneLine ports.now line.now }
    ensures { IfOk result (λ count. count ≡ count_of line.now) }
{
    no_fault();
    match read_stimulus(alloc, line, ports) {
        Ok(events) => Ok(events.len()),
        Err(Or::Memory) => Err(NoMemory),
        Err(Or::Fault(_)) => unreachable!(),
    }
}

/// The number, counted from 1, of the line that stands for the event of this number, counted from 0.
pub(crate) fn line_of_event(
    alloc: Global,
    text: &[u8],
    ports: &Ports,
    place: usize,
) -> Result<u32, NoMemory>
    requires { HasEvent ports.now text.now place }
    ensures { IfOk result (λ line. IsLineOf ports.now text.now place line) }
{
    let mut left = text;
    let mut line = 1;
    // How many events of the lines before it the event has before it.
    let mut events = 0;
    while !left.is_empty() {
        let (first, rest) = first_line(left);
        let count = event_count(alloc, first, ports)?;
        if place - events < count {
            return Ok(line);
        }
        events += count;
        line += 1;
        left = rest;
    }
    unreachable!()
}
