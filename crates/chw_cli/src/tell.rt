//! The one line by which a refusal is told.
ghost use Rattle.std.specs.Prelude.{◌≡◌, IfOk};
ghost use Rattle.chw_cli.specs.Lines.{line_of};
ghost use Rattle.chw_cli.specs.Outcome.{Told};
ghost use Rattle.chw_cli.specs.Telling.{Puts, place_line};

use crate::lines::{fault_line, rule_words, stim_words, type_line};
use crate::refusal::Refusal;
use crate::status::Status;
use chw_base::{Name, NoMemory, Or, Seq, Sink, WireId};
use chw_check::TypeFault;
use chw_resolve::NameFault;
use itoa::Buffer;
use std::alloc::Global;

/// Puts the line of the refusal, and says with which status the program ends.
///
/// Only a line that shows a place, a number of steps, a file's name, names, a type or wires takes
/// memory to make.
pub(crate) fn tell<E: Sink>(alloc: Global, refusal: &Refusal, err: &mut E) -> Status
    ensures { Told E.put_gives E.written E.faults refusal.now err.old err.new result }
{
    match refusal {
        Refusal::Words => put_line(alloc, "chw: words\n", Status::Words, err),
        Refusal::Read(file) => tell_unread(alloc, file, err),
        Refusal::LongText => put_line(alloc, "chw: E03 limit text 4194304\n", Status::Refused, err),
        Refusal::Lex(at) => tell_place(
            alloc,
            "chw: E01 lex at ",
            *at as usize,
            Status::Refused,
            err,
        ),
        Refusal::Syntax(at) => tell_place(
            alloc,
            "chw: E02 syntax at ",
            *at as usize,
            Status::Refused,
            err,
        ),
        Refusal::Depth => put_line(alloc, "chw: E03 limit depth 200\n", Status::Refused, err),
        Refusal::Names(fault) => tell_names(alloc, fault, err),
        Refusal::Types(fault) => tell_types(alloc, fault, err),
        Refusal::DeepBody => put_line(alloc, "chw: E12 depth 2000\n", Status::Refused, err),
        Refusal::FullTable => put_line(alloc, "chw: E17 size made 4096\n", Status::Refused, err),
        Refusal::Spent(steps) => tell_place(
            alloc,
            "chw: E18 spent ",
            *steps as usize,
            Status::Spent,
            err,
        ),
        Refusal::Verilog(fault) => tell_place(
            alloc,
            rule_words(fault.code),
            fault.at,
            Status::Verilog,
            err,
        ),
        Refusal::Stimulus(fault) => tell_place(
            alloc,
            stim_words(fault.code),
            fault.line as usize,
            Status::Stimulus,
            err,
        ),
        Refusal::Value(line) => tell_place(
            alloc,
            "chw: S04 line ",
            *line as usize,
            Status::Stimulus,
            err,
        ),
        Refusal::State(line) => put_bytes(alloc, line.as_slice(), Status::Refused, err),
        Refusal::TooLarge => put_line(alloc, "chw: E17 size wires 200000\n", Status::Refused, err),
        Refusal::Loop(cycle) => tell_loop(alloc, cycle, err),
        Refusal::Bits => put_line(alloc, "chw: E21 bits 500000\n", Status::Refused, err),
        Refusal::Write => put_line(alloc, "chw: write\n", Status::Write, err),
        Refusal::Memory => put_line(alloc, "chw: memory\n", Status::Memory, err),
    }
}

/// Puts the line of a file that couldn't be read.
fn tell_unread<E: Sink>(alloc: Global, file: &Name, err: &mut E) -> Status
    ensures { Told E.put_gives E.written E.faults (Refusal.Read file.now) err.old err.new result }
{
    match unread_line(alloc, file) {
        Ok(line) => put_bytes(alloc, line.as_slice(), Status::Read, err),
        Err(NoMemory) => Status::Memory,
    }
}

/// Puts the line of a fault of names or references.
fn tell_names<E: Sink>(alloc: Global, fault: &NameFault, err: &mut E) -> Status
    ensures { Told E.put_gives E.written E.faults (Refusal.Names fault.now) err.old err.new result }
{
    match fault_line(alloc, fault) {
        Ok(line) => put_bytes(alloc, line.as_slice(), Status::Refused, err),
        Err(NoMemory) => Status::Memory,
    }
}

/// Puts the line of a fault of types.
fn tell_types<E: Sink>(alloc: Global, fault: &TypeFault, err: &mut E) -> Status
    ensures { Told E.put_gives E.written E.faults (Refusal.Types fault.now) err.old err.new result }
{
    match type_line(alloc, fault) {
        Ok(line) => put_bytes(alloc, line.as_slice(), Status::Refused, err),
        Err(NoMemory) => Status::Memory,
    }
}

/// Puts the line of a place in the text. The status is the given one, if that found memory.
fn tell_place<E: Sink>(alloc: Global, text: &str, at: usize, status: Status, err: &mut E) -> Status
    ensures { Puts E.put_gives E.written E.faults (place_line text.now at) (Unit {0}) status err.old err.new result }
{
    match place_line(alloc, text, at) {
        Ok(line) => put_bytes(alloc, line.as_slice(), status, err),
        Err(NoMemory) => Status::Memory,
    }
}

/// The line of a place in the text: these words, the place, and a line feed.
fn place_line(alloc: Global, text: &str, at: usize) -> Result<Vec<u8>, NoMemory>
    ensures { IfOk result (λ line. line.items ≡ place_line text.now at) }
{
    let mut buffer = Buffer::new();
    let mut line = Vec::from_slice(alloc, text.as_bytes())?;
    line.extend_from_slice(buffer.format(at).as_bytes())?;
    line.push(b'\n')?;
    Ok(line)
}

/// Puts the line of a loop.
fn tell_loop<E: Sink>(alloc: Global, cycle: &Seq<WireId>, err: &mut E) -> Status
    ensures { Told E.put_gives E.written E.faults (Refusal.Loop cycle.now) err.old err.new result }
{
    match loop_line(alloc, cycle) {
        Ok(line) => put_bytes(alloc, line.as_slice(), Status::Refused, err),
        Err(NoMemory) => Status::Memory,
    }
}

/// The line of a loop, with all wires of its cycle.
fn loop_line(alloc: Global, cycle: &Seq<WireId>) -> Result<Vec<u8>, NoMemory>
    ensures { IfOk result (λ line. line.items ≡ line_of (Refusal.Loop cycle.now)) }
{
    let mut line = Vec::from_slice(alloc, "chw: E16 loop".as_bytes())?;
    for wire in cycle.as_slice() {
        let mut buffer = Buffer::new();
        line.push(b' ')?;
        line.extend_from_slice(buffer.format(wire.number).as_bytes())?;
    }
    line.push(b'\n')?;
    Ok(line)
}

/// The line of a file that couldn't be read.
fn unread_line(alloc: Global, file: &Name) -> Result<Vec<u8>, NoMemory>
    ensures { IfOk result (λ line. line.items ≡ line_of (Refusal.Read file.now)) }
{
    let mut line = Vec::from_slice(alloc, "chw: read ".as_bytes())?;
    line.extend_from_slice(file.as_slice())?;
    line.extend_from_slice("\n".as_bytes())?;
    Ok(line)
}

/// Puts a line in one call. The status is the given one, if that found memory.
fn put_line<E: Sink>(alloc: Global, line: &str, status: Status, err: &mut E) -> Status
    ensures { Puts E.put_gives E.written E.faults line.now ⊥ status err.old err.new result }
{
    put_bytes(alloc, line.as_bytes(), status, err)
}

/// Puts the bytes of a line in one call. The status is the given one, if that found memory.
fn put_bytes<E: Sink>(alloc: Global, line: &[u8], status: Status, err: &mut E) -> Status
    ensures { Puts E.put_gives E.written E.faults line.now ⊥ status err.old err.new result }
{
    match err.put(alloc, line) {
        Ok(()) => status,
        Err(Or::Fault(_)) => status,
        Err(Or::Memory) => Status::Memory,
    }
}
