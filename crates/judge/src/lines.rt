//! The line that says why a state is refused.
ghost use Rattle.std.specs.Prelude.{◌≡◌, ◌++◌, decimal, IfOk, OnOk};
ghost use Rattle.blocked_places.specs.Answers.{block_of};
ghost use Rattle.judge.specs.Lines.{limit_text, number_texts, payload_line, place_line, recursion_line, state_line, uses_line, wide_line};

use crate::states::{BlockedAt, StateFault};
use blocked_places::Block;
use chw_base::{MadeId, NoMemory};
use chw_layout::NoLayout;
use chw_terms::Program;
use chw_types::Ty;
use itoa::Buffer;
use std::alloc::Global;
use type_ports::type_text;

// Appends these bytes.
fn put(out: &mut Vec<u8>, text: &[u8]) -> Result<(), NoMemory>
    ensures { OnOk result (out.new.items ≡ out.old.items ++ text.now) }
{
    out.extend_from_slice(text)?;
    Ok(())
}

// Appends words and a number.
fn put_counted(out: &mut Vec<u8>, words: &[u8], number: u32) -> Result<(), NoMemory>
    ensures { OnOk result (out.new.items ≡ out.old.items ++ words.now ++ decimal number) }
{
    let mut digits = Buffer::new();
    put(out, words)?;
    put(out, digits.format(number).as_bytes())
}

// Appends numbers, each after a space.
fn put_numbers(out: &mut Vec<u8>, numbers: &[u32]) -> Result<(), NoMemory>
    ensures { OnOk result (out.new.items ≡ out.old.items ++ number_texts numbers.now) }
{
    for number in numbers {
        put_counted(out, b" ", *number)?;
    }
    Ok(())
}

// Appends the limit that is passed, and the number that passes it.
fn put_limit(out: &mut Vec<u8>, what: NoLayout) -> Result<(), NoMemory>
    ensures { OnOk result (out.new.items ≡ out.old.items ++ limit_text what) }
{
    match what {
        NoLayout::NotRepresentable => put(out, b"none"),
        NoLayout::Scalar(number) => put_counted(out, b"scalar ", number),
        NoLayout::Data(number) => put_counted(out, b"data ", number),
        NoLayout::Length(number) => put_counted(out, b"length ", number),
    }
}

// The line of a cycle of bindings.
fn recursion_line(alloc: Global, made: MadeId, bindings: &[u32]) -> Result<Vec<u8>, NoMemory>
    ensures { IfOk result (λ line. line.items ≡ recursion_line made.number bindings.now) }
{
    let mut line = Vec::new(alloc);
    put_counted(&mut line, b"chw: E13 recursion made ", made.number)?;
    put(&mut line, b" bindings")?;
    put_numbers(&mut line, bindings)?;
    put(&mut line, b"\n")?;
    Ok(line)
}

// The line of a payload that isn't representable.
fn payload_line(
    alloc: Global,
    program: &Program,
    made: MadeId,
    ty: &Ty,
) -> Result<Vec<u8>, NoMemory>
    ensures { IfOk result (λ line. line.items ≡ payload_line program.now made.number ty.now) }
{
    let text = type_text(
        alloc,
        ty,
        program.datas.as_slice(),
        program.domains.as_slice(),
    )?;
    let mut line = Vec::new(alloc);
    put_counted(&mut line, b"chw: E14 representation made ", made.number)?;
    put(&mut line, b" ")?;
    put(&mut line, text.as_slice())?;
    put(&mut line, b"\n")?;
    Ok(line)
}

// The line of a limit that is passed.
fn wide_line(alloc: Global, made: MadeId, what: NoLayout) -> Result<Vec<u8>, NoMemory>
    ensures { IfOk result (λ line. line.items ≡ wide_line made.number what) }
{
    let mut line = Vec::new(alloc);
    put_counted(&mut line, b"chw: E15 wide made ", made.number)?;
    put(&mut line, b" ")?;
    put_limit(&mut line, what)?;
    put(&mut line, b"\n")?;
    Ok(line)
}

// The line of a cycle of uses.
fn uses_line(alloc: Global, cycle: &[MadeId]) -> Result<Vec<u8>, NoMemory>
    ensures { IfOk result (λ line. line.items ≡ uses_line cycle.now) }
{
    let mut line = Vec::new(alloc);
    put(&mut line, b"chw: E13 recursion uses")?;
    for made in cycle {
        put_counted(&mut line, b" ", made.number)?;
    }
    put(&mut line, b"\n")?;
    Ok(line)
}

// The line of a blocked place.
fn place_line(alloc: Global, program: &Program, at: &BlockedAt) -> Result<Vec<u8>, NoMemory>
    ensures { IfOk result (λ line. line.items ≡ place_line program.now at.now.made.number (block_of at.now.block)) }
{
    match &at.block {
        Block::Recursion { bindings } => recursion_line(alloc, at.made, bindings.as_slice()),
        Block::Payload { ty } => payload_line(alloc, program, at.made, ty),
        Block::Limit { what } => wide_line(alloc, at.made, *what),
    }
}

/// The line that says why a state of this program is refused, with its line feed.
///
/// Bindings and made definitions are shown by their numbers, a payload as it stands.
pub fn state_line(alloc: Global, program: &Program, fault: &StateFault) -> Result<Vec<u8>, NoMemory>
    ensures { IfOk result (λ line. line.items ≡ state_line program.now fault.now) }
{
    match fault {
        StateFault::Blocked(at) => place_line(alloc, program, at),
        StateFault::Uses { cycle } => uses_line(alloc, cycle.as_slice()),
    }
}
