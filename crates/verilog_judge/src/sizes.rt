//! The widths of wires and outputs.
ghost use Rattle.std.specs.Prelude.{◌≡◌, ◌<◌, ◌≤◌, ◌^◌, IfOk, map, slice_index, take};
ghost use Rattle.chw_base.specs.declared.limits.TheConstants.{RAM_WORDS};
ghost use Rattle.verilog_checks.specs.Narrow.{AreNarrow};
ghost use Rattle.verilog_judge.specs.Read.{AreNarrowWires};
ghost use Rattle.verilog_rules.specs.WidthRules.{count_of, wide, widths_of};
ghost use Rattle.verilog_rules.specs.Texts.{width};
ghost use Rattle.verilog_rules.specs.declared.resolved.Wire.{Wire};
ghost use Rattle.verilog_tree.specs.declared.word.Line.{Line};

use chw_base::NoMemory;
use std::alloc::Global;
use verilog_checks::numbers::{bits_of, exact};
use verilog_rules::{Operand, Wire};
use verilog_tree::{Line, Memory};

/// The width of an operand, by those of the wires.
pub(crate) fn wide(widths: &[u32], a: Operand) -> u32
    ensures is { result ≡ wide widths.now a }
    ensures fits { result < 2 ^ 32 }
{
    widths.get(a.wire.number as usize).copied().unwrap_or(0)
}

/// The widths of wires.
pub(crate) fn bits_of_wires(alloc: Global, wires: &[Wire<'_>]) -> Result<Vec<u32>, NoMemory>
    requires { AreNarrowWires wires.now }
    ensures { IfOk result (λ widths. widths.items ≡ map (λ (w : Wire). width w.line.range) wires.now) }
{
    let mut widths = Vec::new(alloc);
    for wire in wires {
        widths.push(bits_of(&wire.line.range))?;
    }
    Ok(widths)
}

/// The widths of lines.
pub(crate) fn bits_of_lines(alloc: Global, lines: &[Line<'_>]) -> Result<Vec<u32>, NoMemory>
    requires { AreNarrow lines.now }
    ensures { IfOk result (λ widths. widths.items ≡ widths_of lines.now) }
{
    let mut widths = Vec::new(alloc);
    for line in lines {
        widths.push(bits_of(&line.range))?;
    }
    Ok(widths)
}

/// The first wires, as many as the count, or all where there are fewer.
pub(crate) fn first_wires<'a, 't>(wires: &'a [Wire<'t>], count: usize) -> &'a [Wire<'t>]
    ensures { result.now ≡ take count wires.now }
{
    if count < wires.len() {
        &wires[..count]
    } else {
        wires
    }
}

/// The width of the output of this number.
pub(crate) fn output_width(lines: &[Line<'_>], k: usize) -> u32
    requires { AreNarrow lines.now }
    ensures { result ≡ slice_index (widths_of lines.now) k }
{
    match lines.get(k) {
        Some(line) => bits_of(&line.range),
        None => 0,
    }
}

/// How many words a memory has that has no more than it may have.
pub(crate) fn count_of(memory: &Memory<'_>) -> u32
    requires { count_of memory.now ≤ RAM_WORDS }
    ensures { result ≡ count_of memory.now }
{
    exact(memory.places.to.bytes) + 1
}
