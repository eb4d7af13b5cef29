//! The lines of RAMs.
ghost use Rattle.std.specs.Prelude.{◌≡◌, ◌++◌, length, OnOk};
ghost use Rattle.std.specs.List.{concat};
ghost use Rattle.verilog_text.specs.Text.{always_line, initial_line, initial_text, literal_text, name_in, numbered};
ghost use Rattle.verilog_text.specs.Text.{ram_text, shown_text, taking_text, within_text, word_text, write_text, zero_word};
ghost use Rattle.verilog_print.specs.Parts.{ram_lines, write_start};
ghost use Rattle.verilog_print.specs.Scopes.{scope_of};

use crate::names::{put_memory, put_name};
use crate::pieces::{put, put_literal, put_low_bits, put_number};
use crate::registers::put_edge;
use crate::scope::Scope;
use chw_base::limits::ADDRESS_BITS;
use chw_base::{DomId, NoMemory, WireId};
use chw_clock::Bits;
use netlist::RamIn;
use std::alloc::Global;

/// Writes the initial word of this number.
fn put_initial_word(
    out: &mut Vec<u8>,
    wire: usize,
    number: usize,
    word: &Bits,
) -> Result<(), NoMemory>
    ensures { OnOk result (out.new.items ≡ out.old.items ++ initial_text wire number word.now) }
{
    put_memory(out, wire)?;
    put(out, b"[")?;
    put_number(out, number)?;
    put(out, b"] = ")?;
    put_literal(out, word)?;
    put(out, b"; ")?;
    Ok(())
}

/// Writes the initial words.
fn put_initial_words(out: &mut Vec<u8>, wire: usize, words: &[Bits]) -> Result<(), NoMemory>
    ensures { OnOk result (out.new.items ≡ out.old.items ++ concat (numbered (initial_text wire) 0 words.now)) }
{
    for (number, word) in words.iter().enumerate() {
        put_initial_word(out, wire, number, word)?;
    }
    Ok(())
}

/// Writes the line of the initial words.
fn put_initial_line(out: &mut Vec<u8>, wire: usize, words: &[Bits]) -> Result<(), NoMemory>
    ensures { OnOk result (out.new.items ≡ out.old.items ++ initial_line wire words.now) }
{
    put(out, b"  initial begin ")?;
    put_initial_words(out, wire, words)?;
    put(out, b"end\n")?;
    Ok(())
}

/// Writes the word at an address.
fn put_word(out: &mut Vec<u8>, scope: &Scope, wire: usize, address: WireId) -> Result<(), NoMemory>
    ensures { OnOk result (out.new.items ≡ out.old.items ++ word_text wire (name_in (scope_of scope.now) address)) }
{
    put_memory(out, wire)?;
    put(out, b"[")?;
    put_name(out, scope, address)?;
    put(out, b"]")?;
    Ok(())
}

/// Writes the condition that an address is one of so many words.
fn put_within(
    alloc: Global,
    out: &mut Vec<u8>,
    scope: &Scope,
    address: WireId,
    count: usize,
) -> Result<(), NoMemory>
    ensures { OnOk result (out.new.items ≡ out.old.items ++ within_text (scope_of scope.now) address count) }
{
    put(out, b"(")?;
    put_name(out, scope, address)?;
    put(out, b" < ")?;
    put_low_bits(alloc, out, ADDRESS_BITS, count)?;
    put(out, b")")?;
    Ok(())
}

/// Writes the condition of a write.
fn start_write(
    alloc: Global,
    out: &mut Vec<u8>,
    scope: &Scope,
    count: usize,
    inputs: &RamIn,
) -> Result<(), NoMemory>
    ensures { OnOk result (out.new.items ≡ out.old.items ++ write_start (scope_of scope.now) count inputs.now) }
{
    put(out, b"if (")?;
    put_name(out, scope, inputs.enable)?;
    put(out, b" & ")?;
    put_within(alloc, out, scope, inputs.place, count)?;
    put(out, b") ")?;
    Ok(())
}

/// Writes a write.
fn put_write(
    alloc: Global,
    out: &mut Vec<u8>,
    scope: &Scope,
    wire: usize,
    count: usize,
    inputs: &RamIn,
) -> Result<(), NoMemory>
    ensures { OnOk result (out.new.items ≡ out.old.items ++ write_text (scope_of scope.now) wire count inputs.now) }
{
    start_write(alloc, out, scope, count, inputs)?;
    put_word(out, scope, wire, inputs.place)?;
    put(out, b" <= ")?;
    put_name(out, scope, inputs.value)?;
    put(out, b";")?;
    Ok(())
}

/// Writes zeros of the width of a RAM's words.
fn put_zeros(alloc: Global, out: &mut Vec<u8>, words: &[Bits]) -> Result<(), NoMemory>
    ensures { OnOk result (out.new.items ≡ out.old.items ++ literal_text (zero_word words.now)) }
{
    let width = match words.first() {
        Some(word) => word.len(),
        None => 0,
    };
    put_low_bits(alloc, out, width, 0)
}

/// Writes what a RAM shows next.
fn put_shown(
    alloc: Global,
    out: &mut Vec<u8>,
    scope: &Scope,
    wire: usize,
    words: &[Bits],
    read: WireId,
) -> Result<(), NoMemory>
    ensures { OnOk result (out.new.items ≡ out.old.items ++ shown_text (scope_of scope.now) wire words.now read) }
{
    put_within(alloc, out, scope, read, words.len())?;
    put(out, b" ? ")?;
    put_word(out, scope, wire, read)?;
    put(out, b" : ")?;
    put_zeros(alloc, out, words)?;
    Ok(())
}

/// Writes that a RAM shows a word next.
fn put_showing(
    alloc: Global,
    out: &mut Vec<u8>,
    scope: &Scope,
    wire: WireId,
    words: &[Bits],
    read: WireId,
) -> Result<(), NoMemory>
    ensures { OnOk result (out.new.items ≡ out.old.items ++ taking_text (name_in (scope_of scope.now) wire)
        (shown_text (scope_of scope.now) wire.number words.now read)) }
{
    put_name(out, scope, wire)?;
    put(out, b" <= ")?;
    put_shown(alloc, out, scope, wire.number as usize, words, read)?;
    put(out, b";")?;
    Ok(())
}

/// Writes what a RAM does at an edge.
fn put_action(
    alloc: Global,
    out: &mut Vec<u8>,
    scope: &Scope,
    wire: WireId,
    words: &[Bits],
    inputs: &RamIn,
) -> Result<(), NoMemory>
    ensures { OnOk result (out.new.items ≡ out.old.items ++ ram_text (scope_of scope.now) wire words.now inputs.now) }
{
    put(out, b"begin ")?;
    put_write(alloc, out, scope, wire.number as usize, words.len(), inputs)?;
    put(out, b" ")?;
    put_showing(alloc, out, scope, wire, words, inputs.read)?;
    put(out, b" end")?;
    Ok(())
}

/// Writes the two lines of a RAM.
pub fn put_ram(
    alloc: Global,
    out: &mut Vec<u8>,
    scope: &Scope,
    wire: WireId,
    domain: DomId,
    words: &[Bits],
    inputs: &RamIn,
) -> Result<(), NoMemory>
    ensures { OnOk result (out.new.items ≡ out.old.items ++ ram_lines (scope_of scope.now) wire domain words.now inputs.now) }
{
    put_initial_line(out, wire.number as usize, words)?;
    put_edge(out, scope.ports, domain)?;
    put_action(alloc, out, scope, wire, words, inputs)?;
    put(out, b"\n")?;
    Ok(())
}
