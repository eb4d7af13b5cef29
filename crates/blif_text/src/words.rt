//! Names among the words of a line, each with a space before it.
ghost use Rattle.std.specs.Prelude.{◌≡◌, ◌++◌, [], ◌∷◌, codes, slice_index, OnOk};
ghost use Rattle.bit_laws.specs.BitNames.{place_name, wire_name};
ghost use Rattle.bit_laws.specs.Blast.{word};
ghost use Rattle.bit_nodes.specs.Standing.{name_of, reads_of};
ghost use Rattle.blif_text.specs.Printed.{spaced};

use crate::names::{put_bit, put_name};
use crate::pieces::put;
use bit_nodes::{BitGate, BitName};
use chw_base::{NoMemory, WireId};
use chw_clock::Ports;
use netlist::Flat;

/// Writes the name of a single bit as a word.
pub fn put_word(out: &mut Vec<u8>, flat: &Flat, name: BitName) -> Result<(), NoMemory>
    ensures { OnOk result (out.new.items ≡ out.old.items ++ spaced (name_of flat.now name ∷ [])) }
{
    put(out, b" ")?;
    put_name(out, flat, name)?;
    Ok(())
}

/// Writes two names.
fn put_two(out: &mut Vec<u8>, flat: &Flat, a: BitName, b: BitName) -> Result<(), NoMemory>
    ensures { OnOk result (out.new.items
        ≡ out.old.items ++ spaced (name_of flat.now a ∷ name_of flat.now b ∷ [])) }
{
    put_word(out, flat, a)?;
    put_word(out, flat, b)?;
    Ok(())
}

/// Writes three names.
fn put_three(
    out: &mut Vec<u8>,
    flat: &Flat,
    a: BitName,
    b: BitName,
    c: BitName,
) -> Result<(), NoMemory>
    ensures { OnOk result (out.new.items ≡ out.old.items
        ++ spaced (name_of flat.now a ∷ name_of flat.now b ∷ name_of flat.now c ∷ [])) }
{
    put_two(out, flat, a, b)?;
    put_word(out, flat, c)?;
    Ok(())
}

/// Writes the name of a bit of a wire as a word.
fn put_wire_bit(out: &mut Vec<u8>, ports: &Ports, wire: WireId, place: u32) -> Result<(), NoMemory>
    ensures { OnOk result (out.new.items
        ≡ out.old.items ++ (codes " " ++ place_name (wire_name ports.now wire.number) place)) }
{
    put(out, b" ")?;
    put_bit(out, ports, wire, place)?;
    Ok(())
}

/// The width of a wire, and 0 where there is none of this number.
pub fn width_of(flat: &Flat, wire: WireId) -> u32
    ensures { result ≡ slice_index flat.now.widths wire.number }
{
    match flat.widths.as_slice().get(wire.number as usize) {
        Some(width) => *width,
        None => 0,
    }
}

/// Writes the names of a wire's bits, the most significant first.
fn put_wire_bits(out: &mut Vec<u8>, flat: &Flat, wire: WireId) -> Result<(), NoMemory>
    ensures { OnOk result (out.new.items
        ≡ out.old.items ++ spaced (word flat.now wire.number)) }
{
    let width = width_of(flat, wire);
    for place in (0..width).rev() {
        put_wire_bit(out, &flat.ports, wire, place)?;
    }
    Ok(())
}

/// Writes the names of the bits of two wires.
fn put_both(out: &mut Vec<u8>, flat: &Flat, a: WireId, b: WireId) -> Result<(), NoMemory>
    ensures { OnOk result (out.new.items
        ≡ out.old.items ++ spaced (word flat.now a.number ++ word flat.now b.number)) }
{
    put_wire_bits(out, flat, a)?;
    put_wire_bits(out, flat, b)?;
    Ok(())
}

/// Writes the names that a gate reads.
pub fn put_reads(out: &mut Vec<u8>, flat: &Flat, gate: BitGate) -> Result<(), NoMemory>
    ensures { OnOk result (out.new.items ≡ out.old.items ++ spaced (reads_of flat.now gate)) }
{
    match gate {
        BitGate::Never => Ok(()),
        BitGate::Always => Ok(()),
        BitGate::Buffer(a) => put_word(out, flat, a),
        BitGate::Inverse(a) => put_word(out, flat, a),
        BitGate::Both(a, b) => put_two(out, flat, a, b),
        BitGate::Either(a, b) => put_two(out, flat, a, b),
        BitGate::Differing(a, b) => put_two(out, flat, a, b),
        BitGate::Alike(a, b) => put_two(out, flat, a, b),
        BitGate::Cleared(a, b) => put_two(out, flat, a, b),
        BitGate::Odd(a, b, c) => put_three(out, flat, a, b, c),
        BitGate::Most(a, b, c) => put_three(out, flat, a, b, c),
        BitGate::Choice(a, b, c) => put_three(out, flat, a, b, c),
        BitGate::Less(a, b, c) => put_three(out, flat, a, b, c),
        BitGate::Added(a, b, c) => put_three(out, flat, a, b, c),
        BitGate::Written { enable, place, .. } => put_both(out, flat, enable, place),
        BitGate::Read { address, .. } => put_wire_bits(out, flat, address),
    }
}
