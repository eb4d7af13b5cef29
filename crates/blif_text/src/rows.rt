//! The rows of tables.
ghost use Rattle.std.specs.Prelude.{◌≡◌, ◌++◌, ◌∷◌, codes, map, true, slice_index, OnOk, IfOk};
ghost use Rattle.std.specs.Prelude.{if◌then◌else◌};
ghost use Rattle.chw_bits.specs.Bits.{bits_of};
ghost use Rattle.bit_laws.specs.Gates.{digit_of, rows_of};
ghost use Rattle.bit_nodes.specs.Standing.{kind_of};
ghost use Rattle.blif_text.specs.Pieces.{row_text, rows_text};

use crate::pieces::put;
use crate::words::width_of;
use bit_nodes::BitGate;
use chw_base::{NoMemory, WireId};
use chw_bits::Bits;
use netlist::Flat;
use std::alloc::Global;

/// The mark of a bit.
fn mark_of(bit: bool) -> u8
    ensures { result ≡ digit_of bit }
{
    if bit { b'1' } else { b'0' }
}

/// Writes the marks of bits.
fn put_marks(out: &mut Vec<u8>, bits: &[bool]) -> Result<(), NoMemory>
    ensures { OnOk result (out.new.items ≡ out.old.items ++ map digit_of bits.now) }
{
    for bit in bits {
        out.push(mark_of(*bit))?;
    }
    Ok(())
}

/// Writes the end of a row, behind marks or where there are none.
fn put_row_end(out: &mut Vec<u8>, is_empty: bool) -> Result<(), NoMemory>
    ensures { OnOk result (out.new.items
        ≡ out.old.items ++ (if is_empty then codes "1\n" else codes " 1\n")) }
{
    if is_empty {
        put(out, b"1\n")
    } else {
        put(out, b" 1\n")
    }
}

/// Writes the row of just these bits.
fn put_row(out: &mut Vec<u8>, bits: &[bool]) -> Result<(), NoMemory>
    ensures { OnOk result (out.new.items ≡ out.old.items ++ row_text (map digit_of bits.now)) }
{
    put_marks(out, bits)?;
    put_row_end(out, bits.is_empty())?;
    Ok(())
}

/// Writes the row of a set bit and then just these bits.
fn put_row_behind(out: &mut Vec<u8>, bits: &[bool]) -> Result<(), NoMemory>
    ensures { OnOk result (out.new.items
        ≡ out.old.items ++ row_text (map digit_of (true ∷ bits.now))) }
{
    put(out, b"1")?;
    put_marks(out, bits)?;
    put(out, b" 1\n")?;
    Ok(())
}

/// The lowest bits of a number.
fn low_bits(alloc: Global, width: u32, n: usize) -> Result<Bits, NoMemory>
    ensures { IfOk result (λ bits. bits ≡ bits_of width n) }
{
    let mut bits = Bits::of_list(vec![in alloc; false; width as usize]?);
    bits.put_number(n as u128);
    Ok(bits)
}

/// Writes the row of the place at which a RAM is written.
fn put_written(
    alloc: Global,
    out: &mut Vec<u8>,
    flat: &Flat,
    place: WireId,
    at: u32,
) -> Result<(), NoMemory>
    ensures { OnOk result (out.new.items ≡ out.old.items ++ row_text
        (map digit_of (true ∷ bits_of (slice_index flat.now.widths place.number) at))) }
{
    let bits = low_bits(alloc, width_of(flat, place), at as usize)?;
    put_row_behind(out, bits.as_slice())?;
    Ok(())
}

/// Writes the row of the address at which a RAM is read.
fn put_read(
    alloc: Global,
    out: &mut Vec<u8>,
    flat: &Flat,
    address: WireId,
    at: u32,
) -> Result<(), NoMemory>
    ensures { OnOk result (out.new.items ≡ out.old.items ++ row_text
        (map digit_of (bits_of (slice_index flat.now.widths address.number) at))) }
{
    let bits = low_bits(alloc, width_of(flat, address), at as usize)?;
    put_row(out, bits.as_slice())?;
    Ok(())
}

/// Writes the rows of a gate.
pub fn put_rows(
    alloc: Global,
    out: &mut Vec<u8>,
    flat: &Flat,
    gate: BitGate,
) -> Result<(), NoMemory>
    ensures { OnOk result (out.new.items
        ≡ out.old.items ++ rows_text (rows_of (kind_of flat.now gate))) }
{
    match gate {
        BitGate::Never => Ok(()),
        BitGate::Always => put(out, b"1\n"),
        BitGate::Buffer(_) => put(out, b"1 1\n"),
        BitGate::Inverse(_) => put(out, b"0 1\n"),
        BitGate::Both(_, _) => put(out, b"11 1\n"),
        BitGate::Either(_, _) => put(out, b"1- 1\n-1 1\n"),
        BitGate::Differing(_, _) => put(out, b"10 1\n01 1\n"),
        BitGate::Alike(_, _) => put(out, b"00 1\n11 1\n"),
        BitGate::Cleared(_, _) => put(out, b"10 1\n"),
        BitGate::Odd(_, _, _) => put(out, b"100 1\n010 1\n001 1\n111 1\n"),
        BitGate::Most(_, _, _) => put(out, b"11- 1\n1-1 1\n-11 1\n"),
        BitGate::Choice(_, _, _) => put(out, b"11- 1\n0-1 1\n"),
        BitGate::Less(_, _, _) => put(out, b"01- 1\n001 1\n111 1\n"),
        BitGate::Added(_, _, _) => put(out, b"1-- 1\n-11 1\n"),
        BitGate::Written { place, at, .. } => put_written(alloc, out, flat, place, at),
        BitGate::Read { address, at } => put_read(alloc, out, flat, address, at),
    }
}
