//! The smallest pieces of a text: bytes, numbers, ranges of bits and literals.
ghost use Rattle.std.specs.Prelude.{◌≡◌, ◌++◌, codes, decimal, OnOk, IfOk};
ghost use Rattle.chw_bits.specs.Bits.{bits_of};
ghost use Rattle.verilog_text.specs.Text.{range_text, literal_text};
ghost use Rattle.verilog_print.specs.Parts.{comma_if};

use chw_base::NoMemory;
use chw_clock::Bits;
use itoa::Buffer;
use std::alloc::Global;

/// Writes these bytes.
pub fn put(out: &mut Vec<u8>, text: &[u8]) -> Result<(), NoMemory>
    ensures { OnOk result (out.new.items ≡ out.old.items ++ text.now) }
{
    out.extend_from_slice(text)?;
    Ok(())
}

/// Writes a number in decimal digits.
pub fn put_number(out: &mut Vec<u8>, n: usize) -> Result<(), NoMemory>
    ensures { OnOk result (out.new.items ≡ out.old.items ++ decimal n) }
{
    let mut buffer = Buffer::new();
    out.extend_from_slice(buffer.format(n).as_bytes())?;
    Ok(())
}

/// Writes a comma and a space where an item stands before.
pub fn put_comma(out: &mut Vec<u8>, before: bool) -> Result<(), NoMemory>
    ensures { OnOk result (out.new.items ≡ out.old.items ++ comma_if before) }
{
    if before {
        put(out, b", ")?;
    }
    Ok(())
}

/// Writes the range of the bits of a width, the highest first.
pub fn put_range(out: &mut Vec<u8>, width: u32) -> Result<(), NoMemory>
    ensures { OnOk result (out.new.items ≡ out.old.items ++ range_text width) }
{
    put(out, b"[")?;
    put_number(out, width.saturating_sub(1) as usize)?;
    put(out, b":0]")?;
    Ok(())
}

/// Writes bits as a literal with its size.
pub fn put_literal(out: &mut Vec<u8>, bits: &Bits) -> Result<(), NoMemory>
    ensures { OnOk result (out.new.items ≡ out.old.items ++ literal_text bits.now) }
{
    put_number(out, bits.len() as usize)?;
    put(out, b"'h")?;
    bits.put_hex(out)?;
    Ok(())
}

/// The lowest bits of a number.
fn low_bits(alloc: Global, width: u32, n: usize) -> Result<Bits, NoMemory>
    ensures { IfOk result (λ b. b ≡ bits_of width n) }
{
    let mut bits = Bits::of_list(vec![in alloc; false; width as usize]?);
    bits.put_number(n as u128);
    Ok(bits)
}

/// Writes the lowest bits of a number as a literal.
pub fn put_low_bits(alloc: Global, out: &mut Vec<u8>, width: u32, n: usize) -> Result<(), NoMemory>
    ensures { OnOk result (out.new.items ≡ out.old.items ++ literal_text (bits_of width n)) }
{
    let bits = low_bits(alloc, width, n)?;
    put_literal(out, &bits)
}
