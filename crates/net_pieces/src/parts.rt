//! Parts of cells: wires, lists of wires, and constants.
ghost use Rattle.std.specs.Prelude.{◌≡◌, ◌+◌, ◌*◌, ◌++◌, ◌∷◌, [], replicate, IfOk, OnOk};
ghost use Rattle.chw_bits.specs.Bits.{bits_of};
ghost use Rattle.chw_bits.specs.Bitwise.{one_bit};
ghost use Rattle.netlist.specs.Operators.{operator1, operator2};
ghost use Rattle.net_built.specs.Wires.{wires_from, new_wires};
ghost use Rattle.net_built.specs.Words.{only, zeros};

use chw_base::{NoMemory, Seq, WireId};
use chw_bits::Bits;
use netlist::{Op1, Op2};
use std::alloc::Global;

/// The sum of two numbers.
pub fn sum(a: u32, b: u32) -> Result<u32, NoMemory>
    ensures { IfOk result (λ s. s ≡ a + b) }
{
    a.checked_add(b).ok_or(NoMemory)
}

/// The product of two numbers.
pub(crate) fn product(a: u32, b: u32) -> Result<u32, NoMemory>
    ensures { IfOk result (λ p. p ≡ a * b) }
{
    a.checked_mul(b).ok_or(NoMemory)
}

/// The one wire of an operand that has one.
pub fn only(wires: &[WireId]) -> WireId
    ensures { result ≡ only wires.now }
{
    if wires.is_empty() {
        WireId { number: 0 }
    } else {
        wires[0]
    }
}

/// Wires with others after them.
pub(crate) fn joined(alloc: Global, a: &[WireId], b: &[WireId]) -> Result<Seq<WireId>, NoMemory>
    ensures { IfOk result (λ wires. wires ≡ a.now ++ b.now) }
{
    let mut wires = Vec::from_slice(alloc, a)?;
    wires.extend_from_slice(b)?;
    Ok(Seq::from(wires))
}

/// A wire so many times, and then others.
pub(crate) fn repeated(
    alloc: Global,
    count: u32,
    wire: WireId,
    more: &[WireId],
) -> Result<Seq<WireId>, NoMemory>
    ensures { IfOk result (λ wires. wires ≡ replicate count wire ++ more.now) }
{
    let mut wires = vec![in alloc; wire; count as usize]?;
    wires.extend_from_slice(more)?;
    Ok(Seq::from(wires))
}

/// So many wires, numbered from this number on.
pub fn wires_from(alloc: Global, first: u32, count: u32) -> Result<Seq<WireId>, NoMemory>
    ensures { IfOk result (λ wires. wires ≡ wires_from first count) }
{
    let mut wires = Vec::new(alloc);
    let mut number = first;
    for _place in 0..count {
        wires.push(WireId { number })?;
        number = sum(number, 1)?;
    }
    Ok(Seq::from(wires))
}

// Pushes the wire of a part of this width; none where it has no bits.
fn push_new(wires: &mut Vec<WireId>, number: u32, width: u32) -> Result<(), NoMemory>
    ensures { OnOk result (wires.new.items ≡ wires.old.items ++ new_wires number (width ∷ [])) }
{
    if width == 0 {
        return Ok(());
    }
    wires.push(WireId { number })?;
    Ok(())
}

/// The wire of a part of this width; none where it has no bits.
pub fn new_wires(alloc: Global, number: u32, width: u32) -> Result<Seq<WireId>, NoMemory>
    ensures { IfOk result (λ wires. wires ≡ new_wires number (width ∷ [])) }
{
    let mut wires = Vec::new(alloc);
    push_new(&mut wires, number, width)?;
    Ok(Seq::from(wires))
}

/// Wires between those of a tag and of padding of these widths, which begin at these numbers.
pub(crate) fn framed(
    alloc: Global,
    first: u32,
    tag: u32,
    wires: &[WireId],
    second: u32,
    padding: u32,
) -> Result<Seq<WireId>, NoMemory>
    ensures { IfOk result (λ all. all ≡ new_wires first (tag ∷ []) ++ wires.now ++ new_wires second (padding ∷ [])) }
{
    let mut all = Vec::new(alloc);
    push_new(&mut all, first, tag)?;
    all.extend_from_slice(wires)?;
    push_new(&mut all, second, padding)?;
    Ok(Seq::from(all))
}

/// So many zeros.
pub(crate) fn zeros(alloc: Global, width: u32) -> Result<Bits, NoMemory>
    ensures { IfOk result (λ bits. bits ≡ zeros width) }
{
    let bits = vec![in alloc; false; width as usize]?;
    Ok(Bits::of_list(bits))
}

/// The lowest bits of a number, so many.
pub fn number(alloc: Global, width: u32, number: u32) -> Result<Bits, NoMemory>
    ensures { IfOk result (λ bits. bits ≡ bits_of width number) }
{
    let mut bits = zeros(alloc, width)?;
    bits.put_number(u128::from(number));
    Ok(bits)
}

/// A truth value as one bit.
pub(crate) fn one_bit(alloc: Global, bit: bool) -> Result<Bits, NoMemory>
    ensures { IfOk result (λ bits. bits ≡ one_bit bit) }
{
    let mut bits = Vec::new(alloc);
    bits.push(bit)?;
    Ok(Bits::of_list(bits))
}

/// What an operator gives for a word without bits.
pub(crate) fn empty_result(alloc: Global, op: Op1) -> Result<Bits, NoMemory>
    ensures { IfOk result (λ bits. bits ≡ operator1 op []) }
{
    match op {
        Op1::Not => Ok(Bits::of_list(Vec::new(alloc))),
        Op1::RedAnd => one_bit(alloc, true),
        Op1::RedOr | Op1::RedXor => one_bit(alloc, false),
    }
}

/// What an operator gives for two words without bits.
pub(crate) fn empty_results(alloc: Global, op: Op2) -> Result<Bits, NoMemory>
    ensures { IfOk result (λ bits. bits ≡ operator2 op [] []) }
{
    match op {
        Op2::Eq => one_bit(alloc, true),
        Op2::LtU | Op2::LtS => one_bit(alloc, false),
        _ => Ok(Bits::of_list(Vec::new(alloc))),
    }
}
