//! The cells of memories.
ghost use Rattle.std.specs.Prelude.{◌≡◌, ◌+◌, ◌-◌, ◌<◌, ◌∷◌, [], length, IfOk, OnOk};
ghost use Rattle.chw_base.specs.declared.limits.TheConstants.{ADDRESS_BITS};
ghost use Rattle.chw_bits.specs.Bits.{bits_of};
ghost use Rattle.net_built.specs.Memories.{past_all, narrowed, filled_up, address, address_wire, memory};
ghost use Rattle.net_built.specs.Wires.{wire, one, ◌▸◌, after};
ghost use Rattle.net_built.specs.Words.{only};
ghost use Rattle.net_pieces.specs.Writes.{write_cuts};
ghost use Rattle.netlist.specs.declared.net.Cell.TheVariants.{Const, Cut, Bin};

use crate::cells::Pieces;
use crate::copies::constant;
use crate::parts;
use crate::words::zero_word;
use chw_base::limits::ADDRESS_BITS;
use chw_base::{DomId, NoMemory, Seq, WireId};
use chw_bits::Bits;
use netlist::{Cell, Op2, RamIn};
use std::alloc::Global;

// A number that no memory reaches, in place of greater ones.
const PAST_ALL: u32 = 4095;

// Whether the number of an address of k bits is over the greatest that counts.
fn is_over(into: &mut Pieces, alloc: Global, k: u32, a: &[WireId]) -> Result<(), NoMemory>
    requires { 0 < k }
    ensures { OnOk result (into.new ≡ into.old
        ▸ (one k (Const (wire (length into.old.widths)) (bits_of k (past_all - 1)))
        ▸ one 1 (Bin (wire (length into.old.widths + 1)) Op2.LtU (wire (length into.old.widths)) (only a.now)))) }
{
    let most = into.next_wire();
    let bits = parts::number(alloc, k, PAST_ALL - 1)?;
    constant(into, k, bits)?;
    let over = into.next_wire();
    into.one(1, Cell::Bin(over, Op2::LtU, most, parts::only(a)))
}

// The greatest address, and the low bits of one.
fn greatest_and_low(into: &mut Pieces, alloc: Global, a: &[WireId]) -> Result<(), NoMemory>
    ensures { OnOk result (into.new ≡ into.old
        ▸ (one ADDRESS_BITS (Const (wire (length into.old.widths)) (bits_of ADDRESS_BITS past_all))
        ▸ one ADDRESS_BITS (Cut (wire (length into.old.widths + 1)) (only a.now) (ADDRESS_BITS - 1) 0))) }
{
    let greatest = into.next_wire();
    let bits = parts::number(alloc, ADDRESS_BITS, PAST_ALL)?;
    constant(into, ADDRESS_BITS, bits)?;
    let low = into.next_wire();
    let cut = Cell::Cut(low, parts::only(a), ADDRESS_BITS - 1, 0);
    into.one(ADDRESS_BITS, cut)
}

// An address of more than 12 bits as one of 12.
fn narrowed(into: &mut Pieces, alloc: Global, k: u32, a: &[WireId]) -> Result<(), NoMemory>
    requires { 0 < k }
    ensures { OnOk result (into.new ≡ into.old ▸ narrowed k (length into.old.widths) a.now) }
{
    is_over(into, alloc, k, a)?;
    let over = into.last_wire();
    let greatest = into.next_wire();
    greatest_and_low(into, alloc, a)?;
    let low = into.last_wire();
    let w = into.next_wire();
    into.one(ADDRESS_BITS, Cell::Mux(w, over, greatest, low))
}

// An address of fewer than 12 bits with zeros before it.
fn filled_up(into: &mut Pieces, alloc: Global, k: u32, a: &[WireId]) -> Result<(), NoMemory>
    requires { k < ADDRESS_BITS }
    ensures { OnOk result (into.new ≡ into.old ▸ filled_up k (length into.old.widths) a.now) }
{
    let zeros = into.next_wire();
    zero_word(into, alloc, ADDRESS_BITS - k)?;
    let w = into.next_wire();
    let wires = parts::repeated(alloc, 1, zeros, a)?;
    into.one(ADDRESS_BITS, Cell::Join(w, wires))
}

/// Appends what makes an address of k bits one of 12.
pub fn address(into: &mut Pieces, alloc: Global, k: u32, a: &[WireId]) -> Result<(), NoMemory>
    ensures { OnOk result (into.new ≡ into.old ▸ address k (length into.old.widths) a.now) }
{
    if k == ADDRESS_BITS {
        return Ok(());
    }
    if k == 0 {
        return zero_word(into, alloc, ADDRESS_BITS);
    }
    if k < ADDRESS_BITS {
        filled_up(into, alloc, k, a)
    } else {
        narrowed(into, alloc, k, a)
    }
}

// Appends that, and gives the wire of the address of 12 bits.
fn addressed(into: &mut Pieces, alloc: Global, k: u32, a: &[WireId]) -> Result<WireId, NoMemory>
    ensures piece { OnOk result (into.new ≡ into.old ▸ address k (length into.old.widths) a.now) }
    ensures wire { IfOk result (λ w. w ≡ address_wire k (length into.old.widths) a.now) }
{
    address(into, alloc, k, a)?;
    if k == ADDRESS_BITS {
        return Ok(parts::only(a));
    }
    Ok(into.last_wire())
}

// What a memory writes: whether, where and what.
fn write_cuts(into: &mut Pieces, width: u32, k: u32, write: &[WireId]) -> Result<(), NoMemory>
    ensures { OnOk result (into.new ≡ into.old ▸ write_cuts width k (length into.old.widths) write.now) }
{
    let whole = parts::sum(k, width)?;
    let enable = into.next_wire();
    let a = parts::only(write);
    into.one(1, Cell::Cut(enable, a, whole, whole))?;
    let place = into.next_wire();
    into.one(k, Cell::Cut(place, a, whole.saturating_sub(1), width))?;
    let value = into.next_wire();
    into.one(width, Cell::Cut(value, a, width.saturating_sub(1), 0))
}

/// Appends a memory of words of so many bits, with addresses of k bits, from its address to read and its write. Words without bits need
/// none.
pub fn memory(
    into: &mut Pieces,
    alloc: Global,
    width: u32,
    k: u32,
    domain: DomId,
    words: Seq<Bits>,
    read: &[WireId],
    write: &[WireId],
) -> Result<(), NoMemory>
    ensures { OnOk result (into.new ≡ into.old
        ▸ memory width k (length into.old.widths) domain words read.now write.now) }
{
    if width == 0 {
        return Ok(());
    }
    let enable = into.next_wire();
    write_cuts(into, width, k, write)?;
    let value = into.last_wire();
    let after = parts::sum(enable.number, 1)?;
    let put = parts::new_wires(alloc, after, k)?;
    let read = addressed(into, alloc, k, read)?;
    let place = addressed(into, alloc, k, put.as_slice())?;
    let w = into.next_wire();
    let inputs = RamIn {
        read,
        enable,
        place,
        value,
    };
    into.one(width, Cell::Ram(w, domain, words, inputs))
}
