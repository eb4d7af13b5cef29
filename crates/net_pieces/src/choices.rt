//! Tests, and the choice of results by them.
ghost use Rattle.std.specs.Prelude.{◌≡◌, ◌-◌, ◌<◌, length, reverse, zip, map, IfOk, OnOk};
ghost use Rattle.net_built.specs.Data.{test, tests, test_wires, choices, chosen, last_of};
ghost use Rattle.net_built.specs.Wires.{wire, ◌▸◌};
ghost use Rattle.net_built.specs.Words.{only};

use crate::cells::Pieces;
use crate::copies::constant;
use crate::parts;
use chw_base::{NoMemory, Seq, WireId};
use chw_bits::Bits;
use netlist::{Cell, Op2};
use std::alloc::Global;

/// Appends the test whether a wire of k bits has these; without bits it has.
pub fn test(
    into: &mut Pieces,
    alloc: Global,
    k: u32,
    a: &[WireId],
    bits: &Bits,
) -> Result<(), NoMemory>
    ensures { OnOk result (into.new ≡ into.old ▸ test k a.now bits.now (length into.old.widths)) }
{
    if k == 0 {
        let bits = parts::one_bit(alloc, true)?;
        return constant(into, 1, bits);
    }
    let word = into.next_wire();
    let bits = bits.copy(alloc)?;
    constant(into, k, bits)?;
    let w = into.next_wire();
    into.one(1, Cell::Bin(w, Op2::Eq, parts::only(a), word))
}

// Appends a test, and says on which wire it is.
fn test_wire(
    into: &mut Pieces,
    alloc: Global,
    k: u32,
    a: &[WireId],
    bits: &Bits,
) -> Result<WireId, NoMemory>
    ensures piece { OnOk result (into.new ≡ into.old ▸ test k a.now bits.now (length into.old.widths)) }
    ensures wire { IfOk result (λ w. w ≡ wire (length into.new.widths - 1)) }
{
    test(into, alloc, k, a, bits)?;
    Ok(into.last_wire())
}

/// Appends a test for each of these words, in order, and gives the wires of the tests.
pub fn tests(
    into: &mut Pieces,
    alloc: Global,
    k: u32,
    a: &[WireId],
    words: &[Bits],
) -> Result<Seq<WireId>, NoMemory>
    ensures piece { OnOk result (into.new ≡ into.old ▸ tests k a.now words.now (length into.old.widths)) }
    ensures wires { IfOk result (λ wires. wires ≡ test_wires k a.now words.now (length into.old.widths)) }
{
    let mut wires = Vec::new(alloc);
    for bits in words {
        let w = test_wire(into, alloc, k, a, bits)?;
        wires.push(w)?;
    }
    Ok(Seq::from(wires))
}

// The choice between results, from the last test to the first, where they have bits.
fn choices(
    into: &mut Pieces,
    width: u32,
    tested: &[WireId],
    results: &[WireId],
    other: WireId,
) -> Result<(), NoMemory>
    requires { 0 < width }
    ensures { OnOk result (into.new ≡ into.old
        ▸ choices width (reverse (zip tested.now results.now)) other (length into.old.widths)) }
{
    let mut other = other;
    let count = tested.len().min(results.len());
    for i in (0..count).rev() {
        let w = into.next_wire();
        into.one(width, Cell::Mux(w, tested[i], results[i], other))?;
        other = w;
    }
    Ok(())
}

// The one wire of each of these.
fn only_wires(alloc: Global, results: &[Seq<WireId>]) -> Result<Vec<WireId>, NoMemory>
    ensures { IfOk result (λ wires. wires.items ≡ map only results.now) }
{
    let mut wires = Vec::new(alloc);
    for result in results {
        wires.push(parts::only(result.as_slice()))?;
    }
    Ok(wires)
}

// The one wire of the last of these.
fn last_only(results: &[Seq<WireId>]) -> WireId
    ensures { result ≡ only (last_of results.now) }
{
    match results.last() {
        Some(last) => parts::only(last.as_slice()),
        None => WireId { number: 0 },
    }
}

/// Appends the choice of results by tests, from the last test to the first; the last result needs no test.
pub fn chosen(
    into: &mut Pieces,
    alloc: Global,
    width: u32,
    tested: &[WireId],
    results: &[Seq<WireId>],
) -> Result<(), NoMemory>
    ensures { OnOk result (into.new ≡ into.old ▸ chosen width tested.now results.now (length into.old.widths)) }
{
    if width == 0 {
        return Ok(());
    }
    let wires = only_wires(alloc, results)?;
    choices(into, width, tested, &wires, last_only(results))
}
