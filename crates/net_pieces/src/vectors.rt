//! The cells that take elements of vectors.
ghost use Rattle.std.specs.Prelude.{◌≡◌, ◌+◌, ◌^◌, ◌∷◌, [], min, length, IfOk, OnOk};
ghost use Rattle.net_built.specs.Vectors.{element, elements, element_wires, words_from, element_at};
ghost use Rattle.net_built.specs.Wires.{◌▸◌, new_wires};

use crate::cells::Pieces;
use crate::choices::{chosen, tests};
use crate::parts;
use chw_base::{NoMemory, Seq, WireId};
use chw_bits::Bits;
use netlist::Cell;
use std::alloc::Global;

/// Appends the element of so many bits behind which stand so many others; element 0 is the most significant.
pub fn element(into: &mut Pieces, width: u32, behind: u32, v: &[WireId]) -> Result<(), NoMemory>
    ensures { OnOk result (into.new ≡ into.old ▸ element width behind (length into.old.widths) v.now) }
{
    let w = into.next_wire();
    let past = parts::product(parts::sum(behind, 1)?, width)?;
    let low = parts::product(behind, width)?;
    into.one(
        width,
        Cell::Cut(w, parts::only(v), past.saturating_sub(1), low),
    )
}

/// Appends the last elements, so many, in order.
pub fn elements(into: &mut Pieces, width: u32, count: u32, v: &[WireId]) -> Result<(), NoMemory>
    ensures { OnOk result (into.new ≡ into.old ▸ elements width count (length into.old.widths) v.now) }
{
    for behind in (0..count).rev() {
        element(into, width, behind, v)?;
    }
    Ok(())
}

// The wires of so many elements that were cut out from a wire on.
fn element_wires(
    alloc: Global,
    width: u32,
    count: u32,
    first: u32,
) -> Result<Vec<Seq<WireId>>, NoMemory>
    ensures { IfOk result (λ wires. wires.items ≡ element_wires width count first) }
{
    let mut all = Vec::new(alloc);
    let mut number = first;
    for _place in 0..count {
        all.push(parts::new_wires(alloc, number, width)?)?;
        number = parts::sum(number, width.min(1))?;
    }
    Ok(all)
}

// How many of so many numbers words of k bits reach.
fn reached(n: u32, k: u32) -> u32
    ensures { result ≡ min n (2 ^ k) }
{
    if k < 32 { n.min(1 << k) } else { n }
}

// The words of k bits for the numbers from 0 on, so many.
fn words_from_none(alloc: Global, k: u32, count: u32) -> Result<Vec<Bits>, NoMemory>
    ensures { IfOk result (λ words. words.items ≡ words_from k 0 count) }
{
    let mut words = Vec::new(alloc);
    for j in 0..count {
        words.push(parts::number(alloc, k, j)?)?;
    }
    Ok(words)
}

/// Appends the element that a word of k bits names, of n + 1 elements; past them comes the last.
pub fn element_at(
    into: &mut Pieces,
    alloc: Global,
    width: u32,
    n: u32,
    k: u32,
    v: &[WireId],
    i: &[WireId],
) -> Result<(), NoMemory>
    ensures { OnOk result (into.new ≡ into.old ▸ element_at width n k (length into.old.widths) v.now i.now) }
{
    let count = parts::sum(n, 1)?;
    let first = into.next();
    elements(into, width, count, v)?;
    let words = words_from_none(alloc, k, reached(n, k))?;
    let tested = tests(into, alloc, k, i, &words)?;
    let wires = element_wires(alloc, width, count, first)?;
    chosen(into, alloc, width, tested.as_slice(), &wires)
}
