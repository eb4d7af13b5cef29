//! How many nodes cells become, before any is made.
ghost use Rattle.std.specs.Prelude.{◌≡◌, ◌+◌, ◌*◌, ◌<◌, ◌≤◌, ◌^◌, length};
ghost use Rattle.chw_base.specs.declared.limits.TheConstants.{ARITHMETIC_BITS, WIRE_BITS};
ghost use Rattle.netlist.specs.Sound.{FitsCell, Fits2, Sound};
ghost use Rattle.bit_laws.specs.Blast.{blast};
ghost use Rattle.bit_blast.specs.Counting.{binary_count, capped, cell_count, rows_count};
ghost use Rattle.bit_blast.specs.Counting.{ram_count, register_count, unary_count, width_in};

use crate::limit::BIT_NODES;
use crate::names::width_of;
use chw_base::{DomId, WireId};
use netlist::{Cell, Flat, Op1, Op2};

// The rows of a product of words of this width.
fn rows_count(width: u32) -> u64
    requires some { 1 ≤ width }
    requires within { width ≤ ARITHMETIC_BITS }
    ensures count { result ≡ rows_count width width }
    ensures small { result ≤ 385 * 128 }
{
    let mut count = u64::from(width);
    for i in 1..width {
        count += 1 + 3 * u64::from(width - i);
    }
    count
}

// A product of a number of bits or words and a width.
fn times(count: u32, width: u32) -> u64
    requires count { count ≤ 4096 }
    requires width { width ≤ 12_290 }
    ensures product { result ≡ count * width }
    ensures small { result ≤ 50_339_840 }
{
    u64::from(count) * u64::from(width)
}

// An operator on a word of this width.
fn unary_count(op: Op1, width: u32) -> u64
    requires { width ≤ WIRE_BITS }
    ensures count { result ≡ unary_count op width }
    ensures small { result < 2 ^ 32 }
{
    match op {
        Op1::Not => u64::from(width),
        Op1::RedAnd | Op1::RedOr | Op1::RedXor => u64::from(width) + 1,
    }
}

// An operator on a wire and another one.
fn binary_count(flat: &Flat, w: WireId, op: Op2, a: WireId, b: WireId) -> u64
    requires sound { Sound flat.now }
    requires fits { Fits2 flat.now.widths op w a b }
    ensures count { result ≡ binary_count op (width_in flat.now a.number)
        (width_in flat.now b.number) }
    ensures small { result < 2 ^ 32 }
{
    let width = width_of(flat, a);
    let bits = width_of(flat, b);
    let n = u64::from(width);
    match op {
        Op2::Add => 1 + 2 * n,
        Op2::Sub => 1 + 3 * n,
        Op2::Mul => rows_count(width) + n,
        Op2::And | Op2::Or | Op2::Xor => n,
        Op2::Eq => 2 * n + 2,
        Op2::LtU | Op2::LtS => n + 2,
        Op2::Shl | Op2::Shr | Op2::Sar => 1 + times(bits, width) + n,
    }
}

// A register: twice its width where its domain has a reset.
fn register_count(flat: &Flat, w: WireId, domain: DomId) -> u64
    requires { Sound flat.now }
    ensures count { result ≡ register_count flat.now w domain }
    ensures small { result < 2 ^ 32 }
{
    let width = u64::from(width_of(flat, w));
    if flat.ports.has_reset(domain.number as usize) {
        2 * width
    } else {
        width
    }
}

// A RAM of so many words of this width.
fn ram_count(words: u32, width: u32) -> u64
    requires words { words ≤ 4096 }
    requires width { width ≤ WIRE_BITS }
    ensures count { result ≡ ram_count words width }
    ensures small { result < 2 ^ 32 }
{
    2 * u64::from(width) + times(words, 2 + 3 * width)
}

// A cell.
fn cell_count(flat: &Flat, cell: &Cell) -> u64
    requires sound { Sound flat.now }
    requires fits { FitsCell (length flat.now.ports.domains) flat.now.widths cell.now }
    ensures count { result ≡ cell_count flat.now cell.now }
    ensures small { result < 2 ^ 32 }
{
    match cell {
        Cell::Const(w, ..)
        | Cell::Copy(w, ..)
        | Cell::Join(w, ..)
        | Cell::Cut(w, ..)
        | Cell::Mux(w, ..) => u64::from(width_of(flat, *w)),
        Cell::Un(_, op, a) => unary_count(*op, width_of(flat, *a)),
        Cell::Bin(w, op, a, b) => binary_count(flat, *w, *op, *a, *b),
        Cell::Reg(w, domain, ..) => register_count(flat, *w, *domain),
        Cell::Ram(w, _, words, _) => ram_count(words.len() as u32, width_of(flat, *w)),
        Cell::Use(_, _, _) => unreachable!(),
    }
}

// So many nodes, and one above the limit for all that is more.
fn capped(count: u64) -> u64
    ensures { result ≡ capped count }
{
    count.min(u64::from(BIT_NODES) + 1)
}

/// How many nodes the net of single bits has, and one above the limit for all that is more.
pub(crate) fn node_count(flat: &Flat) -> u64
    requires { Sound flat.now }
    ensures { result ≡ capped (length (blast flat.now).nodes) }
{
    let mut count = 0;
    for cell in flat.cells.as_slice() {
        count = capped(count + cell_count(flat, cell));
    }
    for port in flat.ports.outputs.as_slice() {
        count = capped(count + u64::from(port.width));
    }
    count
}
