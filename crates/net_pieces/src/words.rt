//! The cells of the primitives on words.
ghost use Rattle.std.specs.Prelude.{◌≡◌, ◌+◌, ◌-◌, ◌<◌, ◌++◌, ◌∷◌, length, replicate, OnOk};
ghost use Rattle.net_built.specs.Wires.{wire, one, ◌▸◌};
ghost use Rattle.net_built.specs.Words.{only, zeros, binary, compared, shifted, reduced, extended, widened, sliced, copied, word_cells};
ghost use Rattle.netlist.specs.declared.net.Cell.TheVariants.{Const, Join, Cut, Un};

use crate::cells::Pieces;
use crate::parts;
use chw_base::{NoMemory, WireId};
use chw_prims::Prim;
use chw_types::Scalar;
use netlist::{Cell, Op1, Op2};
use std::alloc::Global;

// An operator on words of n bits gives a word of n bits.
fn binary(into: &mut Pieces, op: Op2, n: u32, a: &[WireId], b: &[WireId]) -> Result<(), NoMemory>
    ensures { OnOk result (into.new ≡ into.old ▸ binary op n (length into.old.widths) a.now b.now) }
{
    let w = into.next_wire();
    into.one(n, Cell::Bin(w, op, parts::only(a), parts::only(b)))
}

// Words of n bits are compared.
fn compared(
    into: &mut Pieces,
    alloc: Global,
    op: Op2,
    n: u32,
    a: &[WireId],
    b: &[WireId],
) -> Result<(), NoMemory>
    ensures { OnOk result (into.new ≡ into.old ▸ compared op n (length into.old.widths) a.now b.now) }
{
    let w = into.next_wire();
    if n == 0 {
        let bits = parts::empty_results(alloc, op)?;
        return into.one(1, Cell::Const(w, bits));
    }
    into.one(1, Cell::Bin(w, op, parts::only(a), parts::only(b)))
}

// A word of n bits is moved by as many places as a word of k bits says.
fn shifted(
    into: &mut Pieces,
    op: Op2,
    n: u32,
    k: u32,
    a: &[WireId],
    b: &[WireId],
) -> Result<(), NoMemory>
    ensures { OnOk result (into.new ≡ into.old ▸ shifted op n k (length into.old.widths) a.now b.now) }
{
    let w = into.next_wire();
    if k == 0 {
        return into.one(n, Cell::Copy(w, parts::only(a)));
    }
    into.one(n, Cell::Bin(w, op, parts::only(a), parts::only(b)))
}

// The n bits of a word become one.
fn reduced(into: &mut Pieces, alloc: Global, op: Op1, n: u32, a: &[WireId]) -> Result<(), NoMemory>
    ensures { OnOk result (into.new ≡ into.old ▸ reduced op n (length into.old.widths) a.now) }
{
    let w = into.next_wire();
    if n == 0 {
        let bits = parts::empty_result(alloc, op)?;
        return into.one(1, Cell::Const(w, bits));
    }
    into.one(1, Cell::Un(w, op, parts::only(a)))
}

// A word of zeros.
pub(crate) fn zero_word(into: &mut Pieces, alloc: Global, width: u32) -> Result<(), NoMemory>
    ensures { OnOk result (into.new ≡ into.old ▸ one width (Const (wire (length into.old.widths)) (zeros width))) }
{
    let w = into.next_wire();
    let bits = parts::zeros(alloc, width)?;
    into.one(width, Cell::Const(w, bits))
}

// A signed word of n bits with m copies of its sign before it, where it has bits.
fn signs_before(
    into: &mut Pieces,
    alloc: Global,
    n: u32,
    m: u32,
    a: &[WireId],
) -> Result<(), NoMemory>
    ensures { OnOk result (into.new ≡ into.old
        ▸ (one 1 (Cut (wire (length into.old.widths)) (only a.now) (n - 1) (n - 1))
        ▸ one (n + m) (Join (wire (length into.old.widths + 1))
        (replicate m (wire (length into.old.widths)) ++ a.now)))) }
{
    let width = parts::sum(n, m)?;
    let sign = into.next_wire();
    let place = n.saturating_sub(1);
    into.one(1, Cell::Cut(sign, parts::only(a), place, place))?;
    let w = into.next_wire();
    let wires = parts::repeated(alloc, m, sign, a)?;
    into.one(width, Cell::Join(w, wires))
}

// A word of n bits with m zeros before it.
fn zeros_before(
    into: &mut Pieces,
    alloc: Global,
    n: u32,
    m: u32,
    a: &[WireId],
) -> Result<(), NoMemory>
    requires { 0 < m }
    ensures { OnOk result (into.new ≡ into.old
        ▸ (one m (Const (wire (length into.old.widths)) (zeros m))
        ▸ one (n + m) (Join (wire (length into.old.widths + 1))
        (wire (length into.old.widths) ∷ a.now)))) }
{
    let width = parts::sum(n, m)?;
    let zeros = into.next_wire();
    zero_word(into, alloc, m)?;
    let w = into.next_wire();
    let wires = parts::repeated(alloc, 1, zeros, a)?;
    into.one(width, Cell::Join(w, wires))
}

// A word of n bits with m further ones before it.
fn extended(
    into: &mut Pieces,
    alloc: Global,
    x: Scalar,
    n: u32,
    m: u32,
    a: &[WireId],
) -> Result<(), NoMemory>
    ensures { OnOk result (into.new ≡ into.old ▸ extended x n m (length into.old.widths) a.now) }
{
    if m == 0 {
        return copied(into, n, a);
    }
    if n == 0 {
        return zero_word(into, alloc, m);
    }
    match x {
        Scalar::S => signs_before(into, alloc, n, m, a),
        Scalar::U | Scalar::B => zeros_before(into, alloc, n, m, a),
    }
}

// Words of n and of k bits are extended to n + more bits one after the other, and the operator is on both.
fn widened(
    into: &mut Pieces,
    alloc: Global,
    x: Scalar,
    op: Op2,
    n: u32,
    more: u32,
    k: u32,
    a: &[WireId],
    b: &[WireId],
) -> Result<(), NoMemory>
    ensures { OnOk result (into.new ≡ into.old ▸ widened x op (n + more) n k (length into.old.widths) a.now b.now) }
{
    let width = parts::sum(n, more)?;
    extended(into, alloc, x, n, width.saturating_sub(n), a)?;
    let left = into.last_wire();
    extended(into, alloc, x, k, width.saturating_sub(k), b)?;
    let right = into.last_wire();
    let w = into.next_wire();
    into.one(width, Cell::Bin(w, op, left, right))
}

// The n bits above the l low ones.
fn sliced(into: &mut Pieces, l: u32, n: u32, a: &[WireId]) -> Result<(), NoMemory>
    ensures { OnOk result (into.new ≡ into.old ▸ sliced l n (length into.old.widths) a.now) }
{
    let w = into.next_wire();
    let high = parts::sum(l, n)?.saturating_sub(1);
    into.one(n, Cell::Cut(w, parts::only(a), high, l))
}

fn copied(into: &mut Pieces, n: u32, a: &[WireId]) -> Result<(), NoMemory>
    ensures { OnOk result (into.new ≡ into.old ▸ copied n (length into.old.widths) a.now) }
{
    let w = into.next_wire();
    into.one(n, Cell::Copy(w, parts::only(a)))
}

// Each bit of a word turned.
fn turned(into: &mut Pieces, n: u32, a: &[WireId]) -> Result<(), NoMemory>
    ensures { OnOk result (into.new ≡ into.old ▸ one n (Un (wire (length into.old.widths)) Op1.Not (only a.now))) }
{
    let w = into.next_wire();
    into.one(n, Cell::Un(w, Op1::Not, parts::only(a)))
}

// The wires of two operands as one word.
fn joined(
    into: &mut Pieces,
    alloc: Global,
    n: u32,
    m: u32,
    a: &[WireId],
    b: &[WireId],
) -> Result<(), NoMemory>
    ensures { OnOk result (into.new ≡ into.old ▸ one (n + m) (Join (wire (length into.old.widths)) (a.now ++ b.now))) }
{
    let w = into.next_wire();
    let width = parts::sum(n, m)?;
    let wires = parts::joined(alloc, a, b)?;
    into.one(width, Cell::Join(w, wires))
}

/// Appends the cells of a primitive on words with these first two natural arguments, on the wires of its operands.
pub fn word_cells(
    into: &mut Pieces,
    alloc: Global,
    p: Prim,
    n: u32,
    m: u32,
    a: &[WireId],
    b: &[WireId],
) -> Result<(), NoMemory>
    ensures { OnOk result (into.new ≡ into.old ▸ word_cells p n m (length into.old.widths) a.now b.now) }
{
    match p {
        Prim::AddU | Prim::AddS => binary(into, Op2::Add, n, a, b),
        Prim::SubU | Prim::SubS => binary(into, Op2::Sub, n, a, b),
        Prim::MulU | Prim::MulS => binary(into, Op2::Mul, n, a, b),
        Prim::XaddU => widened(into, alloc, Scalar::U, Op2::Add, n, 1, n, a, b),
        Prim::XaddS => widened(into, alloc, Scalar::S, Op2::Add, n, 1, n, a, b),
        Prim::XmulU => widened(into, alloc, Scalar::U, Op2::Mul, n, m, m, a, b),
        Prim::XmulS => widened(into, alloc, Scalar::S, Op2::Mul, n, m, m, a, b),
        Prim::AndU | Prim::AndS | Prim::AndB => binary(into, Op2::And, n, a, b),
        Prim::OrU | Prim::OrS | Prim::OrB => binary(into, Op2::Or, n, a, b),
        Prim::XorU | Prim::XorS | Prim::XorB => binary(into, Op2::Xor, n, a, b),
        Prim::NotU | Prim::NotS | Prim::NotB => turned(into, n, a),
        Prim::ShlU | Prim::ShlS | Prim::ShlB => shifted(into, Op2::Shl, n, m, a, b),
        Prim::ShrU | Prim::ShrB => shifted(into, Op2::Shr, n, m, a, b),
        Prim::ShrS => shifted(into, Op2::Sar, n, m, a, b),
        Prim::EqU | Prim::EqS | Prim::EqB => compared(into, alloc, Op2::Eq, n, a, b),
        Prim::LtU => compared(into, alloc, Op2::LtU, n, a, b),
        Prim::LtS => compared(into, alloc, Op2::LtS, n, a, b),
        Prim::ExtU => extended(into, alloc, Scalar::U, n, m, a),
        Prim::ExtS => extended(into, alloc, Scalar::S, n, m, a),
        Prim::ExtB => extended(into, alloc, Scalar::B, n, m, a),
        Prim::TruncU | Prim::TruncS | Prim::TruncB => sliced(into, 0, n, a),
        Prim::Slice => sliced(into, n, m, a),
        Prim::Join => joined(into, alloc, n, m, a, b),
        Prim::RedAnd => reduced(into, alloc, Op1::RedAnd, n, a),
        Prim::RedOr => reduced(into, alloc, Op1::RedOr, n, a),
        Prim::RedXor => reduced(into, alloc, Op1::RedXor, n, a),
        Prim::PackU | Prim::PackS | Prim::UnpackU | Prim::UnpackS => copied(into, n, a),
        _ => Ok(()),
    }
}
