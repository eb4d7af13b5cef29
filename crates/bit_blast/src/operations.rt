//! The nodes of operators.
ghost use Rattle.std.specs.Prelude.{OnOk};
ghost use Rattle.netlist.specs.Sound.{Fits1, Fits2, Sound};
ghost use Rattle.bit_laws.specs.Blast.{binary_nodes, unary_nodes, word};
ghost use Rattle.bit_blast.specs.Adding.{Adds};

use crate::comparisons::{equal, less, less_signed};
use crate::gates::{OneBit, TwoBits};
use crate::logic::{on_both, reduction};
use crate::names::{Word, width_of};
use crate::products::product;
use crate::shifts::{shift_left, shift_right, signed_shift_right};
use crate::sums::{difference, sum};
use crate::wiring::on_each;
use bit_nodes::BitNode;
use chw_base::{NoMemory, WireId};
use netlist::{Flat, Op1, Op2};

/// An operator on one wire.
pub(crate) fn unary(
    flat: &Flat,
    nodes: &mut Vec<BitNode>,
    w: WireId,
    op: Op1,
    a: WireId,
) -> Result<(), NoMemory>
    requires sound { Sound flat.now }
    requires fits { Fits1 flat.now.widths op w a }
    ensures { OnOk result (Adds flat.now nodes.old.items nodes.new.items
        (unary_nodes op w.number (word flat.now w.number) (word flat.now a.number))) }
{
    let width = width_of(flat, a);
    match op {
        Op1::Not => on_each(
            nodes,
            OneBit::Opposite,
            Word::Part(w, 0),
            Word::Part(a, 0),
            width,
        ),
        Op1::RedAnd => reduction(nodes, TwoBits::And, w, a, width),
        Op1::RedOr => reduction(nodes, TwoBits::Or, w, a, width),
        Op1::RedXor => reduction(nodes, TwoBits::Xor, w, a, width),
    }
}

/// An operator on two wires.
pub(crate) fn binary(
    flat: &Flat,
    nodes: &mut Vec<BitNode>,
    w: WireId,
    op: Op2,
    a: WireId,
    b: WireId,
) -> Result<(), NoMemory>
    requires sound { Sound flat.now }
    requires fits { Fits2 flat.now.widths op w a b }
    ensures { OnOk result (Adds flat.now nodes.old.items nodes.new.items
        (binary_nodes op w.number (word flat.now w.number) (word flat.now a.number)
        (word flat.now b.number))) }
{
    let width = width_of(flat, a);
    let amount = width_of(flat, b);
    match op {
        Op2::Add => sum(nodes, w, a, b, width),
        Op2::Sub => difference(nodes, w, a, b, width),
        Op2::Mul => product(nodes, w, a, b, width),
        Op2::And => on_both(nodes, TwoBits::And, w, a, b, width),
        Op2::Or => on_both(nodes, TwoBits::Or, w, a, b, width),
        Op2::Xor => on_both(nodes, TwoBits::Xor, w, a, b, width),
        Op2::Eq => equal(nodes, w, a, b, width),
        Op2::LtU => less(nodes, w, a, b, width),
        Op2::LtS => less_signed(nodes, w, a, b, width),
        Op2::Shl => shift_left(nodes, w, a, b, width, amount),
        Op2::Shr => shift_right(nodes, w, a, b, width, amount),
        Op2::Sar => signed_shift_right(nodes, w, a, b, width, amount),
    }
}
