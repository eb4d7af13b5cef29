//! The steps of a flat net's cells, worked out once.
ghost use Rattle.std.specs.Prelude.{◌≡◌, ℕ, ◌-◌, ◌≤◌, ◌^◌, IfOk, IsTrue, length, slice_index};
ghost use Rattle.net_sim.specs.Steps.{HaveSteps, IsMove, IsQuick, IsSmall, IsStepOf};
ghost use Rattle.netlist.specs.Orders.{IsOrder};
ghost use Rattle.netlist.specs.Sound.{FitsCell, IsWire, Sound};
ghost use Rattle.netlist.specs.declared.net.Cell.{Cell};
ghost use Rattle.netlist.specs.declared.net.Cell.TheVariants.{Bin, Cut, Join, Mux, Un};
ghost use Rattle.netlist.specs.declared.net.Op1.TheVariants.{Not};

use crate::settle::cell_at;
use crate::step::Step;
use crate::word::SMALL;
use chw_base::{NoMemory, WireId};
use netlist::{Cell, Flat, Op1, Op2, Order};
use std::alloc::Global;

// The width of a wire.
fn width_of(widths: &[u32], w: WireId) -> u32
    requires { IsWire widths.now w }
    ensures { result ≡ slice_index widths.now w.number }
{
    widths[w.number as usize]
}

// The number of which just the lowest bits are set, as many as this.
fn mask_of(width: u32) -> u64
    requires { width ≤ 64 }
    ensures { result ≡ 2 ^ width - 1 }
{
    if width < 64 {
        (1 << width) - 1
    } else {
        u64::MAX
    }
}

// Whether an operator is one that a step has.
fn is_quick(op: Op2) -> bool
    ensures { IsTrue result → IsQuick op }
{
    match op {
        Op2::LtS | Op2::Shl | Op2::Shr | Op2::Sar => false,
        _ => true,
    }
}

// The step of a cell that gives its wire the bits of another, if the wire is small.
fn move_step(widths: &[u32], to: WireId, from: WireId) -> Step
    requires { IsWire widths.now to }
    ensures { (cell : Cell) → (IsSmall widths.now to → IsMove widths.now cell to from)
        → IsStepOf widths.now cell result }
{
    if width_of(widths, to) <= SMALL {
        Step::Move(to, from)
    } else {
        Step::Whole
    }
}

// The step of wires side by side.
fn join_step(widths: &[u32], to: WireId, parts: &[WireId]) -> Step
    requires { (domains : ℕ) × FitsCell domains widths.now (Join to parts.now) }
    ensures { IsStepOf widths.now (Join to parts.now) result }
{
    if parts.len() == 1 {
        move_step(widths, to, parts[0])
    } else {
        Step::Whole
    }
}

// The step of a part of a wire.
fn part_step(widths: &[u32], to: WireId, from: WireId, high: u32, low: u32) -> Step
    requires { (domains : ℕ) × FitsCell domains widths.now (Cut to from high low) }
    ensures { IsStepOf widths.now (Cut to from high low) result }
{
    let width = width_of(widths, from);
    if low == 0 && high + 1 == width {
        return move_step(widths, to, from);
    }
    if width <= SMALL {
        return Step::Part(to, from, low, mask_of(high + 1 - low));
    }
    Step::Whole
}

// The step of the bits that a wire hasn't.
fn flip_step(widths: &[u32], to: WireId, from: WireId) -> Step
    requires { (domains : ℕ) × FitsCell domains widths.now (Un to Not from) }
    ensures { IsStepOf widths.now (Un to Not from) result }
{
    let width = width_of(widths, to);
    if width <= SMALL {
        Step::Flip(to, from, mask_of(width))
    } else {
        Step::Whole
    }
}

// The step of an operator on two wires.
fn two_step(widths: &[u32], to: WireId, op: Op2, left: WireId, right: WireId) -> Step
    requires { (domains : ℕ) × FitsCell domains widths.now (Bin to op left right) }
    ensures { IsStepOf widths.now (Bin to op left right) result }
{
    let width = width_of(widths, left);
    if is_quick(op) && width <= SMALL && width_of(widths, right) <= SMALL {
        Step::Two(to, op, left, right, mask_of(width))
    } else {
        Step::Whole
    }
}

// The step of a choice.
fn choice_step(widths: &[u32], to: WireId, on: WireId, first: WireId, second: WireId) -> Step
    requires { (domains : ℕ) × FitsCell domains widths.now (Mux to on first second) }
    ensures { IsStepOf widths.now (Mux to on first second) result }
{
    if width_of(widths, to) <= SMALL {
        Step::Choose(to, on, first, second)
    } else {
        Step::Whole
    }
}

// The step of a cell.
fn step_of(widths: &[u32], cell: &Cell) -> Step
    requires { (domains : ℕ) × FitsCell domains widths.now cell.now }
    ensures { IsStepOf widths.now cell.now result }
{
    match cell {
        Cell::Copy(w, a) => move_step(widths, *w, *a),
        Cell::Join(w, parts) => join_step(widths, *w, parts.as_slice()),
        Cell::Cut(w, a, high, low) => part_step(widths, *w, *a, *high, *low),
        Cell::Un(w, Op1::Not, a) => flip_step(widths, *w, *a),
        Cell::Un(_, _, _) => Step::Whole,
        Cell::Bin(w, op, a, b) => two_step(widths, *w, *op, *a, *b),
        Cell::Mux(w, on, a, b) => choice_step(widths, *w, *on, *a, *b),
        Cell::Const(_, _) | Cell::Reg(_, _, _, _) | Cell::Ram(_, _, _, _) | Cell::Use(_, _, _) => {
            Step::Rest
        }
    }
}

/// The steps of all cells, in their order.
pub(crate) fn steps_of(alloc: Global, flat: &Flat, order: &Order) -> Result<Vec<Step>, NoMemory>
    requires sound { Sound flat.now }
    requires order { IsOrder flat.now order.now.cells }
    ensures { IfOk result (λ v. HaveSteps flat.now order.now.cells v.items) }
{
    let mut steps = Vec::new(alloc);
    for place in order.cells.as_slice() {
        let cell = cell_at(flat, *place as usize);
        steps.push(step_of(flat.widths.as_slice(), cell))?;
    }
    Ok(steps)
}
