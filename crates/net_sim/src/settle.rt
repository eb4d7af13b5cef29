//! The bits that an event gives the wires that keep nothing.
ghost use Rattle.std.specs.Prelude.{◌≡◌, ℕ, ◌<◌, ◌≤◌, length, map, Some, slice_get, slice_set};
ghost use Rattle.std.specs.List.{AllByRecursion};
ghost use Rattle.net_sim.specs.Settling.{Renews, SettledBefore};
ghost use Rattle.net_sim.specs.Steps.{HaveConstants, HaveSteps, IsHeld, IsStepOf};
ghost use Rattle.net_sim.specs.Tables.{given_in};
ghost use Rattle.netlist.specs.Feeds.{target};
ghost use Rattle.netlist.specs.Operators.{KeepsNothing};
ghost use Rattle.netlist.specs.Orders.{IsOrder};
ghost use Rattle.netlist.specs.Sound.{FitsCell, IsWireWidth, Sound};

use crate::narrow_step::made_number;
use crate::small_step::{choose_small, flip_small, move_small, part_small, settle_two};
use crate::step::Step;
use crate::wide_step::made_bits;
use crate::word::Word;
use crate::words::{put_bits_at, put_number_at};
use chw_base::WireId;
use netlist::{Cell, Flat, Order};

// The wire that a cell drives, where it keeps nothing.
fn target_of(cell: &Cell) -> WireId
    requires { KeepsNothing cell.now }
    ensures { target cell.now ≡ Some result.number }
{
    cell.driven()[0]
}

/// Settles the wire of a cell that keeps nothing.
pub(crate) fn settle(words: &mut [Word], cell: &Cell, room: &mut [bool])
    requires fits { (domains : ℕ) × FitsCell domains (map length words.old) cell.now }
    requires widths { AllByRecursion IsWireWidth (map length words.old) }
    requires kind { KeepsNothing cell.now }
    requires enough { length room.old ≡ 8192 }
    ensures wire { (w : ℕ) → target cell.now ≡ Some w →
        words.new ≡ slice_set words.old w (given_in words.old cell.now) }
    ensures widths { map length words.new ≡ map length words.old }
{
    let w = target_of(cell);
    match made_number(words, cell) {
        Some(n) => put_number_at(words, w, n),
        None => {
            let part = made_bits(words, cell, room);
            put_bits_at(words, w, &room[part.from..part.from + part.count]);
        }
    }
}

/// The cell at a place.
pub(crate) fn cell_at(flat: &Flat, place: usize) -> &Cell
    requires { place < length flat.now.cells }
    ensures { slice_get flat.now.cells place ≡ Some result.now }
{
    &flat.cells.as_slice()[place]
}

// Settles the wire of a cell, if it keeps nothing.
fn renew(words: &mut [Word], cell: &Cell, room: &mut [bool])
    requires fits { (domains : ℕ) × FitsCell domains (map length words.old) cell.now }
    requires widths { AllByRecursion IsWireWidth (map length words.old) }
    requires enough { length room.old ≡ 8192 }
    ensures { Renews cell.now words.old words.new }
{
    match cell {
        Cell::Reg(_, _, _, _) | Cell::Ram(_, _, _, _) | Cell::Use(_, _, _) => {}
        _ => settle(words, cell, room),
    }
}

// Takes a step: settles the wire of its cell, unless that keeps what it has.
fn take_step(words: &mut [Word], cell: &Cell, step: &Step, room: &mut [bool])
    requires fits { (domains : ℕ) × FitsCell domains (map length words.old) cell.now }
    requires widths { AllByRecursion IsWireWidth (map length words.old) }
    requires held { IsHeld words.old cell.now }
    requires step { IsStepOf (map length words.old) cell.now step.now }
    requires enough { length room.old ≡ 8192 }
    ensures { Renews cell.now words.old words.new }
{
    match step {
        Step::Rest => {}
        Step::Whole => renew(words, cell, room),
        Step::Move(to, from) => move_small(words, *to, *from),
        Step::Choose(to, on, a, b) => choose_small(words, *to, *on, *a, *b),
        Step::Two(to, op, a, b, mask) => settle_two(words, *to, *op, *a, *b, *mask),
        Step::Flip(to, from, mask) => flip_small(words, *to, *from, *mask),
        Step::Part(to, from, low, mask) => part_small(words, *to, *from, *low, *mask),
    }
}

/// Settles the wires of all cells that keep nothing, each after those that it reads.
pub(crate) fn settle_all(
    words: &mut [Word],
    flat: &Flat,
    order: &Order,
    steps: &[Step],
    room: &mut [bool],
)
    requires sound { Sound flat.now }
    requires order { IsOrder flat.now order.now.cells }
    requires steps { HaveSteps flat.now order.now.cells steps.now }
    requires widths { map length words.old ≡ flat.now.widths }
    requires constants { HaveConstants flat.now words.old }
    requires enough { length room.old ≡ 8192 }
    ensures { SettledBefore flat.now order.now.cells words.old words.new (length order.now.cells) }
{
    for (k, place) in order.cells.as_slice().iter().enumerate() {
        take_step(words, cell_at(flat, *place as usize), &steps[k], room);
    }
}
