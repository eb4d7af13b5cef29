//! `Step`, what settles the wire of one cell.

use chw_base::WireId;
use netlist::Op2;

/// What settles the wire of one cell, worked out once.
///
/// The first wire of a step is the one that it settles. All wires of a step have at most 64 bits.
/// A mask is the number of which just the lowest bits are set, as many as a width says.
#[derive(Clone, Copy, Debug)]
pub(crate) enum Step {
    /// Nothing: the wire keeps a constant, or what a register or a RAM shows.
    Rest,
    /// What the cell says, at any widths.
    Whole,
    /// The bits of another wire.
    Move(WireId, WireId),
    /// The bits of the first wire behind the condition where that is 1, else those of the second.
    Choose(WireId, WireId, WireId, WireId),
    /// What an operator makes of two wires, with the mask of the left one's width.
    Two(WireId, Op2, WireId, WireId, u64),
    /// The bits that a wire hasn't, with the mask of its width.
    Flip(WireId, WireId, u64),
    /// A part of a wire: the place of its least significant bit, and the mask of its width.
    Part(WireId, WireId, u32, u64),
}
