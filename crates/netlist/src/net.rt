//! Nets and flat nets, orders of their cells, and loops of their wires.

use chw_base::{DomId, ModId, Seq, WireId};
use chw_clock::{Bits, Ports};
use thiserror::Error;

/// An operator on one wire: IEEE 1364-2005, clauses 5.1.10 and 5.1.11.
#[derive(Clone, Copy, Debug, PartialEq, Eq)]
pub enum Op1 {
    Not,
    RedAnd,
    RedOr,
    RedXor,
}

/// An operator on two wires: IEEE 1364-2005, clauses 5.1.5 to 5.1.12.
#[derive(Clone, Copy, Debug, PartialEq, Eq)]
pub enum Op2 {
    Add,
    Sub,
    Mul,
    And,
    Or,
    Xor,
    Eq,
    LtU,
    LtS,
    Shl,
    Shr,
    Sar,
}

/// What a RAM reads: the address of the word to show, whether to write, where, and what.
#[derive(Clone, Copy, Debug, PartialEq, Eq)]
pub struct RamIn {
    pub read: WireId,
    pub enable: WireId,
    pub place: WireId,
    pub value: WireId,
}

/// A cell of a module. The first wire is the one that the cell drives; a use has its module, the wires that it reads and those that
/// it drives.
#[derive(Debug, Drop)]
pub enum Cell {
    Const(WireId, Bits),
    Copy(WireId, WireId),
    /// The first of the joined wires is the most significant.
    Join(WireId, Seq<WireId>),
    /// The bits from the first number down to the second, counted from the least significant, 0.
    Cut(WireId, WireId, u32, u32),
    Un(WireId, Op1, WireId),
    Bin(WireId, Op2, WireId, WireId),
    /// The condition, and the wires that are taken where it is 1 and where it is 0.
    Mux(WireId, WireId, WireId, WireId),
    /// The domain at whose ticks it moves, its initial bits, and the wire that it takes.
    Reg(WireId, DomId, Bits, WireId),
    /// The domain, the initial words, and what it reads.
    Ram(WireId, DomId, Seq<Bits>, RamIn),
    Use(ModId, Seq<WireId>, Seq<WireId>),
}

/// A module: its wires by their widths, of which the first `inputs` are its inputs, the wires of its outputs, and its cells.
#[derive(Debug, Drop)]
pub struct Module {
    pub inputs: u32,
    pub widths: Seq<u32>,
    pub outputs: Seq<WireId>,
    pub cells: Seq<Cell>,
}

/// A net: its ports, and its modules, each before those that use it. The last one is the top.
#[derive(Debug, Drop)]
pub struct Net {
    pub ports: Ports,
    pub modules: Seq<Module>,
}

/// A net as one module, without uses.
#[derive(Debug, Drop)]
pub struct Flat {
    pub ports: Ports,
    pub widths: Seq<u32>,
    pub outputs: Seq<WireId>,
    pub cells: Seq<Cell>,
}

/// An order of the cells of a flat net: each but a register or RAM after those that drive what it reads.
#[derive(Debug, Drop)]
pub struct Order {
    /// The places of all cells, each once.
    pub cells: Seq<u32>,
}

/// A loop: wires of which each is read by the cell that drives the next, and the last by the one that drives the first, where none of
/// these cells is a register or RAM.
#[derive(Debug, Drop, Error)]
#[error("a loop of wires passes no register and no RAM")]
pub struct Loop {
    /// The wires, the one with the least number first.
    pub cycle: Seq<WireId>,
}
