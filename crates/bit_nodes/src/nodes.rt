//! Names, gates and nodes of single bits.
use chw_base::{DomId, WireId};

/// The name of a single bit.
#[derive(Clone, Copy, Debug)]
pub enum BitName {
    /// A bit of a wire of the flat net, the least significant place 0.
    Bit { wire: WireId, place: u32 },
    /// A further node of the cell that drives the wire.
    Further { wire: WireId, number: u32 },
    /// A bit of an output, by the number of its port.
    Output { port: u32, place: u32 },
    /// The reset of a domain.
    Reset { domain: DomId },
}

/// A gate, with the bits that it reads in order.
#[derive(Clone, Copy, Debug)]
pub enum BitGate {
    Never,
    Always,
    Buffer(BitName),
    Inverse(BitName),
    Both(BitName, BitName),
    Either(BitName, BitName),
    Differing(BitName, BitName),
    Alike(BitName, BitName),
    Cleared(BitName, BitName),
    Odd(BitName, BitName, BitName),
    Most(BitName, BitName, BitName),
    Choice(BitName, BitName, BitName),
    Less(BitName, BitName, BitName),
    Added(BitName, BitName, BitName),
    /// The enable of a RAM is set, and its place is this number. It reads the bits of both wires,
    /// the most significant first.
    Written {
        enable: WireId,
        place: WireId,
        at: u32,
    },
    /// The address is this number. It reads the bits of the wire, the most significant first.
    Read {
        address: WireId,
        at: u32,
    },
}

/// What gives a name its bit.
#[derive(Clone, Copy, Debug)]
pub enum BitNode {
    /// A table of a gate.
    Table {
        gate: BitGate,
        drives: BitName,
    },
    /// A latch that takes a bit at the edges of the domain's clock.
    Latch {
        takes: BitName,
        drives: BitName,
        domain: DomId,
        initial: bool,
    },
}
