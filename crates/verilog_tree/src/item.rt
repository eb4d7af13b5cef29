//! The items of a module.
use crate::right::Right;
use crate::word::{Line, Range, Word};
use chw_base::Seq;

/// An item of a module: IEEE 1364-2005, clauses 4.2, 4.9.3, 6.1, 9 and 12.1.
#[derive(Drop)]
pub enum Item<'t> {
    /// `wire [7:0] w;`
    Wire(Line<'t>),
    /// `reg [7:0] w = 8'h00;`, with the memory that is declared directly behind it.
    Register(Line<'t>, Word<'t>, Option<Memory<'t>>),
    /// `assign w = ..;`
    Assign(Word<'t>, Right<'t>),
    /// `always @(posedge clk_D) w <= a;`
    Edge(Edge<'t>),
    /// `initial begin .. end`, with the `always` behind it.
    Ram(Ram<'t>),
    /// `m u (.clk_D(clk_D), .i0(a), .y0(w));`
    Use(Use<'t>),
}

/// `reg [7:0] r [0:4];`: the words of a RAM.
#[derive(Clone, Copy)]
pub struct Memory<'t> {
    pub width: Range<'t>,
    pub name: Word<'t>,
    pub places: Range<'t>,
}

/// `rst_D ? 8'h00 :`: what a register takes where its reset is asserted.
#[derive(Clone, Copy)]
pub struct Reset<'t> {
    pub name: Word<'t>,
    pub literal: Word<'t>,
}

/// What a register takes at an edge of its clock.
#[derive(Clone, Copy)]
pub struct Edge<'t> {
    pub clock: Word<'t>,
    pub register: Word<'t>,
    pub reset: Option<Reset<'t>>,
    pub a: Word<'t>,
}

/// `r[0] = 8'h00;`: a word of a memory.
#[derive(Clone, Copy)]
pub struct FirstWord<'t> {
    pub memory: Word<'t>,
    pub place: Word<'t>,
    pub literal: Word<'t>,
}

/// `(a < 12'h005)` and `r[a]`: an address, how many words there are, and the word at the address.
#[derive(Clone, Copy)]
pub struct Access<'t> {
    pub address: Word<'t>,
    pub count: Word<'t>,
    pub memory: Word<'t>,
    pub again: Word<'t>,
}

/// The words of a RAM, and what it writes and shows at an edge of its clock.
#[derive(Drop)]
pub struct Ram<'t> {
    pub first: FirstWord<'t>,
    pub others: Seq<FirstWord<'t>>,
    /// The place of the `end` behind the words.
    pub end: usize,
    pub clock: Word<'t>,
    pub enable: Word<'t>,
    pub write: Access<'t>,
    pub value: Word<'t>,
    pub register: Word<'t>,
    pub read: Access<'t>,
    pub zeros: Word<'t>,
}

/// `.p(a)`: a port of a used module, and what is joined to it.
#[derive(Clone, Copy)]
pub struct Connection<'t> {
    pub port: Word<'t>,
    pub wire: Word<'t>,
}

/// A use of a module.
#[derive(Drop)]
pub struct Use<'t> {
    pub used: Word<'t>,
    pub name: Word<'t>,
    pub first: Connection<'t>,
    pub others: Seq<Connection<'t>>,
    /// The place of the closing bracket behind the connections.
    pub close: usize,
}
