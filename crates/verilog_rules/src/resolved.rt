//! A text in which each name of a wire, a clock or a module is resolved to a number.
use chw_base::{DomId, ModId, Seq, WireId};
use chw_clock::Ports;
use netlist::{Op1, Op2};
use verilog_tree::{FirstWord, Line, Memory, Range, Word};

/// A wire, and the place where its name stands.
#[derive(Clone, Copy)]
pub struct Operand {
    pub wire: WireId,
    pub at: usize,
}

/// How a wire is declared.
#[derive(Clone, Copy)]
pub enum Kind<'t> {
    /// `input [7:0] i`
    Input,
    /// `wire [7:0] w;`
    Plain,
    /// `reg [7:0] w = 8'h00;`: the first value, and the memory that is declared directly behind it.
    Register(Word<'t>, Option<Memory<'t>>),
}

/// A wire of a module.
#[derive(Clone, Copy)]
pub struct Wire<'t> {
    pub line: Line<'t>,
    pub kind: Kind<'t>,
}

/// What is assigned to a wire.
#[derive(Drop)]
pub enum Value<'t> {
    /// `8'h1f`
    Constant(Word<'t>),
    /// `a`
    Copy(Operand),
    /// `{a, b}`: the joined wires, and the place of the closing bracket.
    Join(Seq<Operand>, usize),
    /// `a[7:0]`
    Cut(Operand, Range<'t>),
    /// `~a`: the operator, the place of its sign, and the operand.
    Unary(Op1, usize, Operand),
    /// `a + b`: the operator, the place of its sign, and the operands.
    Binary(Op2, usize, Operand, Operand),
    /// `c ? a : b`
    Choice(Operand, Operand, Operand),
}

/// `(a < 12'h005)`: an address, and the literal of how many words there are.
#[derive(Clone, Copy)]
pub struct Address<'t> {
    pub address: Operand,
    pub count: Word<'t>,
}

/// The words of a RAM, and what it writes and shows at an edge of its clock.
#[derive(Drop)]
pub struct RamOf<'t> {
    pub words: Seq<FirstWord<'t>>,
    /// The place of the `end` behind the words.
    pub end: usize,
    pub domain: DomId,
    pub enable: Operand,
    pub write: Address<'t>,
    pub value: Operand,
    pub register: Operand,
    pub read: Address<'t>,
    pub zeros: Word<'t>,
}

/// An item that drives something.
#[derive(Drop)]
pub enum Driver<'t> {
    /// `assign w = ..;`
    Assign(Operand, Value<'t>),
    /// `assign o = a;`: the number of the output, the place of its name, and the wire.
    Output(usize, usize, Operand),
    /// `always @(posedge clk_D) w <= rst_D ? 8'h00 : a;`: the register, its domain, the reset's literal, and the wire.
    Register(Operand, DomId, Option<Word<'t>>, Operand),
    /// `initial begin .. end always ..`
    Ram(RamOf<'t>),
    /// `m u (..);`: the used module, the wires that it reads, and those that it drives.
    Use(ModId, Seq<Operand>, Seq<Operand>),
}

/// A module: its wires, of which the first `inputs` are its inputs, its outputs, and its drivers in the order of its items.
#[derive(Drop)]
pub struct ResolvedModule<'t> {
    pub name: Word<'t>,
    pub inputs: usize,
    pub wires: Seq<Wire<'t>>,
    pub outputs: Seq<Line<'t>>,
    pub drivers: Seq<Driver<'t>>,
}

/// A text: the ports of its last module, and its modules, the last one last.
#[derive(Drop)]
pub struct Resolved<'t> {
    pub ports: Ports,
    pub modules: Seq<ResolvedModule<'t>>,
}
