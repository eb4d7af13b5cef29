//! Rows of the grammar: tokens that follow one another in each text where the first of them stand.
ghost use Rattle.std.specs.Prelude.{◌≡◌};
ghost use Rattle.verilog_parse.specs.Rows.{rows_of};

/// A row of tokens.
#[derive(Clone, Copy)]
pub enum Row {
    /// `module m (`
    Module,
    /// `input clk_D`
    Signal,
    /// `input [7:0] i`
    Input,
    /// `output [7:0] o`
    Output,
    /// `,` before a port
    NextPort,
    /// `);` behind the ports
    LastPort,
    /// `endmodule`
    Endmodule,
    /// `wire [7:0] w;`
    Wire,
    /// `reg [7:0] w = 8'h00;`
    Register,
    /// `reg [7:0] r [0:4];`
    Memory,
    /// `assign w = 8'h1f;`
    Constant,
    /// `assign w = a;`
    Copy,
    /// `assign w = a[7:0];`
    Cut,
    /// `assign w = ~a;`
    Unary,
    /// `assign w = a + b;`
    Binary,
    /// `assign w = $signed(a) < $signed(b);`
    LessSigned,
    /// `assign w = $signed(a) >>> b;`
    ShiftSigned,
    /// `assign w = c ? a : b;`
    Choice,
    /// `assign w = {a`
    Join,
    /// `, a`
    NextPart,
    /// `};`
    LastPart,
    /// `always @(posedge clk_D) w <= a;`
    Edge,
    /// `always @(posedge clk_D) w <= rst_D ? 8'h00 : a;`
    ResetEdge,
    /// `initial begin r[0] = 8'h00;`
    Ram,
    /// `r[0] = 8'h00;`
    NextWord,
    /// `end always @(posedge clk_D) begin if (e & (p < 12'h005)) r[p] <= v; w <= (a < 12'h005) ? r[a] : 8'h00; end`
    RamEdge,
    /// `m u (.p(a)`
    Use,
    /// `, .p(a)`
    NextConnection,
    /// `);` behind the connections
    LastConnection,
}

/// What may follow.
#[derive(Clone, Copy)]
pub enum State {
    /// A module.
    Text,
    /// Another module, or the end of the text.
    Modules,
    /// A port.
    Port,
    /// Another port, or the end of the ports.
    Ports,
    /// An item, or the end of the module.
    Item,
    /// The same, or a memory.
    ItemOrMemory,
    /// Another joined name, or the end of the join.
    Parts,
    /// Another word of a RAM, or the end of its words.
    Words,
    /// Another connection of a use, or their end.
    Connections,
}

const ITEM_ROWS: [Row; 16] = [
    Row::Endmodule,
    Row::Wire,
    Row::Register,
    Row::Constant,
    Row::Copy,
    Row::Cut,
    Row::Unary,
    Row::Binary,
    Row::LessSigned,
    Row::ShiftSigned,
    Row::Choice,
    Row::Join,
    Row::Edge,
    Row::ResetEdge,
    Row::Ram,
    Row::Use,
];

const ITEM_OR_MEMORY_ROWS: [Row; 17] = [
    Row::Memory,
    Row::Endmodule,
    Row::Wire,
    Row::Register,
    Row::Constant,
    Row::Copy,
    Row::Cut,
    Row::Unary,
    Row::Binary,
    Row::LessSigned,
    Row::ShiftSigned,
    Row::Choice,
    Row::Join,
    Row::Edge,
    Row::ResetEdge,
    Row::Ram,
    Row::Use,
];

/// The rows of which one follows.
pub fn rows(state: State) -> &'static [Row]
    ensures { result.now ≡ rows_of state }
{
    match state {
        State::Text | State::Modules => &[Row::Module],
        State::Port => &[Row::Signal, Row::Input, Row::Output],
        State::Ports => &[Row::NextPort, Row::LastPort],
        State::Item => &ITEM_ROWS,
        State::ItemOrMemory => &ITEM_OR_MEMORY_ROWS,
        State::Parts => &[Row::NextPart, Row::LastPart],
        State::Words => &[Row::NextWord, Row::RamEdge],
        State::Connections => &[Row::NextConnection, Row::LastConnection],
    }
}
