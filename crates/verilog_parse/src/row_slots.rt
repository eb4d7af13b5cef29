//! The tokens of each row.
ghost use Rattle.std.specs.Prelude.{◌≡◌};
ghost use Rattle.verilog_parse.specs.Rows.{slots_of};

use crate::rows::Row;
use crate::slot::Slot;
use verilog_lex::{Keyword, Sign};

const MODULE: [Slot; 3] = [
    Slot::Keyword(Keyword::Module),
    Slot::Name,
    Slot::Sign(Sign::OpenParen),
];

const SIGNAL: [Slot; 2] = [Slot::Keyword(Keyword::Input), Slot::Name];

const INPUT: [Slot; 7] = [
    Slot::Keyword(Keyword::Input),
    Slot::Sign(Sign::OpenBracket),
    Slot::Number,
    Slot::Sign(Sign::Colon),
    Slot::Number,
    Slot::Sign(Sign::CloseBracket),
    Slot::Name,
];

const OUTPUT: [Slot; 7] = [
    Slot::Keyword(Keyword::Output),
    Slot::Sign(Sign::OpenBracket),
    Slot::Number,
    Slot::Sign(Sign::Colon),
    Slot::Number,
    Slot::Sign(Sign::CloseBracket),
    Slot::Name,
];

const NEXT_PORT: [Slot; 1] = [Slot::Sign(Sign::Comma)];

const LAST_PORT: [Slot; 2] = [Slot::Sign(Sign::CloseParen), Slot::Sign(Sign::Semicolon)];

const ENDMODULE: [Slot; 1] = [Slot::Keyword(Keyword::Endmodule)];

const WIRE: [Slot; 8] = [
    Slot::Keyword(Keyword::Wire),
    Slot::Sign(Sign::OpenBracket),
    Slot::Number,
    Slot::Sign(Sign::Colon),
    Slot::Number,
    Slot::Sign(Sign::CloseBracket),
    Slot::Name,
    Slot::Sign(Sign::Semicolon),
];

const REGISTER: [Slot; 10] = [
    Slot::Keyword(Keyword::Reg),
    Slot::Sign(Sign::OpenBracket),
    Slot::Number,
    Slot::Sign(Sign::Colon),
    Slot::Number,
    Slot::Sign(Sign::CloseBracket),
    Slot::Name,
    Slot::Sign(Sign::Equals),
    Slot::Literal,
    Slot::Sign(Sign::Semicolon),
];

const MEMORY: [Slot; 13] = [
    Slot::Keyword(Keyword::Reg),
    Slot::Sign(Sign::OpenBracket),
    Slot::Number,
    Slot::Sign(Sign::Colon),
    Slot::Number,
    Slot::Sign(Sign::CloseBracket),
    Slot::Name,
    Slot::Sign(Sign::OpenBracket),
    Slot::Number,
    Slot::Sign(Sign::Colon),
    Slot::Number,
    Slot::Sign(Sign::CloseBracket),
    Slot::Sign(Sign::Semicolon),
];

const CONSTANT: [Slot; 5] = [
    Slot::Keyword(Keyword::Assign),
    Slot::Name,
    Slot::Sign(Sign::Equals),
    Slot::Literal,
    Slot::Sign(Sign::Semicolon),
];

const COPY: [Slot; 5] = [
    Slot::Keyword(Keyword::Assign),
    Slot::Name,
    Slot::Sign(Sign::Equals),
    Slot::Name,
    Slot::Sign(Sign::Semicolon),
];

const CUT: [Slot; 10] = [
    Slot::Keyword(Keyword::Assign),
    Slot::Name,
    Slot::Sign(Sign::Equals),
    Slot::Name,
    Slot::Sign(Sign::OpenBracket),
    Slot::Number,
    Slot::Sign(Sign::Colon),
    Slot::Number,
    Slot::Sign(Sign::CloseBracket),
    Slot::Sign(Sign::Semicolon),
];

const UNARY: [Slot; 6] = [
    Slot::Keyword(Keyword::Assign),
    Slot::Name,
    Slot::Sign(Sign::Equals),
    Slot::Unary,
    Slot::Name,
    Slot::Sign(Sign::Semicolon),
];

const BINARY: [Slot; 7] = [
    Slot::Keyword(Keyword::Assign),
    Slot::Name,
    Slot::Sign(Sign::Equals),
    Slot::Name,
    Slot::Binary,
    Slot::Name,
    Slot::Sign(Sign::Semicolon),
];

const LESS_SIGNED: [Slot; 13] = [
    Slot::Keyword(Keyword::Assign),
    Slot::Name,
    Slot::Sign(Sign::Equals),
    Slot::Signed,
    Slot::Sign(Sign::OpenParen),
    Slot::Name,
    Slot::Sign(Sign::CloseParen),
    Slot::Sign(Sign::Less),
    Slot::Signed,
    Slot::Sign(Sign::OpenParen),
    Slot::Name,
    Slot::Sign(Sign::CloseParen),
    Slot::Sign(Sign::Semicolon),
];

const SHIFT_SIGNED: [Slot; 10] = [
    Slot::Keyword(Keyword::Assign),
    Slot::Name,
    Slot::Sign(Sign::Equals),
    Slot::Signed,
    Slot::Sign(Sign::OpenParen),
    Slot::Name,
    Slot::Sign(Sign::CloseParen),
    Slot::Sign(Sign::GreaterGreaterGreater),
    Slot::Name,
    Slot::Sign(Sign::Semicolon),
];

const CHOICE: [Slot; 9] = [
    Slot::Keyword(Keyword::Assign),
    Slot::Name,
    Slot::Sign(Sign::Equals),
    Slot::Name,
    Slot::Sign(Sign::Question),
    Slot::Name,
    Slot::Sign(Sign::Colon),
    Slot::Name,
    Slot::Sign(Sign::Semicolon),
];

const JOIN: [Slot; 5] = [
    Slot::Keyword(Keyword::Assign),
    Slot::Name,
    Slot::Sign(Sign::Equals),
    Slot::Sign(Sign::OpenBrace),
    Slot::Name,
];

const NEXT_PART: [Slot; 2] = [Slot::Sign(Sign::Comma), Slot::Name];

const LAST_PART: [Slot; 2] = [Slot::Sign(Sign::CloseBrace), Slot::Sign(Sign::Semicolon)];

const EDGE: [Slot; 10] = [
    Slot::Keyword(Keyword::Always),
    Slot::Sign(Sign::At),
    Slot::Sign(Sign::OpenParen),
    Slot::Keyword(Keyword::Posedge),
    Slot::Name,
    Slot::Sign(Sign::CloseParen),
    Slot::Name,
    Slot::Sign(Sign::LessEquals),
    Slot::Name,
    Slot::Sign(Sign::Semicolon),
];

const RESET_EDGE: [Slot; 14] = [
    Slot::Keyword(Keyword::Always),
    Slot::Sign(Sign::At),
    Slot::Sign(Sign::OpenParen),
    Slot::Keyword(Keyword::Posedge),
    Slot::Name,
    Slot::Sign(Sign::CloseParen),
    Slot::Name,
    Slot::Sign(Sign::LessEquals),
    Slot::Name,
    Slot::Sign(Sign::Question),
    Slot::Literal,
    Slot::Sign(Sign::Colon),
    Slot::Name,
    Slot::Sign(Sign::Semicolon),
];

const RAM: [Slot; 9] = [
    Slot::Keyword(Keyword::Initial),
    Slot::Keyword(Keyword::Begin),
    Slot::Name,
    Slot::Sign(Sign::OpenBracket),
    Slot::Number,
    Slot::Sign(Sign::CloseBracket),
    Slot::Sign(Sign::Equals),
    Slot::Literal,
    Slot::Sign(Sign::Semicolon),
];

const NEXT_WORD: [Slot; 7] = [
    Slot::Name,
    Slot::Sign(Sign::OpenBracket),
    Slot::Number,
    Slot::Sign(Sign::CloseBracket),
    Slot::Sign(Sign::Equals),
    Slot::Literal,
    Slot::Sign(Sign::Semicolon),
];

const RAM_EDGE: [Slot; 41] = [
    Slot::Keyword(Keyword::End),
    Slot::Keyword(Keyword::Always),
    Slot::Sign(Sign::At),
    Slot::Sign(Sign::OpenParen),
    Slot::Keyword(Keyword::Posedge),
    Slot::Name,
    Slot::Sign(Sign::CloseParen),
    Slot::Keyword(Keyword::Begin),
    Slot::Keyword(Keyword::If),
    Slot::Sign(Sign::OpenParen),
    Slot::Name,
    Slot::Sign(Sign::Ampersand),
    Slot::Sign(Sign::OpenParen),
    Slot::Name,
    Slot::Sign(Sign::Less),
    Slot::Literal,
    Slot::Sign(Sign::CloseParen),
    Slot::Sign(Sign::CloseParen),
    Slot::Name,
    Slot::Sign(Sign::OpenBracket),
    Slot::Name,
    Slot::Sign(Sign::CloseBracket),
    Slot::Sign(Sign::LessEquals),
    Slot::Name,
    Slot::Sign(Sign::Semicolon),
    Slot::Name,
    Slot::Sign(Sign::LessEquals),
    Slot::Sign(Sign::OpenParen),
    Slot::Name,
    Slot::Sign(Sign::Less),
    Slot::Literal,
    Slot::Sign(Sign::CloseParen),
    Slot::Sign(Sign::Question),
    Slot::Name,
    Slot::Sign(Sign::OpenBracket),
    Slot::Name,
    Slot::Sign(Sign::CloseBracket),
    Slot::Sign(Sign::Colon),
    Slot::Literal,
    Slot::Sign(Sign::Semicolon),
    Slot::Keyword(Keyword::End),
];

const USE: [Slot; 8] = [
    Slot::Name,
    Slot::Name,
    Slot::Sign(Sign::OpenParen),
    Slot::Sign(Sign::Dot),
    Slot::Name,
    Slot::Sign(Sign::OpenParen),
    Slot::Name,
    Slot::Sign(Sign::CloseParen),
];

const NEXT_CONNECTION: [Slot; 6] = [
    Slot::Sign(Sign::Comma),
    Slot::Sign(Sign::Dot),
    Slot::Name,
    Slot::Sign(Sign::OpenParen),
    Slot::Name,
    Slot::Sign(Sign::CloseParen),
];

const LAST_CONNECTION: [Slot; 2] = [Slot::Sign(Sign::CloseParen), Slot::Sign(Sign::Semicolon)];

/// The slots of a row.
pub fn slots(row: Row) -> &'static [Slot]
    ensures { result.now ≡ slots_of row }
{
    match row {
        Row::Module => &MODULE,
        Row::Signal => &SIGNAL,
        Row::Input => &INPUT,
        Row::Output => &OUTPUT,
        Row::NextPort => &NEXT_PORT,
        Row::LastPort => &LAST_PORT,
        Row::Endmodule => &ENDMODULE,
        Row::Wire => &WIRE,
        Row::Register => &REGISTER,
        Row::Memory => &MEMORY,
        Row::Constant => &CONSTANT,
        Row::Copy => &COPY,
        Row::Cut => &CUT,
        Row::Unary => &UNARY,
        Row::Binary => &BINARY,
        Row::LessSigned => &LESS_SIGNED,
        Row::ShiftSigned => &SHIFT_SIGNED,
        Row::Choice => &CHOICE,
        Row::Join => &JOIN,
        Row::NextPart => &NEXT_PART,
        Row::LastPart => &LAST_PART,
        Row::Edge => &EDGE,
        Row::ResetEdge => &RESET_EDGE,
        Row::Ram => &RAM,
        Row::NextWord => &NEXT_WORD,
        Row::RamEdge => &RAM_EDGE,
        Row::Use => &USE,
        Row::NextConnection => &NEXT_CONNECTION,
        Row::LastConnection => &LAST_CONNECTION,
    }
}
