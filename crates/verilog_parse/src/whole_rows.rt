//! Items of one row, and the parts of those that have more.
ghost use Rattle.std.specs.Prelude.{◌≡◌, ◌≤◌, ◌++◌, true};
ghost use Rattle.verilog_text.specs.Grammar.{binary_sign};
ghost use Rattle.verilog_text.specs.Text.{sign1};
ghost use Rattle.verilog_tree.specs.Marks.{connection_marks, item_marks, marks_behind, memory_marks, word_marks};
ghost use Rattle.verilog_tree.specs.Syntax.{tokens_of};
ghost use Rattle.verilog_lex.specs.Shown.{placed};
ghost use Rattle.verilog_parse.specs.RowMarks.{IsPlain, IsSignAt, connection_at, is_whole, nth, row_marks, word_at};
ghost use Rattle.verilog_parse.specs.Rows.{slots_of};
ghost use Rattle.verilog_parse.specs.Slots.{fits, takes};
ghost use Rattle.verilog_parse.specs.declared.slot.Slot.TheVariants as slot;

use crate::rows::Row;
use crate::words::{line, place, range, word};
use netlist::{Op1, Op2};
use verilog_lex::{Placed, Sign, Token};
use verilog_tree::{Connection, Edge, FirstWord, Item, Memory, Reset, Right};

/// The item of a row that is a whole item.
pub fn whole<'t>(row: Row, tokens: &[Placed<'t>]) -> Item<'t>
    requires whole { is_whole row ≡ true }
    requires fit { fits (slots_of row) (tokens_of (placed tokens.now)) ≡ true }
    ensures { item_marks result ≡ row_marks row (placed tokens.now) }
{
    match row {
        Row::Wire => Item::Wire(line(tokens, 1)),
        Row::Edge => edge(tokens),
        Row::ResetEdge => reset_edge(tokens),
        Row::Constant => Item::Assign(word(tokens, 1), Right::Constant(word(tokens, 3))),
        Row::Copy => Item::Assign(word(tokens, 1), Right::Copy(word(tokens, 3))),
        Row::Cut => cut(tokens),
        Row::Unary => unary(tokens),
        Row::Binary => binary(tokens),
        Row::LessSigned => less_signed(tokens),
        Row::ShiftSigned => shift_signed(tokens),
        _ => choice(tokens),
    }
}

fn edge<'t>(tokens: &[Placed<'t>]) -> Item<'t>
    ensures { item_marks result ≡ row_marks Row.Edge (placed tokens.now) }
{
    Item::Edge(Edge {
        clock: word(tokens, 4),
        register: word(tokens, 6),
        reset: None,
        a: word(tokens, 8),
    })
}

fn reset_edge<'t>(tokens: &[Placed<'t>]) -> Item<'t>
    ensures { item_marks result ≡ row_marks Row.ResetEdge (placed tokens.now) }
{
    Item::Edge(Edge {
        clock: word(tokens, 4),
        register: word(tokens, 6),
        reset: Some(Reset {
            name: word(tokens, 8),
            literal: word(tokens, 10),
        }),
        a: word(tokens, 12),
    })
}

fn cut<'t>(tokens: &[Placed<'t>]) -> Item<'t>
    ensures { item_marks result ≡ row_marks Row.Cut (placed tokens.now) }
{
    Item::Assign(
        word(tokens, 1),
        Right::Cut(word(tokens, 3), range(tokens, 4)),
    )
}

fn unary<'t>(tokens: &[Placed<'t>]) -> Item<'t>
    requires { takes slot.Unary (nth 3 (placed tokens.now)).token ≡ true }
    ensures { item_marks result ≡ row_marks Row.Unary (placed tokens.now) }
{
    let right = Right::Unary(unary_op(tokens, 3), place(tokens, 3), word(tokens, 4));
    Item::Assign(word(tokens, 1), right)
}

fn binary<'t>(tokens: &[Placed<'t>]) -> Item<'t>
    requires { takes slot.Binary (nth 4 (placed tokens.now)).token ≡ true }
    ensures { item_marks result ≡ row_marks Row.Binary (placed tokens.now) }
{
    let op = binary_op(tokens, 4);
    let right = Right::Binary(op, place(tokens, 4), word(tokens, 3), word(tokens, 5));
    Item::Assign(word(tokens, 1), right)
}

fn less_signed<'t>(tokens: &[Placed<'t>]) -> Item<'t>
    ensures { item_marks result ≡ row_marks Row.LessSigned (placed tokens.now) }
{
    let at = place(tokens, 7);
    let right = Right::Binary(Op2::LtS, at, word(tokens, 5), word(tokens, 10));
    Item::Assign(word(tokens, 1), right)
}

fn shift_signed<'t>(tokens: &[Placed<'t>]) -> Item<'t>
    ensures { item_marks result ≡ row_marks Row.ShiftSigned (placed tokens.now) }
{
    let at = place(tokens, 7);
    let right = Right::Binary(Op2::Sar, at, word(tokens, 5), word(tokens, 8));
    Item::Assign(word(tokens, 1), right)
}

fn choice<'t>(tokens: &[Placed<'t>]) -> Item<'t>
    ensures { item_marks result ≡ row_marks Row.Choice (placed tokens.now) }
{
    let right = Right::Choice(word(tokens, 3), word(tokens, 5), word(tokens, 7));
    Item::Assign(word(tokens, 1), right)
}

/// The operator whose sign stands behind so many tokens.
fn unary_op(tokens: &[Placed], k: usize) -> Op1
    ensures { takes slot.Unary (nth k (placed tokens.now)).token ≡ true → sign1 result ≡ (nth k (placed tokens.now)).token.bytes }
{
    match sign(tokens, k) {
        Sign::Tilde => Op1::Not,
        Sign::Ampersand => Op1::RedAnd,
        Sign::Bar => Op1::RedOr,
        _ => Op1::RedXor,
    }
}

/// The operator whose sign stands behind so many tokens.
fn binary_op(tokens: &[Placed], k: usize) -> Op2
    ensures sign { takes slot.Binary (nth k (placed tokens.now)).token ≡ true → binary_sign result ≡ (nth k (placed tokens.now)).token.bytes }
    ensures plain { IsPlain result }
{
    match sign(tokens, k) {
        Sign::Plus => Op2::Add,
        Sign::Minus => Op2::Sub,
        Sign::Star => Op2::Mul,
        Sign::Ampersand => Op2::And,
        Sign::Bar => Op2::Or,
        Sign::Caret => Op2::Xor,
        Sign::EqualsEquals => Op2::Eq,
        Sign::Less => Op2::LtU,
        Sign::LessLess => Op2::Shl,
        _ => Op2::Shr,
    }
}

/// The sign behind so many tokens; a comma where there is none.
fn sign(tokens: &[Placed], k: usize) -> Sign
    ensures { IsSignAt result k (placed tokens.now) }
{
    match tokens.get(k) {
        Some(found) => match found.token {
            Token::Sign(sign) => sign,
            _ => Sign::Comma,
        },
        None => Sign::Comma,
    }
}

/// The memory that a row declares.
pub fn memory<'t>(tokens: &[Placed<'t>]) -> Memory<'t>
    ensures { memory_marks result ≡ row_marks Row.Memory (placed tokens.now) }
{
    Memory {
        width: range(tokens, 1),
        name: word(tokens, 6),
        places: range(tokens, 7),
    }
}

/// The register that a row declares, with the memory behind it.
pub fn register<'t>(tokens: &[Placed<'t>], memory: Option<Memory<'t>>) -> Item<'t>
    ensures { item_marks result ≡ row_marks Row.Register (placed tokens.now) ++ marks_behind memory.entry }
{
    Item::Register(line(tokens, 1), word(tokens, 8), memory)
}

/// The word of a RAM whose tokens stand behind so many.
pub fn first_word<'t>(tokens: &[Placed<'t>], k: usize) -> FirstWord<'t>
    requires { k ≤ 100 }
    ensures { word_marks result ≡ word_at k (placed tokens.now) }
{
    FirstWord {
        memory: word(tokens, k),
        place: word(tokens, k + 2),
        literal: word(tokens, k + 5),
    }
}

/// The connection whose tokens stand behind so many.
pub fn connection<'t>(tokens: &[Placed<'t>], k: usize) -> Connection<'t>
    requires { k ≤ 100 }
    ensures { connection_marks result ≡ connection_at k (placed tokens.now) }
{
    Connection {
        port: word(tokens, k + 1),
        wire: word(tokens, k + 3),
    }
}
