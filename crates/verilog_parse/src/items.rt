//! The items of a module.
ghost use Rattle.std.specs.Prelude.{◌++◌, IfOk};
ghost use Rattle.std.specs.List.{flat_map};
ghost use Rattle.chw_base.specs.Outcome.{IfFault};
ghost use Rattle.verilog_tree.specs.Marks.{item_marks, word_marks};
ghost use Rattle.verilog_lex.specs.Shown.{placed};
ghost use Rattle.verilog_parse.specs.Reading.{IsWrong, Reads};
ghost use Rattle.verilog_parse.specs.Rests.{Ends, IsAtItem, IsItemRead, end_marks, last_connections_marks, last_parts_marks};
ghost use Rattle.verilog_parse.specs.RowMarks.{row_marks};

use crate::cursor::{Cursor, SyntaxFault};
use crate::rows::{Row, State};
use crate::whole_rows::{connection, first_word, memory, register, whole};
use crate::words::{access, place, word};
use chw_base::{Or, Seq};
use std::alloc::Global;
use verilog_lex::Placed;
use verilog_tree::{Connection, FirstWord, Item, Join, Ram, Right, Use, Word};

/// The items of a module, up to its end.
pub fn items<'t>(
    alloc: Global,
    cursor: &mut Cursor<'_, 't>,
) -> Result<Seq<Item<'t>>, Or<SyntaxFault>>
    ensures reads { IfOk result (λ items. Reads State.Item cursor.old (flat_map item_marks items ++ end_marks) State.Modules cursor.new) }
    ensures wrong { IfFault result (λ fault. IsWrong State.Item cursor.old fault.at) }
{
    let mut items = Vec::new(alloc);
    let mut state = State::Item;
    while let Some((next, behind)) = item(alloc, &mut *cursor, state)? {
        items.push(next)?;
        state = behind;
    }
    Ok(Seq::from(items))
}

/// The next item, and what may follow it; `None` at the end of the module.
fn item<'t>(
    alloc: Global,
    cursor: &mut Cursor<'_, 't>,
    state: State,
) -> Result<Option<(Item<'t>, State)>, Or<SyntaxFault>>
    requires { IsAtItem state cursor.old }
    ensures reads { IfOk result (λ found. IsItemRead state cursor.old found cursor.new) }
    ensures wrong { IfFault result (λ fault. IsWrong state cursor.old fault.at) }
{
    let step = cursor.next(state)?;
    let tokens = step.tokens;
    match step.row {
        Row::Endmodule => Ok(None),
        Row::Register => Ok(Some(with_memory(&mut *cursor, tokens))),
        Row::Join => Ok(Some((joined(alloc, &mut *cursor, tokens)?, State::Item))),
        Row::Ram => Ok(Some((ram(alloc, &mut *cursor, tokens)?, State::Item))),
        Row::Use => Ok(Some((used(alloc, &mut *cursor, tokens)?, State::Item))),
        row => Ok(Some((whole(row, tokens), State::Item))),
    }
}

/// The register of these tokens, with the memory behind it, and what may follow.
fn with_memory<'t>(cursor: &mut Cursor<'_, 't>, tokens: &[Placed<'t>]) -> (Item<'t>, State)
    ensures ends { Ends State.ItemOrMemory cursor.old (row_marks Row.Register (placed tokens.now)) (item_marks result.0) result.1 cursor.new }
    ensures then { IsAtItem result.1 cursor.new }
{
    match cursor.read_row(Row::Memory) {
        Some(declared) => (register(tokens, Some(memory(declared))), State::Item),
        None => (register(tokens, None), State::ItemOrMemory),
    }
}

/// The assignment of a join that begins with these tokens.
fn joined<'t>(
    alloc: Global,
    cursor: &mut Cursor<'_, 't>,
    tokens: &[Placed<'t>],
) -> Result<Item<'t>, Or<SyntaxFault>>
    ensures ends { IfOk result (λ item. Ends State.Parts cursor.old (row_marks Row.Join (placed tokens.now)) (item_marks item) State.Item cursor.new) }
    ensures wrong { IfFault result (λ fault. IsWrong State.Parts cursor.old fault.at) }
{
    let (others, close) = parts(alloc, cursor)?;
    let join = Join {
        first: word(tokens, 4),
        others,
        close,
    };
    Ok(Item::Assign(word(tokens, 1), Right::Join(join)))
}

/// The joined names behind the first, and the place of the closing bracket.
fn parts<'t>(
    alloc: Global,
    cursor: &mut Cursor<'_, 't>,
) -> Result<(Seq<Word<'t>>, usize), Or<SyntaxFault>>
    ensures reads { IfOk result (λ parts. Reads State.Parts cursor.old (last_parts_marks parts.0 parts.1) State.Item cursor.new) }
    ensures wrong { IfFault result (λ fault. IsWrong State.Parts cursor.old fault.at) }
{
    let mut parts = Vec::new(alloc);
    loop {
        let step = cursor.next(State::Parts)?;
        match step.row {
            Row::NextPart => parts.push(word(step.tokens, 1))?,
            _ => return Ok((Seq::from(parts), place(step.tokens, 0))),
        }
    }
}

/// The use of a module that begins with these tokens.
fn used<'t>(
    alloc: Global,
    cursor: &mut Cursor<'_, 't>,
    tokens: &[Placed<'t>],
) -> Result<Item<'t>, Or<SyntaxFault>>
    ensures ends { IfOk result (λ item. Ends State.Connections cursor.old (row_marks Row.Use (placed tokens.now)) (item_marks item) State.Item cursor.new) }
    ensures wrong { IfFault result (λ fault. IsWrong State.Connections cursor.old fault.at) }
{
    let (others, close) = connections(alloc, cursor)?;
    Ok(Item::Use(Use {
        used: word(tokens, 0),
        name: word(tokens, 1),
        first: connection(tokens, 3),
        others,
        close,
    }))
}

/// The connections behind the first, and the place of the closing bracket.
fn connections<'t>(
    alloc: Global,
    cursor: &mut Cursor<'_, 't>,
) -> Result<(Seq<Connection<'t>>, usize), Or<SyntaxFault>>
    ensures reads { IfOk result (λ found. Reads State.Connections cursor.old (last_connections_marks found.0 found.1) State.Item cursor.new) }
    ensures wrong { IfFault result (λ fault. IsWrong State.Connections cursor.old fault.at) }
{
    let mut connections = Vec::new(alloc);
    loop {
        let step = cursor.next(State::Connections)?;
        match step.row {
            Row::NextConnection => connections.push(connection(step.tokens, 1))?,
            _ => return Ok((Seq::from(connections), place(step.tokens, 0))),
        }
    }
}

/// The RAM that begins with these tokens.
fn ram<'t>(
    alloc: Global,
    cursor: &mut Cursor<'_, 't>,
    tokens: &[Placed<'t>],
) -> Result<Item<'t>, Or<SyntaxFault>>
    ensures ends { IfOk result (λ item. Ends State.Words cursor.old (row_marks Row.Ram (placed tokens.now)) (item_marks item) State.Item cursor.new) }
    ensures wrong { IfFault result (λ fault. IsWrong State.Words cursor.old fault.at) }
{
    let (others, edge) = words(alloc, cursor)?;
    Ok(Item::Ram(Ram {
        first: first_word(tokens, 2),
        others,
        end: place(edge, 0),
        clock: word(edge, 5),
        enable: word(edge, 10),
        write: access(edge, 13),
        value: word(edge, 23),
        register: word(edge, 25),
        read: access(edge, 28),
        zeros: word(edge, 38),
    }))
}

/// The words of a RAM behind the first, and the tokens of what stands behind them.
fn words<'a, 't>(
    alloc: Global,
    cursor: &mut Cursor<'a, 't>,
) -> Result<(Seq<FirstWord<'t>>, &'a [Placed<'t>]), Or<SyntaxFault>>
    ensures reads { IfOk result (λ found. Reads State.Words cursor.old (flat_map word_marks found.0 ++ row_marks Row.RamEdge (placed found.1.now)) State.Item cursor.new) }
    ensures wrong { IfFault result (λ fault. IsWrong State.Words cursor.old fault.at) }
{
    let mut words = Vec::new(alloc);
    loop {
        let step = cursor.next(State::Words)?;
        match step.row {
            Row::NextWord => words.push(first_word(step.tokens, 0))?,
            _ => return Ok((Seq::from(words), step.tokens)),
        }
    }
}
