//! The parser of a whole text.
ghost use Rattle.std.specs.Prelude.{◌≡◌, ◌++◌, IfOk};
ghost use Rattle.chw_base.specs.Outcome.{IfFault};
ghost use Rattle.verilog_tree.specs.Marks.{IsTreeOf, module_marks, port_marks};
ghost use Rattle.verilog_tree.specs.Syntax.{IsSyntaxFault};
ghost use Rattle.verilog_lex.specs.Shown.{placed};
ghost use Rattle.verilog_parse.specs.Reading.{IsWrong, Reads};
ghost use Rattle.verilog_parse.specs.Rests.{IsAtModule, last_ports_marks};

use crate::cursor::{Cursor, SyntaxFault};
use crate::items::items;
use crate::rows::{Row, State};
use crate::words::{line, word};
use chw_base::{Or, Seq};
use std::alloc::Global;
use verilog_lex::Placed;
use verilog_tree::{Module, Port, Tree};

/// Reads the tree of a text of this length from its tokens.
///
/// A fault comes exactly where the tokens are no text: at the first token with which those before it begin no text, or at the
/// length of the text, where the tokens begin a text and are none. (Want of memory may come before it.) The time is linear in the
/// number of tokens.
pub fn parse<'t>(
    alloc: Global,
    length: usize,
    tokens: &[Placed<'t>],
) -> Result<Tree<'t>, Or<SyntaxFault>>
    ensures tree { IfOk result (IsTreeOf (placed tokens.now)) }
    ensures fault { IfFault result (λ fault. IsSyntaxFault length (placed tokens.now) fault.at) }
{
    let mut cursor = Cursor {
        rest: tokens,
        end: length,
    };
    let mut earlier = Vec::new(alloc);
    let mut state = State::Text;
    loop {
        let last = module(alloc, &mut cursor, state)?;
        if cursor.rest.is_empty() {
            return Ok(Tree {
                earlier: Seq::from(earlier),
                last,
            });
        }
        earlier.push(last)?;
        state = State::Modules;
    }
}

/// Reads a module.
fn module<'t>(
    alloc: Global,
    cursor: &mut Cursor<'_, 't>,
    state: State,
) -> Result<Module<'t>, Or<SyntaxFault>>
    requires { IsAtModule state cursor.old }
    ensures reads { IfOk result (λ m. Reads state cursor.old (module_marks m) State.Modules cursor.new) }
    ensures wrong { IfFault result (λ fault. IsWrong state cursor.old fault.at) }
{
    let step = cursor.next(state)?;
    let name = word(step.tokens, 1);
    let first = port(&mut *cursor)?;
    let others = ports(alloc, &mut *cursor)?;
    let items = items(alloc, &mut *cursor)?;
    Ok(Module {
        name,
        first,
        others,
        items,
    })
}

/// Reads a port.
fn port<'t>(cursor: &mut Cursor<'_, 't>) -> Result<Port<'t>, Or<SyntaxFault>>
    ensures reads { IfOk result (λ p. Reads State.Port cursor.old (port_marks p) State.Ports cursor.new) }
    ensures wrong { IfFault result (λ fault. IsWrong State.Port cursor.old fault.at) }
{
    let step = cursor.next(State::Port)?;
    match step.row {
        Row::Signal => Ok(Port::Signal(word(step.tokens, 1))),
        Row::Input => Ok(Port::Input(line(step.tokens, 1))),
        _ => Ok(Port::Output(line(step.tokens, 1))),
    }
}

/// Reads the ports behind the first, and the end of the ports.
fn ports<'t>(alloc: Global, cursor: &mut Cursor<'_, 't>) -> Result<Seq<Port<'t>>, Or<SyntaxFault>>
    ensures reads { IfOk result (λ ports. Reads State.Ports cursor.old (last_ports_marks ports) State.Item cursor.new) }
    ensures wrong { IfFault result (λ fault. IsWrong State.Ports cursor.old fault.at) }
{
    let mut ports = Vec::new(alloc);
    loop {
        let step = cursor.next(State::Ports)?;
        match step.row {
            Row::NextPort => {
                let next = port(&mut *cursor)?;
                ports.push(next)?;
            }
            _ => return Ok(Seq::from(ports)),
        }
    }
}
