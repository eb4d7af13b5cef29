//! The tree of a text, or its fault.
ghost use Rattle.std.specs.Prelude.{◌<◌, ◌^◌, length};
ghost use Rattle.chw_lexer.specs.Tokens.{Tokens};

use chw_base::{NoMemory, Or, narrow};
use chw_grammar::Tree;
use chw_lexer::{LexFault, Token, lex};
use chw_parser::{ParseFault, parse};
use row_tables::{Unread, put, put_number};
use std::alloc::Global;

/// Writes how many declarations the tree has, or the fault.
pub fn put_tree(alloc: Global, text: &[u8], out: &mut Vec<u8>) -> Result<(), Or<Unread>>
    requires { length text.now < 2 ^ 32 }
{
    match lex(alloc, text) {
        Ok(tokens) => {
            let outcome = put_parsed(alloc, text, tokens.as_slice(), out);
            drop(tokens);
            Ok(outcome?)
        }
        Err(Or::Fault(LexFault { at })) => Ok(put_number(out, "lexer fault ", at)?),
        Err(Or::Memory) => Err(Or::Memory),
    }
}

// The same of the tokens of a text.
fn put_parsed(
    alloc: Global,
    text: &[u8],
    tokens: &[Token],
    out: &mut Vec<u8>,
) -> Result<(), NoMemory>
    requires short { length text.now < 2 ^ 32 }
    requires split { Tokens text.now tokens.now }
{
    let parsed = parse(alloc, text, tokens);
    let outcome = put_outcome(&parsed, out);
    drop(parsed);
    outcome
}

fn put_outcome(parsed: &Result<Tree, Or<ParseFault>>, out: &mut Vec<u8>) -> Result<(), NoMemory> {
    match parsed {
        Ok(tree) => {
            put_number(out, "", narrow(tree.declarations.len())?)?;
            put(out, " declarations")
        }
        Err(Or::Fault(ParseFault::Syntax { at })) => put_number(out, "syntax fault ", *at),
        Err(Or::Fault(ParseFault::Depth { at })) => put_number(out, "depth fault ", *at),
        Err(Or::Memory) => Err(NoMemory),
    }
}

/// Writes the same of the text, and before it of each beginning of it that has neither a fault of
/// the lexer nor one of syntax.
pub fn put_cuts(alloc: Global, text: &[u8], out: &mut Vec<u8>) -> Result<(), Or<Unread>>
    requires { length text.now < 2 ^ 32 }
{
    for end in 0..text.len() {
        put_cut(alloc, &text[..end], out)?;
    }
    put_tree(alloc, text, out)
}

fn put_cut(alloc: Global, beginning: &[u8], out: &mut Vec<u8>) -> Result<(), Or<Unread>>
    requires { length beginning.now < 2 ^ 32 }
{
    let answer = answer_of(alloc, beginning)?;
    let outcome = put_marked(beginning.len(), &answer, out);
    drop(answer);
    Ok(outcome?)
}

fn answer_of(alloc: Global, beginning: &[u8]) -> Result<Vec<u8>, Or<Unread>>
    requires { length beginning.now < 2 ^ 32 }
{
    let mut answer = Vec::new(alloc);
    put_tree(alloc, beginning, &mut answer)?;
    Ok(answer)
}

// Writes the answer of a beginning of a text, and how long it is, where it isn't left out.
fn put_marked(end: usize, answer: &[u8], out: &mut Vec<u8>) -> Result<(), NoMemory> {
    if answer.starts_with(b"lexer") || answer.starts_with(b"syntax") {
        return Ok(());
    }
    put_number(out, "at ", narrow(end)?)?;
    put(out, ": ")?;
    out.extend_from_slice(answer)?;
    put(out, "; ")
}
