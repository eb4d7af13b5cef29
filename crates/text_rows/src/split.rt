//! The tokens of a text.
ghost use Rattle.std.specs.Prelude.{◌<◌, ◌^◌, length};
ghost use Rattle.chw_lexer.specs.Tokens.{Tokens};

use chw_base::{NoMemory, Or};
use chw_grammar::Terminal;
use chw_lexer::laws::tokens_lie_in;
use chw_lexer::{LexFault, Sort, Token, lex, word};
use row_tables::{Unread, put, put_bytes, put_number};
use std::alloc::Global;

/// Writes the sort and the place of each token, or the place of the fault.
pub fn put_tokens(alloc: Global, text: &[u8], out: &mut Vec<u8>) -> Result<(), Or<Unread>>
    requires { length text.now < 2 ^ 32 }
{
    match lex(alloc, text) {
        Ok(tokens) => {
            let outcome = put_each(tokens.as_slice(), out);
            drop(tokens);
            Ok(outcome?)
        }
        Err(Or::Fault(LexFault { at })) => Ok(put_number(out, "fault ", at)?),
        Err(Or::Memory) => Err(Or::Memory),
    }
}

fn put_each(tokens: &[Token], out: &mut Vec<u8>) -> Result<(), NoMemory> {
    for token in tokens {
        put_token(*token, out)?;
    }
    put(out, if tokens.is_empty() { "none" } else { "" })
}

fn put_token(token: Token, out: &mut Vec<u8>) -> Result<(), NoMemory> {
    let sort = match token.sort {
        Sort::Lower => "Lower ",
        Sort::Upper => "Upper ",
        Sort::Key => "Key ",
        Sort::Numeral => "Numeral ",
        Sort::Literal => "Literal ",
        Sort::Symbol => "Symbol ",
    };
    put_mark(out)?;
    put_number(out, sort, token.span.from)?;
    put_number(out, " ", token.span.to)
}

// Separates an answer from the one before it.
fn put_mark(out: &mut Vec<u8>) -> Result<(), NoMemory> {
    put(out, if out.is_empty() { "" } else { "; " })
}

/// Writes the word of each token and what it is to the grammar.
pub fn put_terminals(alloc: Global, text: &[u8], out: &mut Vec<u8>) -> Result<(), Or<Unread>>
    requires { length text.now < 2 ^ 32 }
{
    let Ok(tokens) = lex(alloc, text) else {
        return Err(Or::Fault(Unread));
    };
    let outcome = put_words(alloc, text, tokens.as_slice(), out);
    drop(tokens);
    Ok(outcome?)
}

fn put_words(
    alloc: Global,
    text: &[u8],
    tokens: &[Token],
    out: &mut Vec<u8>,
) -> Result<(), NoMemory>
    requires { Tokens text.now tokens.now }
{
    tokens_lie_in();
    for token in tokens {
        put_terminal(alloc, token.sort, word(text, *token), out)?;
    }
    Ok(())
}

fn put_terminal(alloc: Global, sort: Sort, word: &[u8], out: &mut Vec<u8>) -> Result<(), NoMemory> {
    let terminal = Terminal::of(sort, word);
    put_mark(out)?;
    put_bytes(out, word)?;
    put(out, format!(in alloc; " {terminal:?}")?.as_str())
}
