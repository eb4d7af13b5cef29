//! The reading of a whole description.
ghost use Rattle.std.specs.Prelude.{◌≡◌, ◌^◌, ◌<◌, ◌≤◌, length, IfOk};
ghost use Rattle.chw_base.specs.declared.limits.TheConstants.{NESTING};
ghost use Rattle.chw_base.specs.Outcome.{IfFault};
ghost use Rattle.chw_lexer.specs.Tokens.{Tokens};
ghost use Rattle.chw_grammar.specs.Grammar.{Reads};
ghost use Rattle.chw_grammar.specs.Height.{tree_height};
ghost use Rattle.chw_grammar.specs.Lexemes.{lexemes_of};
ghost use Rattle.chw_parser.specs.Faults.{bracketed, IsFault, Shallow};

use crate::machine::{Wanted, advance, read};
use crate::symbol::{Rule, Symbol};
use chw_base::Or;
use chw_base::limits::NESTING;
use chw_grammar::{Terminal, Tree};
use chw_lexer::laws::tokens_lie_in;
use chw_lexer::{Token, word};
use parser_parts::{Parts, Stack};
use std::alloc::Global;

/// Why tokens are no description, or too deep a one.
#[derive(Clone, Copy, Debug, PartialEq, Eq)]
pub enum ParseFault {
    /// The tokens before byte `at` begin a description, and no description begins with them and the one at `at`; or they end too
    /// early, and `at` is the length of the text.
    Syntax { at: u32 },
    /// With the token at `at` first more than 200 of the brackets `(`, `{` and `[` are open, and some description begins with the
    /// tokens up to it; or the tree that was read whole is higher than 200, and `at` is 0.
    Depth { at: u32 },
}

/// Reads the tree of a description from the tokens of its text.
///
/// A fault comes exactly where the tokens have no tree, more than 200 brackets are open at a time, or the tree is higher than 200. It
/// is the first from the left, and the height is looked at last. (Want of memory may come before it.) The time is linear in the number
/// of tokens, and no tree that is made on the way is higher than 200.
pub fn parse(alloc: Global, text: &[u8], tokens: &[Token]) -> Result<Tree, Or<ParseFault>>
    requires short { length text.now < 2 ^ 32 }
    requires split { Tokens text.now tokens.now }
    ensures tree { IfOk result (Reads (lexemes_of text.now tokens.now)) }
    ensures shallow { IfOk result (λ _. Shallow (lexemes_of text.now tokens.now)) }
    ensures low { IfOk result (λ tree. tree_height tree ≤ NESTING) }
    ensures fault { IfFault result (IsFault (length text.now) (lexemes_of text.now tokens.now)) }
{
    tokens_lie_in();
    let mut stack = Stack::new(alloc);
    stack.push(Symbol::Part(Rule::Program))?;
    let mut parts = Parts::new(alloc);
    let mut opened = 0;
    for token in tokens {
        let at = token.span.from;
        let terminal = Terminal::of(token.sort, word(text, *token));
        if !read(alloc, text, *token, &mut stack, &mut parts)? {
            return Err(Or::Fault(ParseFault::Syntax { at }));
        }
        opened = bracketed(opened, terminal);
        if opened > NESTING {
            return Err(Or::Fault(ParseFault::Depth { at }));
        }
    }
    let Wanted::Nothing = advance(alloc, &mut stack, &mut parts, Terminal::End)? else {
        let at = text.len() as u32;
        return Err(Or::Fault(ParseFault::Syntax { at }));
    };
    match parts.into_tree() {
        Some(tree) => Ok(tree),
        None => Err(Or::Fault(ParseFault::Depth { at: 0 })),
    }
}

/// How many brackets are open behind a token, where so many were before it.
fn bracketed(opened: u32, terminal: Terminal) -> u32
    requires { opened ≤ NESTING }
    ensures { result ≡ bracketed opened terminal }
{
    match terminal {
        Terminal::Open | Terminal::OpenBrace | Terminal::OpenBracket => opened + 1,
        Terminal::Close | Terminal::CloseBrace | Terminal::CloseBracket => opened.saturating_sub(1),
        _ => opened,
    }
}
