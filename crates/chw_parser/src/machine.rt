//! The stack of symbols that the tokens have to be.
ghost use Rattle.std.specs.Prelude.{◌≡◌, ◌++◌, IsTrue, IfOk, MatchOption, false};
ghost use Rattle.chw_lexer.specs.Words.{LiesIn};
ghost use Rattle.chw_grammar.specs.Lexemes.{kind_terminal, lexeme_of};
ghost use Rattle.chw_grammar.specs.declared.type_tree.KindTree.{KindTree};
ghost use Rattle.chw_parser.specs.Machine.{is_word, IsReset};
ghost use Rattle.chw_parser.specs.State.{IsLeaf, IsWanted, IsTaken, IsRead};

use crate::production::production;
use crate::symbol::{Symbol, WordSort};
use chw_base::{Name, NoMemory};
use chw_grammar::{KindTree, Terminal, Word};
use chw_lexer::{Token, word};
use parser_parts::{Parts, Stack};
use std::alloc::Global;

/// What the stack wants next.
#[derive(Clone, Copy)]
pub enum Wanted {
    /// A token that is this symbol.
    Take(Symbol),
    /// No token: everything was read.
    Nothing,
    /// Another token than the next.
    Refused,
}

/// Puts the symbols on top, the first of them topmost.
fn push_all(stack: &mut Stack<Symbol>, symbols: &[Symbol]) -> Result<(), NoMemory>
    ensures { IfOk result (λ _. stack.new ≡ symbols.now ++ stack.old) }
{
    let mut left = symbols.len();
    while left > 0 {
        left -= 1;
        stack.push(symbols[left])?;
    }
    Ok(())
}

/// Goes on by rules and actions as the next terminal says, and takes the symbol that has to be the next token.
pub fn advance(
    alloc: Global,
    stack: &mut Stack<Symbol>,
    parts: &mut Parts,
    next: Terminal,
) -> Result<Wanted, NoMemory>
    ensures { IfOk result (IsWanted next stack.old parts.old stack.new parts.new) }
{
    while let Some(symbol) = stack.pop() {
        match symbol {
            Symbol::Token(terminal) => return Ok(Wanted::Take(Symbol::Token(terminal))),
            Symbol::Word(sort) => return Ok(Wanted::Take(Symbol::Word(sort))),
            Symbol::Kind => return Ok(Wanted::Take(Symbol::Kind)),
            Symbol::Reset => return Ok(Wanted::Take(Symbol::Reset)),
            Symbol::Act(action) => {
                parts.act(alloc, action)?;
            }
            Symbol::Part(rule) => {
                let Some(symbols) = production(rule, next) else {
                    return Ok(Wanted::Refused);
                };
                push_all(&mut *stack, symbols)?;
            }
        }
    }
    Ok(Wanted::Nothing)
}

fn is_word(sort: WordSort, terminal: Terminal) -> bool
    ensures { result ≡ is_word sort terminal }
{
    match sort {
        WordSort::Lower => matches!(terminal, Terminal::Lower),
        WordSort::Upper => matches!(
            terminal,
            Terminal::Upper | Terminal::Nat | Terminal::Dom | Terminal::Val | Terminal::Cir
        ),
        WordSort::Numeral => matches!(terminal, Terminal::Numeral),
        WordSort::Literal => matches!(terminal, Terminal::Literal),
    }
}

/// Whether this word, whose terminal this is, is the lower name `reset`.
fn is_reset(terminal: Terminal, word: &Word) -> bool
    ensures yes { IsTrue result → IsReset terminal word.now }
    ensures no { result ≡ false → IsReset terminal word.now → ⊥ }
{
    is_word(WordSort::Lower, terminal) && word.bytes.as_slice() == "reset".as_bytes()
}

fn kind_of(terminal: Terminal) -> Option<KindTree>
    ensures { MatchOption result ((k : KindTree) → terminal ≡ kind_terminal k → ⊥) (λ k. terminal ≡ kind_terminal k) }
{
    match terminal {
        Terminal::Nat => Some(KindTree::Nat),
        Terminal::Dom => Some(KindTree::Dom),
        Terminal::Val => Some(KindTree::Val),
        Terminal::Cir => Some(KindTree::Cir),
        _ => None,
    }
}

fn is_same(a: Terminal, b: Terminal) -> bool
    ensures yes { IsTrue result → a ≡ b }
    ensures no { result ≡ false → a ≡ b → ⊥ }
{
    a == b
}

/// The word with these bytes at this place.
fn word_at(alloc: Global, at: u32, bytes: &[u8]) -> Result<Word, NoMemory>
    ensures { IfOk result (λ w. w ≡ record { at = at; bytes = bytes.now }) }
{
    let bytes = Name::copy_of(alloc, bytes)?;
    Ok(Word { at, bytes })
}

/// Whether the symbol takes a token of this terminal, which as a word is this one; if so, it becomes a part.
fn take(symbol: Symbol, terminal: Terminal, word: Word, parts: &mut Parts) -> Result<bool, NoMemory>
    requires { IsLeaf symbol }
    ensures { IfOk result (IsTaken symbol terminal word parts.old parts.new) }
{
    match symbol {
        Symbol::Token(wanted) => Ok(is_same(terminal, wanted)),
        Symbol::Word(sort) => {
            let fits = is_word(sort, terminal);
            if fits {
                parts.push_word(word)?;
            }
            Ok(fits)
        }
        Symbol::Kind => match kind_of(terminal) {
            Some(kind) => {
                parts.push_kind(kind)?;
                Ok(true)
            }
            None => Ok(false),
        },
        Symbol::Reset => Ok(is_reset(terminal, &word)),
        Symbol::Part(_) | Symbol::Act(_) => unreachable!(),
    }
}

/// Reads a token of the text, or answers that no description goes on with it.
pub fn read(
    alloc: Global,
    text: &[u8],
    token: Token,
    stack: &mut Stack<Symbol>,
    parts: &mut Parts,
) -> Result<bool, NoMemory>
    requires { LiesIn text.now token }
    ensures { IfOk result (IsRead (lexeme_of text.now token) stack.old parts.old stack.new parts.new) }
{
    let bytes = word(text, token);
    let next = Terminal::of(token.sort, bytes);
    match advance(alloc, &mut *stack, &mut *parts, next)? {
        Wanted::Take(symbol) => {
            let word = word_at(alloc, token.span.from, bytes)?;
            take(symbol, next, word, parts)
        }
        Wanted::Nothing => Ok(false),
        Wanted::Refused => Ok(false),
    }
}
