//! The tokens that are left.
ghost use Rattle.std.specs.Prelude.{◌≡◌, ◌≤◌, [], drop, take, length, IfOk, IfErr, IfSome, IfNone};
ghost use Rattle.chw_base.specs.Outcome.{IfFault};
ghost use Rattle.verilog_lex.specs.Shown.{placed};
ghost use Rattle.verilog_parse.specs.Reading.{BeginsNoRow, IsChosen, IsRowRead, IsStep, IsWrong, NoneFits, place_of};
ghost use Rattle.verilog_parse.specs.Slots.{tokens_in};

use crate::row_slots::slots;
use crate::rows::{Row, State, rows};
use crate::slot::fitting;
use chw_base::Or;
use verilog_lex::Placed;

/// Why tokens are no text: no text begins with those before the place and the one at it; or the tokens end too early, and the
/// place is the length of the text.
#[derive(Clone, Copy, Debug, PartialEq, Eq)]
pub struct SyntaxFault {
    pub at: usize,
}

/// The tokens that are left, and the length of the text.
#[derive(Drop)]
pub struct Cursor<'a, 't> {
    pub rest: &'a [Placed<'t>],
    pub end: usize,
}

/// A row that was read, and its tokens.
#[derive(Clone, Copy)]
pub struct Step<'a, 't> {
    pub row: Row,
    pub tokens: &'a [Placed<'t>],
}

/// The row of the state that the tokens begin with and how many tokens it has, or how many tokens at most fit the front of one.
fn choose(state: State, tokens: &[Placed]) -> Result<(Row, usize), usize>
    ensures found { IfOk result (λ found. IsChosen state (tokens_in tokens.now) found.0 found.1) }
    ensures within { IfOk result (λ found. found.1 ≤ length tokens.now) }
    ensures none { IfErr result (NoneFits state (tokens_in tokens.now)) }
{
    let mut longest = 0;
    for row in rows(state) {
        let slots = slots(*row);
        let n = fitting(slots, tokens);
        if n == slots.len() {
            return Ok((*row, n));
        }
        if n > longest {
            longest = n;
        }
    }
    Err(longest)
}

impl<'a, 't> Cursor<'a, 't> {
    /// Reads a row of the state.
    pub fn next(&mut self, state: State) -> Result<Step<'a, 't>, Or<SyntaxFault>>
        requires { state ≡ State.Modules → self.old.rest.now ≡ [] → ⊥ }
        ensures step { IfOk result (λ step. IsStep state self.old step self.new) }
        ensures fault { IfFault result (λ fault. IsWrong state self.old fault.at) }
    {
        match choose(state, self.rest) {
            Ok((row, len)) => {
                let tokens = self.cut(len);
                Ok(Step { row, tokens })
            }
            Err(longest) => Err(Or::Fault(SyntaxFault {
                at: self.place(longest),
            })),
        }
    }

    /// Reads the row, if the tokens begin with it.
    pub fn read_row(&mut self, row: Row) -> Option<&'a [Placed<'t>]>
        ensures read { IfSome result (λ tokens. IsRowRead row self.old (placed tokens.now) self.new) }
        ensures none { IfNone result ((self.new ≡ self.old) × BeginsNoRow row self.old) }
    {
        let slots = slots(row);
        let n = fitting(slots, self.rest);
        if n < slots.len() {
            return None;
        }
        Some(self.cut(n))
    }

    /// Reads so many tokens.
    fn cut(&mut self, len: usize) -> &'a [Placed<'t>]
        requires { len ≤ length self.old.rest.now }
        ensures tokens { result.now ≡ take len self.old.rest.now }
        ensures rest { self.new.rest.now ≡ drop len self.old.rest.now }
        ensures end { self.new.end ≡ self.old.end }
    {
        let tokens = &self.rest[..len];
        self.rest = &self.rest[len..];
        tokens
    }

    /// The place of the token behind so many, or of the end of the text.
    fn place(&self, n: usize) -> usize
        ensures { result ≡ place_of self.now.end (placed (drop n self.now.rest.now)) }
    {
        match self.rest.get(n) {
            Some(token) => token.at,
            None => self.end,
        }
    }
}
