//! The splitting of a text into tokens.
ghost use Rattle.std.specs.Prelude.{◌≡◌, ◌^◌, ◌<◌, length, IfOk};
ghost use Rattle.chw_base.specs.Outcome.{IfFault};
ghost use Rattle.chw_lexer.specs.Tokens.{Tokens, NoToken, InOrder};
ghost use Rattle.chw_lexer.specs.Words.{word_of, LiesIn};

use crate::piece::{Piece, piece_at};
use crate::token::{LexFault, Span, Token};
use chw_base::{Or, Seq};
use std::alloc::Global;

/// Cuts a text into tokens: at each place, behind white space and comments, the longest token.
///
/// A fault comes exactly where, outside white space and comments, no token begins; it is at the first such byte. (Want of memory
/// may come before it.)
pub fn lex(alloc: Global, text: &[u8]) -> Result<Seq<Token>, Or<LexFault>>
    requires { length text.now < 2 ^ 32 }
    ensures tokens { IfOk result (λ tokens. Tokens text.now tokens) }
    ensures in_order { IfOk result (λ tokens. InOrder 0 (length text.now) tokens) }
    ensures fault { IfFault result (λ fault. NoToken text.now fault.at) }
{
    let mut tokens = Vec::new(alloc);
    let mut at = 0;
    while at < text.len() {
        match piece_at(&text[at..]) {
            Piece::Space(len) => at += len,
            Piece::LastComment => return Ok(tokens.into()),
            Piece::Word(sort, len) => {
                let to = at + len;
                tokens.push(Token {
                    sort,
                    span: Span {
                        from: at as u32,
                        to: to as u32,
                    },
                })?;
                at = to;
            }
            Piece::Nothing => return Err(Or::Fault(LexFault { at: at as u32 })),
        }
    }
    Ok(tokens.into())
}

/// The bytes of a token in its text.
pub fn word<'a>(text: &'a [u8], token: Token) -> &'a [u8]
    requires { LiesIn text.now token }
    ensures { result.now ≡ (word_of text.now token).bytes }
{
    &text[token.span.from as usize..token.span.to as usize]
}
