//! The splitting of a text into tokens.
ghost use Rattle.std.specs.Prelude.{IfOk};
ghost use Rattle.chw_base.specs.Outcome.{IfFault};
ghost use Rattle.verilog_text.specs.VTokens.{NoVToken, VTokens};
ghost use Rattle.verilog_lex.specs.Shown.{placed};

use crate::piece::{Piece, piece_at};
use crate::token::{NoToken, Placed};
use chw_base::Or;
use std::alloc::Global;

/// Cuts a text into tokens: at each place, behind white space and comments, the longest token.
///
/// A fault comes exactly where, outside white space and comments, no token begins; it is at the first such byte. (Want of memory
/// may come before it.)
pub fn lex(alloc: Global, text: &[u8]) -> Result<Vec<Placed<'_>>, Or<NoToken>>
    ensures tokens { IfOk result (λ tokens. VTokens text.now (placed tokens.items)) }
    ensures fault { IfFault result (λ fault. NoVToken text.now fault.at) }
{
    let mut tokens = Vec::new(alloc);
    let mut at = 0;
    while at < text.len() {
        match piece_at(&text[at..]) {
            Piece::Space(len) => at += len,
            Piece::LastComment => return Ok(tokens),
            Piece::Word(token, len) => {
                tokens.push(Placed { at, token })?;
                at += len;
            }
            Piece::Nothing => return Err(Or::Fault(NoToken { at })),
        }
    }
    Ok(tokens)
}
