//! The words that stand among tokens.
ghost use Rattle.verilog_lex.specs.Shown.{placed, token_of};
ghost use Rattle.std.specs.Prelude.{◌≡◌, ◌+◌, ◌≤◌};
ghost use Rattle.verilog_parse.specs.RowMarks.{IsAccessAt, IsLineAt, IsRangeAt, IsWordAt, nth, word_bytes};

use verilog_lex::{Placed, Token};
use verilog_tree::{Access, Line, Range, Word};

/// The word behind so many tokens; it is empty where there is none.
pub fn word<'t>(tokens: &[Placed<'t>], k: usize) -> Word<'t>
    ensures { IsWordAt result k (placed tokens.now) }
{
    match tokens.get(k) {
        Some(found) => Word {
            at: found.at,
            bytes: bytes_of(found.token),
        },
        None => Word { at: 0, bytes: &[] },
    }
}

/// The bytes of a name, a number or a literal.
fn bytes_of(token: Token<'_>) -> &[u8]
    ensures { result.now ≡ word_bytes (token_of token.entry) }
{
    match token {
        Token::Name(bytes) | Token::Number(bytes) | Token::Literal(bytes) => bytes,
        _ => &[],
    }
}

/// The place of the token behind so many, or 0.
pub fn place(tokens: &[Placed], k: usize) -> usize
    ensures { result ≡ (nth k (placed tokens.now)).at }
{
    match tokens.get(k) {
        Some(found) => found.at,
        None => 0,
    }
}

/// The range whose bracket stands behind so many tokens.
pub fn range<'t>(tokens: &[Placed<'t>], k: usize) -> Range<'t>
    requires { k ≤ 100 }
    ensures { IsRangeAt result k (placed tokens.now) }
{
    Range {
        from: word(tokens, k + 1),
        to: word(tokens, k + 3),
    }
}

/// The line whose bracket stands behind so many tokens.
pub fn line<'t>(tokens: &[Placed<'t>], k: usize) -> Line<'t>
    requires { k ≤ 100 }
    ensures { IsLineAt result k (placed tokens.now) }
{
    Line {
        range: range(tokens, k),
        name: word(tokens, k + 5),
    }
}

/// The address that stands behind so many tokens, with the number of words and the word at the address.
pub fn access<'t>(tokens: &[Placed<'t>], k: usize) -> Access<'t>
    requires { k ≤ 100 }
    ensures { IsAccessAt result k (placed tokens.now) }
{
    Access {
        address: word(tokens, k),
        count: word(tokens, k + 2),
        memory: word(tokens, k + 5),
        again: word(tokens, k + 7),
    }
}
