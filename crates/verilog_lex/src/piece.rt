//! What stands first in some bytes: white space, a comment, or a token.
ghost use Rattle.std.specs.Prelude.{◌≡◌, ◌∷◌, ◌<◌, false, length, IfSome, IfNone};
ghost use Rattle.verilog_text.specs.VTokens.{HasNoEnd};
ghost use Rattle.verilog_lex.specs.Scanning.{IsEndAt, IsPiece, begins_comment};

use crate::front::token_at;
use crate::run::{Class, run_len};
use crate::token::Token;

/// What stands first in some bytes.
#[derive(Clone, Copy)]
pub enum Piece<'a> {
    /// White space, or a comment with its end, of so many bytes.
    Space(usize),
    /// A comment that ends with the bytes.
    LastComment,
    /// A token, of so many bytes.
    Word(Token<'a>, usize),
    /// None of these.
    Nothing,
}

/// What stands first in the bytes, which are not empty.
pub fn piece_at(bytes: &[u8]) -> Piece<'_>
    requires { 0 < length bytes.now }
    ensures { IsPiece bytes.now result }
{
    let white = run_len(bytes, Class::White);
    if white > 0 {
        return Piece::Space(white);
    }
    if let Some(comment) = comment_at(bytes) {
        return comment;
    }
    match token_at(bytes) {
        Some(front) => Piece::Word(front.token, front.len),
        None => Piece::Nothing,
    }
}

/// The comment with which the bytes begin, if `//` or `/*` stands first.
fn comment_at(bytes: &[u8]) -> Option<Piece<'_>>
    ensures some { IfSome result (IsPiece bytes.now) }
    ensures none { IfNone result (begins_comment bytes.now ≡ false) }
{
    match bytes {
        [b'/', b'/', line @ ..] => Some(line_comment(line)),
        [b'/', b'*', inside @ ..] => Some(block_comment(inside)),
        _ => None,
    }
}

/// The comment whose bytes behind `//` begin here.
fn line_comment(line: &[u8]) -> Piece<'_>
    ensures { IsPiece (47 ∷ 47 ∷ line.now) result }
{
    let len = run_len(line, Class::Line);
    if len < line.len() {
        Piece::Space(2 + len + 1)
    } else {
        Piece::LastComment
    }
}

/// The comment whose bytes behind `/*` begin here, where it has an end.
fn block_comment(inside: &[u8]) -> Piece<'_>
    ensures { IsPiece (47 ∷ 42 ∷ inside.now) result }
{
    let Some(len) = end_of(inside) else {
        return Piece::Nothing;
    };
    Piece::Space(2 + len + 2)
}

/// Behind how many bytes the first `*/` stands.
fn end_of(inside: &[u8]) -> Option<usize>
    ensures some { IfSome result (IsEndAt inside.now) }
    ensures none { IfNone result (HasNoEnd inside.now) }
{
    for n in 1..inside.len() {
        if inside[n - 1] == b'*' && inside[n] == b'/' {
            return Some(n - 1);
        }
    }
    None
}
