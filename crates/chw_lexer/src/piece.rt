//! What stands first in some bytes: white space, a comment, or a token.
ghost use Rattle.std.specs.Prelude.{◌∷◌, ◌<◌, length};
ghost use Rattle.chw_lexer.specs.Scanning.{IsPiece};

use crate::front::token_at;
use crate::run::{Class, run_len};
use crate::token::Sort;

/// What stands first in some bytes.
#[derive(Clone, Copy)]
pub enum Piece {
    /// White space, or a comment with its line feed, of so many bytes.
    Space(usize),
    /// A comment that ends with the bytes.
    LastComment,
    /// A token of this sort, of so many bytes.
    Word(Sort, usize),
    /// None of these.
    Nothing,
}

/// What stands first in the bytes, which are not empty.
pub fn piece_at(bytes: &[u8]) -> Piece
    requires { 0 < length bytes.now }
    ensures { IsPiece bytes.now result }
{
    let white = run_len(bytes, Class::White);
    if white > 0 {
        return Piece::Space(white);
    }
    if let [b'-', b'-', line @ ..] = bytes {
        return comment_of(line);
    }
    match token_at(bytes) {
        Some(front) => Piece::Word(front.sort, front.len),
        None => Piece::Nothing,
    }
}

/// The comment whose bytes behind `--` begin here.
fn comment_of(line: &[u8]) -> Piece
    ensures { IsPiece (45 ∷ 45 ∷ line.now) result }
{
    let len = run_len(line, Class::Line);
    if len < line.len() {
        Piece::Space(2 + len + 1)
    } else {
        Piece::LastComment
    }
}
