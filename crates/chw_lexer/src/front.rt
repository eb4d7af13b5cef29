//! The longest token at the front of some bytes.
ghost use Rattle.std.specs.Prelude.{◌≡◌, ◌<◌, ◌==◌, ℕ, List, [], ◌∷◌, length, IfSome, IfNone};
ghost use Rattle.chw_base.specs.Names.{is_small_letter, is_capital, is_digit, is_keyword};
ghost use Rattle.chw_lexer.specs.Forms.{is_symbol};
ghost use Rattle.chw_lexer.specs.Scanning.{begins_with, is_letter, is_other, BeginsWith, IsLongestUnsigned, BeginsNoUnsigned, IsTokenAt, BeginsNoToken};

use crate::run::{Class, is_digit, run_len};
use crate::token::Sort;

/// A token of this sort, of so many bytes.
#[derive(Clone, Copy)]
pub struct Front {
    pub sort: Sort,
    pub len: usize,
}

/// The longest token with which the bytes begin.
pub fn token_at(bytes: &[u8]) -> Option<Front>
    requires { 0 < length bytes.now }
    ensures some { IfSome result (λ front. IsTokenAt bytes.now front.sort front.len) }
    ensures none { IfNone result (BeginsNoToken bytes.now) }
{
    let first = bytes[0];
    if is_small_letter(first) {
        Some(lower_at(bytes))
    } else if is_capital(first) {
        let len = run_len(bytes, Class::LetterOrDigit);
        Some(Front {
            sort: Sort::Upper,
            len,
        })
    } else if is_digit(first) {
        Some(number_at(bytes))
    } else if first == b'-' {
        minus_at(bytes)
    } else {
        symbol_at(bytes)
    }
}

fn is_small_letter(byte: u8) -> bool
    ensures { result ≡ is_small_letter byte }
{
    byte >= b'a' && byte <= b'z'
}

fn is_capital(byte: u8) -> bool
    ensures { result ≡ is_capital byte }
{
    byte >= b'A' && byte <= b'Z'
}

/// The name or keyword with which the bytes begin.
fn lower_at(bytes: &[u8]) -> Front
    requires { BeginsWith is_small_letter bytes.now }
    ensures { IsTokenAt bytes.now result.sort result.len }
{
    let len = run_len(bytes, Class::NameByte);
    let sort = if is_keyword(&bytes[..len]) {
        Sort::Key
    } else {
        Sort::Lower
    };
    Front { sort, len }
}

fn is_keyword(word: &[u8]) -> bool
    ensures { result ≡ is_keyword word.now }
{
    word == "domain".as_bytes()
        || word == "data".as_bytes()
        || word == "def".as_bytes()
        || word == "top".as_bytes()
        || word == "letrec".as_bytes()
        || word == "in".as_bytes()
        || word == "case".as_bytes()
        || word == "of".as_bytes()
        || word == "forall".as_bytes()
        || word == "vec".as_bytes()
}

/// The literal or numeral with which the bytes begin.
fn number_at(bytes: &[u8]) -> Front
    requires { BeginsWith is_digit bytes.now }
    ensures { IsTokenAt bytes.now result.sort result.len }
{
    match unsigned_len(bytes, false) {
        Some(len) => Front {
            sort: Sort::Literal,
            len,
        },
        None => Front {
            sort: Sort::Numeral,
            len: run_len(bytes, Class::Digit),
        },
    }
}

/// How many bytes a value, a letter and a width at the front have, with the letters that may stand behind a sign, or with all.
fn unsigned_len(bytes: &[u8], signed: bool) -> Option<usize>
    ensures some { IfSome result (λ len. IsLongestUnsigned (is_letter signed) bytes.now len) }
    ensures none { IfNone result (BeginsNoUnsigned (is_letter signed) bytes.now) }
{
    let value = run_len(bytes, Class::Digit);
    if value == 0 || !begins_with_letter(&bytes[value..], signed) {
        return None;
    }
    let width = run_len(&bytes[value + 1..], Class::Digit);
    if width == 0 {
        return None;
    }
    Some(value + 1 + width)
}

fn begins_with_letter(bytes: &[u8], signed: bool) -> bool
    ensures { result ≡ begins_with (is_letter signed) bytes.now }
{
    match bytes {
        [] => false,
        [b, ..] => *b == b's' || (!signed && (*b == b'u' || *b == b'b')),
    }
}

/// The `->` or the negative literal with which the bytes begin.
fn minus_at(bytes: &[u8]) -> Option<Front>
    requires { (rest : List ℕ) × (bytes.now ≡ 45 ∷ rest) }
    ensures some { IfSome result (λ front. IsTokenAt bytes.now front.sort front.len) }
    ensures none { IfNone result (BeginsNoToken bytes.now) }
{
    let rest = &bytes[1..];
    if begins_with(rest, b'>') {
        return Some(Front {
            sort: Sort::Symbol,
            len: 2,
        });
    }
    match unsigned_len(rest, true) {
        Some(len) => Some(Front {
            sort: Sort::Literal,
            len: len + 1,
        }),
        None => None,
    }
}

fn begins_with(bytes: &[u8], byte: u8) -> bool
    ensures { result ≡ begins_with (λ b. b == byte) bytes.now }
{
    match bytes {
        [] => false,
        [b, ..] => *b == byte,
    }
}

/// The symbol with which the bytes begin, where their first byte is neither a letter nor a digit nor `-`.
fn symbol_at(bytes: &[u8]) -> Option<Front>
    requires { BeginsWith is_other bytes.now }
    ensures some { IfSome result (λ front. IsTokenAt bytes.now front.sort front.len) }
    ensures none { IfNone result (BeginsNoToken bytes.now) }
{
    if bytes[0] == b'/' {
        if begins_with(&bytes[1..], b'\\') {
            Some(Front {
                sort: Sort::Symbol,
                len: 2,
            })
        } else {
            None
        }
    } else if is_symbol(bytes[0]) {
        Some(Front {
            sort: Sort::Symbol,
            len: 1,
        })
    } else {
        None
    }
}

/// Whether the byte alone is a symbol.
fn is_symbol(byte: u8) -> bool
    ensures { result ≡ is_symbol (byte ∷ []) }
{
    match byte {
        b';'
        | b':'
        | b'='
        | b'|'
        | b'('
        | b')'
        | b'{'
        | b'}'
        | b'['
        | b']'
        | b','
        | b'.'
        | b'\\'
        | b'@'
        | b'+'
        | b'*'
        | b'_' => true,
        _ => false,
    }
}
