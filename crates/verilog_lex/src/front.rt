//! The longest token at the front of some bytes.
ghost use Rattle.std.specs.Prelude.{◌≡◌, ◌<◌, length, IfSome, IfNone};
ghost use Rattle.chw_base.specs.Names.{is_digit};
ghost use Rattle.verilog_text.specs.VForms.{begins_word};
ghost use Rattle.verilog_lex.specs.Scanning.{BeginsNoToken, BeginsWith, HasNoTail, IsTail, IsTokenAt, is_other};
ghost use Rattle.verilog_lex.specs.Shown.{token_of};

use crate::run::{Class, begins_word, is_digit, run_len};
use crate::token::Token;
use crate::words::{keyword_of, sign_at};

/// A token of so many bytes.
#[derive(Clone, Copy)]
pub struct Front<'a> {
    pub token: Token<'a>,
    pub len: usize,
}

/// The longest token with which the bytes begin.
pub fn token_at(bytes: &[u8]) -> Option<Front<'_>>
    requires { 0 < length bytes.now }
    ensures some { IfSome result (λ front. IsTokenAt bytes.now (token_of front.token) front.len) }
    ensures none { IfNone result (BeginsNoToken bytes.now) }
{
    let first = bytes[0];
    if begins_word(first) {
        Some(word_at(bytes))
    } else if is_digit(first) {
        Some(number_at(bytes))
    } else {
        other_at(bytes)
    }
}

/// The name or keyword with which the bytes begin.
fn word_at(bytes: &[u8]) -> Front<'_>
    requires { BeginsWith begins_word bytes.now }
    ensures { IsTokenAt bytes.now (token_of result.token) result.len }
{
    let len = run_len(bytes, Class::NameByte);
    let word = &bytes[..len];
    match keyword_of(word) {
        Some(keyword) => Front {
            token: Token::Keyword(keyword),
            len,
        },
        None => Front {
            token: Token::Name(word),
            len,
        },
    }
}

/// The number or literal with which the bytes begin.
fn number_at(bytes: &[u8]) -> Front<'_>
    requires { BeginsWith is_digit bytes.now }
    ensures { IsTokenAt bytes.now (token_of result.token) result.len }
{
    let size = run_len(bytes, Class::Digit);
    match digits_behind(&bytes[size..]) {
        Some(digits) => {
            let len = size + 2 + digits;
            Front {
                token: Token::Literal(&bytes[..len]),
                len,
            }
        }
        None => Front {
            token: Token::Number(&bytes[..size]),
            len: size,
        },
    }
}

/// How many hexadecimal digits stand behind the `'h` with which the bytes begin.
fn digits_behind(bytes: &[u8]) -> Option<usize>
    ensures some { IfSome result (IsTail bytes.now) }
    ensures none { IfNone result (HasNoTail bytes.now) }
{
    let [b'\'', b'h', digits @ ..] = bytes else {
        return None;
    };
    let len = run_len(digits, Class::HexDigit);
    if len == 0 { None } else { Some(len) }
}

/// The sign or `$signed` with which the bytes begin, where their first byte is neither a letter nor `_` nor a digit.
fn other_at(bytes: &[u8]) -> Option<Front<'_>>
    requires { BeginsWith is_other bytes.now }
    ensures some { IfSome result (λ front. IsTokenAt bytes.now (token_of front.token) front.len) }
    ensures none { IfNone result (BeginsNoToken bytes.now) }
{
    if bytes.starts_with(b"$signed") {
        return Some(Front {
            token: Token::Signed,
            len: 7,
        });
    }
    match sign_at(bytes) {
        Some((sign, len)) => Some(Front {
            token: Token::Sign(sign),
            len,
        }),
        None => None,
    }
}
