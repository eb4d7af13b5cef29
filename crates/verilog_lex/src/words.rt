//! Keywords and signs.
ghost use Rattle.std.specs.Prelude.{◌≡◌, ◌∷◌, [], IfSome, IfNone, false};
ghost use Rattle.verilog_text.specs.VForms.{is_keyword, is_sign};
ghost use Rattle.verilog_lex.specs.Scanning.{BeginsNoSign, IsSignAt, begins_pair};
ghost use Rattle.verilog_lex.specs.Shown.{keyword_bytes, sign_bytes};

use crate::token::{Keyword, Sign};

/// The keyword of these bytes.
pub fn keyword_of(word: &[u8]) -> Option<Keyword>
    ensures some { IfSome result (λ keyword. word.now ≡ keyword_bytes keyword) }
    ensures none { IfNone result (is_keyword word.now ≡ false) }
{
    match word {
        b"module" => Some(Keyword::Module),
        b"endmodule" => Some(Keyword::Endmodule),
        b"input" => Some(Keyword::Input),
        b"output" => Some(Keyword::Output),
        b"wire" => Some(Keyword::Wire),
        b"reg" => Some(Keyword::Reg),
        b"assign" => Some(Keyword::Assign),
        b"always" => Some(Keyword::Always),
        b"posedge" => Some(Keyword::Posedge),
        b"initial" => Some(Keyword::Initial),
        b"begin" => Some(Keyword::Begin),
        b"end" => Some(Keyword::End),
        b"if" => Some(Keyword::If),
        _ => None,
    }
}

/// The longest sign with which the bytes begin, and how many bytes it has.
pub fn sign_at(bytes: &[u8]) -> Option<(Sign, usize)>
    ensures some { IfSome result (λ found. IsSignAt bytes.now (sign_bytes found.0) found.1) }
    ensures none { IfNone result (BeginsNoSign bytes.now) }
{
    if let Some(found) = long_sign_at(bytes) {
        return Some(found);
    }
    let [first, ..] = bytes else {
        return None;
    };
    match single(*first) {
        Some(sign) => Some((sign, 1)),
        None => None,
    }
}

/// The same of signs of two and three bytes.
fn long_sign_at(bytes: &[u8]) -> Option<(Sign, usize)>
    ensures some { IfSome result (λ found. IsSignAt bytes.now (sign_bytes found.0) found.1) }
    ensures none { IfNone result (begins_pair bytes.now ≡ false) }
{
    match bytes {
        [b'>', b'>', b'>', ..] => Some((Sign::GreaterGreaterGreater, 3)),
        [b'>', b'>', ..] => Some((Sign::GreaterGreater, 2)),
        [b'<', b'<', ..] => Some((Sign::LessLess, 2)),
        [b'<', b'=', ..] => Some((Sign::LessEquals, 2)),
        [b'=', b'=', ..] => Some((Sign::EqualsEquals, 2)),
        _ => None,
    }
}

/// The sign of this byte alone.
fn single(byte: u8) -> Option<Sign>
    ensures some { IfSome result (λ sign. sign_bytes sign ≡ byte ∷ []) }
    ensures none { IfNone result (is_sign (byte ∷ []) ≡ false) }
{
    match byte {
        b'(' => Some(Sign::OpenParen),
        b')' => Some(Sign::CloseParen),
        b'[' => Some(Sign::OpenBracket),
        b']' => Some(Sign::CloseBracket),
        b'{' => Some(Sign::OpenBrace),
        b'}' => Some(Sign::CloseBrace),
        b',' => Some(Sign::Comma),
        b';' => Some(Sign::Semicolon),
        b'.' => Some(Sign::Dot),
        b':' => Some(Sign::Colon),
        b'?' => Some(Sign::Question),
        b'@' => Some(Sign::At),
        b'=' => Some(Sign::Equals),
        b'+' => Some(Sign::Plus),
        b'-' => Some(Sign::Minus),
        b'*' => Some(Sign::Star),
        b'&' => Some(Sign::Ampersand),
        b'|' => Some(Sign::Bar),
        b'^' => Some(Sign::Caret),
        b'~' => Some(Sign::Tilde),
        b'<' => Some(Sign::Less),
        _ => None,
    }
}
