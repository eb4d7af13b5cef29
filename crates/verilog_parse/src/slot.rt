//! Slots, which take a token each.
ghost use Rattle.std.specs.Prelude.{◌≡◌, false, IsTrue};
ghost use Rattle.verilog_lex.specs.Shown.{sign_bytes, token_of};
ghost use Rattle.verilog_text.specs.Grammar.{sign};
ghost use Rattle.verilog_parse.specs.Slots.{fitting, takes, tokens_in};

use verilog_lex::{Keyword, Placed, Sign, Token};

/// What takes one token.
#[derive(Clone, Copy)]
pub enum Slot {
    /// This keyword.
    Keyword(Keyword),
    /// This sign.
    Sign(Sign),
    /// Any name.
    Name,
    /// Any number.
    Number,
    /// Any literal.
    Literal,
    /// The word `$signed`.
    Signed,
    /// The sign of any operator of one operand.
    Unary,
    /// The sign of any operator of two operands that are no signed numbers.
    Binary,
}

fn same_keyword(a: Keyword, b: Keyword) -> bool
    ensures yes { IsTrue result → a ≡ b }
    ensures no { result ≡ false → a ≡ b → ⊥ }
{
    a == b
}

fn same_sign(a: Sign, b: Sign) -> bool
    ensures yes { IsTrue result → a ≡ b }
    ensures no { result ≡ false → a ≡ b → ⊥ }
{
    a == b
}

fn is_keyword(wanted: Keyword, token: Token) -> bool
    ensures { result ≡ takes (Slot.Keyword wanted) (token_of token.entry) }
{
    match token {
        Token::Keyword(keyword) => same_keyword(wanted, keyword),
        _ => false,
    }
}

fn is_sign(wanted: Sign, token: Token) -> bool
    ensures { result ≡ takes (Slot.Sign wanted) (token_of token.entry) }
{
    match token {
        Token::Sign(sign) => same_sign(wanted, sign),
        _ => false,
    }
}

fn is_unary(token: Token) -> bool
    ensures { result ≡ takes Slot.Unary (token_of token.entry) }
{
    match token {
        Token::Sign(Sign::Tilde | Sign::Ampersand | Sign::Bar | Sign::Caret) => true,
        _ => false,
    }
}

fn is_binary(token: Token) -> bool
    ensures { result ≡ takes Slot.Binary (token_of token.entry) }
{
    match token {
        Token::Sign(sign) => is_binary_sign(sign),
        _ => false,
    }
}

fn is_binary_sign(found: Sign) -> bool
    ensures { result ≡ takes Slot.Binary (sign (sign_bytes found)) }
{
    matches!(
        found,
        Sign::Plus
            | Sign::Minus
            | Sign::Star
            | Sign::Ampersand
            | Sign::Bar
            | Sign::Caret
            | Sign::EqualsEquals
            | Sign::Less
            | Sign::LessLess
            | Sign::GreaterGreater
    )
}

/// Whether the slot takes the token.
fn takes(slot: Slot, token: Token) -> bool
    ensures { result ≡ takes slot (token_of token.entry) }
{
    match slot {
        Slot::Keyword(keyword) => is_keyword(keyword, token),
        Slot::Sign(sign) => is_sign(sign, token),
        Slot::Name => matches!(token, Token::Name(_)),
        Slot::Number => matches!(token, Token::Number(_)),
        Slot::Literal => matches!(token, Token::Literal(_)),
        Slot::Signed => matches!(token, Token::Signed),
        Slot::Unary => is_unary(token),
        Slot::Binary => is_binary(token),
    }
}

/// How many tokens at the front fit the slots, one each.
pub fn fitting(slots: &[Slot], tokens: &[Placed]) -> usize
    ensures { result ≡ fitting slots.now (tokens_in tokens.now) }
{
    let mut n = 0;
    while n < slots.len() && n < tokens.len() && takes(slots[n], tokens[n].token) {
        n += 1;
    }
    n
}
