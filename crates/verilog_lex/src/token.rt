//! Tokens, and where they stand in their text.

/// A word that is no name.
#[derive(Clone, Copy, Debug, PartialEq, Eq)]
pub enum Keyword {
    Module,
    Endmodule,
    Input,
    Output,
    Wire,
    Reg,
    Assign,
    Always,
    Posedge,
    Initial,
    Begin,
    End,
    If,
}

/// A punctuation mark or an operator.
#[derive(Clone, Copy, Debug, PartialEq, Eq)]
pub enum Sign {
    /// `(`
    OpenParen,
    /// `)`
    CloseParen,
    /// `[`
    OpenBracket,
    /// `]`
    CloseBracket,
    /// `{`
    OpenBrace,
    /// `}`
    CloseBrace,
    /// `,`
    Comma,
    /// `;`
    Semicolon,
    /// `.`
    Dot,
    /// `:`
    Colon,
    /// `?`
    Question,
    /// `@`
    At,
    /// `=`
    Equals,
    /// `+`
    Plus,
    /// `-`
    Minus,
    /// `*`
    Star,
    /// `&`
    Ampersand,
    /// `|`
    Bar,
    /// `^`
    Caret,
    /// `~`
    Tilde,
    /// `==`
    EqualsEquals,
    /// `<`
    Less,
    /// `<=`
    LessEquals,
    /// `<<`
    LessLess,
    /// `>>`
    GreaterGreater,
    /// `>>>`
    GreaterGreaterGreater,
}

/// A token, wherever it stands.
#[derive(Clone, Copy, Debug)]
pub enum Token<'a> {
    Keyword(Keyword),
    /// A letter or `_`, and then letters, digits and `_`: no keyword.
    Name(&'a [u8]),
    /// Decimal digits.
    Number(&'a [u8]),
    /// A size and hexadecimal digits, as `8'h1f`.
    Literal(&'a [u8]),
    /// The word `$signed`.
    Signed,
    Sign(Sign),
}

/// A token, and the place of its first byte.
#[derive(Clone, Copy, Debug)]
pub struct Placed<'a> {
    pub at: usize,
    pub token: Token<'a>,
}

/// No token begins at byte `at`, which is outside white space and comments; it is the first such byte of the text.
#[derive(Clone, Copy, Debug, PartialEq, Eq)]
pub struct NoToken {
    pub at: usize,
}
