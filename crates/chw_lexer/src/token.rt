//! Tokens, and where they stand in their text.

/// What sort of token it is.
#[derive(Clone, Copy, Debug, PartialEq, Eq)]
pub enum Sort {
    /// A name that begins with a letter a to z and is no keyword.
    Lower,
    /// A name that begins with a letter A to Z.
    Upper,
    /// A keyword.
    Key,
    /// Decimal digits.
    Numeral,
    /// A value, a letter and a width, as `5u8`, `-3s8` or `5b8`.
    Literal,
    /// A punctuation mark or an operator.
    Symbol,
}

/// The bytes of a text from `from` up to, and without, `to`.
#[derive(Clone, Copy, Debug, PartialEq, Eq)]
pub struct Span {
    pub from: u32,
    pub to: u32,
}

/// A token: its sort, and its place in the text.
#[derive(Clone, Copy, Debug, PartialEq, Eq)]
pub struct Token {
    pub sort: Sort,
    pub span: Span,
}

/// No token begins at byte `at`, which is outside white space and comments; it is the first such byte of the text.
#[derive(Clone, Copy, Debug, PartialEq, Eq)]
pub struct LexFault {
    pub at: u32,
}
