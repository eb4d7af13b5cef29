//! Where a type stands in the canonical text.

/// Where a type stands, by which it needs parentheses or none.
#[derive(Clone, Copy, Debug, PartialEq, Eq)]
pub enum Stand {
    /// By itself.
    Alone,
    /// On the left of `->`.
    Left,
    /// Beside `+`.
    Summand,
    /// Beside `*`.
    Factor,
    /// As an argument.
    Simple,
}
