//! The right side of an assignment.
use crate::word::{Range, Word};
use chw_base::Seq;
use netlist::{Op1, Op2};

/// What is assigned to a wire.
#[derive(Drop)]
pub enum Right<'t> {
    /// `8'h1f`
    Constant(Word<'t>),
    /// `a`
    Copy(Word<'t>),
    /// `{a, b}`
    Join(Join<'t>),
    /// `a[7:0]`
    Cut(Word<'t>, Range<'t>),
    /// `~a`: the operator, the place of its sign, and the operand.
    Unary(Op1, usize, Word<'t>),
    /// `a + b`: the operator, the place of its sign, and the operands.
    Binary(Op2, usize, Word<'t>, Word<'t>),
    /// `c ? a : b`
    Choice(Word<'t>, Word<'t>, Word<'t>),
}

/// `{a, b}`: the joined names, and the place of the closing bracket.
#[derive(Drop)]
pub struct Join<'t> {
    pub first: Word<'t>,
    pub others: Seq<Word<'t>>,
    pub close: usize,
}
