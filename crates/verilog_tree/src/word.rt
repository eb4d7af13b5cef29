//! Words of a Verilog text, with their places.

/// A name, a number or a literal as it stands in the text, and the place of its first byte.
#[derive(Clone, Copy)]
pub struct Word<'t> {
    pub at: usize,
    pub bytes: &'t [u8],
}

/// `[7:0]`: two numbers.
#[derive(Clone, Copy)]
pub struct Range<'t> {
    pub from: Word<'t>,
    pub to: Word<'t>,
}

/// `[7:0] w`: a name with the range of its bits.
#[derive(Clone, Copy)]
pub struct Line<'t> {
    pub range: Range<'t>,
    pub name: Word<'t>,
}
