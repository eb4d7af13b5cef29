//! Tables of forms.

use chw_base::Seq;
use chw_types::Ty;

/// A type with its width, and which bits of that width are encodings of its values. It stands in a table behind the forms of its
/// parts, which are named by their places there.
#[derive(Drop)]
pub struct Form {
    pub ty: Ty,
    pub width: usize,
    pub shape: Shape,
}

/// Which bits are encodings.
#[derive(Drop)]
pub enum Shape {
    /// All.
    All,
    /// So many encodings of one form, one after the other.
    Row { count: u32, of: usize },
    /// The number of a constructor in so many bits, encodings of the forms of its fields, and zeros up to the width.
    Choice { tag: u32, cons: Seq<Seq<usize>> },
    /// Those from which a value can be decoded.
    Decoded,
}
