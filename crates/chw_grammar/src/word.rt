//! Words of a tree, with their places.
use chw_base::Name;

/// A name, a numeral or a literal as it stands in the text, and the first byte of its token.
#[derive(Drop)]
pub struct Word {
    pub at: u32,
    pub bytes: Name,
}
