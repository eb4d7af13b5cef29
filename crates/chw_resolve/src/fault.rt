//! Why a description has no program.
use chw_base::{Name, Seq};
use chw_limits::Limit;

/// Why a description has no program. Each is looked for in the whole description before the next.
#[derive(Debug, Drop)]
pub enum NameFault {
    /// This limit is passed.
    Limit(Limit),
    /// The word at this byte declares its name again in one place, or is the later one of two equal alternatives. Of several such words
    /// it is the one that stands first in the text.
    Twice { name: Name, at: u32 },
    /// Nothing declares the name of the word at this byte where it stands. Directly after `top`, a primitive counts as nothing. Of several
    /// such words it is the one that stands first in the text.
    Unknown { name: Name, at: u32 },
    /// Each of these data types stands in a field of the one before it, and the first in a field of the last. The first of them is
    /// declared before the others.
    DataCycle(Seq<Name>),
    /// Each of these definitions stands in the body of the one before it, and the first in the body of the last. The first of them is
    /// declared before the others.
    DefCycle(Seq<Name>),
}
