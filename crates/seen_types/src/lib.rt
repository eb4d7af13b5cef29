//! Types that are seen where they are written, or made, so that a written type isn't copied where it is found. What types alone tell is
//! here too: that no variable is in them, and that they keep their kinds.
#![tactic(auto)]

pub mod closed;
pub mod found;
pub mod kept;
pub mod seen;
