//! The laws, each as the contract of a call that does nothing.
ghost use Rattle.moved_in_place.specs.Laws.{JoinedIsNoDeeper, WithPartNoDeeper, SwappedBack};

/// A letrec that joins the one around it makes no term deeper.
pub fn joined_is_no_deeper()
    ensures { JoinedIsNoDeeper }
{}

/// A part that is no deeper makes no term deeper.
pub fn with_part_no_deeper()
    ensures { WithPartNoDeeper }
{}

/// A part that is taken out, changed and put back is put once.
pub fn swapped_back()
    ensures { SwappedBack }
{}
