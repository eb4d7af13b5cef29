//! The laws, each as the contract of a call that does nothing.
ghost use Rattle.term_signs.specs.Laws.{SignsTell};

/// Terms of the same signs are the same tree.
pub fn signs_tell()
    ensures { SignsTell }
{}
