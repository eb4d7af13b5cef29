//! The answers of calls that may find no memory.
ghost use Rattle.std.specs.Prelude.{◌≡◌};
ghost use Rattle.chw_base.specs.declared.outcome.Or.TheVariants.{Memory};

use std::alloc::{AllocError, AllocFailed};

/// Memory was wanting. It is the one free answer: no clause says when it comes.
#[derive(Clone, Copy, Debug, PartialEq, Eq)]
pub struct NoMemory;

/// Why a call did not do its work: memory was wanting, or this fault.
#[derive(Debug, Drop)]
pub enum Or<E> {
    Memory,
    Fault(E),
}

impl From<AllocError> for NoMemory {
    fn from(_error: AllocError) -> NoMemory {
        NoMemory
    }
}

impl<T: Drop> From<AllocFailed<T>> for NoMemory {
    fn from(_error: AllocFailed<T>) -> NoMemory {
        NoMemory
    }
}

impl<E> From<NoMemory> for Or<E> {
    ghost from_gives = { λ _ e. e ≡ Memory };

    fn from(_error: NoMemory) -> Or<E> {
        Or::Memory
    }
}

impl<E> From<AllocError> for Or<E> {
    ghost from_gives = { λ _ e. e ≡ Memory };

    fn from(_error: AllocError) -> Or<E> {
        Or::Memory
    }
}

impl<T: Drop, E> From<AllocFailed<T>> for Or<E> {
    ghost from_gives = { λ _ e. e ≡ Memory };

    fn from(_error: AllocFailed<T>) -> Or<E> {
        Or::Memory
    }
}
