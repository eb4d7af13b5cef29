//! The sink, to which the program writes bytes.
ghost use Rattle.std.specs.Prelude.{◌≡◌, ℕ, List, Option, Result, is_some};
ghost use Rattle.chw_base.specs.Writing.{Writes};
ghost use Rattle.chw_base.specs.declared.outcome.Or.{Or};
ghost use Rattle.chw_base.specs.declared.sink.SinkFault.{SinkFault};

use crate::outcome::Or;
use std::alloc::Global;
use thiserror::Error;

/// The bytes could not be written.
#[derive(Clone, Copy, Debug, PartialEq, Eq, Error)]
#[error("the bytes could not be written")]
pub struct SinkFault;

/// Where bytes are written to.
pub trait Sink {
    /// The bytes written so far, where the sink tells them.
    ghost written: { Self → Option (List ℕ) };
    /// How many faults there were. The count never falls.
    ghost faults: { Self → ℕ };
    /// What one call of `put` may do: the sink before, the bytes, the answer, the sink after.
    ghost put_gives: { Self → List ℕ → Result (Unit {0}) (Or SinkFault) → Self → Type 0 };

    /// Writes these bytes after those written before.
    ///
    /// `Fault` comes only where the count of faults rose in this call, and then some first part of the bytes was written. Where
    /// memory was wanting, nothing was. No call changes whether the sink tells what was written.
    fn put(&mut self, alloc: Global, bytes: &[u8]) -> Result<(), Or<SinkFault>>
        ensures gives { put_gives self.old bytes.now result self.new }
        ensures writes { Writes bytes.now (written self.old) (written self.new) (faults self.old) (faults self.new) result };
}
