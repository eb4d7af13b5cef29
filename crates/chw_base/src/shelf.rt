//! The shelf, from which the program reads files.
ghost use Rattle.std.specs.Prelude.{◌≡◌, ℕ, List, [], Option, Result};
ghost use Rattle.chw_base.specs.Files.{Files};
ghost use Rattle.chw_base.specs.Reading.{Fetches};
ghost use Rattle.chw_base.specs.declared.outcome.Or.{Or};
ghost use Rattle.chw_base.specs.declared.shelf.Fetched.{Fetched};
ghost use Rattle.chw_base.specs.declared.shelf.ShelfFault.{ShelfFault};

use crate::outcome::Or;
use std::alloc::Global;
use thiserror::Error;

/// A file could not be read.
#[derive(Clone, Copy, Debug, PartialEq, Eq, Error)]
#[error("the file could not be read")]
pub struct ShelfFault;

/// What a fetch found.
#[derive(Clone, Copy, Debug, PartialEq, Eq)]
pub enum Fetched {
    /// All bytes of the file were read.
    Whole,
    /// The file has more bytes than the limit, and nothing was read.
    TooLong,
    /// The shelf tells its files and holds none of this name.
    Absent,
}

/// Where files are read from.
pub trait Shelf {
    /// The files, where the shelf tells them.
    ghost told: { Self → Option Files };
    /// How many faults there were. The count never falls.
    ghost faults: { Self → ℕ };
    /// What one call of `fetch` may do: the shelf before, the name, the limit, the answer, the bytes, the shelf after.
    ghost fetch_gives: { Self → List ℕ → ℕ → Result Fetched (Or ShelfFault) → List ℕ → Self → Type 0 };

    /// Reads the bytes held under a name, if these are at most `limit`, into an empty vector.
    ///
    /// `Fault` comes only where the count of faults rose in this call. No call changes the files, nor whether they are told.
    fn fetch(
        &mut self,
        alloc: Global,
        name: &str,
        limit: u32,
        into: &mut Vec<u8>,
    ) -> Result<Fetched, Or<ShelfFault>>
        requires { into.old.items ≡ [] }
        ensures gives { fetch_gives self.old name.now limit result into.new.items self.new }
        ensures files { told self.new ≡ told self.old }
        ensures fetches { Fetches (told self.old) name.now limit (faults self.old) (faults self.new) result into.new.items };
}
