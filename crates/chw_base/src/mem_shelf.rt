//! A shelf in memory.
ghost use Rattle.std.specs.Prelude.{◌≡◌, Some, map, option_map};
ghost use Rattle.chw_base.specs.Files.{file_of};
ghost use Rattle.chw_base.specs.InMemory.{new_shelf, plain};
ghost use Rattle.chw_base.specs.MemReading.{FetchesInMemory};

use crate::calls::is_listed;
use crate::outcome::Or;
use crate::seq::Name;
use crate::shelf::{Fetched, Shelf, ShelfFault};
use std::alloc::Global;
use std::marker::Model;

/// A shelf that holds files in memory, and fails the calls that it was told to fail.
///
/// Contracts see it as its files, the numbers of the calls that fail, and how many calls and faults there were.
#[derive(Debug, Drop)]
pub struct MemShelf {
    files: Vec<(Name, Vec<u8>)>,
    fail: Vec<u32>,
    calls: u64,
    faults: u64,
}

impl Model for MemShelf {
    ghost use Rattle.chw_base.specs.InMemory.{ShelfState, plain};

    ghost Value = { ShelfState };

    ghost view = { λ s. record { files = plain s.files.items; fail = s.fail.items; calls = s.calls; faults = s.faults } };
}

impl MemShelf {
    /// A shelf with these files, of which the first of a name counts. The calls of `fetch` whose numbers, from 0, are in
    /// `fail` will fail.
    pub fn new(files: Vec<(Name, Vec<u8>)>, fail: Vec<u32>) -> MemShelf
        ensures { result ≡ new_shelf (plain files.items) fail.items }
    {
        MemShelf {
            files,
            fail,
            calls: 0,
            faults: 0,
        }
    }
}

// The bytes of the first file of this name.
fn find<'a>(files: &'a [(Name, Vec<u8>)], name: &[u8]) -> Option<&'a [u8]>
    ensures { option_map (λ bytes. bytes.now) result ≡ file_of (plain files.now) name.now }
{
    for (held, bytes) in files {
        if held.as_slice() == name {
            return Some(bytes.as_slice());
        }
    }
    None
}

impl Shelf for MemShelf {
    ghost told = { λ s. Some s.files };

    ghost faults = { λ s. s.faults };

    ghost fetch_gives = { FetchesInMemory };

    fn fetch(
        &mut self,
        _alloc: Global,
        name: &str,
        limit: u32,
        into: &mut Vec<u8>,
    ) -> Result<Fetched, Or<ShelfFault>> {
        let number = self.calls;
        self.calls = number.saturating_add(1);
        if is_listed(self.fail.as_slice(), number) {
            self.faults = self.faults.saturating_add(1);
            return Err(Or::Fault(ShelfFault));
        }
        let Some(bytes) = find(self.files.as_slice(), name.as_bytes()) else {
            return Ok(Fetched::Absent);
        };
        if bytes.len() > limit as usize {
            return Ok(Fetched::TooLong);
        }
        into.extend_from_slice(bytes)?;
        Ok(Fetched::Whole)
    }
}
