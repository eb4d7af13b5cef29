//! The shelf of the files of the system.
ghost use Rattle.std.specs.Prelude.{◌≡◌, [], None};
ghost use Rattle.chw_base.specs.Draining.{Drains, DrainsSome};

use crate::outcome::Or;
use crate::shelf::{Fetched, Shelf, ShelfFault};
use std::alloc::Global;
use std::fs;
use std::io::{ErrorKind, Read};
use std::rt::Files;

// How many bytes are asked for at once.
const BLOCK: usize = 4_096;

/// A shelf that reads the files of the system. It tells no bytes, so a file that is missing is a fault.
#[derive(Drop)]
pub struct FileShelf<'r, R> {
    rt: &'r R,
    faults: u64,
}

impl<'r, R: Files> FileShelf<'r, R> {
    /// The shelf of the files that this runtime reaches.
    pub fn new(rt: &'r R) -> FileShelf<'r, R>
        ensures { ⟦<FileShelf<'r, R> as Shelf>⟧.faults result ≡ 0 }
    {
        FileShelf { rt, faults: 0 }
    }
}

/// Reads to the end, or to one byte past the limit. A read that was interrupted is made again.
pub fn drain<F: Read>(
    file: &mut F,
    limit: u32,
    into: &mut Vec<u8>,
) -> Result<Fetched, Or<ShelfFault>>
    requires { into.old.items ≡ [] }
    ensures { Drains (F.remaining file.old) limit result into.new.items }
{
    let limit = limit as usize;
    let mut block = [0u8; BLOCK];
    for _ in 0..u64::MAX {
        let room = BLOCK.min(limit + 1 - into.len());
        match file.read(&mut block[..room]) {
            Ok(0) => return Ok(Fetched::Whole),
            Ok(n) if into.len() + n > limit => {
                into.clear();
                return Ok(Fetched::TooLong);
            }
            Ok(n) => into.extend_from_slice(&block[..n])?,
            Err(e) if e.kind() == ErrorKind::Interrupted => {}
            Err(_) => return Err(Or::Fault(ShelfFault)),
        }
    }
    Err(Or::Fault(ShelfFault))
}

// Opens the file of this name and reads it.
fn read_file<R: Files>(
    rt: &R,
    name: &str,
    limit: u32,
    into: &mut Vec<u8>,
) -> Result<Fetched, Or<ShelfFault>>
    requires { into.old.items ≡ [] }
    ensures { DrainsSome R.File.remaining limit result into.new.items }
{
    match fs::open(rt, name) {
        Ok(mut file) => drain(&mut file, limit, into),
        Err(_) => Err(Or::Fault(ShelfFault)),
    }
}

impl<'r, R: Files> Shelf for FileShelf<'r, R> {
    ghost told = { λ _. None };

    ghost faults = { λ s. s.faults };

    ghost fetch_gives = { λ _ _ limit answer bytes _. DrainsSome R.File.remaining limit answer bytes };

    fn fetch(
        &mut self,
        _alloc: Global,
        name: &str,
        limit: u32,
        into: &mut Vec<u8>,
    ) -> Result<Fetched, Or<ShelfFault>> {
        match read_file(self.rt, name, limit, into) {
            Ok(found) => Ok(found),
            Err(Or::Memory) => {
                into.clear();
                Err(Or::Memory)
            }
            Err(fault) => {
                into.clear();
                self.faults = self.faults.saturating_add(1);
                Err(fault)
            }
        }
    }
}
