//! Shelves in memory and of the system's files.
use chw_base::file_shelf::drain;
use chw_base::{Fetched, FileShelf, MemShelf, Name, Or, Shelf, ShelfFault};
use std::alloc::Global;
use std::fs;
use std::io::{self, ErrorKind, Read};
use std::test::Fail;

fn file(alloc: Global, name: &[u8], bytes: &[u8]) -> Result<(Name, Vec<u8>), Fail> {
    Ok((Name::copy_of(alloc, name)?, Vec::from_slice(alloc, bytes)?))
}

#[test]
fn serves_the_first_file_of_a_name(rt: HostRuntime) -> Result<(), Fail> {
    let alloc = rt.alloc();
    let mut files = Vec::new(alloc);
    files.push(file(alloc, b"a", b"one")?)?;
    files.push(file(alloc, b"a", b"two")?)?;
    let mut shelf = MemShelf::new(files, vec![in alloc; 0]?);
    let mut into = Vec::new(alloc);
    let failed = shelf.fetch(alloc, "a", 3, &mut into);
    assert!(rt; matches!(failed, Err(Or::Fault(ShelfFault))));
    assert!(rt; matches!(shelf.fetch(alloc, "b", 3, &mut into), Ok(Fetched::Absent)));
    assert!(rt; matches!(shelf.fetch(alloc, "a", 2, &mut into), Ok(Fetched::TooLong)));
    assert!(rt; matches!(shelf.fetch(alloc, "a", 3, &mut into), Ok(Fetched::Whole)));
    assert_eq!(rt; into.as_slice(), b"one".as_slice());
    Ok(())
}

#[test]
fn reads_a_file_of_the_system(rt: HostRuntime) -> Result<(), Fail> {
    let alloc = rt.alloc();
    fs::write(&rt, "shelf_test", b"line\n")?;
    let mut shelf = FileShelf::new(&rt);
    let mut into = Vec::new(alloc);
    let long = shelf.fetch(alloc, "shelf_test", 4, &mut into);
    assert!(rt; matches!(long, Ok(Fetched::TooLong)));
    let whole = shelf.fetch(alloc, "shelf_test", 5, &mut into);
    assert!(rt; matches!(whole, Ok(Fetched::Whole)));
    assert_eq!(rt; into.as_slice(), b"line\n".as_slice());
    into.clear();
    fs::remove_file(&rt, "shelf_test")?;
    let missing = shelf.fetch(alloc, "shelf_test", 5, &mut into);
    assert!(rt; matches!(missing, Err(Or::Fault(ShelfFault))));
    Ok(())
}

// Is interrupted, gives one byte, and then fails.
#[derive(Drop)]
struct Faltering {
    calls: u32,
}

impl Read for Faltering {
    fn read(&mut self, bytes: &mut [u8]) -> io::Result<usize> {
        self.calls = self.calls.saturating_add(1);
        match self.calls {
            1 => Err(io::Error::from(ErrorKind::Interrupted)),
            2 if !bytes.is_empty() => Ok(1),
            _ => Err(io::Error::from(ErrorKind::TimedOut)),
        }
    }
}

#[test]
fn fails_where_the_reader_fails(rt: HostRuntime) -> Result<(), Fail> {
    let mut reader = Faltering { calls: 0 };
    let mut into = Vec::new(rt.alloc());
    let answer = drain(&mut reader, 5, &mut into);
    assert!(rt; matches!(answer, Err(Or::Fault(ShelfFault))));
    assert_eq!(rt; reader.calls, 3);
    Ok(())
}
