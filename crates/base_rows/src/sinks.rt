//! Sinks in memory and over a writer.
use chw_base::{MemSink, Or, Sink, SinkFault, StdSink};
use std::io::{self, Write};
use std::test::Fail;

#[test]
fn keeps_pieces_but_of_the_failing_call(rt: HostRuntime) -> Result<(), Fail> {
    let alloc = rt.alloc();
    let mut sink = MemSink::new(alloc, vec![in alloc; 1]?);
    assert!(rt; sink.put(alloc, b"ab").is_ok());
    assert!(rt; matches!(sink.put(alloc, b"cd"), Err(Or::Fault(SinkFault))));
    assert!(rt; sink.put(alloc, b"ef").is_ok());
    assert_eq!(rt; sink.bytes(), b"abef".as_slice());
    Ok(())
}

// Takes one byte a call, as many as it has room for, and fails then.
#[derive(Drop)]
struct Narrow {
    taken: Vec<u8>,
    room: u32,
    flushed: bool,
}

impl Write for Narrow {
    fn write(&mut self, bytes: &[u8]) -> io::Result<usize> {
        if self.room == 0 || bytes.is_empty() {
            return Ok(0);
        }
        self.room -= 1;
        self.flushed = false;
        self.taken.push(bytes[0])?;
        Ok(1)
    }

    fn flush(&mut self) -> io::Result<()> {
        self.flushed = true;
        Ok(())
    }
}

#[test]
fn passes_whole_pieces_on(rt: HostRuntime) -> Result<(), Fail> {
    let alloc = rt.alloc();
    let mut to = Narrow {
        taken: Vec::new(alloc),
        room: 4,
        flushed: false,
    };
    assert!(rt; StdSink::new(&mut to).put(alloc, b"abc").is_ok());
    assert!(rt; to.flushed);
    let mut sink = StdSink::new(&mut to);
    assert!(rt; sink.put(alloc, b"").is_ok());
    assert!(rt; matches!(sink.put(alloc, b"de"), Err(Or::Fault(SinkFault))));
    assert_eq!(rt; to.taken.as_slice(), b"abcd".as_slice());
    Ok(())
}
