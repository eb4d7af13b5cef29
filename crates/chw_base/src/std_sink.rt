//! A sink over a writer.
ghost use Rattle.std.specs.Prelude.{◌≡◌, None};
ghost use Rattle.chw_base.specs.Passing.{Passes};

use crate::outcome::Or;
use crate::sink::{Sink, SinkFault};
use std::alloc::Global;
use std::io::{ErrorKind, Write};

/// A sink that passes its bytes on to a writer, as the standard output. It tells no bytes.
#[derive(Drop)]
pub struct StdSink<W> {
    to: W,
    faults: u64,
}

impl<W: Write + Drop> StdSink<W> {
    /// A sink over this writer.
    pub fn new(to: W) -> StdSink<W>
        ensures writer { result.to ≡ to }
        ensures no_faults { ⟦<StdSink<W> as Sink>⟧.faults result ≡ 0 }
    {
        StdSink { to, faults: 0 }
    }
}

// Writes until the whole piece is taken. A write that takes nothing is an error, and one that was interrupted is made again.
fn write_whole<W: Write>(to: &mut W, bytes: &[u8]) -> Result<(), SinkFault>
    ensures { Passes (W.contents to.old) (W.contents to.new) bytes.now result }
{
    let mut taken = 0;
    for _ in 0..u64::MAX {
        if taken == bytes.len() {
            return Ok(());
        }
        match to.write(&bytes[taken..]) {
            Ok(0) => return Err(SinkFault),
            Ok(n) => taken += n,
            Err(e) if e.kind() == ErrorKind::Interrupted => {}
            Err(_) => return Err(SinkFault),
        }
    }
    Err(SinkFault)
}

// Writes the whole piece and flushes.
fn pass_on<W: Write>(to: &mut W, bytes: &[u8]) -> Result<(), SinkFault>
    ensures { Passes (W.contents to.old) (W.contents to.new) bytes.now result }
{
    write_whole(to, bytes)?;
    match to.flush() {
        Ok(()) => Ok(()),
        Err(_) => Err(SinkFault),
    }
}

impl<W: Write + Drop> Sink for StdSink<W> {
    ghost written = { λ _. None };

    ghost faults = { λ s. s.faults };

    ghost put_gives = { λ s bytes answer t. Passes (W.contents s.to) (W.contents t.to) bytes answer };

    fn put(&mut self, _alloc: Global, bytes: &[u8]) -> Result<(), Or<SinkFault>> {
        match pass_on(&mut self.to, bytes) {
            Ok(()) => Ok(()),
            Err(fault) => {
                self.faults = self.faults.saturating_add(1);
                Err(Or::Fault(fault))
            }
        }
    }
}
