//! A sink in memory.
ghost use Rattle.std.specs.Prelude.{◌≡◌, Some};
ghost use Rattle.chw_base.specs.InMemory.{new_sink};
ghost use Rattle.chw_base.specs.MemWriting.{PutsInMemory};

use crate::calls::is_listed;
use crate::outcome::Or;
use crate::sink::{Sink, SinkFault};
use std::alloc::Global;
use std::marker::Model;

/// A sink that keeps what is written, and fails the calls that it was told to fail.
///
/// Contracts see it as what was written, the numbers of the calls that fail, and how many calls and faults there were.
#[derive(Debug, Drop)]
pub struct MemSink {
    bytes: Vec<u8>,
    fail: Vec<u32>,
    calls: u64,
    faults: u64,
}

impl Model for MemSink {
    ghost use Rattle.chw_base.specs.InMemory.{SinkState};

    ghost Value = { SinkState };

    ghost view = { λ s. record { written = s.bytes.items; fail = s.fail.items; calls = s.calls; faults = s.faults } };
}

impl MemSink {
    /// An empty sink. The calls of `put` whose numbers, from 0, are in `fail` will fail and append nothing.
    pub fn new(alloc: Global, fail: Vec<u32>) -> MemSink
        ensures { result ≡ new_sink fail.items }
    {
        MemSink {
            bytes: Vec::new(alloc),
            fail,
            calls: 0,
            faults: 0,
        }
    }

    /// What was written.
    pub fn bytes(&self) -> &[u8]
        ensures { result.now ≡ self.now.written }
    {
        self.bytes.as_slice()
    }
}

impl Sink for MemSink {
    ghost written = { λ s. Some s.written };

    ghost faults = { λ s. s.faults };

    ghost put_gives = { PutsInMemory };

    fn put(&mut self, _alloc: Global, bytes: &[u8]) -> Result<(), Or<SinkFault>> {
        let number = self.calls;
        self.calls = number.saturating_add(1);
        if is_listed(self.fail.as_slice(), number) {
            self.faults = self.faults.saturating_add(1);
            return Err(Or::Fault(SinkFault));
        }
        self.bytes.extend_from_slice(bytes)?;
        Ok(())
    }
}
