//! The cells that are to be looked at again, and the keys that were seen. No clause says what these
//! hold: what is found rests on none of it.

use crate::keys::mixed;
use chw_base::{NoMemory, WireId, narrow};
use indexmap::IndexMap;
use netlist::{Cell, Flat};
use std::alloc::Global;

// No wire, place or read.
const NONE: u32 = u32::MAX;

/// The cells that wait, the readers of each class, and the keys that were seen.
#[derive(Drop)]
pub(crate) struct Work {
    /// The place of the cell of each read.
    places: Vec<u32>,
    /// The next read of the class, in a round.
    next: Vec<u32>,
    /// A read of the class, by its label.
    first: Vec<u32>,
    /// How many reads and wires the class has, by its label.
    size: Vec<u32>,
    /// The places that wait, the next one last.
    waiting: Vec<u32>,
    /// Whether the place waits.
    waits: Vec<bool>,
    /// The place that was seen first with a cell's key.
    cells: IndexMap<u64, u32>,
    /// The wire that was seen first with known bits.
    bits: IndexMap<u64, u32>,
    /// Room for two keys.
    pub one: Vec<u8>,
    pub other: Vec<u8>,
}

// The number at this place, and none where there is none.
fn at(numbers: &[u32], place: u32) -> u32 {
    numbers.get(place as usize).copied().unwrap_or(NONE)
}

// Puts a number at this place, where there is one.
fn put(numbers: &mut [u32], place: u32, number: u32) {
    if (place as usize) < numbers.len() {
        numbers[place as usize] = number;
    }
}

/// A number for bits. Different bits mostly have different ones.
pub(crate) fn hash_of_bits(bits: &[bool]) -> u64 {
    let mut hash = 1;
    for bit in bits {
        hash = mixed(hash, u8::from(*bit));
    }
    hash
}

// What was seen first under this number; what is seen now, where nothing was.
fn first_seen(seen: &mut IndexMap<u64, u32>, hash: u64, now: u32) -> Result<u32, NoMemory> {
    if let Some(first) = seen.get(&hash) {
        return Ok(*first);
    }
    seen.insert(hash, now)?;
    Ok(now)
}

impl Work {
    // Nothing waits, and no cell reads a wire.
    fn new(alloc: Global, wires: usize, cells: usize) -> Result<Work, NoMemory> {
        Ok(Work {
            places: Vec::new(alloc),
            next: Vec::new(alloc),
            first: vec![in alloc; NONE; wires]?,
            size: vec![in alloc; 1; wires]?,
            waiting: Vec::new(alloc),
            waits: vec![in alloc; false; cells]?,
            cells: IndexMap::new(alloc),
            bits: IndexMap::new(alloc),
            one: Vec::new(alloc),
            other: Vec::new(alloc),
        })
    }

    // Makes room for so many cells, with two reads each.
    fn make_room(&mut self, cells: usize) -> Result<(), NoMemory> {
        let reads = cells.saturating_mul(2);
        self.places.reserve(reads)?;
        self.next.reserve(reads)?;
        self.waiting.reserve(cells)?;
        self.cells.reserve(cells)?;
        Ok(())
    }

    // The cell at this place reads the wire.
    fn add_read(&mut self, place: u32, w: WireId) -> Result<(), NoMemory> {
        let read = narrow(self.places.len())?;
        let first = at(&self.first, w.number);
        self.places.push(place)?;
        self.next.push(read)?;
        put(&mut self.first, w.number, read);
        let size = at(&self.size, w.number);
        put(&mut self.size, w.number, size.wrapping_add(1));
        if first != NONE {
            self.swap_next(first, read);
        }
        Ok(())
    }

    // The cell at this place reads the wires.
    fn add_reads(&mut self, place: u32, wires: &[WireId]) -> Result<(), NoMemory> {
        for w in wires {
            self.add_read(place, *w)?;
        }
        Ok(())
    }

    // The cell at this place reads its wires.
    fn add_cell(&mut self, place: u32, cell: &Cell) -> Result<(), NoMemory> {
        match cell {
            Cell::Const(_, _) => Ok(()),
            Cell::Copy(_, a) => self.add_reads(place, &[*a]),
            Cell::Join(_, parts) => self.add_reads(place, parts.as_slice()),
            Cell::Cut(_, a, _, _) => self.add_reads(place, &[*a]),
            Cell::Un(_, _, a) => self.add_reads(place, &[*a]),
            Cell::Bin(_, _, a, b) => self.add_reads(place, &[*a, *b]),
            Cell::Mux(_, c, a, b) => self.add_reads(place, &[*c, *a, *b]),
            Cell::Reg(_, _, _, a) => self.add_reads(place, &[*a]),
            Cell::Ram(_, _, _, all) => {
                self.add_reads(place, &[all.read, all.enable, all.place, all.value])
            }
            Cell::Use(_, reads, _) => self.add_reads(place, reads.as_slice()),
        }
    }

    /// All cells wait, the first of the order first.
    pub(crate) fn open(alloc: Global, flat: &Flat, order: &[u32]) -> Result<Work, NoMemory> {
        let mut work = Work::new(alloc, flat.widths.len(), flat.cells.len())?;
        work.make_room(flat.cells.len())?;
        for (place, cell) in flat.cells.as_slice().iter().enumerate() {
            work.add_cell(narrow(place)?, cell)?;
        }
        for place in order.iter().rev() {
            work.wait(*place)?;
        }
        Ok(work)
    }

    // Exchanges what is next to two reads: two rounds become one.
    fn swap_next(&mut self, one: u32, other: u32) {
        let after_one = at(&self.next, one);
        let after_other = at(&self.next, other);
        put(&mut self.next, one, after_other);
        put(&mut self.next, other, after_one);
    }

    // The cell at this place waits.
    fn wait(&mut self, place: u32) -> Result<(), NoMemory> {
        if self.waits.get(place as usize).copied().unwrap_or(true) {
            return Ok(());
        }
        self.waiting.push(place)?;
        if (place as usize) < self.waits.len() {
            self.waits[place as usize] = true;
        }
        Ok(())
    }

    /// The place of the next cell that waits, which waits no more.
    pub(crate) fn next_place(&mut self) -> Option<u32> {
        let place = self.waiting.pop()?;
        if (place as usize) < self.waits.len() {
            self.waits[place as usize] = false;
        }
        Some(place)
    }

    /// All readers of the class of this label wait.
    pub(crate) fn wake(&mut self, label: u32) -> Result<(), NoMemory> {
        let first = at(&self.first, label);
        let mut read = first;
        for _reader in 0..self.places.len() {
            let place = at(&self.places, read);
            self.wait(place)?;
            read = at(&self.next, read);
            if read == first {
                return Ok(());
            }
        }
        Ok(())
    }

    /// Whether the class of the first label is the smaller one.
    pub(crate) fn is_smaller(&self, one: u32, other: u32) -> bool {
        at(&self.size, one) < at(&self.size, other)
    }

    /// The class of the first label goes to that of the second.
    pub(crate) fn join(&mut self, from: u32, to: u32) {
        let one = at(&self.first, from);
        let other = at(&self.first, to);
        if other == NONE {
            put(&mut self.first, to, one);
        } else if one != NONE {
            self.swap_next(one, other);
        }
        let size = at(&self.size, from).wrapping_add(at(&self.size, to));
        put(&mut self.size, to, size);
    }

    /// The place that was seen first with a cell's key of this number.
    pub(crate) fn first_cell(&mut self, hash: u64, place: u32) -> Result<u32, NoMemory> {
        first_seen(&mut self.cells, hash, place)
    }

    /// The wire that was seen first with a key of this number.
    pub(crate) fn first_wire(&mut self, hash: u64, w: u32) -> Result<u32, NoMemory> {
        first_seen(&mut self.bits, hash, w)
    }
}
