//! A table before any event.
ghost use Rattle.std.specs.Prelude.{◌≡◌, ℕ, ◌+◌, ◌<◌, Bool, List, [], length, map, replicate, IfOk, OnOk};
ghost use Rattle.chw_bits.specs.Bits.{bits_of};
ghost use Rattle.net_sim.specs.Opening.{IsRam, IsStarted, initial_bits, initial_words};
ghost use Rattle.net_sim.specs.Ticking.{HaveKeepers, Writes, WrittenBefore};
ghost use Rattle.netlist.specs.Sound.{FitsCell, Sound};

use crate::keepers::Keepers;
use crate::memory::Memory;
use crate::settle::cell_at;
use crate::word::{Word, no_bits};
use crate::words::put_bits_at;
use chw_base::NoMemory;
use chw_bits::Bits;
use netlist::{Cell, Flat};
use std::alloc::Global;

/// Words of zeros of these widths.
pub(crate) fn zero_words(alloc: Global, widths: &[u32]) -> Result<Vec<Word>, NoMemory>
    ensures { IfOk result (λ v. v.items ≡ map (λ n. bits_of n 0) widths.now) }
{
    let mut words = Vec::new(alloc);
    for width in widths {
        words.push(Word::zeros(alloc, *width)?)?;
    }
    Ok(words)
}

// Puts the bits of a constant, or a register's initial bits.
fn start(cell: &Cell, words: &mut [Word])
    requires { (domains : ℕ) × FitsCell domains (map length words.old) cell.now }
    ensures started { Writes (List Bool) [] IsStarted (λ w cell old. initial_bits cell) cell.now
        words.old words.new }
    ensures widths { map length words.new ≡ map length words.old }
{
    match cell {
        Cell::Const(w, bits) => put_bits_at(words, *w, bits.as_slice()),
        Cell::Reg(w, _, initial, _) => put_bits_at(words, *w, initial.as_slice()),
        _ => {}
    }
}

// Puts the bits of all constants, and the initial bits of all registers.
fn start_all(flat: &Flat, words: &mut [Word])
    requires sound { Sound flat.now }
    requires table { map length words.old ≡ flat.now.widths }
    ensures started { WrittenBefore (List Bool) [] IsStarted (λ w cell old. initial_bits cell) flat.now
        words.old words.new (length flat.now.cells) }
    ensures widths { map length words.new ≡ map length words.old }
{
    for place in 0..flat.cells.len() {
        start(cell_at(flat, place), words);
    }
}

/// The words of all wires: the bits of constants, the initial bits of registers, and zeros.
pub(crate) fn first_words(alloc: Global, flat: &Flat) -> Result<Vec<Word>, NoMemory>
    requires { Sound flat.now }
    ensures started { IfOk result (λ v. WrittenBefore (List Bool) [] IsStarted
        (λ w cell old. initial_bits cell) flat.now (map (λ n. bits_of n 0) flat.now.widths) v.items
        (length flat.now.cells)) }
    ensures widths { IfOk result (λ v. map length v.items ≡ flat.now.widths) }
{
    let mut words = zero_words(alloc, flat.widths.as_slice())?;
    start_all(flat, &mut words);
    Ok(words)
}

// So many memories without words.
fn no_memories(alloc: Global, count: usize) -> Result<Vec<Memory>, NoMemory>
    ensures { IfOk result (λ v. v.items ≡ replicate count []) }
{
    let mut memories = Vec::new(alloc);
    for _ in 0..count {
        memories.push(Memory::none(alloc))?;
    }
    Ok(memories)
}

// Makes the memory of a RAM.
fn load(alloc: Global, cell: &Cell, memories: &mut [Memory]) -> Result<(), NoMemory>
    requires { (domains : ℕ) × (widths : List ℕ) × (length widths ≡ length memories.old)
        × FitsCell domains widths cell.now }
    ensures { OnOk result (Writes (List (List Bool)) [] IsRam (λ w cell old. initial_words cell)
        cell.now memories.old memories.new) }
{
    if let Cell::Ram(w, _, words, _) = cell {
        memories[w.number as usize] = Memory::of_words(alloc, words.as_slice())?;
    }
    Ok(())
}

// Makes the memories of all RAMs.
fn load_all(alloc: Global, flat: &Flat, memories: &mut [Memory]) -> Result<(), NoMemory>
    requires sound { Sound flat.now }
    requires count { length memories.old ≡ length flat.now.widths }
    ensures { OnOk result (WrittenBefore (List (List Bool)) [] IsRam (λ w cell old. initial_words cell)
        flat.now memories.old memories.new (length flat.now.cells)) }
{
    for place in 0..flat.cells.len() {
        load(alloc, cell_at(flat, place), memories)?;
    }
    Ok(())
}

/// The memories of all RAMs.
pub(crate) fn first_memories(alloc: Global, flat: &Flat) -> Result<Vec<Memory>, NoMemory>
    requires { Sound flat.now }
    ensures loaded { IfOk result (λ v. WrittenBefore (List (List Bool)) [] IsRam
        (λ w cell old. initial_words cell) flat.now (replicate (length flat.now.widths) []) v.items
        (length flat.now.cells)) }
    ensures count { IfOk result (λ v. length v.items ≡ length flat.now.widths) }
{
    let mut memories = no_memories(alloc, flat.widths.len())?;
    load_all(alloc, flat, &mut memories)?;
    Ok(memories)
}

// So many lists without places.
fn no_keepers(alloc: Global, count: usize) -> Result<Vec<Keepers>, NoMemory>
    ensures { IfOk result (λ v. v.items ≡ replicate count []) }
{
    let mut keepers = Vec::new(alloc);
    for _ in 0..count {
        keepers.push(Keepers::none(alloc))?;
    }
    Ok(keepers)
}

// Adds a place to the list of its domain, if the cell there is a register or a RAM.
fn add_keeper(flat: &Flat, place: u32, keepers: &mut [Keepers]) -> Result<(), NoMemory>
    requires sound { Sound flat.now }
    requires within { place < length flat.now.cells }
    requires lists { HaveKeepers flat.now keepers.old place }
    ensures { OnOk result (HaveKeepers flat.now keepers.new (place + 1)) }
{
    match cell_at(flat, place as usize) {
        Cell::Reg(_, domain, _, _) | Cell::Ram(_, domain, _, _) => {
            keepers[domain.number as usize].push(place)
        }
        _ => Ok(()),
    }
}

// Adds the places of all registers and RAMs.
fn add_keepers(flat: &Flat, keepers: &mut [Keepers]) -> Result<(), NoMemory>
    requires sound { Sound flat.now }
    requires none { HaveKeepers flat.now keepers.old 0 }
    ensures { OnOk result (HaveKeepers flat.now keepers.new (length flat.now.cells)) }
{
    for place in 0..flat.cells.len() as u32 {
        add_keeper(flat, place, keepers)?;
    }
    Ok(())
}

/// The places of all registers and RAMs, by their domains.
pub(crate) fn list_keepers(alloc: Global, flat: &Flat) -> Result<Vec<Keepers>, NoMemory>
    requires { Sound flat.now }
    ensures { IfOk result (λ v. HaveKeepers flat.now v.items (length flat.now.cells)) }
{
    let mut keepers = no_keepers(alloc, flat.ports.domains.len())?;
    add_keepers(flat, &mut keepers)?;
    Ok(keepers)
}

/// Bits of the outputs' widths.
pub(crate) fn first_outputs(alloc: Global, flat: &Flat) -> Result<Vec<Bits>, NoMemory>
    ensures { IfOk result (λ v. map length v.items ≡ map (λ port. port.width) flat.now.ports.outputs) }
{
    let mut outputs = Vec::new(alloc);
    for port in flat.ports.outputs.as_slice() {
        outputs.push(Bits::of_list(no_bits(alloc, port.width as usize)?))?;
    }
    Ok(outputs)
}
