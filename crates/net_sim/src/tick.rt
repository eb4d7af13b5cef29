//! What an event changes: what registers and RAMs show after it, and the words of RAMs.
ghost use Rattle.std.specs.Prelude.{◌≡◌, ℕ, ◌<◌, ◌≤◌, Bool, List, [], length, map, slice_index_or, slice_set, if◌then◌else◌};
ghost use Rattle.chw_bits.specs.Bits.{number_of};
ghost use Rattle.chw_clock.specs.Histories.{resets, ticks};
ghost use Rattle.net_sim.specs.Opening.{IsRam};
ghost use Rattle.net_sim.specs.Tables.{value_in};
ghost use Rattle.net_sim.specs.Ticking.{HaveKeepers, IsKeeper, IsKeeperOf, IsRamOf, MemoriesFit, Moves, MovesWords, Writes, WrittenBefore};
ghost use Rattle.net_sim.specs.Ticking.{Stepped, moved_bits, moved_words, shown_word, written_words};
ghost use Rattle.netlist.specs.Sound.{FitsCell, IsWire, Sound};

use crate::keepers::{Keepers, places_of};
use crate::memory::Memory;
use crate::settle::cell_at;
use crate::word::Word;
use crate::words::{clear_at, memory_at, put_bits_at, put_word_at, word_at};
use chw_base::{DomId, WireId};
use chw_bits::Bits;
use chw_clock::Event;
use netlist::{Cell, Flat};

// Whether the domain of a number ticks in an event.
fn ticks(event: &Event, number: usize) -> bool
    ensures { result ≡ ticks event.now (record { number = number }) }
{
    event
        .ticks
        .as_slice()
        .iter()
        .any(|d| d.number as usize == number)
}

// Whether the reset of a domain is asserted in an event.
fn resets(event: &Event, domain: DomId) -> bool
    ensures { result ≡ resets event.now domain }
{
    event
        .resets
        .as_slice()
        .iter()
        .any(|d| d.number == domain.number)
}

// Takes what a register shows after a tick.
fn take_register(w: WireId, reset: bool, initial: &Bits, from: &Word, next: &mut [Word])
    requires wire { IsWire (map length next.old) w }
    requires initial { length initial.now ≡ length (value_in next.old w.number) }
    requires from { length from.now ≡ length (value_in next.old w.number) }
    ensures word { next.new
        ≡ slice_set next.old w.number (if reset then initial.now else from.now) }
    ensures widths { map length next.new ≡ map length next.old }
{
    if reset {
        put_bits_at(next, w, initial.as_slice());
    } else {
        put_word_at(next, w, from);
    }
}

// Takes what a RAM shows after a tick.
fn take_ram(w: WireId, address: &Word, memory: &Memory, next: &mut [Word])
    requires wire { IsWire (map length next.old) w }
    requires address { length address.now ≤ 128 }
    requires words { (place : ℕ) → place < length memory.now
        → length (value_in memory.now place) ≡ length (value_in next.old w.number) }
    ensures word { next.new ≡ slice_set next.old w.number
        (shown_word memory.now (number_of address.now) (length (value_in next.old w.number))) }
    ensures widths { map length next.new ≡ map length next.old }
{
    let place = address.number();
    if place < memory.len() as u128 {
        put_word_at(next, w, memory.word(place as usize));
    } else {
        clear_at(next, w);
    }
}

// Writes a RAM's word at a tick.
fn write_ram(enable: &Word, place: &Word, value: &Word, memory: &mut Memory)
    requires enable { length enable.now ≤ 128 }
    requires place { length place.now ≤ 128 }
    requires words { (address : ℕ) → address < length memory.old
        → length (value_in memory.old address) ≡ length value.now }
    ensures { memory.new ≡ written_words enable.now place.now value.now memory.old }
{
    let place = place.number();
    if enable.number() == 1 && place < memory.len() as u128 {
        memory.put(place as usize, value);
    }
}

// Takes what a cell shows after a tick of its domain, if it is a register or a RAM.
fn take(cell: &Cell, event: &Event, words: &[Word], memories: &[Memory], next: &mut [Word])
    requires fits { (domains : ℕ) × FitsCell domains (map length words.now) cell.now }
    requires widths { map length next.old ≡ map length words.now }
    requires memories { MemoriesFit words.now memories.now }
    ensures taken { Writes (List Bool) [] IsKeeper
        (λ w cell old. moved_bits event.now words.now memories.now cell) cell.now next.old next.new }
    ensures widths { map length next.new ≡ map length next.old }
{
    match cell {
        Cell::Reg(w, domain, initial, a) => {
            let reset = resets(event, *domain);
            take_register(*w, reset, initial, word_at(words, *a), next);
        }
        Cell::Ram(w, _, _, inputs) => {
            let address = word_at(words, inputs.read);
            take_ram(*w, address, memory_at(memories, *w), next);
        }
        _ => {}
    }
}

// Writes a cell's word at a tick of its domain, if it is a RAM.
fn write(cell: &Cell, words: &[Word], memories: &mut [Memory])
    requires fits { (domains : ℕ) × FitsCell domains (map length words.now) cell.now }
    requires memories { MemoriesFit words.now memories.old }
    ensures written { Writes (List (List Bool)) [] IsRam (λ w cell old. moved_words words.now cell old)
        cell.now memories.old memories.new }
    ensures memories { MemoriesFit words.now memories.new }
{
    if let Cell::Ram(w, _, _, inputs) = cell {
        write_ram(
            word_at(words, inputs.enable),
            word_at(words, inputs.place),
            word_at(words, inputs.value),
            &mut memories[w.number as usize],
        );
    }
}

// Puts what a cell shows after a tick of its domain, if it is a register or a RAM.
fn put(cell: &Cell, next: &[Word], words: &mut [Word])
    requires fits { (domains : ℕ) × FitsCell domains (map length words.old) cell.now }
    requires widths { map length next.now ≡ map length words.old }
    ensures put { Writes (List Bool) [] IsKeeper (λ w cell old. value_in next.now w) cell.now
        words.old words.new }
    ensures widths { map length words.new ≡ map length words.old }
{
    match cell {
        Cell::Reg(w, _, _, _) | Cell::Ram(w, _, _, _) => {
            put_word_at(words, *w, word_at(next, *w));
        }
        _ => {}
    }
}

// Takes what the registers and RAMs of a domain show after a tick of it.
fn take_domain(
    flat: &Flat,
    keepers: &[Keepers],
    number: usize,
    event: &Event,
    words: &[Word],
    memories: &[Memory],
    next: &mut [Word],
)
    requires sound { Sound flat.now }
    requires keepers { HaveKeepers flat.now keepers.now (length flat.now.cells) }
    requires within { number < length keepers.now }
    requires table { map length words.now ≡ flat.now.widths }
    requires widths { map length next.old ≡ map length words.now }
    requires memories { MemoriesFit words.now memories.now }
    ensures taken { WrittenBefore (List Bool) [] (IsKeeperOf number)
        (λ w cell old. moved_bits event.now words.now memories.now cell) flat.now next.old next.new
        (length flat.now.cells) }
    ensures widths { map length next.new ≡ map length words.now }
{
    for place in places_of(keepers, number) {
        take(cell_at(flat, *place as usize), event, words, memories, next);
    }
}

// Writes the words of the RAMs of a domain at a tick of it.
fn write_domain(
    flat: &Flat,
    keepers: &[Keepers],
    number: usize,
    words: &[Word],
    memories: &mut [Memory],
)
    requires sound { Sound flat.now }
    requires keepers { HaveKeepers flat.now keepers.now (length flat.now.cells) }
    requires within { number < length keepers.now }
    requires table { map length words.now ≡ flat.now.widths }
    requires memories { MemoriesFit words.now memories.old }
    ensures written { WrittenBefore (List (List Bool)) [] (IsRamOf number)
        (λ w cell old. moved_words words.now cell old) flat.now memories.old memories.new
        (length flat.now.cells) }
    ensures memories { MemoriesFit words.now memories.new }
{
    for place in places_of(keepers, number) {
        write(cell_at(flat, *place as usize), words, memories);
    }
}

// Puts what the registers and RAMs of a domain show after a tick of it.
fn put_domain(flat: &Flat, keepers: &[Keepers], number: usize, next: &[Word], words: &mut [Word])
    requires sound { Sound flat.now }
    requires keepers { HaveKeepers flat.now keepers.now (length flat.now.cells) }
    requires within { number < length keepers.now }
    requires table { map length words.old ≡ flat.now.widths }
    requires widths { map length next.now ≡ map length words.old }
    ensures put { WrittenBefore (List Bool) [] (IsKeeperOf number) (λ w cell old. value_in next.now w)
        flat.now words.old words.new (length flat.now.cells) }
    ensures widths { map length words.new ≡ map length words.old }
{
    for place in places_of(keepers, number) {
        put(cell_at(flat, *place as usize), next, words);
    }
}

// Takes what all registers and RAMs show after an event in which they move.
fn take_all(
    flat: &Flat,
    keepers: &[Keepers],
    event: &Event,
    words: &[Word],
    memories: &[Memory],
    next: &mut [Word],
)
    requires sound { Sound flat.now }
    requires keepers { HaveKeepers flat.now keepers.now (length flat.now.cells) }
    requires table { map length words.now ≡ flat.now.widths }
    requires widths { map length next.old ≡ map length words.now }
    requires memories { MemoriesFit words.now memories.now }
    ensures taken { WrittenBefore (List Bool) [] (Moves event.now)
        (λ w cell old. moved_bits event.now words.now memories.now cell) flat.now next.old next.new
        (length flat.now.cells) }
    ensures widths { map length next.new ≡ map length words.now }
{
    for number in 0..keepers.len() {
        if !ticks(event, number) {
            continue;
        }
        take_domain(flat, keepers, number, event, words, memories, next);
    }
}

// Writes the words of all RAMs that move in an event.
fn write_all(
    flat: &Flat,
    keepers: &[Keepers],
    event: &Event,
    words: &[Word],
    memories: &mut [Memory],
)
    requires sound { Sound flat.now }
    requires keepers { HaveKeepers flat.now keepers.now (length flat.now.cells) }
    requires table { map length words.now ≡ flat.now.widths }
    requires memories { MemoriesFit words.now memories.old }
    ensures written { WrittenBefore (List (List Bool)) [] (MovesWords event.now)
        (λ w cell old. moved_words words.now cell old) flat.now memories.old memories.new
        (length flat.now.cells) }
    ensures memories { MemoriesFit words.now memories.new }
{
    for number in 0..keepers.len() {
        if !ticks(event, number) {
            continue;
        }
        write_domain(flat, keepers, number, words, memories);
    }
}

// Puts what all registers and RAMs show after an event in which they move.
fn put_all(flat: &Flat, keepers: &[Keepers], event: &Event, next: &[Word], words: &mut [Word])
    requires sound { Sound flat.now }
    requires keepers { HaveKeepers flat.now keepers.now (length flat.now.cells) }
    requires table { map length words.old ≡ flat.now.widths }
    requires widths { map length next.now ≡ map length words.old }
    ensures put { WrittenBefore (List Bool) [] (Moves event.now) (λ w cell old. value_in next.now w)
        flat.now words.old words.new (length flat.now.cells) }
    ensures widths { map length words.new ≡ map length words.old }
{
    for number in 0..keepers.len() {
        if !ticks(event, number) {
            continue;
        }
        put_domain(flat, keepers, number, next, words);
    }
}

/// Moves all registers and RAMs that move in an event: each takes what it takes before any moves.
///
/// It costs what the domains that tick have, and a step for each other domain.
pub(crate) fn advance(
    flat: &Flat,
    keepers: &[Keepers],
    event: &Event,
    words: &mut [Word],
    next: &mut [Word],
    memories: &mut [Memory],
)
    requires sound { Sound flat.now }
    requires keepers { HaveKeepers flat.now keepers.now (length flat.now.cells) }
    requires table { map length words.old ≡ flat.now.widths }
    requires widths { map length next.old ≡ map length words.old }
    requires memories { MemoriesFit words.old memories.old }
    ensures stepped { Stepped flat.now event.now words.old memories.old words.new memories.new }
    ensures widths { map length words.new ≡ map length words.old }
    ensures next { map length next.new ≡ map length words.old }
    ensures memories { MemoriesFit words.new memories.new }
{
    take_all(flat, keepers, event, words, memories, next);
    write_all(flat, keepers, event, words, memories);
    put_all(flat, keepers, event, next, words);
}
