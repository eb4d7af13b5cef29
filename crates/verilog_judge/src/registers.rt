//! Whether the widths and literals of registers and RAMs agree.
ghost use Rattle.std.specs.Prelude.{◌≡◌, [], ◌∷◌, OnOk, option_map, slice_get};
ghost use Rattle.verilog_checks.specs.Formed.{IsFormed};
ghost use Rattle.verilog_checks.specs.Least.{least_after};
ghost use Rattle.verilog_judge.specs.Read.{AreReadWords, IsFormedIf, IsReadKindIf, IsSmall};
ghost use Rattle.verilog_judge.specs.Words.{word_check};
ghost use Rattle.verilog_rules.specs.WidthRules.{address_checks, kind_at, literal_of, memory_of, ram_width_checks, register_checks, reset_literal_checks, word_checks, words_checks};

use crate::parts::{check_width, check_word};
use crate::sizes::count_of;
use chw_base::limits::ADDRESS_BITS;
use chw_base::{NoMemory, narrow};
use std::alloc::Global;
use verilog_checks::Least;
use verilog_checks::literals::{is_count, is_word_of_number, is_zeros};
use verilog_checks::numbers::is;
use verilog_rules::{Address, Kind, Operand, RamOf, Wire};
use verilog_tree::{FirstWord, Memory, Word};

/// How the wire of an operand is declared.
pub(crate) fn kind_at<'t>(wires: &[Wire<'t>], a: Operand) -> Option<Kind<'t>>
    ensures { result ≡ kind_at wires.now a }
{
    match wires.get(a.wire.number as usize) {
        Some(wire) => Some(wire.kind),
        None => None,
    }
}

/// The literal of a register.
pub(crate) fn literal_of<'t>(kind: Option<Kind<'t>>) -> Option<Word<'t>>
    ensures { result ≡ literal_of kind.entry }
{
    match kind {
        Some(Kind::Register(literal, _)) => Some(literal),
        _ => None,
    }
}

/// The memory that a register shows.
pub(crate) fn memory_of<'t>(kind: Option<Kind<'t>>) -> Option<Memory<'t>>
    ensures { result ≡ memory_of kind.entry }
{
    match kind {
        Some(Kind::Register(_, memory)) => memory,
        _ => None,
    }
}

// The literal of a reset, against that of the register.
fn check_reset(
    alloc: Global,
    least: &mut Least,
    n: u32,
    first: Option<Word<'_>>,
    reset: Option<Word<'_>>,
) -> Result<(), NoMemory>
    requires first { IsFormedIf first }
    requires reset { IsFormedIf reset }
    ensures { OnOk result (least.new ≡ least_after least.old (reset_literal_checks n first.entry reset.entry)) }
{
    if let (Some(first), Some(reset)) = (first, reset) {
        let same = is_word_of_number(alloc, &reset, n, &first)?;
        least.check(reset.at, same);
    }
    Ok(())
}

/// What a register of n bits takes.
#[tactic(auto, using(verilog_checks::proofs::Steps::least_after_both))]
pub(crate) fn check_register(
    alloc: Global,
    least: &mut Least,
    widths: &[u32],
    n: u32,
    kind: Option<Kind<'_>>,
    reset: Option<Word<'_>>,
    a: Operand,
) -> Result<(), NoMemory>
    requires kind { IsReadKindIf kind }
    requires reset { IsFormedIf reset }
    ensures { OnOk result (least.new ≡ least_after least.old (register_checks widths.now n kind.entry reset.entry a)) }
{
    check_reset(alloc, least, n, literal_of(kind), reset)?;
    check_width(least, widths, n, a);
    Ok(())
}

// The word of this place.
fn check_first(
    alloc: Global,
    least: &mut Least,
    n: u32,
    count: u32,
    place: usize,
    word: &FirstWord<'_>,
) -> Result<(), NoMemory>
    requires { IsFormed word.now.literal }
    ensures { OnOk result (least.new ≡ least_after least.old (word_check n count place word.now)) }
{
    let place = narrow(place)?;
    least.check(word.memory.at, place < count);
    least.check(word.place.at, is(word.place.bytes, place));
    check_word(alloc, least, n, &word.literal)
}

// The words of a memory.
fn check_words(
    alloc: Global,
    least: &mut Least,
    n: u32,
    count: u32,
    words: &[FirstWord<'_>],
) -> Result<(), NoMemory>
    requires { AreReadWords words.now }
    ensures { OnOk result (least.new ≡ least_after least.old (word_checks n count 0 words.now)) }
{
    for (place, word) in words.iter().enumerate() {
        check_first(alloc, least, n, count, place, word)?;
    }
    Ok(())
}

fn check_address(least: &mut Least, widths: &[u32], count: u32, address: &Address<'_>)
    ensures { least.new ≡ least_after least.old (address_checks widths.now count address.now) }
{
    check_width(least, widths, ADDRESS_BITS, address.address);
    least.check(address.count.at, is_count(&address.count, count));
}

// A RAM of so many words of n bits.
#[tactic(auto, using(verilog_checks::proofs::Steps::least_after_both))]
fn check_ram_words(
    alloc: Global,
    least: &mut Least,
    widths: &[u32],
    n: u32,
    count: u32,
    ram: &RamOf<'_>,
) -> Result<(), NoMemory>
    requires { AreReadWords ram.now.words }
    ensures { OnOk result (least.new ≡ least_after least.old (words_checks widths.now n count ram.now)) }
{
    check_words(alloc, least, n, count, ram.words.as_slice())?;
    least.check(ram.end, ram.words.len() == count as usize);
    check_width(least, widths, 1, ram.enable);
    check_address(least, widths, count, &ram.write);
    check_width(least, widths, n, ram.value);
    check_address(least, widths, count, &ram.read);
    least.check(ram.zeros.at, is_zeros(&ram.zeros, n));
    Ok(())
}

/// A RAM of n bits, of this memory.
pub(crate) fn check_ram(
    alloc: Global,
    least: &mut Least,
    widths: &[u32],
    n: u32,
    memory: Option<Memory<'_>>,
    ram: &RamOf<'_>,
) -> Result<(), NoMemory>
    requires memory { IsSmall memory }
    requires words { AreReadWords ram.now.words }
    ensures { OnOk result (least.new ≡ least_after least.old (ram_width_checks widths.now n memory.entry ram.now)) }
{
    match memory {
        Some(memory) => {
            let count = count_of(&memory);
            check_ram_words(alloc, least, widths, n, count, ram)
        }
        None => Ok(()),
    }
}
