//! Bytes by which cells and known bits are compared.
ghost use Rattle.std.specs.Prelude.{◌≡◌, ◌++◌, map, IfOk, OnOk};
ghost use Rattle.wire_classes.specs.Keys.{bit_key, bits_key, cell_key, form_key, hash_of};
ghost use Rattle.wire_classes.specs.Keys.{known_key, mixed, numbers_key, op1_key, op2_key};
ghost use Rattle.wire_classes.specs.Keys.{tagged, word_key};
ghost use Rattle.wire_classes.specs.Closed.{labels_of};
ghost use Rattle.netlist.specs.Wires.{read_by};
ghost use Rattle.std.specs.List.{flat_map};

use crate::labels::label;
use chw_base::{Name, NoMemory, WireId};
use chw_bits::Bits;
use netlist::{Cell, Flat, Op1, Op2};
use std::alloc::Global;

// A byte, and the four bytes of a number, the least significant first.
fn tagged(tag: u8, n: u32) -> [u8; 5]
    ensures { result ≡ tagged tag n }
{
    let second = n / 256;
    let third = second / 256;
    let fourth = third / 256;
    [
        tag,
        (n % 256) as u8,
        (second % 256) as u8,
        (third % 256) as u8,
        fourth as u8,
    ]
}

fn bit_key(bit: bool) -> u8
    ensures { result ≡ bit_key bit }
{
    if bit { 1 } else { 0 }
}

fn op1_key(op: Op1) -> u8
    ensures { result ≡ op1_key op }
{
    match op {
        Op1::Not => 0,
        Op1::RedAnd => 1,
        Op1::RedOr => 2,
        Op1::RedXor => 3,
    }
}

fn op2_key(op: Op2) -> u8
    ensures { result ≡ op2_key op }
{
    match op {
        Op2::Add => 0,
        Op2::Sub => 1,
        Op2::Mul => 2,
        Op2::And => 3,
        Op2::Or => 4,
        Op2::Xor => 5,
        Op2::Eq => 6,
        Op2::LtU => 7,
        Op2::LtS => 8,
        Op2::Shl => 9,
        Op2::Shr => 10,
        Op2::Sar => 11,
    }
}

// Adds these bytes to a key.
fn put(key: &mut Vec<u8>, bytes: &[u8]) -> Result<(), NoMemory>
    ensures { OnOk result (key.new.items ≡ key.old.items ++ bytes.now) }
{
    key.extend_from_slice(bytes)?;
    Ok(())
}

// Adds a byte for each of these bits.
fn put_bits(key: &mut Vec<u8>, bits: &[bool]) -> Result<(), NoMemory>
    ensures { OnOk result (key.new.items ≡ key.old.items ++ bits_key bits.now) }
{
    for bit in bits {
        key.push(bit_key(*bit))?;
    }
    Ok(())
}

// Adds these bytes and a byte for each of these bits.
fn put_with_bits(key: &mut Vec<u8>, head: &[u8], bits: &[bool]) -> Result<(), NoMemory>
    ensures { OnOk result (key.new.items ≡ key.old.items ++ (head.now ++ bits_key bits.now)) }
{
    put(&mut *key, head)?;
    put_bits(key, bits)
}

// Adds the bits of a word, up to an end.
fn put_word(key: &mut Vec<u8>, word: &Bits) -> Result<(), NoMemory>
    ensures { OnOk result (key.new.items ≡ key.old.items ++ word_key word.now) }
{
    put_bits(&mut *key, word.as_slice())?;
    put(key, &[2])
}

// Adds these words.
fn put_words(key: &mut Vec<u8>, words: &[Bits]) -> Result<(), NoMemory>
    ensures { OnOk result (key.new.items ≡ key.old.items ++ flat_map word_key words.now) }
{
    for word in words {
        put_word(&mut *key, word)?;
    }
    Ok(())
}

// Adds these bytes and these words.
fn put_with_words(key: &mut Vec<u8>, head: &[u8], words: &[Bits]) -> Result<(), NoMemory>
    ensures { OnOk result (key.new.items
        ≡ key.old.items ++ (head.now ++ flat_map word_key words.now)) }
{
    put(&mut *key, head)?;
    put_words(key, words)
}

// Adds two lists of bytes.
fn put_both(key: &mut Vec<u8>, first: &[u8], second: &[u8]) -> Result<(), NoMemory>
    ensures { OnOk result (key.new.items ≡ key.old.items ++ (first.now ++ second.now)) }
{
    put(&mut *key, first)?;
    put(key, second)
}

// Adds what a cell is without its wires.
fn put_form(key: &mut Vec<u8>, cell: &Cell) -> Result<(), NoMemory>
    ensures { OnOk result (key.new.items ≡ key.old.items ++ form_key cell.now) }
{
    match cell {
        Cell::Const(_, bits) => put_with_bits(key, &[0], bits.as_slice()),
        Cell::Copy(_, _) => put(key, &[1]),
        Cell::Join(_, _) => put(key, &[2]),
        Cell::Cut(_, _, high, low) => put_both(key, &tagged(3, *high), &tagged(3, *low)),
        Cell::Un(_, op, _) => put(key, &[4, op1_key(*op)]),
        Cell::Bin(_, op, _, _) => put(key, &[5, op2_key(*op)]),
        Cell::Mux(_, _, _, _) => put(key, &[6]),
        Cell::Reg(_, domain, initial, _) => {
            put_with_bits(key, &tagged(7, domain.number), initial.as_slice())
        }
        Cell::Ram(_, domain, words, _) => {
            put_with_words(key, &tagged(8, domain.number), words.as_slice())
        }
        Cell::Use(_, _, _) => put(key, &[9]),
    }
}

// Adds the labels of these wires.
fn put_each(key: &mut Vec<u8>, of: &[u32], wires: &[WireId]) -> Result<(), NoMemory>
    ensures { OnOk result (key.new.items
        ≡ key.old.items ++ flat_map (tagged 1) (labels_of of.now wires.now)) }
{
    for w in wires {
        put(&mut *key, &tagged(1, label(of, w.number as usize)))?;
    }
    Ok(())
}

// Adds the labels of these wires, up to an end.
fn put_labels(key: &mut Vec<u8>, of: &[u32], wires: &[WireId]) -> Result<(), NoMemory>
    ensures { OnOk result (key.new.items
        ≡ key.old.items ++ numbers_key (labels_of of.now wires.now)) }
{
    put_each(&mut *key, of, wires)?;
    put(key, &[0])
}

// Adds the labels of what a cell reads.
fn put_reads(key: &mut Vec<u8>, of: &[u32], cell: &Cell) -> Result<(), NoMemory>
    ensures { OnOk result (key.new.items
        ≡ key.old.items ++ numbers_key (labels_of of.now (read_by cell.now))) }
{
    match cell {
        Cell::Const(_, _) => put_labels(key, of, &[]),
        Cell::Copy(_, a) => put_labels(key, of, &[*a]),
        Cell::Join(_, parts) => put_labels(key, of, parts.as_slice()),
        Cell::Cut(_, a, _, _) => put_labels(key, of, &[*a]),
        Cell::Un(_, _, a) => put_labels(key, of, &[*a]),
        Cell::Bin(_, _, a, b) => put_labels(key, of, &[*a, *b]),
        Cell::Mux(_, c, a, b) => put_labels(key, of, &[*c, *a, *b]),
        Cell::Reg(_, _, _, a) => put_labels(key, of, &[*a]),
        Cell::Ram(_, _, _, all) => {
            put_labels(key, of, &[all.read, all.enable, all.place, all.value])
        }
        Cell::Use(_, reads, _) => put_labels(key, of, reads.as_slice()),
    }
}

/// The key of a cell, by the labels of what it reads.
pub(crate) fn cell_key(alloc: Global, of: &[u32], cell: &Cell) -> Result<Name, NoMemory>
    ensures { IfOk result (λ key. key ≡ cell_key of.now cell.now) }
{
    let mut key = Vec::new(alloc);
    put_reads(&mut key, of, cell)?;
    put_form(&mut key, cell)?;
    Ok(Name::from(key))
}

/// Puts the key of a cell in place of what was there.
pub(crate) fn set_cell_key(key: &mut Vec<u8>, of: &[u32], cell: &Cell) -> Result<(), NoMemory>
    ensures { OnOk result (key.new.items ≡ cell_key of.now cell.now) }
{
    key.clear();
    put_reads(&mut *key, of, cell)?;
    put_form(key, cell)
}

/// The keys of all cells, in order.
pub(crate) fn cell_keys(alloc: Global, flat: &Flat, of: &[u32]) -> Result<Vec<Name>, NoMemory>
    ensures { IfOk result (λ keys. keys.items ≡ map (cell_key of.now) flat.now.cells) }
{
    let mut keys = Vec::new(alloc);
    for cell in flat.cells.as_slice() {
        keys.push(cell_key(alloc, of, cell)?)?;
    }
    Ok(keys)
}

/// The key of known bits.
pub(crate) fn known_key(alloc: Global, bits: &Bits) -> Result<Name, NoMemory>
    ensures { IfOk result (λ key. key ≡ known_key bits.now) }
{
    let mut key = Vec::new(alloc);
    put_with_bits(&mut key, &[1], bits.as_slice())?;
    Ok(Name::from(key))
}

/// A number with a byte more.
pub(crate) fn mixed(hash: u64, byte: u8) -> u64
    ensures { result ≡ mixed hash byte }
{
    hash.wrapping_mul(1_099_511_628_211)
        .wrapping_add(u64::from(byte))
}

/// A number for a key. Different keys mostly have different ones.
pub(crate) fn hash_of(key: &[u8]) -> u64
    ensures { result ≡ hash_of key.now }
{
    let mut hash: u64 = 14_695_981_039_346_656_037;
    for byte in key {
        hash = mixed(hash, *byte);
    }
    hash
}
