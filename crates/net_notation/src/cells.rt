//! Cells.
use crate::numbers::groups_of;
use chw_base::{DomId, ModId, Or, Seq, WireId};
use chw_clock::Bits;
use netlist::{Cell, Op1, Op2, RamIn};
use row_tables::Unread;
use std::alloc::Global;

// A number of a group.
fn field(groups: &[Vec<u32>], group: usize, k: usize) -> Result<u32, Or<Unread>> {
    let numbers = groups.get(group).ok_or(Or::Fault(Unread))?;
    numbers.get(k).copied().ok_or(Or::Fault(Unread))
}

// The wire of a number of the first group.
fn wire(groups: &[Vec<u32>], k: usize) -> Result<WireId, Or<Unread>> {
    let number = field(groups, 0, k)?;
    Ok(WireId { number })
}

// The wires of a group, from one number on.
fn wires(
    alloc: Global,
    groups: &[Vec<u32>],
    group: usize,
    from: usize,
) -> Result<Seq<WireId>, Or<Unread>> {
    let numbers = groups.get(group).ok_or(Or::Fault(Unread))?;
    let mut wires = Vec::new(alloc);
    for number in numbers.iter().skip(from) {
        wires.push(WireId { number: *number })?;
    }
    Ok(Seq::from(wires))
}

// Bits that have this number.
fn numbered(alloc: Global, width: u32, number: u32) -> Result<Bits, Or<Unread>> {
    match Bits::of_number(alloc, width, u128::from(number)) {
        Ok(bits) => Ok(bits),
        Err(_) => Err(Or::Fault(Unread)),
    }
}

// The bits of a group: how many, and their number, of which each number behind the first gives 32 further bits.
fn bits(alloc: Global, groups: &[Vec<u32>], group: usize) -> Result<Bits, Or<Unread>> {
    let width = field(groups, group, 0)?;
    let first = field(groups, group, 1)?;
    let numbers = groups.get(group).ok_or(Or::Fault(Unread))?;
    let behind = (numbers.len().min(1_000) as u32).saturating_sub(2);
    let Some(begins) = width.checked_sub(32 * behind) else {
        return Err(Or::Fault(Unread));
    };
    let mut bits = numbered(alloc, begins, first)?;
    for number in numbers.iter().skip(2) {
        bits = longer(alloc, &bits, *number)?;
    }
    Ok(bits)
}

// Bits with those of one more number behind them.
fn longer(alloc: Global, bits: &Bits, number: u32) -> Result<Bits, Or<Unread>> {
    let low = numbered(alloc, 32, number)?;
    if bits.len() > 10_000 || low.len() > 32 {
        return Err(Or::Fault(Unread));
    }
    Ok(bits.join(alloc, &low)?)
}

// The bits of each group but the first.
fn words(alloc: Global, groups: &[Vec<u32>]) -> Result<Seq<Bits>, Or<Unread>> {
    let mut words = Vec::new(alloc);
    for group in 1..groups.len() {
        words.push(bits(alloc, groups, group)?)?;
    }
    Ok(Seq::from(words))
}

fn op1(kind: &str) -> Option<Op1> {
    match kind {
        "Not" => Some(Op1::Not),
        "RedAnd" => Some(Op1::RedAnd),
        "RedOr" => Some(Op1::RedOr),
        "RedXor" => Some(Op1::RedXor),
        _ => None,
    }
}

fn op2(kind: &str) -> Option<Op2> {
    match kind {
        "Add" => Some(Op2::Add),
        "Sub" => Some(Op2::Sub),
        "Mul" => Some(Op2::Mul),
        "And" => Some(Op2::And),
        "Or" => Some(Op2::Or),
        "Xor" => Some(Op2::Xor),
        "Eq" => Some(Op2::Eq),
        "LtU" => Some(Op2::LtU),
        "LtS" => Some(Op2::LtS),
        "Shl" => Some(Op2::Shl),
        "Shr" => Some(Op2::Shr),
        "Sar" => Some(Op2::Sar),
        _ => None,
    }
}

// A RAM: its wire, its domain and the wires that it reads, and then its words.
fn ram(alloc: Global, groups: &[Vec<u32>]) -> Result<Cell, Or<Unread>> {
    let w = wire(groups, 0)?;
    let domain = DomId {
        number: field(groups, 0, 1)?,
    };
    let inputs = RamIn {
        read: wire(groups, 2)?,
        enable: wire(groups, 3)?,
        place: wire(groups, 4)?,
        value: wire(groups, 5)?,
    };
    Ok(Cell::Ram(w, domain, words(alloc, groups)?, inputs))
}

// A use: its module, the wires that it reads, and those that it drives.
fn used(alloc: Global, groups: &[Vec<u32>]) -> Result<Cell, Or<Unread>> {
    let module = ModId {
        number: field(groups, 0, 0)?,
    };
    let reads = wires(alloc, groups, 1, 0)?;
    Ok(Cell::Use(module, reads, wires(alloc, groups, 2, 0)?))
}

// The cell of this kind that these numbers give.
fn cell_of(alloc: Global, kind: &str, groups: &[Vec<u32>]) -> Result<Cell, Or<Unread>> {
    if kind == "Ram" {
        return ram(alloc, groups);
    }
    if kind == "Use" {
        return used(alloc, groups);
    }
    let w = wire(groups, 0)?;
    if let Some(op) = op1(kind) {
        return Ok(Cell::Un(w, op, wire(groups, 1)?));
    }
    if let Some(op) = op2(kind) {
        return Ok(Cell::Bin(w, op, wire(groups, 1)?, wire(groups, 2)?));
    }
    match kind {
        "Const" => Ok(Cell::Const(w, bits(alloc, groups, 1)?)),
        "Join" => Ok(Cell::Join(w, wires(alloc, groups, 0, 1)?)),
        _ => wired(alloc, kind, w, groups),
    }
}

// The cell of this kind that drives a wire and reads one at least.
fn wired(alloc: Global, kind: &str, w: WireId, groups: &[Vec<u32>]) -> Result<Cell, Or<Unread>> {
    let a = wire(groups, 1)?;
    match kind {
        "Copy" => Ok(Cell::Copy(w, a)),
        "Cut" => Ok(Cell::Cut(w, a, field(groups, 0, 2)?, field(groups, 0, 3)?)),
        "Mux" => Ok(Cell::Mux(w, a, wire(groups, 2)?, wire(groups, 3)?)),
        "Reg" => {
            let from = wire(groups, 2)?;
            let domain = DomId { number: a.number };
            Ok(Cell::Reg(w, domain, bits(alloc, groups, 1)?, from))
        }
        _ => Err(Or::Fault(Unread)),
    }
}

fn cell(alloc: Global, text: &str) -> Result<Cell, Or<Unread>> {
    let (kind, fields) = text.split_once(' ').ok_or(Or::Fault(Unread))?;
    let groups = groups_of(alloc, fields)?;
    cell_of(alloc, kind, &groups)
}

/// The cells of a text.
pub(crate) fn cells(alloc: Global, text: &str) -> Result<Seq<Cell>, Or<Unread>> {
    let mut cells = Vec::new(alloc);
    for word in text.split(',').filter(|word| !word.is_empty()) {
        cells.push(cell(alloc, word)?)?;
    }
    Ok(Seq::from(cells))
}
