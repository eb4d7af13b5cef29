//! Orders and loops by plain search, and the tests of what is answered. They know nothing of the search that `order` makes.

use chw_base::WireId;
use netlist::Cell;
use std::alloc::{AllocError, Global};

// The place of the cell that drives a wire, if one does.
fn driver(cells: &[Cell], wire: WireId) -> Option<usize> {
    cells
        .iter()
        .position(|cell| cell.driven().first().copied() == Some(wire))
}

// Whether a wire needs no cell but these.
fn is_met(cells: &[Cell], taken: &[u32], wire: Option<WireId>) -> bool {
    let Some(wire) = wire else {
        return true;
    };
    match driver(cells, wire) {
        Some(place) => taken.iter().any(|t| *t as usize == place),
        None => true,
    }
}

// Whether each wire that a cell waits for is driven by one of these cells, or by none.
fn is_ready(cells: &[Cell], taken: &[u32], cell: &Cell) -> bool {
    for k in 0..cell.awaited_len() {
        if !is_met(cells, taken, cell.awaited(k)) {
            return false;
        }
    }
    true
}

// The first cell that is ready and isn't taken.
fn next(cells: &[Cell], taken: &[u32]) -> Option<u32> {
    for (place, cell) in cells.iter().enumerate() {
        let place = u32::try_from(place).ok()?;
        if !taken.contains(&place) && is_ready(cells, taken, cell) {
            return Some(place);
        }
    }
    None
}

/// The cells in order, each time the first of those whose drivers are all taken. None where no such cell is left, but others are.
pub fn slow_order(alloc: Global, cells: &[Cell]) -> Result<Option<Vec<u32>>, AllocError> {
    let mut taken = Vec::new(alloc);
    for _ in cells {
        match next(cells, &taken) {
            Some(place) => taken.push(place)?,
            None => return Ok(None),
        }
    }
    Ok(Some(taken))
}

/// Whether these are the places of all cells, each once, and each after those that drive what it waits for.
pub fn is_order(cells: &[Cell], places: &[u32]) -> bool {
    for (i, place) in places.iter().enumerate() {
        let before = &places[..i];
        let Some(cell) = cells.get(*place as usize) else {
            return false;
        };
        if before.contains(place) || !is_ready(cells, before, cell) {
            return false;
        }
    }
    places.len() == cells.len()
}

// Whether the cell that drives the second wire waits for the first.
fn feeds(cells: &[Cell], from: WireId, to: WireId) -> bool {
    let Some(place) = driver(cells, to) else {
        return false;
    };
    let Some(cell) = cells.get(place) else {
        return false;
    };
    for k in 0..cell.awaited_len() {
        if cell.awaited(k) == Some(from) {
            return true;
        }
    }
    false
}

/// Whether each of these wires feeds the next and the last the first, no wire stands twice, and the least stands first.
pub fn is_loop(cells: &[Cell], wires: &[WireId]) -> bool {
    let (Some(first), Some(last)) = (wires.first(), wires.last()) else {
        return false;
    };
    let mut before = last;
    for (i, wire) in wires.iter().enumerate() {
        if wires[..i].contains(wire)
            || wire.number < first.number
            || !feeds(cells, *before, *wire)
        {
            return false;
        }
        before = wire;
    }
    true
}
