//! The lines of cells.
ghost use Rattle.std.specs.Prelude.{◌≡◌, ◌++◌, OnOk};
ghost use Rattle.verilog_text.specs.Text.{cell_line};
ghost use Rattle.verilog_print.specs.Scopes.{scope_of};

use crate::assigns::{put_const, put_copy, put_cut, put_join};
use crate::memories::put_ram;
use crate::operations::{put_bin, put_mux, put_un};
use crate::registers::put_register;
use crate::scope::Scope;
use crate::uses::put_use;
use chw_base::NoMemory;
use netlist::Cell;
use std::alloc::Global;

/// Writes the line of the cell at this place.
pub fn put_cell(
    alloc: Global,
    out: &mut Vec<u8>,
    scope: &Scope,
    place: usize,
    cell: &Cell,
) -> Result<(), NoMemory>
    ensures { OnOk result (out.new.items ≡ out.old.items ++ cell_line (scope_of scope.now) place cell.now) }
{
    match cell {
        Cell::Const(wire, bits) => put_const(out, scope, *wire, bits),
        Cell::Copy(wire, a) => put_copy(out, scope, *wire, *a),
        Cell::Join(wire, parts) => put_join(out, scope, *wire, parts.as_slice()),
        Cell::Cut(wire, a, high, low) => put_cut(out, scope, *wire, *a, *high, *low),
        Cell::Un(wire, op, a) => put_un(out, scope, *wire, *op, *a),
        Cell::Bin(wire, op, a, b) => put_bin(out, scope, *wire, *op, *a, *b),
        Cell::Mux(wire, condition, a, b) => put_mux(out, scope, *wire, *condition, *a, *b),
        Cell::Reg(wire, domain, initial, a) => {
            put_register(out, scope, *wire, *domain, initial, *a)
        }
        Cell::Ram(wire, domain, words, inputs) => {
            put_ram(alloc, out, scope, *wire, *domain, words.as_slice(), inputs)
        }
        Cell::Use(used, reads, drives) => {
            put_use(
                out,
                scope,
                place,
                *used,
                reads.as_slice(),
                drives.as_slice(),
            )
        }
    }
}
