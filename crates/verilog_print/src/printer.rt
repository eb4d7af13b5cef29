//! A net's whole text.
ghost use Rattle.std.specs.Prelude.{◌≡◌, ◌++◌, ◌<◌, length, OnOk, IfOk};
ghost use Rattle.std.specs.List.{concat};
ghost use Rattle.verilog_text.specs.Text.{assign_line, cell_line, module_text, name_in, net_text, numbered, output_lines, text_of_module};
ghost use Rattle.verilog_print.specs.Parts.{first_line};
ghost use Rattle.verilog_print.specs.Scopes.{output_in, scope_of, title};

use crate::cells::put_cell;
use crate::header::put_header;
use crate::names::{put_name, put_output, put_title};
use crate::pieces::put;
use crate::scope::Scope;
use crate::wires::put_declarations;
use chw_base::{NoMemory, WireId};
use chw_clock::Ports;
use netlist::{Cell, Module, Net};
use std::alloc::Global;

/// Writes the lines of cells.
fn put_cells(
    alloc: Global,
    out: &mut Vec<u8>,
    scope: &Scope,
    cells: &[Cell],
) -> Result<(), NoMemory>
    ensures { OnOk result (out.new.items ≡ out.old.items ++ concat (numbered (cell_line (scope_of scope.now)) 0 cells.now)) }
{
    for (place, cell) in cells.iter().enumerate() {
        put_cell(alloc, out, scope, place, cell)?;
    }
    Ok(())
}

/// Writes the assignment of the output of this number.
fn put_output_line(
    out: &mut Vec<u8>,
    scope: &Scope,
    number: usize,
    wire: WireId,
) -> Result<(), NoMemory>
    ensures { OnOk result (out.new.items
        ≡ out.old.items ++ assign_line (output_in scope.now number) (name_in (scope_of scope.now) wire)) }
{
    put(out, b"  assign ")?;
    put_output(out, scope, number)?;
    put(out, b" = ")?;
    put_name(out, scope, wire)?;
    put(out, b";\n")?;
    Ok(())
}

/// Writes one assignment for each output.
fn put_output_lines(out: &mut Vec<u8>, scope: &Scope, outputs: &[WireId]) -> Result<(), NoMemory>
    ensures { OnOk result (out.new.items ≡ out.old.items ++ output_lines (scope_of scope.now) outputs.now) }
{
    for (number, wire) in outputs.iter().enumerate() {
        put_output_line(out, scope, number, *wire)?;
    }
    Ok(())
}

/// Writes the first line of a module.
fn put_first_line(
    out: &mut Vec<u8>,
    scope: &Scope,
    number: usize,
    body: &Module,
) -> Result<(), NoMemory>
    ensures { OnOk result (out.new.items
        ≡ out.old.items ++ first_line (scope_of scope.now) (title scope.now.is_top number) body.now) }
{
    put(out, b"module ")?;
    put_title(out, scope.is_top, number)?;
    put(out, b" (")?;
    put_header(out, scope, body)?;
    put(out, b");\n")?;
    Ok(())
}

/// Writes the text of a module.
fn put_module(
    alloc: Global,
    out: &mut Vec<u8>,
    scope: &Scope,
    number: usize,
    body: &Module,
) -> Result<(), NoMemory>
    ensures { OnOk result (out.new.items
        ≡ out.old.items ++ module_text (scope_of scope.now) (title scope.now.is_top number) body.now) }
{
    put_first_line(out, scope, number, body)?;
    put_declarations(alloc, out, body)?;
    put_cells(alloc, out, scope, body.cells.as_slice())?;
    put_output_lines(out, scope, body.outputs.as_slice())?;
    put(out, b"endmodule\n")?;
    Ok(())
}

/// Writes the text of the module of this number, of so many.
fn put_module_of(
    alloc: Global,
    out: &mut Vec<u8>,
    ports: &Ports,
    count: usize,
    number: usize,
    body: &Module,
) -> Result<(), NoMemory>
    requires { number < count }
    ensures { OnOk result (out.new.items ≡ out.old.items ++ text_of_module ports.now count number body.now) }
{
    let scope = Scope {
        ports,
        is_top: number + 1 == count,
        inputs: body.inputs,
    };
    put_module(alloc, out, &scope, number, body)?;
    Ok(())
}

/// The Verilog text of a net.
///
/// The modules come in order. In each the header is first, then the declarations of the wires that are no inputs, the lines of the
/// cells and the assignments of the outputs, each in order. `NoMemory` comes where memory was wanting.
pub fn print(alloc: Global, net: &Net) -> Result<Vec<u8>, NoMemory>
    ensures { IfOk result (λ text. text.items ≡ net_text net.now) }
{
    let mut out = Vec::new(alloc);
    let modules = net.modules.as_slice();
    for (number, body) in modules.iter().enumerate() {
        put_module_of(alloc, &mut out, &net.ports, modules.len(), number, body)?;
    }
    Ok(out)
}
