//! The lines of uses of modules.
ghost use Rattle.std.specs.Prelude.{◌≡◌, ◌++◌, decimal, OnOk};
ghost use Rattle.netlist.specs.declared.net.Cell.TheVariants.{Use};
ghost use Rattle.verilog_text.specs.Text.{cell_line, commas, name_in, numbered, port_text, use_ports};
ghost use Rattle.verilog_print.specs.Parts.{items_text, use_start};
ghost use Rattle.verilog_print.specs.Scopes.{scope_of};

use crate::clocks::{Role, put_clocks};
use crate::names::{put_name, put_numbered, put_title, put_use_name};
use crate::pieces::{put, put_comma};
use crate::scope::Scope;
use chw_base::{ModId, NoMemory, WireId};

/// Writes a port of a used module, by the word and the number of its name, and the wire at it.
fn put_port(
    out: &mut Vec<u8>,
    scope: &Scope,
    word: &[u8],
    number: usize,
    wire: WireId,
) -> Result<(), NoMemory>
    ensures { OnOk result (out.new.items
        ≡ out.old.items ++ port_text (word.now ++ decimal number) (name_in (scope_of scope.now) wire)) }
{
    put(out, b".")?;
    put_numbered(out, word, number)?;
    put(out, b"(")?;
    put_name(out, scope, wire)?;
    put(out, b")")?;
    Ok(())
}

/// Writes the ports of a used module whose names have this word, by the wires at them; `after` says whether an item stands before.
fn put_ports(
    out: &mut Vec<u8>,
    scope: &Scope,
    word: &[u8],
    wires: &[WireId],
    after: bool,
) -> Result<(), NoMemory>
    ensures { OnOk result (out.new.items ≡ out.old.items
        ++ items_text after (numbered (λ k w. port_text (word.now ++ decimal k) (name_in (scope_of scope.now) w)) 0 wires.now)) }
{
    let mut before = after;
    for (number, wire) in wires.iter().enumerate() {
        put_comma(out, before)?;
        put_port(out, scope, word, number, *wire)?;
        before = true;
    }
    Ok(())
}

/// Writes the ports of a used module: the clocks with their resets, the inputs and the outputs.
fn put_use_ports(
    out: &mut Vec<u8>,
    scope: &Scope,
    reads: &[WireId],
    drives: &[WireId],
) -> Result<(), NoMemory>
    ensures { OnOk result (out.new.items ≡ out.old.items ++ commas (use_ports (scope_of scope.now) reads.now drives.now)) }
{
    let clocks = !scope.ports.domains.is_empty();
    let some = clocks | !reads.is_empty();
    put_clocks(out, Role::Used, scope.ports)?;
    put_ports(out, scope, b"i", reads, clocks)?;
    put_ports(out, scope, b"y", drives, some)?;
    Ok(())
}

/// Writes the start of a use's line: the module and the name of the use.
fn start_use(out: &mut Vec<u8>, place: usize, used: ModId) -> Result<(), NoMemory>
    ensures { OnOk result (out.new.items ≡ out.old.items ++ use_start place used) }
{
    put(out, b"  ")?;
    put_title(out, false, used.number as usize)?;
    put(out, b" ")?;
    put_use_name(out, place)?;
    put(out, b" (")?;
    Ok(())
}

/// Writes the line of the use that is the cell at this place.
pub fn put_use(
    out: &mut Vec<u8>,
    scope: &Scope,
    place: usize,
    used: ModId,
    reads: &[WireId],
    drives: &[WireId],
) -> Result<(), NoMemory>
    ensures { OnOk result (out.new.items
        ≡ out.old.items ++ cell_line (scope_of scope.now) place (Use used reads.now drives.now)) }
{
    start_use(out, place, used)?;
    put_use_ports(out, scope, reads, drives)?;
    put(out, b");\n")?;
    Ok(())
}
