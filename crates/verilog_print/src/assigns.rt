//! Assignments of constants, copies, joins and cuts.
ghost use Rattle.std.specs.Prelude.{◌≡◌, ◌++◌, map, codes, OnOk};
ghost use Rattle.verilog_text.specs.Text.{assign_line, commas, literal_text, name_in};
ghost use Rattle.verilog_print.specs.Parts.{assign_start, bounds, cut_text};
ghost use Rattle.verilog_print.specs.Scopes.{scope_of};

use crate::names::put_name;
use crate::pieces::{put, put_literal, put_number};
use crate::scope::Scope;
use chw_base::{NoMemory, WireId};
use chw_clock::Bits;

/// Writes the start of an assignment to a wire, up to its value.
pub fn start_assign(out: &mut Vec<u8>, scope: &Scope, wire: WireId) -> Result<(), NoMemory>
    ensures { OnOk result (out.new.items ≡ out.old.items ++ assign_start (name_in (scope_of scope.now) wire)) }
{
    put(out, b"  assign ")?;
    put_name(out, scope, wire)?;
    put(out, b" = ")?;
    Ok(())
}

/// Writes the line of a constant.
pub fn put_const(
    out: &mut Vec<u8>,
    scope: &Scope,
    wire: WireId,
    bits: &Bits,
) -> Result<(), NoMemory>
    ensures { OnOk result (out.new.items
        ≡ out.old.items ++ assign_line (name_in (scope_of scope.now) wire) (literal_text bits.now)) }
{
    start_assign(out, scope, wire)?;
    put_literal(out, bits)?;
    put(out, b";\n")?;
    Ok(())
}

/// Writes the line of a copy.
pub fn put_copy(out: &mut Vec<u8>, scope: &Scope, wire: WireId, a: WireId) -> Result<(), NoMemory>
    ensures { OnOk result (out.new.items
        ≡ out.old.items ++ assign_line (name_in (scope_of scope.now) wire) (name_in (scope_of scope.now) a)) }
{
    start_assign(out, scope, wire)?;
    put_name(out, scope, a)?;
    put(out, b";\n")?;
    Ok(())
}

/// Writes the names of wires, with commas between.
fn put_names(out: &mut Vec<u8>, scope: &Scope, wires: &[WireId]) -> Result<(), NoMemory>
    ensures { OnOk result (out.new.items ≡ out.old.items ++ commas (map (name_in (scope_of scope.now)) wires.now)) }
{
    let Some((first, rest)) = wires.split_first() else {
        return Ok(());
    };
    put_name(out, scope, *first)?;
    for wire in rest {
        put(out, b", ")?;
        put_name(out, scope, *wire)?;
    }
    Ok(())
}

/// Writes the line of a join.
pub fn put_join(
    out: &mut Vec<u8>,
    scope: &Scope,
    wire: WireId,
    parts: &[WireId],
) -> Result<(), NoMemory>
    ensures { OnOk result (out.new.items ≡ out.old.items ++ assign_line (name_in (scope_of scope.now) wire)
        (codes "{" ++ commas (map (name_in (scope_of scope.now)) parts.now) ++ codes "}")) }
{
    start_assign(out, scope, wire)?;
    put(out, b"{")?;
    put_names(out, scope, parts)?;
    put(out, b"};\n")?;
    Ok(())
}

/// Writes the first and the last bit of a cut.
fn put_bounds(out: &mut Vec<u8>, high: u32, low: u32) -> Result<(), NoMemory>
    ensures { OnOk result (out.new.items ≡ out.old.items ++ bounds high low) }
{
    put(out, b"[")?;
    put_number(out, high as usize)?;
    put(out, b":")?;
    put_number(out, low as usize)?;
    put(out, b"]")?;
    Ok(())
}

/// Writes the line of a cut.
pub fn put_cut(
    out: &mut Vec<u8>,
    scope: &Scope,
    wire: WireId,
    a: WireId,
    high: u32,
    low: u32,
) -> Result<(), NoMemory>
    ensures { OnOk result (out.new.items ≡ out.old.items
        ++ assign_line (name_in (scope_of scope.now) wire) (cut_text (name_in (scope_of scope.now) a) high low)) }
{
    start_assign(out, scope, wire)?;
    put_name(out, scope, a)?;
    put_bounds(out, high, low)?;
    put(out, b";\n")?;
    Ok(())
}
