//! The lines of registers.
ghost use Rattle.std.specs.Prelude.{◌≡◌, ◌++◌, OnOk};
ghost use Rattle.verilog_text.specs.Names.{domain_name, reset_name};
ghost use Rattle.verilog_text.specs.Text.{always_line, choice_text, literal_text, name_in, taken_text, taking_text};
ghost use Rattle.verilog_print.specs.Parts.{edge};
ghost use Rattle.verilog_print.specs.Scopes.{scope_of};

use crate::names::{put_clock, put_name, put_reset};
use crate::pieces::{put, put_literal};
use crate::scope::Scope;
use chw_base::{DomId, NoMemory, WireId};
use chw_clock::{Bits, Ports};

/// Writes the start of a line of what is done at each edge of a domain's clock.
pub fn put_edge(out: &mut Vec<u8>, ports: &Ports, domain: DomId) -> Result<(), NoMemory>
    ensures { OnOk result (out.new.items ≡ out.old.items ++ edge (domain_name ports.now.domains domain)) }
{
    put(out, b"  always @(posedge ")?;
    put_clock(out, ports, domain)?;
    put(out, b") ")?;
    Ok(())
}

/// Writes what a register takes where its domain has a reset: its initial bits where that is asserted, else its input.
fn put_taken_with_reset(
    out: &mut Vec<u8>,
    scope: &Scope,
    domain: DomId,
    initial: &Bits,
    a: WireId,
) -> Result<(), NoMemory>
    ensures { OnOk result (out.new.items ≡ out.old.items
        ++ choice_text (reset_name (domain_name scope.now.ports.now.domains domain)) (literal_text initial.now)
        (name_in (scope_of scope.now) a)) }
{
    put_reset(out, scope.ports, domain)?;
    put(out, b" ? ")?;
    put_literal(out, initial)?;
    put(out, b" : ")?;
    put_name(out, scope, a)?;
    Ok(())
}

/// Writes what a register takes at an edge.
fn put_taken(
    out: &mut Vec<u8>,
    scope: &Scope,
    domain: DomId,
    initial: &Bits,
    a: WireId,
) -> Result<(), NoMemory>
    ensures { OnOk result (out.new.items ≡ out.old.items ++ taken_text (scope_of scope.now) domain initial.now a) }
{
    if scope.ports.has_reset(domain.number as usize) {
        put_taken_with_reset(out, scope, domain, initial, a)
    } else {
        put_name(out, scope, a)
    }
}

/// Writes what a register does at an edge.
fn put_taking(
    out: &mut Vec<u8>,
    scope: &Scope,
    wire: WireId,
    domain: DomId,
    initial: &Bits,
    a: WireId,
) -> Result<(), NoMemory>
    ensures { OnOk result (out.new.items ≡ out.old.items
        ++ taking_text (name_in (scope_of scope.now) wire) (taken_text (scope_of scope.now) domain initial.now a)) }
{
    put_name(out, scope, wire)?;
    put(out, b" <= ")?;
    put_taken(out, scope, domain, initial, a)?;
    put(out, b";")?;
    Ok(())
}

/// Writes the line of a register.
pub fn put_register(
    out: &mut Vec<u8>,
    scope: &Scope,
    wire: WireId,
    domain: DomId,
    initial: &Bits,
    a: WireId,
) -> Result<(), NoMemory>
    ensures { OnOk result (out.new.items ≡ out.old.items ++ always_line (scope_of scope.now) domain
        (taking_text (name_in (scope_of scope.now) wire) (taken_text (scope_of scope.now) domain initial.now a))) }
{
    put_edge(out, scope.ports, domain)?;
    put_taking(out, scope, wire, domain, initial, a)?;
    put(out, b"\n")?;
    Ok(())
}
