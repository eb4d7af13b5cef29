//! The clocks and resets among a module's ports, in its header and in a use of it.
ghost use Rattle.std.specs.Prelude.{◌≡◌, ◌++◌, false, map, OnOk};
ghost use Rattle.verilog_text.specs.Text.{clock_names, domain_names};
ghost use Rattle.verilog_print.specs.Parts.{items_text};
ghost use Rattle.verilog_print.specs.Roles.{port_in};

use crate::pieces::{put, put_comma};
use chw_base::{Name, NoMemory};
use chw_clock::Ports;

/// What stands at a port: its declaration in the header, or in a use the wire of the same name.
#[derive(Clone, Copy)]
pub enum Role {
    Declared,
    Used,
}

/// Writes the name of a domain's clock or reset, by its first word.
fn put_word_of(out: &mut Vec<u8>, word: &[u8], domain: &Name) -> Result<(), NoMemory>
    ensures { OnOk result (out.new.items ≡ out.old.items ++ (word.now ++ domain.now)) }
{
    put(out, word)?;
    put(out, domain.as_slice())?;
    Ok(())
}

/// Writes the port of a domain's clock or reset, by the first word of its name.
fn put_port_of(out: &mut Vec<u8>, role: Role, word: &[u8], domain: &Name) -> Result<(), NoMemory>
    ensures { OnOk result (out.new.items ≡ out.old.items ++ port_in role (word.now ++ domain.now)) }
{
    match role {
        Role::Declared => {
            put(out, b"input ")?;
            put_word_of(out, word, domain)?;
            Ok(())
        }
        Role::Used => {
            put(out, b".")?;
            put_word_of(out, word, domain)?;
            put(out, b"(")?;
            put_word_of(out, word, domain)?;
            put(out, b")")?;
            Ok(())
        }
    }
}

/// Writes the port of a domain's clock and that of its reset, where it has one; `before` says whether an item stands before them.
fn put_domain_ports(
    out: &mut Vec<u8>,
    role: Role,
    ports: &Ports,
    number: usize,
    domain: &Name,
    before: bool,
) -> Result<(), NoMemory>
    ensures { OnOk result (out.new.items
        ≡ out.old.items ++ items_text before (map (port_in role) (domain_names ports.now.resets number domain.now))) }
{
    put_comma(out, before)?;
    put_port_of(out, role, b"clk_", domain)?;
    if ports.has_reset(number) {
        put_comma(out, true)?;
        put_port_of(out, role, b"rst_", domain)?;
    }
    Ok(())
}

/// Writes the ports of the clocks, each with its reset after it where its domain has one.
pub fn put_clocks(out: &mut Vec<u8>, role: Role, ports: &Ports) -> Result<(), NoMemory>
    ensures { OnOk result (out.new.items
        ≡ out.old.items ++ items_text false (map (port_in role) (clock_names ports.now.resets 0 ports.now.domains))) }
{
    for (number, domain) in ports.domains.as_slice().iter().enumerate() {
        put_domain_ports(out, role, ports, number, domain, number > 0)?;
    }
    Ok(())
}
