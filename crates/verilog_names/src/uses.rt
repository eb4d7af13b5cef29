//! The uses of modules.
ghost use Rattle.std.specs.Prelude.{◌≡◌, ◌∷◌, ◌++◌, [], IfOk, OnOk, drop, length, min};
ghost use Rattle.verilog_names.specs.Connected.{joined_checks};
ghost use Rattle.verilog_checks.specs.Least.{least_after};
ghost use Rattle.verilog_rules.specs.Declarations.{ports_in};
ghost use Rattle.verilog_rules.specs.NameRules.{connection_checks, use_checks};
ghost use Rattle.verilog_rules.specs.Resolving.{drives_of, reads_of, use_driver};

use crate::forms::are_same;
use crate::known::Known;
use crate::ports::port_word;
use crate::wires::{Wires, may_be_driven};
use chw_base::{ModId, NoMemory, Seq};
use std::alloc::Global;
use verilog_checks::Least;
use verilog_rules::{Driver, Operand};
use verilog_tree::{Connection, Module, Port, Use};

// Joins a name to a port: adds the wire that is read, or driven.
fn connect<'t>(
    wires: &Wires<'t>,
    least: &mut Least,
    port: &Port<'t>,
    connection: &Connection<'t>,
    reads: &mut Vec<Operand>,
    drives: &mut Vec<Operand>,
) -> Result<(), NoMemory>
    ensures reads { OnOk result (reads.new.items ≡ reads.old.items ++ reads_of wires.now (port.now ∷ []) (connection.now ∷ [])) }
    ensures drives { OnOk result (drives.new.items ≡ drives.old.items ++ drives_of wires.now (port.now ∷ []) (connection.now ∷ [])) }
    ensures checks { OnOk result (least.new ≡ least_after least.old (joined_checks wires.now port.now connection.now)) }
{
    let name = &connection.wire;
    let is_its = are_same(connection.port.bytes, port_word(port).bytes);
    least.check(connection.port.at, is_its);
    match port {
        Port::Signal(signal) => least.check(name.at, are_same(name.bytes, signal.bytes)),
        Port::Input(_) => {
            let operand = wires.read(least, name);
            reads.push(operand)?;
        }
        Port::Output(_) => {
            let found = wires.find(name);
            least.check(name.at, may_be_driven(&found.kind));
            drives.push(found.operand)?;
        }
    }
    Ok(())
}

// Whether ports and connections end together, of which the first ones are joined.
#[tactic(auto, using(crate::proofs::Ends::ends_short))]
fn check_end(
    least: &mut Least,
    close: usize,
    count: usize,
    ports: &[Port<'_>],
    connections: &[Connection<'_>],
)
    requires { count ≡ min (length ports.now) (length connections.now) }
    ensures { least.new ≡ least_after least.old (connection_checks [] close (drop count ports.now) (drop count connections.now)) }
{
    if let Some(connection) = connections.get(count) {
        least.check(connection.port.at, false);
    } else if count < ports.len() {
        least.check(close, false);
    }
}

// Joins names to ports in order.
fn connect_all<'t>(
    wires: &Wires<'t>,
    least: &mut Least,
    close: usize,
    ports: &[Port<'t>],
    connections: &[Connection<'t>],
    reads: &mut Vec<Operand>,
    drives: &mut Vec<Operand>,
) -> Result<(), NoMemory>
    ensures reads { OnOk result (reads.new.items ≡ reads.old.items ++ reads_of wires.now ports.now connections.now) }
    ensures drives { OnOk result (drives.new.items ≡ drives.old.items ++ drives_of wires.now ports.now connections.now) }
    ensures checks { OnOk result (least.new ≡ least_after least.old (connection_checks wires.now close ports.now connections.now)) }
{
    let count = ports.len().min(connections.len());
    for i in 0..count {
        connect(wires, least, &ports[i], &connections[i], reads, drives)?;
    }
    check_end(least, close, count, ports, connections);
    Ok(())
}

// Joins the names of a use to the ports of its module.
fn connect_use<'t>(
    wires: &Wires<'t>,
    least: &mut Least,
    u: &Use<'t>,
    used: &Module<'t>,
    reads: &mut Vec<Operand>,
    drives: &mut Vec<Operand>,
) -> Result<(), NoMemory>
    ensures reads { OnOk result (reads.old.items ≡ [] → reads.new.items ≡ reads_of wires.now (ports_in used.now) (u.now.first ∷ u.now.others)) }
    ensures drives { OnOk result (drives.old.items ≡ [] → drives.new.items ≡ drives_of wires.now (ports_in used.now) (u.now.first ∷ u.now.others)) }
    ensures checks { OnOk result (least.new ≡ least_after least.old (connection_checks wires.now u.now.close (ports_in used.now) (u.now.first ∷ u.now.others))) }
{
    connect(wires, least, &used.first, &u.first, reads, drives)?;
    connect_all(
        wires,
        least,
        u.close,
        used.others.as_slice(),
        u.others.as_slice(),
        reads,
        drives,
    )
}

/// A use of a module, behind these wires.
pub(crate) fn use_driver<'t>(
    alloc: Global,
    place: &Known<'_, 't>,
    wires: &Wires<'t>,
    least: &mut Least,
    u: &Use<'t>,
) -> Result<Driver<'t>, NoMemory>
    ensures driver { IfOk result (λ d. d ≡ use_driver place.now.earlier wires.now u.now) }
    ensures checks { OnOk result (least.new ≡ least_after least.old (use_checks place.now.earlier wires.now u.now)) }
{
    let Some((number, used)) = place.find(u.used.bytes) else {
        least.check(u.used.at, false);
        let none = ModId { number: 0 };
        return Ok(Driver::Use(none, Seq::from(Vec::new(alloc)), Seq::from(Vec::new(alloc))));
    };
    let mut reads = Vec::new(alloc);
    let mut drives = Vec::new(alloc);
    connect_use(wires, least, u, used, &mut reads, &mut drives)?;
    Ok(Driver::Use(ModId { number }, Seq::from(reads), Seq::from(drives)))
}
