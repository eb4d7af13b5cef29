//! Ports, modules and nets.
use crate::cells::cells;
use crate::numbers::numbers_of;
use chw_base::{DomId, Name, NoMemory, Or, Seq, WireId};
use chw_clock::{Port, Ports};
use netlist::{Module, Net};
use row_tables::Unread;
use std::alloc::Global;

// The wires of a list of numbers.
fn all_wires(alloc: Global, text: &str) -> Result<Seq<WireId>, Or<Unread>> {
    let mut wires = Vec::new(alloc);
    for number in &numbers_of(alloc, text)? {
        wires.push(WireId { number: *number })?;
    }
    Ok(Seq::from(wires))
}

// A module: its inputs, the widths of its wires, its outputs, and its cells.
fn module(alloc: Global, text: &str) -> Result<Module, Or<Unread>> {
    let (inputs, rest) = text.split_once(':').ok_or(Or::Fault(Unread))?;
    let (widths, rest) = rest.split_once(':').ok_or(Or::Fault(Unread))?;
    let (outputs, rest) = rest.split_once(':').ok_or(Or::Fault(Unread))?;
    let inputs = inputs.parse::<u32>().map_err(|_| Or::Fault(Unread))?;
    let cells = cells(alloc, rest)?;
    let outputs = all_wires(alloc, outputs)?;
    let widths = Seq::from(numbers_of(alloc, widths)?);
    Ok(Module {
        inputs,
        widths,
        outputs,
        cells,
    })
}

// A port: its name, its domain and its width.
fn port(alloc: Global, text: &str) -> Result<Port, Or<Unread>> {
    let (name, rest) = text.split_once(' ').ok_or(Or::Fault(Unread))?;
    let (dom, width) = rest.split_once(' ').ok_or(Or::Fault(Unread))?;
    let number = dom.parse::<u32>().map_err(|_| Or::Fault(Unread))?;
    let width = width.parse::<u32>().map_err(|_| Or::Fault(Unread))?;
    Ok(Port {
        name: Name::from(Vec::from_slice(alloc, name.as_bytes())?),
        dom: DomId { number },
        width,
    })
}

fn port_list(alloc: Global, text: &str) -> Result<Seq<Port>, Or<Unread>> {
    let mut ports = Vec::new(alloc);
    for word in text.split(',').filter(|word| !word.is_empty()) {
        ports.push(port(alloc, word)?)?;
    }
    Ok(Seq::from(ports))
}

fn domain_names(alloc: Global, text: &str) -> Result<Seq<Name>, NoMemory> {
    let mut domains = Vec::new(alloc);
    for word in text.split_whitespace() {
        domains.push(Name::from(Vec::from_slice(alloc, word.as_bytes())?))?;
    }
    Ok(Seq::from(domains))
}

fn resets(alloc: Global, text: &str) -> Result<Seq<DomId>, Or<Unread>> {
    let mut resets = Vec::new(alloc);
    for number in &numbers_of(alloc, text)? {
        resets.push(DomId { number: *number })?;
    }
    Ok(Seq::from(resets))
}

// The ports: the domains, those with a reset, the inputs and the outputs.
fn ports(alloc: Global, text: &str) -> Result<Ports, Or<Unread>> {
    let (domains, rest) = text.split_once(':').ok_or(Or::Fault(Unread))?;
    let (with_reset, rest) = rest.split_once(':').ok_or(Or::Fault(Unread))?;
    let (inputs, outputs) = rest.split_once(':').ok_or(Or::Fault(Unread))?;
    let outputs = port_list(alloc, outputs)?;
    let inputs = port_list(alloc, inputs)?;
    let resets = resets(alloc, with_reset)?;
    Ok(Ports {
        domains: domain_names(alloc, domains)?,
        resets,
        inputs,
        outputs,
    })
}

fn modules(alloc: Global, text: &str) -> Result<Seq<Module>, Or<Unread>> {
    let mut modules = Vec::new(alloc);
    for part in text.split('|').filter(|part| !part.is_empty()) {
        modules.push(module(alloc, part)?)?;
    }
    Ok(Seq::from(modules))
}

/// The net of a text: its ports, and then each module, behind a stroke each.
pub fn net_of(alloc: Global, text: &str) -> Result<Net, Or<Unread>> {
    let (head, rest) = text.split_once('|').ok_or(Or::Fault(Unread))?;
    let modules = modules(alloc, rest)?;
    Ok(Net {
        ports: ports(alloc, head)?,
        modules,
    })
}
