//! Ports in rows.
use chw_base::{DomId, Name, Or, Seq};
use chw_clock::{Port, Ports};
use row_tables::Unread;
use std::alloc::Global;

/// The pieces of a text that stand between quotation marks.
pub fn quoted<'a>(alloc: Global, text: &'a str) -> Result<Vec<&'a str>, Or<Unread>> {
    let mut pieces = Vec::new(alloc);
    for (place, piece) in text.split('"').enumerate() {
        if place % 2 == 1 {
            pieces.push(piece)?;
        }
    }
    Ok(pieces)
}

// The name of a domain without the mark of a reset.
fn without_mark(domain: &str) -> &str {
    domain.strip_suffix('!').unwrap_or(domain)
}

// The domain of a name.
fn domain_of(domains: &str, name: &str) -> Result<DomId, Or<Unread>> {
    let mut number: u32 = 0;
    for domain in domains.split(' ') {
        if without_mark(domain) == name {
            return Ok(DomId { number });
        }
        number = number.saturating_add(1);
    }
    Err(Or::Fault(Unread))
}

fn port_of(alloc: Global, domains: &str, text: &str) -> Result<Port, Or<Unread>> {
    let (domain, rest) = text.split_once(' ').ok_or(Or::Fault(Unread))?;
    let (name, width) = rest.split_once(' ').ok_or(Or::Fault(Unread))?;
    Ok(Port {
        name: Name::copy_of(alloc, name.as_bytes())?,
        dom: domain_of(domains, domain)?,
        width: width.parse::<u32>().map_err(|_| Or::Fault(Unread))?,
    })
}

fn list_of(alloc: Global, domains: &str, text: &str) -> Result<Vec<Port>, Or<Unread>> {
    let mut ports = Vec::new(alloc);
    if text.is_empty() {
        return Ok(ports);
    }
    for port in text.split(", ") {
        ports.push(port_of(alloc, domains, port)?)?;
    }
    Ok(ports)
}

fn names_of(alloc: Global, domains: &str) -> Result<Vec<Name>, Or<Unread>> {
    let mut names = Vec::new(alloc);
    for domain in domains.split(' ') {
        names.push(Name::copy_of(alloc, without_mark(domain).as_bytes())?)?;
    }
    Ok(names)
}

fn resets_of(alloc: Global, domains: &str) -> Result<Vec<DomId>, Or<Unread>> {
    let mut resets = Vec::new(alloc);
    let mut number: u32 = 0;
    for domain in domains.split(' ') {
        if domain.ends_with('!') {
            resets.push(DomId { number })?;
        }
        number = number.saturating_add(1);
    }
    Ok(resets)
}

/// The ports of these texts.
pub fn ports_of(
    alloc: Global,
    domains: &str,
    inputs: &str,
    outputs: &str,
) -> Result<Ports, Or<Unread>> {
    let inputs = list_of(alloc, domains, inputs)?;
    let outputs = list_of(alloc, domains, outputs)?;
    let resets = resets_of(alloc, domains)?;
    Ok(Ports {
        domains: Seq::from(names_of(alloc, domains)?),
        resets: Seq::from(resets),
        inputs: Seq::from(inputs),
        outputs: Seq::from(outputs),
    })
}
