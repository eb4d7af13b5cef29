//! Whether the rules on the ports of a net hold.
ghost use Rattle.std.specs.Prelude.{◌≡◌, ℕ, ◌+◌, ◌<◌, ◌≤◌, length, map, IfOk};
ghost use Rattle.std.specs.Bool.{Decides};
ghost use Rattle.std.specs.List.{AllByRecursion, list_all};
ghost use Rattle.chw_base.specs.Names.{IsLowerWord, IsUpper, is_capital, is_letter_or_digit, is_name_byte, is_small_letter};
ghost use Rattle.name_tables.specs.Names.{AreDistinct};
ghost use Rattle.net_rules.specs.PortsHold.{DomainsHold, FitPorts, FitsPort, PortsHold, RiseWithin, full_name};

use chw_base::{DomId, Name, NoMemory};
use chw_clock::{Port, Ports};
use indexmap::IndexSet;
use name_tables::Declared;
use std::alloc::Global;

// Whether a byte is a capital.
fn is_capital(b: u8) -> bool
    ensures { result ≡ is_capital b }
{
    b.is_ascii_uppercase()
}

// Whether a byte is a small letter.
fn is_small_letter(b: u8) -> bool
    ensures { result ≡ is_small_letter b }
{
    b.is_ascii_lowercase()
}

// Whether a byte is a letter or a digit.
fn is_letter_or_digit(b: u8) -> bool
    ensures { result ≡ is_letter_or_digit b }
{
    b.is_ascii_alphanumeric()
}

// Whether a byte is a letter, a digit or `_`.
fn is_name_byte(b: u8) -> bool
    ensures { result ≡ is_name_byte b }
{
    is_letter_or_digit(b) || b == b'_'
}

// Whether each byte is a letter or a digit.
fn are_letters_or_digits(bytes: &[u8]) -> bool
    ensures { result ≡ list_all is_letter_or_digit bytes.now }
{
    bytes.iter().all(|b| is_letter_or_digit(*b))
}

// Whether each byte is a letter, a digit or `_`.
fn are_name_bytes(bytes: &[u8]) -> bool
    ensures { result ≡ list_all is_name_byte bytes.now }
{
    bytes.iter().all(|b| is_name_byte(*b))
}

// Whether a name is a capital, and then letters and digits.
fn is_upper(name: &[u8]) -> bool
    ensures { Decides result (IsUpper name.now) }
{
    match name {
        [first, rest @ ..] => is_capital(*first) && are_letters_or_digits(rest),
        [] => false,
    }
}

// Whether a name is a small letter, and then letters, digits and `_`.
fn is_lower_word(name: &[u8]) -> bool
    ensures { Decides result (IsLowerWord name.now) }
{
    match name {
        [first, rest @ ..] => is_small_letter(*first) && are_name_bytes(rest),
        [] => false,
    }
}

// Whether each domain's name has its form.
fn are_upper(names: &[Name]) -> bool
    ensures { Decides result (AllByRecursion IsUpper names.now) }
{
    names.iter().all(|name| is_upper(name.as_slice()))
}

// Whether no name stands twice.
fn are_distinct(alloc: Global, names: &[Name]) -> Result<bool, NoMemory>
    ensures { IfOk result (λ r. Decides r (AreDistinct names.now)) }
{
    let mut known = Declared::new(alloc);
    for name in names {
        if !known.declare(name.as_slice())? {
            return Ok(false);
        }
    }
    Ok(true)
}

// Whether the domains' numbers rise, and are below this one.
fn rise_below(end: usize, domains: &[DomId]) -> bool
    ensures { Decides result (RiseWithin 0 end domains.now) }
{
    let mut least = 0;
    for domain in domains {
        let number = domain.number as usize;
        if number < least {
            return false;
        }
        if end <= number {
            return false;
        }
        least = number + 1;
    }
    true
}

// Whether a port is of one of so many domains, and its name has its form.
fn fits_port(domains: usize, port: &Port) -> bool
    ensures { Decides result (FitsPort domains port.now) }
{
    (port.dom.number as usize) < domains && is_lower_word(port.name.as_slice())
}

// A port's domain and name, by which ports are told apart.
#[derive(Clone, Copy, Debug, PartialEq, Eq, Hash)]
struct FullName<'t> {
    domain: u32,
    name: &'t [u8],
}

// Whether no two ports agree in domain and name.
fn are_apart(alloc: Global, ports: &[Port]) -> Result<bool, NoMemory>
    ensures { IfOk result (λ r. Decides r (AreDistinct (map full_name ports.now))) }
{
    let mut known = IndexSet::new(alloc);
    for port in ports {
        let full = FullName {
            domain: port.dom.number,
            name: port.name.as_slice(),
        };
        if !known.insert(full)? {
            return Ok(false);
        }
    }
    Ok(true)
}

// Whether the ports are of so many domains, and no two agree in domain and name.
fn fit_ports(alloc: Global, domains: usize, ports: &[Port]) -> Result<bool, NoMemory>
    ensures { IfOk result (λ r. Decides r (FitPorts domains ports.now)) }
{
    if !ports.iter().all(|port| fits_port(domains, port)) {
        return Ok(false);
    }
    are_apart(alloc, ports)
}

// Whether there are domains, their names are distinct and have their form, and those with a reset stand in order.
fn domains_hold(alloc: Global, ports: &Ports) -> Result<bool, NoMemory>
    ensures { IfOk result (λ r. Decides r (DomainsHold ports.now)) }
{
    let domains = ports.domains.as_slice();
    if domains.is_empty() || !are_upper(domains) {
        return Ok(false);
    }
    if !rise_below(domains.len(), ports.resets.as_slice()) {
        return Ok(false);
    }
    are_distinct(alloc, domains)
}

/// Whether the rules on ports hold.
///
/// It takes memory for the names of domains and of ports.
pub(crate) fn ports_hold(alloc: Global, ports: &Ports) -> Result<bool, NoMemory>
    ensures { IfOk result (λ r. Decides r (PortsHold ports.now)) }
{
    let domains = ports.domains.len();
    Ok(
        domains_hold(alloc, ports)?
            && fit_ports(alloc, domains, ports.inputs.as_slice())?
            && fit_ports(alloc, domains, ports.outputs.as_slice())?,
    )
}
