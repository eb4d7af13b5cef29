//! The ports of a text, and its clocks and resets found by their names.
ghost use Rattle.std.specs.Prelude.{◌≡◌, ◌+◌, [], IfOk, OnOk, map};
ghost use Rattle.chw_clock.specs.Histories.{has_reset};
ghost use Rattle.verilog_checks.specs.Narrow.{AreNarrow, IsNarrow};
ghost use Rattle.verilog_names.specs.Clocked.{IsMarked, IsMarks, ports_from};
ghost use Rattle.verilog_rules.specs.Declarations.{domains_of, port_of, resets_of};
ghost use Rattle.verilog_rules.specs.NameRules.{domain_of};
ghost use Rattle.verilog_rules.specs.Texts.{width};
ghost use Rattle.verilog_text.specs.Names.{domain_name};

use crate::forms::{domain_part, is_clock, name_part, without};
use crate::places::Places;
use chw_base::{DomId, Name, NoMemory, Seq, narrow};
use chw_clock::{Port, Ports};
use std::alloc::Global;
use std::marker::Model;
use verilog_checks::numbers::bits_of;
use verilog_tree::{Line, Word};

/// The ports of a text, which contracts see, with its clocks and resets in tables.
#[derive(Drop)]
pub(crate) struct Clocks<'t> {
    ports: Ports,
    domains: Places<'t>,
    /// Whether the domain of each number has a reset.
    marks: Vec<bool>,
}

impl<'t> Model for Clocks<'t> {
    ghost use Rattle.chw_clock.specs.declared.event.Ports.{Ports};

    ghost Value = { Ports };

    ghost use Rattle.verilog_names.specs.Clocked.{AreClocks};

    ghost view = { λ c. c.ports };

    ghost invariant = { λ c. AreClocks c.ports c.domains c.marks.items };
}

// The names of the domains of the clocks among signals.
fn domain_names(alloc: Global, signals: &[Word<'_>]) -> Result<Vec<Name>, NoMemory>
    ensures { IfOk result (λ v. v.items ≡ domains_of signals.now) }
{
    let mut names = Vec::new(alloc);
    for signal in signals {
        if is_clock(signal.bytes) {
            names.push(Name::copy_of(alloc, without(signal.bytes, 4))?)?;
        }
    }
    Ok(names)
}

// The same in a table.
fn domain_places<'t>(alloc: Global, signals: &[Word<'t>]) -> Result<Places<'t>, NoMemory>
    ensures { IfOk result (λ places. places ≡ domains_of signals.now) }
{
    let mut places = Places::new(alloc);
    for signal in signals {
        if is_clock(signal.bytes) {
            places.add(without(signal.bytes, 4))?;
        }
    }
    Ok(places)
}

// The domains of the resets among signals.
//
// A domain past those that can be numbered finds no memory.
fn reset_domains(alloc: Global, signals: &[Word<'_>]) -> Result<Vec<DomId>, NoMemory>
    ensures { IfOk result (λ v. v.items ≡ resets_of 0 signals.now) }
{
    let mut resets = Vec::new(alloc);
    let mut clocks: usize = 0;
    for signal in signals {
        if is_clock(signal.bytes) {
            clocks += 1;
        } else {
            let number = narrow(clocks.saturating_sub(1))?;
            resets.push(DomId { number })?;
        }
    }
    Ok(resets)
}

// Whether the domain of each number is one of these.
fn marks_of(alloc: Global, resets: &[DomId]) -> Result<Vec<bool>, NoMemory>
    ensures { IfOk result (λ v. IsMarks resets.now v.items) }
{
    let mut marks = Vec::new(alloc);
    for reset in resets {
        mark(&mut marks, reset.number)?;
    }
    Ok(marks)
}

// Marks this number too.
fn mark(marks: &mut Vec<bool>, number: u32) -> Result<(), NoMemory>
    ensures { OnOk result (IsMarked marks.old.items number marks.new.items) }
{
    let place = number as usize;
    if place >= marks.len() {
        marks.resize(place + 1, false)?;
    }
    marks[place] = true;
    Ok(())
}

// The ports of a net that lines of the last module are.
fn ports_of(alloc: Global, domains: &Places<'_>, lines: &[Line<'_>]) -> Result<Vec<Port>, NoMemory>
    requires { AreNarrow lines.now }
    ensures { IfOk result (λ v. v.items ≡ map (port_of domains.now) lines.now) }
{
    let mut ports = Vec::new(alloc);
    for line in lines {
        ports.push(port(alloc, domains, line)?)?;
    }
    Ok(ports)
}

// The port of a net that a line of the last module is.
fn port(alloc: Global, domains: &Places<'_>, line: &Line<'_>) -> Result<Port, NoMemory>
    requires { IsNarrow line.now }
    ensures { IfOk result (λ p. p ≡ port_of domains.now line.now) }
{
    let width = bits_of(&line.range);
    let number = domains.find(domain_part(line.name.bytes)).unwrap_or(0);
    let name = Name::copy_of(alloc, name_part(line.name.bytes))?;
    Ok(Port {
        name,
        dom: DomId { number },
        width,
    })
}

// The ports of a text.
fn all_ports(
    alloc: Global,
    domains: &Places<'_>,
    signals: &[Word<'_>],
    inputs: &[Line<'_>],
    outputs: &[Line<'_>],
) -> Result<Ports, NoMemory>
    requires domains { domains.now ≡ domains_of signals.now }
    requires inputs { AreNarrow inputs.now }
    requires outputs { AreNarrow outputs.now }
    ensures { IfOk result (λ ports. ports ≡ ports_from signals.now inputs.now outputs.now) }
{
    let names = Seq::from(domain_names(alloc, signals)?);
    let resets = Seq::from(reset_domains(alloc, signals)?);
    let inputs = Seq::from(ports_of(alloc, domains, inputs)?);
    let outputs = Seq::from(ports_of(alloc, domains, outputs)?);
    Ok(Ports {
        domains: names,
        resets,
        inputs,
        outputs,
    })
}

impl<'t> Clocks<'t> {
    /// Those of the last module's clocks and resets, inputs and outputs.
    pub(crate) fn of(
        alloc: Global,
        signals: &[Word<'t>],
        inputs: &[Line<'t>],
        outputs: &[Line<'t>],
    ) -> Result<Clocks<'t>, NoMemory>
        requires inputs { AreNarrow inputs.now }
        requires outputs { AreNarrow outputs.now }
        ensures { IfOk result (λ c. c ≡ ports_from signals.now inputs.now outputs.now) }
    {
        let domains = domain_places(alloc, signals)?;
        let ports = all_ports(alloc, &domains, signals, inputs, outputs)?;
        let marks = marks_of(alloc, ports.resets.as_slice())?;
        Ok(Clocks {
            ports,
            domains,
            marks,
        })
    }

    /// The number of a clock's domain.
    pub(crate) fn find(&self, clock: &Word<'_>) -> Option<u32>
        ensures { result ≡ domain_of self.now clock.now }
    {
        if !is_clock(clock.bytes) {
            return None;
        }
        self.domains.find(without(clock.bytes, 4))
    }

    /// Whether the domain of this number has a reset.
    pub(crate) fn has_reset(&self, number: u32) -> bool
        ensures { result ≡ has_reset self.now (record { number = number }) }
    {
        match self.marks.get(number as usize) {
            Some(mark) => *mark,
            None => false,
        }
    }

    /// The name of the domain of this number.
    pub(crate) fn domain_name(&self, number: u32) -> &[u8]
        ensures { result.now ≡ domain_name self.now.domains (record { number = number }) }
    {
        match self.ports.domains.as_slice().get(number as usize) {
            Some(name) => name.as_slice(),
            None => &[],
        }
    }

    /// The domains.
    pub(crate) fn domains(&self) -> &Places<'t>
        ensures { result.now ≡ self.now.domains }
    {
        &self.domains
    }

    /// The ports.
    pub(crate) fn into_ports(self) -> Ports
        ensures { result ≡ self.entry }
    {
        self.ports
    }
}
