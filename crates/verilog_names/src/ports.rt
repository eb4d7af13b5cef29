//! The ports of a module, sorted, and the rules on them.
ghost use Rattle.std.specs.Prelude.{◌≡◌, ◌∷◌, ◌++◌, [], IfOk, OnOk, None, codes, option_map};
ghost use Rattle.std.specs.Cmp.Lexicographic.{pointwise};
ghost use Rattle.std.specs.List.{flat_map};
ghost use Rattle.std.specs.Str.{bytes_eq};
ghost use Rattle.verilog_checks.specs.Least.{least_after};
ghost use Rattle.verilog_rules.specs.Declarations.{inputs_of, outputs_of, port_word, ports_in, signals_of};
ghost use Rattle.verilog_rules.specs.NameRules.{is_port_name, is_signal_behind, order_checks, port_form, rank, signal_checks, texts};
ghost use Rattle.verilog_tree.specs.Sources.{bytes_of};

use crate::forms::{
    are_same, domain_part, is_clock, is_lower_word, is_reset_of, is_upper, name_part, without,
};
use crate::places::Places;
use chw_base::NoMemory;
use std::alloc::Global;
use verilog_checks::Least;
use verilog_tree::{Line, Module, Port, Word};

/// The name of a port.
pub(crate) fn port_word<'t>(port: &Port<'t>) -> Word<'t>
    ensures { result ≡ port_word port.now }
{
    match port {
        Port::Signal(signal) => *signal,
        Port::Input(line) => line.name,
        Port::Output(line) => line.name,
    }
}

// Adds a port that is a clock or a reset.
fn add_signal<'t>(signals: &mut Vec<Word<'t>>, port: &Port<'t>) -> Result<(), NoMemory>
    ensures { OnOk result (signals.new.items ≡ signals.old.items ++ signals_of (port.now ∷ [])) }
{
    if let Port::Signal(signal) = port {
        signals.push(*signal)?;
    }
    Ok(())
}

// Adds a port that is an input.
fn add_input<'t>(inputs: &mut Vec<Line<'t>>, port: &Port<'t>) -> Result<(), NoMemory>
    ensures { OnOk result (inputs.new.items ≡ inputs.old.items ++ inputs_of (port.now ∷ [])) }
{
    if let Port::Input(line) = port {
        inputs.push(*line)?;
    }
    Ok(())
}

// Adds a port that is an output.
fn add_output<'t>(outputs: &mut Vec<Line<'t>>, port: &Port<'t>) -> Result<(), NoMemory>
    ensures { OnOk result (outputs.new.items ≡ outputs.old.items ++ outputs_of (port.now ∷ [])) }
{
    if let Port::Output(line) = port {
        outputs.push(*line)?;
    }
    Ok(())
}

/// The clocks and resets of a module.
pub(crate) fn signals_of<'t>(alloc: Global, m: &Module<'t>) -> Result<Vec<Word<'t>>, NoMemory>
    ensures { IfOk result (λ v. v.items ≡ signals_of (ports_in m.now)) }
{
    let mut signals = Vec::new(alloc);
    add_signal(&mut signals, &m.first)?;
    for port in m.others.as_slice() {
        add_signal(&mut signals, port)?;
    }
    Ok(signals)
}

/// The inputs of a module.
pub(crate) fn inputs_of<'t>(alloc: Global, m: &Module<'t>) -> Result<Vec<Line<'t>>, NoMemory>
    ensures { IfOk result (λ v. v.items ≡ inputs_of (ports_in m.now)) }
{
    let mut inputs = Vec::new(alloc);
    add_input(&mut inputs, &m.first)?;
    for port in m.others.as_slice() {
        add_input(&mut inputs, port)?;
    }
    Ok(inputs)
}

/// The outputs of a module.
pub(crate) fn outputs_of<'t>(alloc: Global, m: &Module<'t>) -> Result<Vec<Line<'t>>, NoMemory>
    ensures { IfOk result (λ v. v.items ≡ outputs_of (ports_in m.now)) }
{
    let mut outputs = Vec::new(alloc);
    add_output(&mut outputs, &m.first)?;
    for port in m.others.as_slice() {
        add_output(&mut outputs, port)?;
    }
    Ok(outputs)
}

// The rank of a port: clocks and resets come first, then inputs, then outputs.
fn rank(port: &Port<'_>) -> u8
    ensures { result ≡ rank port.now }
{
    match port {
        Port::Signal(_) => 0,
        Port::Input(_) => 1,
        Port::Output(_) => 2,
    }
}

/// Whether each port of a module is of no lesser rank than the one before it.
pub(crate) fn check_order(least: &mut Least, m: &Module<'_>)
    ensures { least.new ≡ least_after least.old (order_checks 0 (ports_in m.now)) }
{
    least.check(port_word(&m.first).at, true);
    let mut before = rank(&m.first);
    for port in m.others.as_slice() {
        let rank = rank(port);
        least.check(port_word(port).at, before <= rank);
        before = rank;
    }
}

// Whether a name is that of a clock or a reset, behind this one.
fn is_signal_behind(before: &Option<Word<'_>>, name: &[u8]) -> bool
    ensures { result ≡ is_signal_behind (option_map bytes_of before.now) name.now }
{
    if is_clock(name) && is_upper(without(name, 4)) {
        return true;
    }
    match before {
        Some(before) => is_clock(before.bytes) && is_reset_of(name, without(before.bytes, 4)),
        None => false,
    }
}

/// Whether these are clocks, each with its reset behind it where it has one.
pub(crate) fn check_signals<'t>(least: &mut Least, signals: &[Word<'t>])
    ensures { least.new ≡ least_after least.old (signal_checks None signals.now) }
{
    let mut before: Option<Word<'t>> = None;
    for signal in signals {
        least.check(signal.at, is_signal_behind(&before, signal.bytes));
        before = Some(*signal);
    }
}

/// Whether these words are the same.
pub(crate) fn are_same_words(a: &[Word<'_>], b: &[Word<'_>]) -> bool
    ensures { result ≡ pointwise bytes_eq (texts a.now) (texts b.now) }
{
    if a.len() != b.len() {
        return false;
    }
    for i in 0..a.len() {
        if !are_same(a[i].bytes, b[i].bytes) {
            return false;
        }
    }
    true
}

// Whether a name is that of a port of the last module.
fn is_port_name(domains: &Places<'_>, front: &[u8], name: &[u8]) -> bool
    ensures { result ≡ is_port_name domains.now front.now name.now }
{
    name.starts_with(front) && domains.has(domain_part(name)) && is_lower_word(name_part(name))
}

// Whether a port of the last module is named as such.
fn check_port(least: &mut Least, domains: &Places<'_>, port: &Port<'_>)
    ensures { least.new ≡ least_after least.old (port_form domains.now port.now) }
{
    match port {
        Port::Signal(_) => {}
        Port::Input(line) => {
            let holds = is_port_name(domains, b"i_", line.name.bytes);
            least.check(line.name.at, holds);
        }
        Port::Output(line) => {
            let holds = is_port_name(domains, b"o_", line.name.bytes);
            least.check(line.name.at, holds);
        }
    }
}

/// Whether the ports of the last module are named as such.
pub(crate) fn check_top_ports(least: &mut Least, domains: &Places<'_>, top: &Module<'_>)
    ensures { least.new ≡ least_after least.old (flat_map (port_form domains.now) (ports_in top.now)) }
{
    check_port(least, domains, &top.first);
    for port in top.others.as_slice() {
        check_port(least, domains, port);
    }
}
