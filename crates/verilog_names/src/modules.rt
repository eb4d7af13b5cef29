//! The modules of a text, resolved one after the other.
ghost use Rattle.std.specs.Prelude.{◌≡◌, ◌∷◌, ◌++◌, [], IfOk, OnOk, map, None};
ghost use Rattle.verilog_checks.specs.Least.{least_after};
ghost use Rattle.verilog_checks.specs.Narrow.{AreNarrow};
ghost use Rattle.verilog_names.specs.Resolves.{module_items, port_rules};
ghost use Rattle.verilog_rules.specs.Checks.{broken_at, lesser};
ghost use Rattle.verilog_rules.specs.Declarations.{input_wire, inputs_of, line_name, modules_of, outputs_of, ports_by, ports_in, signals_of};
ghost use Rattle.verilog_rules.specs.NameRules.{earlier_checks, last_checks, module_checks, module_names, name_checks, same_signals};
ghost use Rattle.verilog_tree.specs.declared.module.Module.{Module as ModuleTree};
ghost use Rattle.verilog_rules.specs.Resolving.{resolved, resolved_module, resolved_modules};

use crate::clocks::Clocks;
use crate::forms::are_same;
use crate::items::add_items;
use crate::known::Known;
use crate::once::check_once;
use crate::places::Places;
use crate::ports::{
    are_same_words, check_order, check_signals, check_top_ports, inputs_of, outputs_of, signals_of,
};
use crate::wires::Wires;
use chw_base::{NoMemory, Seq};
use std::alloc::Global;
use verilog_checks::Least;
use verilog_rules::{Kind, Resolved, ResolvedModule, Wire};
use verilog_tree::{Line, Module, Tree, Word};

// The wire of an input.
fn input_wire<'t>(line: &Line<'t>) -> Wire<'t>
    ensures { result ≡ input_wire line.now }
{
    Wire {
        line: *line,
        kind: Kind::Input,
    }
}

// The wires of inputs, behind others.
fn add_inputs<'t>(alloc: Global, wires: &mut Wires<'t>, inputs: &[Line<'t>]) -> Result<(), NoMemory>
    ensures { OnOk result (wires.new ≡ wires.old ++ map input_wire inputs.now) }
{
    for line in inputs {
        wires.add(input_wire(line))?;
    }
    Ok(())
}

// The names of outputs.
fn output_names<'t>(alloc: Global, outputs: &[Line<'t>]) -> Result<Places<'t>, NoMemory>
    ensures { IfOk result (λ places. places ≡ map line_name outputs.now) }
{
    let mut places = Places::new(alloc);
    for line in outputs {
        places.add(line.name.bytes)?;
    }
    Ok(places)
}

// Whether the ports of a module are in order, and its names declared once.
#[tactic(auto, using(verilog_checks::proofs::Steps::least_after_both))]
fn check_names(
    alloc: Global,
    place: &Known<'_, '_>,
    least: &mut Least,
    m: &Module<'_>,
) -> Result<(), NoMemory>
    ensures { OnOk result (least.new ≡ least_after least.old (port_rules place.now m.now)) }
{
    least.check(m.name.at, !place.has(m.name.bytes));
    check_order(least, m);
    let signals = signals_of(alloc, m)?;
    check_signals(least, &signals);
    check_once(alloc, least, m)
}

// A module with its names resolved.
fn resolve_items<'t>(
    alloc: Global,
    place: &Known<'_, 't>,
    least: &mut Least,
    m: &Module<'t>,
) -> Result<ResolvedModule<'t>, NoMemory>
    ensures module { IfOk result (λ r. r ≡ resolved_module place.now m.now) }
    ensures checks { OnOk result (least.new ≡ least_after least.old (module_items place.now m.now)) }
{
    let inputs = inputs_of(alloc, m)?;
    let outputs = outputs_of(alloc, m)?;
    let names = output_names(alloc, &outputs)?;
    let mut wires = Wires::new(alloc);
    add_inputs(alloc, &mut wires, &inputs)?;
    let mut drivers = Vec::new(alloc);
    let items = m.items.as_slice();
    add_items(alloc, place, &names, &mut wires, least, &mut drivers, items)?;
    Ok(ResolvedModule {
        name: m.name,
        inputs: inputs.len(),
        wires: wires.into_wires(),
        outputs: Seq::from(outputs),
        drivers: Seq::from(drivers),
    })
}

// A module: its rules, and what it is resolved to.
#[tactic(auto, using(crate::proofs::ModuleRules::module_parts, verilog_checks::proofs::Steps::least_after_both))]
fn resolve_module<'t>(
    alloc: Global,
    place: &Known<'_, 't>,
    least: &mut Least,
    m: &Module<'t>,
) -> Result<ResolvedModule<'t>, NoMemory>
    ensures module { IfOk result (λ r. r ≡ resolved_module place.now m.now) }
    ensures checks { OnOk result (least.new ≡ least_after least.old (module_checks place.now m.now)) }
{
    check_names(alloc, place, least, m)?;
    resolve_items(alloc, place, least, m)
}

// Whether a module before the last has the clocks and resets of the last.
fn check_same_signals(
    alloc: Global,
    signals: &[Word<'_>],
    least: &mut Least,
    m: &Module<'_>,
) -> Result<(), NoMemory>
    ensures { OnOk result ((last : ModuleTree) → signals.now ≡ signals_of (ports_in last) → least.new ≡ lesser least.old (broken_at (same_signals last m.now))) }
{
    let own = signals_of(alloc, m)?;
    least.check(m.name.at, are_same_words(&own, signals));
    Ok(())
}

// A module behind others, whose names these are.
fn resolve_behind<'t>(
    alloc: Global,
    clocks: &Clocks<'t>,
    earlier: &[Module<'t>],
    names: &Places<'t>,
    least: &mut Least,
    m: &Module<'t>,
) -> Result<ResolvedModule<'t>, NoMemory>
    requires { names.now ≡ module_names earlier.now }
    ensures module { IfOk result (λ r. r ≡ resolved_module (record { ports = clocks.now; earlier = earlier.now }) m.now) }
    ensures checks { OnOk result (least.new ≡ least_after least.old (module_checks (record { ports = clocks.now; earlier = earlier.now }) m.now)) }
{
    let place = Known::new(clocks, earlier, names);
    resolve_module(alloc, &place, least, m)
}

// The modules before the last, each behind those before it.
fn resolve_earlier<'t>(
    alloc: Global,
    clocks: &Clocks<'t>,
    signals: &[Word<'t>],
    names: &mut Places<'t>,
    least: &mut Least,
    earlier: &[Module<'t>],
    made: &mut Vec<ResolvedModule<'t>>,
) -> Result<(), NoMemory>
    requires { names.old ≡ [] }
    ensures names { OnOk result (names.new ≡ module_names earlier.now) }
    ensures modules { OnOk result (made.new.items ≡ made.old.items ++ resolved_modules clocks.now [] earlier.now) }
    ensures checks { OnOk result ((last : ModuleTree) → signals.now ≡ signals_of (ports_in last) → least.new ≡ least_after least.old (earlier_checks clocks.now last [] earlier.now)) }
{
    for (i, m) in earlier.iter().enumerate() {
        check_same_signals(alloc, signals, least, m)?;
        let module = resolve_behind(alloc, clocks, &earlier[..i], &*names, least, m)?;
        made.push(module)?;
        names.add(m.name.bytes)?;
    }
    Ok(())
}

// The last module, behind all others.
#[tactic(auto, using(verilog_checks::proofs::Steps::least_after_both))]
fn resolve_last<'t>(
    alloc: Global,
    clocks: &Clocks<'t>,
    names: &Places<'t>,
    least: &mut Least,
    tree: &Tree<'t>,
) -> Result<ResolvedModule<'t>, NoMemory>
    requires { names.now ≡ module_names tree.now.earlier }
    ensures module { IfOk result (λ r. r ≡ resolved_module (record { ports = clocks.now; earlier = tree.now.earlier }) tree.now.last) }
    ensures checks { OnOk result (least.new ≡ least_after least.old (last_checks clocks.now tree.now.earlier tree.now.last)) }
{
    let last = &tree.last;
    least.check(last.name.at, are_same(last.name.bytes, b"chw_top"));
    check_top_ports(least, clocks.domains(), last);
    resolve_behind(alloc, clocks, tree.earlier.as_slice(), names, least, last)
}

// All modules.
#[tactic(auto, using(verilog_checks::proofs::Steps::least_after_both))]
fn resolve_modules<'t>(
    alloc: Global,
    clocks: &Clocks<'t>,
    signals: &[Word<'t>],
    least: &mut Least,
    tree: &Tree<'t>,
) -> Result<Vec<ResolvedModule<'t>>, NoMemory>
    requires signals { signals.now ≡ signals_of (ports_in tree.now.last) }
    requires ports { clocks.now ≡ ports_by tree.now.last }
    ensures modules { IfOk result (λ v. v.items ≡ resolved_modules clocks.now [] (modules_of tree.now)) }
    ensures checks { OnOk result (least.new ≡ least_after least.old (name_checks tree.now)) }
{
    let mut made = Vec::new(alloc);
    let mut names = Places::new(alloc);
    let earlier = tree.earlier.as_slice();
    resolve_earlier(
        alloc, clocks, signals, &mut names, least, earlier, &mut made,
    )?;
    let last = resolve_last(alloc, clocks, &names, least, tree)?;
    made.push(last)?;
    Ok(made)
}

// The ports of a text of which this is the last module, with these clocks and resets.
fn clocks_of<'t>(
    alloc: Global,
    signals: &[Word<'t>],
    last: &Module<'t>,
) -> Result<Clocks<'t>, NoMemory>
    requires signals { signals.now ≡ signals_of (ports_in last.now) }
    requires inputs { AreNarrow (inputs_of (ports_in last.now)) }
    requires outputs { AreNarrow (outputs_of (ports_in last.now)) }
    ensures { IfOk result (λ c. c ≡ ports_by last.now) }
{
    let inputs = inputs_of(alloc, last)?;
    let outputs = outputs_of(alloc, last)?;
    Clocks::of(alloc, signals, &inputs, &outputs)
}

/// The text with each name resolved, and the rules on names.
pub(crate) fn resolve_tree<'t>(
    alloc: Global,
    least: &mut Least,
    tree: &Tree<'t>,
) -> Result<Resolved<'t>, NoMemory>
    requires inputs { AreNarrow (inputs_of (ports_in tree.now.last)) }
    requires outputs { AreNarrow (outputs_of (ports_in tree.now.last)) }
    ensures resolved { IfOk result (λ r. r ≡ resolved tree.now) }
    ensures checks { OnOk result (least.new ≡ least_after least.old (name_checks tree.now)) }
{
    let signals = signals_of(alloc, &tree.last)?;
    let clocks = clocks_of(alloc, &signals, &tree.last)?;
    let modules = resolve_modules(alloc, &clocks, &signals, least, tree)?;
    Ok(Resolved {
        ports: clocks.into_ports(),
        modules: Seq::from(modules),
    })
}
