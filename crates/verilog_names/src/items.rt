//! The items of a module.
ghost use Rattle.std.specs.Prelude.{◌≡◌, ◌∷◌, ◌++◌, [], IfOk, OnOk, Some, map, ◌<◌, length};
ghost use Rattle.std.specs.List.{flat_map};
ghost use Rattle.name_tables.specs.Names.{place_of};
ghost use Rattle.verilog_checks.specs.Least.{least_after};
ghost use Rattle.verilog_rules.specs.Declarations.{wires_by};
ghost use Rattle.verilog_rules.specs.NameRules.{access_checks, assign_checks, clock_check, domain_of, edge_checks, is_plain_register, item_checks, items_checks, memory_checks, ram_checks, reset_checks, same_check, shows};
ghost use Rattle.verilog_rules.specs.Resolving.{address_of, assigned_at, driver_of, drivers_of, edge_driver, ram_of};
ghost use Rattle.verilog_rules.specs.Checks.{broken_at, lesser};
ghost use Rattle.std.specs.Prelude.{option_map};
ghost use Rattle.verilog_rules.specs.declared.resolved.Driver.TheVariants.{Ram as RamDriver};
ghost use Rattle.verilog_rules.specs.declared.resolved.Kind.TheVariants as kind;

use crate::clocks::Clocks;
use crate::forms::{are_same, is_reset_of};
use crate::known::Known;
use crate::places::Places;
use crate::uses::use_driver;
use crate::values::{is_copy, value};
use crate::wires::{Wires, may_be_driven};
use chw_base::{DomId, NoMemory, Seq};
use std::alloc::Global;
use verilog_checks::Least;
use verilog_rules::{Address, Driver, Kind, RamOf, Wire};
use verilog_tree::{Access, Edge, FirstWord, Item, Line, Memory, Ram, Reset, Right, Word};

// An assignment to a wire or to an output.
fn assign<'t>(
    alloc: Global,
    outputs: &Places<'t>,
    wires: &Wires<'t>,
    least: &mut Least,
    name: &Word<'t>,
    right: &Right<'t>,
) -> Result<Driver<'t>, NoMemory>
    ensures driver { IfOk result (λ d. d ≡ assigned_at (place_of outputs.now (name.now.bytes.now)) wires.now name.now right.now) }
    ensures checks { OnOk result (least.new ≡ least_after least.old (assign_checks outputs.now wires.now name.now right.now)) }
{
    let target = wires.find(name);
    let output = outputs.find(name.bytes);
    let holds = may_be_driven(&target.kind) || (output.is_some() && is_copy(right));
    least.check(name.at, holds);
    match (output, right) {
        (Some(number), Right::Copy(a)) => Ok(Driver::Output(
            number as usize,
            name.at,
            wires.read(least, a),
        )),
        _ => {
            let value = value(alloc, wires, least, right)?;
            Ok(Driver::Assign(target.operand, value))
        }
    }
}

// Whether a wire is a register without a memory.
fn is_plain_register(kind: &Option<Kind<'_>>) -> bool
    ensures { result ≡ is_plain_register kind.now }
{
    matches!(kind, Some(Kind::Register(_, None)))
}

// Whether a wire is a register with the memory of this name.
fn shows(memory: &[u8], kind: &Option<Kind<'_>>) -> bool
    ensures { result ≡ shows memory.now kind.now }
{
    match kind {
        Some(Kind::Register(_, Some(m))) => are_same(memory, m.name.bytes),
        _ => false,
    }
}

// The number of a clock's domain.
fn clock(clocks: &Clocks<'_>, least: &mut Least, clock: &Word<'_>) -> Option<u32>
    ensures domain { result ≡ domain_of clocks.now clock.now }
    ensures check { least.new ≡ lesser least.old (broken_at (clock_check clocks.now clock.now)) }
{
    let domain = clocks.find(clock);
    least.check(clock.at, domain.is_some());
    domain
}

// Whether a reset stands where the domain has one, and is its reset.
fn check_reset(clocks: &Clocks<'_>, least: &mut Least, domain: Option<u32>, edge: &Edge<'_>)
    ensures { least.new ≡ least_after least.old (reset_checks clocks.now domain edge.now.reset edge.now.a) }
{
    let Some(domain) = domain else {
        return;
    };
    let has_reset = clocks.has_reset(domain);
    match &edge.reset {
        None => least.check(edge.a.at, !has_reset),
        Some(reset) => {
            let is_its = is_reset_of(reset.name.bytes, clocks.domain_name(domain));
            least.check(reset.name.at, has_reset && is_its);
        }
    }
}

// The literal of a reset.
fn literal_of<'t>(reset: &Option<Reset<'t>>) -> Option<Word<'t>>
    ensures { result ≡ option_map (λ r. r.literal) reset.now }
{
    match reset {
        Some(reset) => Some(reset.literal),
        None => None,
    }
}

// What a register takes at an edge.
#[tactic(auto, using(verilog_checks::proofs::Steps::least_after_both))]
fn edge_driver<'t>(
    clocks: &Clocks<'t>,
    wires: &Wires<'t>,
    least: &mut Least,
    edge: &Edge<'t>,
) -> Driver<'t>
    ensures driver { result ≡ edge_driver clocks.now wires.now edge.now }
    ensures checks { least.new ≡ least_after least.old (edge_checks clocks.now wires.now edge.now) }
{
    let domain = clock(clocks, least, &edge.clock);
    let register = wires.find(&edge.register);
    least.check(edge.register.at, is_plain_register(&register.kind));
    check_reset(clocks, least, domain, edge);
    let a = wires.read(least, &edge.a);
    let number = domain.unwrap_or(0);
    Driver::Register(
        register.operand,
        DomId { number },
        literal_of(&edge.reset),
        a,
    )
}

// Whether two words are one name.
fn check_same(least: &mut Least, first: &Word<'_>, again: &Word<'_>)
    ensures { least.new ≡ lesser least.old (broken_at (same_check first.now again.now)) }
{
    least.check(again.at, are_same(again.bytes, first.bytes));
}

// An address.
fn address<'t>(
    wires: &Wires<'t>,
    least: &mut Least,
    memory: &Word<'t>,
    access: &Access<'t>,
) -> Address<'t>
    ensures address { result ≡ address_of wires.now access.now }
    ensures checks { least.new ≡ least_after least.old (access_checks wires.now memory.now access.now) }
{
    let address = wires.read(least, &access.address);
    check_same(least, memory, &access.memory);
    check_same(least, &access.address, &access.again);
    Address {
        address,
        count: access.count,
    }
}

// Whether words are words of a memory.
fn check_memories(least: &mut Least, memory: &Word<'_>, words: &[FirstWord<'_>])
    ensures { least.new ≡ least_after least.old (memory_checks memory.now words.now) }
{
    for word in words {
        check_same(least, memory, &word.memory);
    }
}

// The words of a RAM.
fn words_of<'t>(alloc: Global, ram: &Ram<'t>) -> Result<Vec<FirstWord<'t>>, NoMemory>
    ensures { IfOk result (λ v. v.items ≡ ram.now.first ∷ ram.now.others) }
{
    let mut words = Vec::new(alloc);
    words.push(ram.first)?;
    words.extend_from_slice(ram.others.as_slice())?;
    Ok(words)
}

// A RAM.
#[tactic(auto, using(verilog_checks::proofs::Steps::least_after_both))]
fn ram_driver<'t>(
    alloc: Global,
    clocks: &Clocks<'t>,
    wires: &Wires<'t>,
    least: &mut Least,
    ram: &Ram<'t>,
) -> Result<Driver<'t>, NoMemory>
    ensures driver { IfOk result (λ d. d ≡ RamDriver (ram_of clocks.now wires.now ram.now)) }
    ensures checks { OnOk result (least.new ≡ least_after least.old (ram_checks clocks.now wires.now ram.now)) }
{
    let words = Seq::from(words_of(alloc, ram)?);
    let memory = &ram.first.memory;
    least.check(memory.at, wires.has_memory(memory.bytes));
    check_memories(least, memory, ram.others.as_slice());
    let number = clock(clocks, least, &ram.clock).unwrap_or(0);
    let enable = wires.read(least, &ram.enable);
    let write = address(wires, least, memory, &ram.write);
    let value = wires.read(least, &ram.value);
    let register = wires.find(&ram.register);
    least.check(ram.register.at, shows(memory.bytes, &register.kind));
    let read = address(wires, least, memory, &ram.read);
    Ok(Driver::Ram(RamOf {
        words,
        end: ram.end,
        domain: DomId { number },
        enable,
        write,
        value,
        register: register.operand,
        read,
        zeros: ram.zeros,
    }))
}

// Adds what an item drives something by.
fn push<'t>(drivers: &mut Vec<Driver<'t>>, driver: Driver<'t>) -> Result<(), NoMemory>
    ensures { OnOk result (drivers.new.items ≡ drivers.old.items ++ driver.entry ∷ []) }
{
    drivers.push(driver)?;
    Ok(())
}

// Adds what an item drives something by, behind these wires.
fn drive<'t>(
    alloc: Global,
    place: &Known<'_, 't>,
    outputs: &Places<'t>,
    wires: &Wires<'t>,
    least: &mut Least,
    drivers: &mut Vec<Driver<'t>>,
    item: &Item<'t>,
) -> Result<(), NoMemory>
    ensures drivers { OnOk result (drivers.new.items ≡ drivers.old.items ++ driver_of place.now outputs.now wires.now item.now) }
    ensures checks { OnOk result (least.new ≡ least_after least.old (item_checks place.now outputs.now wires.now item.now)) }
{
    match item {
        Item::Wire(_) | Item::Register(_, _, _) => Ok(()),
        Item::Assign(name, right) => {
            let driver = assign(alloc, outputs, wires, least, name, right)?;
            push(drivers, driver)?;
            Ok(())
        }
        Item::Edge(edge) => {
            let driver = edge_driver(place.clocks(), wires, least, edge);
            push(drivers, driver)?;
            Ok(())
        }
        Item::Ram(ram) => {
            let driver = ram_driver(alloc, place.clocks(), wires, least, ram)?;
            push(drivers, driver)?;
            Ok(())
        }
        Item::Use(u) => {
            let driver = use_driver(alloc, place, wires, least, u)?;
            push(drivers, driver)?;
            Ok(())
        }
    }
}

// A wire that is no register.
fn plain<'t>(line: &Line<'t>) -> Wire<'t>
    ensures { result ≡ record { line = line.now; kind = kind.Plain } }
{
    Wire {
        line: *line,
        kind: Kind::Plain,
    }
}

// A register.
fn register<'t>(line: &Line<'t>, literal: &Word<'t>, memory: &Option<Memory<'t>>) -> Wire<'t>
    ensures { result ≡ record { line = line.now; kind = kind.Register literal.now memory.now } }
{
    Wire {
        line: *line,
        kind: Kind::Register(*literal, *memory),
    }
}

// The wire that an item declares, behind others.
fn declare<'t>(alloc: Global, wires: &mut Wires<'t>, item: &Item<'t>) -> Result<(), NoMemory>
    ensures { OnOk result (wires.new ≡ wires.old ++ wires_by item.now) }
{
    match item {
        Item::Wire(line) => wires.add(plain(line)),
        Item::Register(line, literal, memory) => wires.add(register(line, literal, memory)),
        _ => Ok(()),
    }
}

// Adds what an item drives something by, and then the wire that it declares.
fn add_item<'t>(
    alloc: Global,
    place: &Known<'_, 't>,
    outputs: &Places<'t>,
    wires: &mut Wires<'t>,
    least: &mut Least,
    drivers: &mut Vec<Driver<'t>>,
    item: &Item<'t>,
) -> Result<(), NoMemory>
    ensures wires { OnOk result (wires.new ≡ wires.old ++ wires_by item.now) }
    ensures drivers { OnOk result (drivers.new.items ≡ drivers.old.items ++ driver_of place.now outputs.now wires.old item.now) }
    ensures checks { OnOk result (least.new ≡ least_after least.old (item_checks place.now outputs.now wires.old item.now)) }
{
    drive(alloc, place, outputs, &*wires, least, drivers, item)?;
    declare(alloc, wires, item)
}

/// Adds what items drive something by, each behind the wires that are declared before it.
#[tactic(auto, using(verilog_checks::proofs::Steps::least_after_both))]
pub(crate) fn add_items<'t>(
    alloc: Global,
    place: &Known<'_, 't>,
    outputs: &Places<'t>,
    wires: &mut Wires<'t>,
    least: &mut Least,
    drivers: &mut Vec<Driver<'t>>,
    items: &[Item<'t>],
) -> Result<(), NoMemory>
    ensures wires { OnOk result (wires.new ≡ wires.old ++ flat_map wires_by items.now) }
    ensures drivers { OnOk result (drivers.new.items ≡ drivers.old.items ++ drivers_of place.now outputs.now wires.old items.now) }
    ensures checks { OnOk result (least.new ≡ least_after least.old (items_checks place.now outputs.now wires.old items.now)) }
{
    for item in items {
        add_item(alloc, place, outputs, wires, least, drivers, item)?;
    }
    Ok(())
}
