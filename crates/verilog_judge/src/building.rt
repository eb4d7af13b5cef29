//! The net of a text that keeps the rules.
ghost use Rattle.std.specs.Prelude.{◌≡◌, ◌++◌, ◌<◌, ℕ, IfOk, OnOk, map, length, slice_index_or};
ghost use Rattle.std.specs.List.{flat_map};
ghost use Rattle.verilog_judge.specs.Meant.{AreMeant, AreMeantKinds, AreMeantWords, IsCut, IsMeant};
ghost use Rattle.verilog_judge.specs.Meant.{IsMeantDriver, IsMeantIf, IsMeantModule, IsMeantValue};
ghost use Rattle.verilog_judge.specs.Shown.{as_list, no_wire, shown_by};
ghost use Rattle.verilog_rules.specs.NetOf.{bits, cells_by, first_bits, inputs_of, net_module, net_of, shown_wire, shown_wires, value_cell, wire, words_of};
ghost use Rattle.netlist.specs.declared.net.Cell.TheVariants as cell;
ghost use Rattle.verilog_rules.specs.Texts.{number};
ghost use Rattle.verilog_rules.specs.WidthRules.{kind_at, literal_of};
ghost use Rattle.verilog_tree.specs.declared.item.FirstWord.{FirstWord};

use crate::registers::{kind_at, literal_of};
use crate::sizes::bits_of_wires;
use chw_base::{DomId, ModId, NoMemory, Seq, WireId, narrow};
use chw_bits::Bits;
use netlist::{Cell, Module, Net, RamIn};
use std::alloc::Global;
use verilog_checks::literals::bits_in;
use verilog_checks::numbers::{exact, size_of};
use verilog_rules::{Driver, Operand, RamOf, Resolved, ResolvedModule, Value};
use verilog_tree::{FirstWord, Line, Range, Word};

// The bits that a literal means.
fn bits(alloc: Global, literal: &Word<'_>) -> Result<Bits, NoMemory>
    requires { IsMeant literal.now }
    ensures { IfOk result (λ b. b ≡ bits literal.now) }
{
    let size = size_of(literal);
    match bits_in(alloc, size, literal)? {
        Some(bits) => Ok(bits),
        None => unreachable!(),
    }
}

// The wires of operands.
fn wires(alloc: Global, operands: &[Operand]) -> Result<Seq<WireId>, NoMemory>
    ensures { IfOk result (λ ws. ws ≡ map wire operands.now) }
{
    let mut wires = Vec::new(alloc);
    for a in operands {
        wires.push(a.wire)?;
    }
    Ok(Seq::from(wires))
}

fn cut_cell(w: WireId, a: WireId, range: &Range<'_>) -> Cell
    requires { IsCut range.now }
    ensures { result ≡ cell.Cut w a (number range.now.from) (number range.now.to) }
{
    let from = exact(range.from.bytes);
    let to = exact(range.to.bytes);
    Cell::Cut(w, a, from, to)
}

// The cell of an assignment to this wire.
fn value_cell(alloc: Global, w: WireId, value: &Value<'_>) -> Result<Cell, NoMemory>
    requires { IsMeantValue value.now }
    ensures { IfOk result (λ c. c ≡ value_cell w value.now) }
{
    match value {
        Value::Constant(literal) => Ok(Cell::Const(w, bits(alloc, literal)?)),
        Value::Copy(a) => Ok(Cell::Copy(w, a.wire)),
        Value::Join(parts, _) => Ok(Cell::Join(w, wires(alloc, parts.as_slice())?)),
        Value::Cut(a, range) => Ok(cut_cell(w, a.wire, range)),
        Value::Unary(op, _, a) => Ok(Cell::Un(w, *op, a.wire)),
        Value::Binary(op, _, a, b) => Ok(Cell::Bin(w, *op, a.wire, b.wire)),
        Value::Choice(c, a, b) => Ok(Cell::Mux(w, c.wire, a.wire, b.wire)),
    }
}

// The first value of a register.
fn first_bits(alloc: Global, literal: Option<Word<'_>>) -> Result<Bits, NoMemory>
    requires { IsMeantIf literal }
    ensures { IfOk result (λ b. b ≡ first_bits literal.entry) }
{
    match literal {
        Some(literal) => bits(alloc, &literal),
        None => Ok(Bits::of_list(Vec::new(alloc))),
    }
}

// The words of a RAM.
fn words(alloc: Global, words: &[FirstWord<'_>]) -> Result<Seq<Bits>, NoMemory>
    requires { AreMeantWords words.now }
    ensures { IfOk result (λ all. all ≡ map (λ (word : FirstWord). bits word.literal) words.now) }
{
    let mut all = Vec::new(alloc);
    for word in words {
        all.push(bits(alloc, &word.literal)?)?;
    }
    Ok(Seq::from(all))
}

fn ram_cell(alloc: Global, ram: &RamOf<'_>) -> Result<Cell, NoMemory>
    requires { AreMeantWords ram.now.words }
    ensures { IfOk result (λ c. c ≡ cell.Ram ram.now.register.wire ram.now.domain (words_of ram.now) (inputs_of ram.now)) }
{
    let inputs = RamIn {
        read: ram.read.address.wire,
        enable: ram.enable.wire,
        place: ram.write.address.wire,
        value: ram.value.wire,
    };
    let words = words(alloc, ram.words.as_slice())?;
    Ok(Cell::Ram(ram.register.wire, ram.domain, words, inputs))
}

fn use_cell(
    alloc: Global,
    used: ModId,
    reads: &[Operand],
    drives: &[Operand],
) -> Result<Cell, NoMemory>
    ensures { IfOk result (λ c. c ≡ cell.Use used (map wire reads.now) (map wire drives.now)) }
{
    let reads = wires(alloc, reads)?;
    let drives = wires(alloc, drives)?;
    Ok(Cell::Use(used, reads, drives))
}

fn register_cell(
    alloc: Global,
    m: &ResolvedModule<'_>,
    w: Operand,
    domain: DomId,
    a: Operand,
) -> Result<Cell, NoMemory>
    requires { AreMeantKinds m.now.wires }
    ensures { IfOk result (λ c. c ≡ cell.Reg w.wire domain (first_bits (literal_of (kind_at m.now.wires w))) a.wire) }
{
    let bits = first_bits(alloc, literal_of(kind_at(m.wires.as_slice(), w)))?;
    Ok(Cell::Reg(w.wire, domain, bits, a.wire))
}

// The cell of a driver, which an output has none of.
fn cell_by(
    alloc: Global,
    m: &ResolvedModule<'_>,
    driver: &Driver<'_>,
) -> Result<Option<Cell>, NoMemory>
    requires wires { AreMeantKinds m.now.wires }
    requires driver { IsMeantDriver driver.now }
    ensures { IfOk result (λ c. as_list c ≡ cells_by m.now driver.now) }
{
    match driver {
        Driver::Assign(w, value) => Ok(Some(value_cell(alloc, w.wire, value)?)),
        Driver::Output(_, _, _) => Ok(None),
        Driver::Register(w, domain, _, a) => Ok(Some(register_cell(alloc, m, *w, *domain, *a)?)),
        Driver::Ram(ram) => Ok(Some(ram_cell(alloc, ram)?)),
        Driver::Use(used, reads, drives) => Ok(Some(use_cell(
            alloc,
            *used,
            reads.as_slice(),
            drives.as_slice(),
        )?)),
    }
}

// Adds the cell of a driver.
fn push_cell(
    alloc: Global,
    m: &ResolvedModule<'_>,
    driver: &Driver<'_>,
    cells: &mut Vec<Cell>,
) -> Result<(), NoMemory>
    requires wires { AreMeantKinds m.now.wires }
    requires driver { IsMeantDriver driver.now }
    ensures { OnOk result (cells.new.items ≡ cells.old.items ++ cells_by m.now driver.now) }
{
    if let Some(cell) = cell_by(alloc, m, driver)? {
        cells.push(cell)?;
    }
    Ok(())
}

// The cells of a module.
fn cells(alloc: Global, m: &ResolvedModule<'_>) -> Result<Seq<Cell>, NoMemory>
    requires { IsMeantModule m.now }
    ensures { IfOk result (λ cells. cells ≡ flat_map (cells_by m.now) m.now.drivers) }
{
    let mut cells = Vec::new(alloc);
    for driver in m.drivers.as_slice() {
        push_cell(alloc, m, driver, &mut cells)?;
    }
    Ok(Seq::from(cells))
}

// Writes the wire of an output at its number.
fn show(wires: &mut Vec<WireId>, driver: &Driver<'_>)
    ensures count { length wires.new.items ≡ length wires.old.items }
    ensures wires { wires.new.items ≡ shown_by wires.old.items driver.now }
{
    if let Driver::Output(k, _, a) = driver {
        if *k < wires.len() {
            wires[*k] = a.wire;
        }
    }
}

// The wires of so many outputs. Of two drivers of one output the first counts.
fn shown_wires(alloc: Global, drivers: &[Driver<'_>], count: usize) -> Result<Vec<WireId>, NoMemory>
    ensures count { IfOk result (λ ws. length ws.items ≡ count) }
    ensures wires { IfOk result (λ ws. (k : ℕ) → k < count → slice_index_or ws.items k no_wire ≡ shown_wire drivers.now k) }
{
    let mut wires = vec![in alloc; WireId { number: 0 }; count]?;
    for place in (0..drivers.len()).rev() {
        show(&mut wires, &drivers[place]);
    }
    Ok(wires)
}

// The wires of the outputs of a module.
fn outputs(alloc: Global, m: &ResolvedModule<'_>) -> Result<Seq<WireId>, NoMemory>
    ensures { IfOk result (λ ws. ws ≡ shown_wires m.now.drivers 0 m.now.outputs) }
{
    let wires = shown_wires(alloc, m.drivers.as_slice(), m.outputs.len())?;
    Ok(Seq::from(wires))
}

fn net_module(alloc: Global, m: &ResolvedModule<'_>) -> Result<Module, NoMemory>
    requires { IsMeantModule m.now }
    ensures { IfOk result (λ r. r ≡ net_module m.now) }
{
    let inputs = narrow(m.inputs)?;
    let widths = Seq::from(bits_of_wires(alloc, m.wires.as_slice())?);
    let outputs = outputs(alloc, m)?;
    let cells = cells(alloc, m)?;
    Ok(Module {
        inputs,
        widths,
        outputs,
        cells,
    })
}

fn net_modules(alloc: Global, modules: &[ResolvedModule<'_>]) -> Result<Seq<Module>, NoMemory>
    requires { AreMeant modules.now }
    ensures { IfOk result (λ ms. ms ≡ map net_module modules.now) }
{
    let mut all = Vec::new(alloc);
    for m in modules {
        all.push(net_module(alloc, m)?)?;
    }
    Ok(Seq::from(all))
}

/// The net of a text, which keeps the rules on widths.
pub fn net(alloc: Global, text: Resolved<'_>) -> Result<Net, NoMemory>
    requires { AreMeant text.modules }
    ensures { IfOk result (λ net. net ≡ net_of text.entry) }
{
    let modules = net_modules(alloc, text.modules.as_slice())?;
    Ok(Net {
        ports: text.ports,
        modules,
    })
}
