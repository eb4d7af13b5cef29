//! Whether each wire that is no input has one driver, and each output.
ghost use Rattle.std.specs.Prelude.{◌≡◌, ◌<◌, ◌&&◌, ◌==◌, [], ◌∷◌, ◌+◌, ◌++◌, false, not, true, nat_le, IfOk, OnOk, drop, length, map, set, slice_index_or};
ghost use Rattle.std.specs.List.{flat_map};
ghost use Rattle.verilog_checks.specs.Least.{least_after};
ghost use Rattle.verilog_judge.specs.Driving.{AreWires, DriveTheirOwn, DrivesItsOwn};
ghost use Rattle.verilog_judge.specs.Marks.{as_operand, marked, marking_checks, placed_checks, unmarked_checks};
ghost use Rattle.verilog_rules.specs.Checks.{check, least_broken};
ghost use Rattle.verilog_rules.specs.DriverRules.{driven_checks, driver_checks, drivers_from, drives, module_driver_checks, own_names, shows, some_output, undriven_checks, wire_number};
ghost use Rattle.verilog_rules.specs.declared.resolved.Wire.{Wire};
ghost use Rattle.verilog_tree.specs.declared.word.Line.{Line};

use chw_base::{NoMemory, WireId, narrow};
use std::alloc::Global;
use std::slice;
use verilog_checks::Least;
use verilog_rules::{Driver, Operand, Resolved, ResolvedModule, Wire};
use verilog_tree::{Line, Word};

// The wires that a driver drives.
fn drives<'a>(driver: &'a Driver<'_>) -> &'a [Operand]
    ensures { result.now ≡ drives driver.now }
{
    match driver {
        Driver::Assign(w, _) | Driver::Register(w, _, _, _) => slice::from_ref(w),
        Driver::Ram(ram) => slice::from_ref(&ram.register),
        Driver::Use(_, _, driven) => driven.as_slice(),
        Driver::Output(_, _, _) => &[],
    }
}

// The wires that drivers drive, in their order.
fn all_driven(alloc: Global, drivers: &[Driver<'_>]) -> Result<Vec<Operand>, NoMemory>
    ensures { IfOk result (λ driven. driven.items ≡ flat_map drives drivers.now) }
{
    let mut driven = Vec::new(alloc);
    for driver in drivers {
        driven.extend_from_slice(drives(driver))?;
    }
    Ok(driven)
}

// Adds the output that a driver drives. An output past those that 32 bits number finds no memory.
fn push_shown(shown: &mut Vec<Operand>, driver: &Driver<'_>) -> Result<(), NoMemory>
    ensures { OnOk result (shown.new.items ≡ shown.old.items ++ map as_operand (shows driver.now)) }
{
    if let Driver::Output(k, at, _) = driver {
        let number = narrow(*k)?;
        shown.push(Operand {
            wire: WireId { number },
            at: *at,
        })?;
    }
    Ok(())
}

// The outputs that drivers drive, in their order.
fn all_shown(alloc: Global, drivers: &[Driver<'_>]) -> Result<Vec<Operand>, NoMemory>
    ensures { IfOk result (λ shown. shown.items ≡ map as_operand (flat_map shows drivers.now)) }
{
    let mut shown = Vec::new(alloc);
    for driver in drivers {
        push_shown(&mut shown, driver)?;
    }
    Ok(shown)
}

// The names of lines.
fn names_of_lines<'t>(alloc: Global, lines: &[Line<'t>]) -> Result<Vec<Word<'t>>, NoMemory>
    ensures { IfOk result (λ names. names.items ≡ map (λ (l : Line). l.name) lines.now) }
{
    let mut names = Vec::new(alloc);
    for line in lines {
        names.push(line.name)?;
    }
    Ok(names)
}

// The names of wires.
fn names_of_wires<'t>(alloc: Global, wires: &[Wire<'t>]) -> Result<Vec<Word<'t>>, NoMemory>
    ensures { IfOk result (λ names. names.items ≡ map (λ (w : Wire). w.line.name) wires.now) }
{
    let mut names = Vec::new(alloc);
    for wire in wires {
        names.push(wire.line.name)?;
    }
    Ok(names)
}

// The wires behind the inputs.
fn own_wires<'a, 't>(wires: &'a [Wire<'t>], inputs: usize) -> &'a [Wire<'t>]
    ensures { result.now ≡ drop inputs wires.now }
{
    if inputs < wires.len() {
        &wires[inputs..]
    } else {
        &[]
    }
}

// Marks a wire, which is no input and not marked before.
fn mark(least: &mut Least, inputs: usize, a: Operand, marks: &mut [bool])
    ensures least { least.new ≡ least_after least.old (check a.at (nat_le inputs (wire_number a)
        && not (slice_index_or marks.old (wire_number a) false)) ∷ []) }
    ensures marks { marks.new ≡ set marks.old (wire_number a) true }
{
    let number = a.wire.number as usize;
    let is_marked = marks.get(number).copied().unwrap_or(false);
    least.check(a.at, inputs <= number && !is_marked);
    if number < marks.len() {
        marks[number] = true;
    }
}

// Marks each of these wires.
fn mark_all(least: &mut Least, inputs: usize, driven: &[Operand], marks: &mut [bool])
    ensures least { least.new ≡ least_after least.old (marking_checks inputs marks.old driven.now) }
    ensures marks { marks.new ≡ marked marks.old driven.now }
{
    for a in driven {
        mark(least, inputs, *a, marks);
    }
}

// Whether each of these names has its mark.
fn check_marks(least: &mut Least, marks: &[bool], names: &[Word<'_>])
    ensures { least.new ≡ least_after least.old (unmarked_checks marks.now names.now) }
{
    for (k, name) in names.iter().enumerate() {
        match marks.get(k) {
            Some(mark) => least.check(name.at, *mark),
            None => return,
        }
    }
}

// The marks behind those of inputs.
fn own_marks(marks: &[bool], inputs: usize) -> &[bool]
    ensures { result.now ≡ drop inputs marks.now }
{
    if inputs < marks.len() {
        &marks[inputs..]
    } else {
        &[]
    }
}

// The rules by marks, of which none is set yet.
fn check_by_marks(
    least: &mut Least,
    inputs: usize,
    names: &[Word<'_>],
    driven: &[Operand],
    marks: &mut [bool],
)
    ensures { least.new ≡ least_after (least_after least.old (marking_checks inputs marks.old driven.now))
        (unmarked_checks (drop inputs (marked marks.old driven.now)) names.now) }
{
    mark_all(least, inputs, driven, marks);
    check_marks(least, own_marks(marks, inputs), names);
}

// The rules on so many things, of which the first ones are inputs, and the others have these names.
fn check_driven(
    alloc: Global,
    least: &mut Least,
    inputs: usize,
    count: usize,
    names: &[Word<'_>],
    driven: &[Operand],
) -> Result<(), NoMemory>
    requires count { count ≡ inputs + length names.now }
    requires driven { AreWires count driven.now }
    ensures { OnOk result (least.new ≡ least_after (least_after least.old (driven_checks inputs [] driven.now))
        (undriven_checks (map wire_number driven.now) inputs names.now)) }
{
    let mut marks = vec![in alloc; false; count]?;
    check_by_marks(least, inputs, names, driven, &mut marks);
    Ok(())
}

// A module: its outputs, and its wires.
fn check_module(alloc: Global, least: &mut Least, m: &ResolvedModule<'_>) -> Result<(), NoMemory>
    requires { DrivesItsOwn m.now }
    ensures { OnOk result (least.new ≡ least_after least.old (module_driver_checks m.now)) }
{
    let shown = all_shown(alloc, m.drivers.as_slice())?;
    let outputs = names_of_lines(alloc, m.outputs.as_slice())?;
    check_driven(alloc, least, 0, m.outputs.len(), &outputs, &shown)?;
    let driven = all_driven(alloc, m.drivers.as_slice())?;
    let names = names_of_wires(alloc, own_wires(m.wires.as_slice(), m.inputs))?;
    check_driven(alloc, least, m.inputs, m.wires.len(), &names, &driven)?;
    Ok(())
}

// A module at a place of a text.
fn check_placed(
    alloc: Global,
    least: &mut Least,
    is_last: bool,
    m: &ResolvedModule<'_>,
) -> Result<(), NoMemory>
    requires { DrivesItsOwn m.now }
    ensures { OnOk result (least.new ≡ least_after least.old (placed_checks is_last m.now)) }
{
    if !is_last {
        least.check(m.name.at, !m.outputs.is_empty());
    }
    check_module(alloc, least, m)
}

// Modules, the last one last.
fn check_modules(
    alloc: Global,
    least: &mut Least,
    modules: &[ResolvedModule<'_>],
) -> Result<(), NoMemory>
    requires { DriveTheirOwn modules.now }
    ensures { OnOk result (least.new ≡ least_after least.old (drivers_from modules.now)) }
{
    for (k, m) in modules.iter().enumerate() {
        check_placed(alloc, least, k + 1 == modules.len(), m)?;
    }
    Ok(())
}

/// The least place at which a wire or an output of a text has no driver or two, or a module that isn't the last has no output.
///
/// It takes memory for the wires that a module drives, their names, and a mark for each. Its time is linear in the text.
///
/// The text keeps the rules on names.
pub fn drivers(alloc: Global, text: &Resolved<'_>) -> Result<Option<usize>, NoMemory>
    requires { DriveTheirOwn text.now.modules }
    ensures { IfOk result (λ place. place ≡ least_broken (driver_checks text.now)) }
{
    let mut least = Least::new();
    check_modules(alloc, &mut least, text.modules.as_slice())?;
    Ok(least.place())
}
