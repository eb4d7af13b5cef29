//! Whether the widths, literals and numbers of a text agree.
ghost use Rattle.std.specs.Prelude.{◌≡◌, [], ◌∷◌, slice_index, OnOk, IfOk, length, slice_get, take};
ghost use Rattle.std.specs.List.{AllByRecursion, flat_map};
ghost use Rattle.verilog_checks.specs.Least.{least_after};
ghost use Rattle.verilog_rules.specs.Checks.{least_broken};
ghost use Rattle.verilog_rules.specs.WidthRules.{driver_width_checks, joined_checks, module_width_checks, port_checks, width_checks, widths_from, widths_of, width_check, wire_widths};
ghost use Rattle.verilog_checks.specs.Narrow.{AreNarrow};
ghost use Rattle.verilog_judge.specs.Read.{AreRead, IsReadDriver, IsReadModule};
ghost use Rattle.verilog_judge.specs.Words.{used_checks};

use crate::parts::{check_lines, check_value, check_width, check_wires};
use crate::registers::{check_ram, check_register, kind_at, memory_of};
use crate::sizes::{bits_of_lines, bits_of_wires, first_wires, output_width, wide};
use chw_base::{ModId, NoMemory};
use std::alloc::Global;
use verilog_checks::Least;
use verilog_rules::{Driver, Operand, Resolved, ResolvedModule};

// Wires that are as wide as ports, one by one.
fn check_ports(least: &mut Least, widths: &[u32], ports: &[u32], operands: &[Operand])
    ensures { least.new ≡ least_after least.old (port_checks widths.now ports.now operands.now) }
{
    for (k, a) in operands.iter().enumerate() {
        match ports.get(k) {
            Some(n) => check_width(least, widths, *n, *a),
            None => return,
        }
    }
}

// A use of this module.
#[tactic(auto, using(verilog_checks::proofs::Steps::least_after_both))]
fn check_used(
    alloc: Global,
    least: &mut Least,
    widths: &[u32],
    used: &ResolvedModule<'_>,
    reads: &[Operand],
    drives: &[Operand],
) -> Result<(), NoMemory>
    requires { IsReadModule used.now }
    ensures { OnOk result (least.new ≡ least_after least.old (used_checks widths.now used.now reads.now drives.now)) }
{
    let inputs = bits_of_wires(alloc, first_wires(used.wires.as_slice(), used.inputs))?;
    let outputs = bits_of_lines(alloc, used.outputs.as_slice())?;
    check_ports(least, widths, &inputs, reads);
    check_ports(least, widths, &outputs, drives);
    Ok(())
}

// A use of one of these modules.
fn check_use(
    alloc: Global,
    least: &mut Least,
    earlier: &[ResolvedModule<'_>],
    widths: &[u32],
    used: ModId,
    reads: &[Operand],
    drives: &[Operand],
) -> Result<(), NoMemory>
    requires { AreRead earlier.now }
    ensures { OnOk result (least.new ≡ least_after least.old (joined_checks widths.now (slice_get earlier.now used.number) reads.now drives.now)) }
{
    match earlier.get(used.number as usize) {
        Some(used) => check_used(alloc, least, widths, used, reads, drives),
        None => Ok(()),
    }
}

// What is assigned to the output of this number.
fn check_output(least: &mut Least, m: &ResolvedModule<'_>, widths: &[u32], k: usize, a: Operand)
    requires { AreNarrow m.now.outputs }
    ensures { least.new ≡ least_after least.old (width_check widths.now (slice_index (widths_of m.now.outputs) k) a ∷ []) }
{
    let n = output_width(m.outputs.as_slice(), k);
    check_width(least, widths, n, a);
}

// A driver of a module whose wires have these widths.
fn check_driver(
    alloc: Global,
    least: &mut Least,
    earlier: &[ResolvedModule<'_>],
    m: &ResolvedModule<'_>,
    widths: &[u32],
    driver: &Driver<'_>,
) -> Result<(), NoMemory>
    requires widths { widths.now ≡ wire_widths m.now }
    requires earlier { AreRead earlier.now }
    requires module { IsReadModule m.now }
    requires driver { IsReadDriver driver.now }
    ensures { OnOk result (least.new ≡ least_after least.old (driver_width_checks earlier.now m.now driver.now)) }
{
    match driver {
        Driver::Assign(w, value) => check_value(alloc, least, widths, wide(widths, *w), value),
        Driver::Output(k, _, a) => Ok(check_output(least, m, widths, *k, *a)),
        Driver::Register(w, _, reset, a) => {
            let kind = kind_at(m.wires.as_slice(), *w);
            check_register(alloc, least, widths, wide(widths, *w), kind, *reset, *a)
        }
        Driver::Ram(ram) => {
            let memory = memory_of(kind_at(m.wires.as_slice(), ram.register));
            check_ram(
                alloc,
                least,
                widths,
                wide(widths, ram.register),
                memory,
                ram,
            )
        }
        Driver::Use(used, reads, drives) => {
            check_use(
                alloc,
                least,
                earlier,
                widths,
                *used,
                reads.as_slice(),
                drives.as_slice(),
            )
        }
    }
}

// The drivers of a module.
fn check_drivers(
    alloc: Global,
    least: &mut Least,
    earlier: &[ResolvedModule<'_>],
    m: &ResolvedModule<'_>,
    widths: &[u32],
    drivers: &[Driver<'_>],
) -> Result<(), NoMemory>
    requires widths { widths.now ≡ wire_widths m.now }
    requires earlier { AreRead earlier.now }
    requires module { IsReadModule m.now }
    requires drivers { AllByRecursion IsReadDriver drivers.now }
    ensures { OnOk result (least.new ≡ least_after least.old (flat_map (driver_width_checks earlier.now m.now) drivers.now)) }
{
    for driver in drivers {
        check_driver(alloc, least, earlier, m, widths, driver)?;
    }
    Ok(())
}

// A module behind earlier ones.
#[tactic(auto, using(verilog_checks::proofs::Steps::least_after_both))]
fn check_module(
    alloc: Global,
    least: &mut Least,
    earlier: &[ResolvedModule<'_>],
    m: &ResolvedModule<'_>,
) -> Result<(), NoMemory>
    requires earlier { AreRead earlier.now }
    requires module { IsReadModule m.now }
    ensures { OnOk result (least.new ≡ least_after least.old (module_width_checks earlier.now m.now)) }
{
    let widths = bits_of_wires(alloc, m.wires.as_slice())?;
    check_lines(least, m.outputs.as_slice());
    check_wires(alloc, least, m.wires.as_slice())?;
    check_drivers(alloc, least, earlier, m, &widths, m.drivers.as_slice())
}

// Modules, each behind those before it.
fn check_modules(
    alloc: Global,
    least: &mut Least,
    modules: &[ResolvedModule<'_>],
) -> Result<(), NoMemory>
    requires { AreRead modules.now }
    ensures { OnOk result (least.new ≡ least_after least.old (widths_from [] modules.now)) }
{
    for (k, m) in modules.iter().enumerate() {
        check_module(alloc, least, &modules[..k], m)?;
    }
    Ok(())
}

/// The least place at which widths, literals or numbers of a text don't agree.
///
/// It takes memory for the widths of a module's wires and for the bits of a literal. Its time is linear in the text.
///
/// The text keeps the limits, and its words are tokens.
pub fn widths(alloc: Global, text: &Resolved<'_>) -> Result<Option<usize>, NoMemory>
    requires { AreRead text.now.modules }
    ensures { IfOk result (λ place. place ≡ least_broken (width_checks text.now)) }
{
    let mut least = Least::new();
    check_modules(alloc, &mut least, text.modules.as_slice())?;
    Ok(least.place())
}
