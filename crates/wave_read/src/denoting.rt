//! The wave that a source denotes, or the rule that it breaks.
ghost use Rattle.std.specs.Prelude.{◌≡◌, List, length, map, IfOk, IfSome, IfNone};
ghost use Rattle.chw_base.specs.Outcome.{IfFault};
ghost use Rattle.name_tables.specs.Names.{AreDistinct};
ghost use Rattle.wave_text.specs.Faults.{IsSourceFault};
ghost use Rattle.wave_read.specs.Rules.{HaveWidths, Keeps, OfTable, change_in, step_in};
ghost use Rattle.wave_read.specs.Shown.{bits_of, change_of, count_of, time_with, times_of};
ghost use Rattle.wave_read.specs.Shown.{variable_of};
ghost use Rattle.wave_read.specs.Sources.{source_in, source_of};
ghost use Rattle.wave_text.specs.VcdText.{Declared as Variable, IsRight, all_changes, codes_of};
ghost use Rattle.wave_text.specs.VcdText.{wave_of};
ghost use Rattle.waves.specs.Vcd.{variable};

use crate::rules::{Rule, Table, back_at, table_of};
use crate::source::{Changed, Declared, Moment, Source};
use crate::times::Times;
use chw_base::{Name, NoMemory, Or, Seq};
use chw_bits::Bits;
use std::alloc::Global;
use wave_text::{Change, VcdCode, VcdFault, Wave, WaveStep};
use waves::WaveVar;

/// Puts the bits of digits in place of as many others.
fn put_bits(bits: &mut [bool], digits: &[u8])
    requires { length digits.now ≡ length bits.old }
    ensures { bits.new ≡ bits_of digits.now }
{
    for k in 0..digits.len() {
        bits[k] = digits[k] == b'1';
    }
}

/// The bits of so many digits.
fn bits_of(alloc: Global, width: u32, digits: &[u8]) -> Result<Bits, NoMemory>
    requires { length digits.now ≡ width }
    ensures { IfOk result (λ b. b ≡ bits_of digits.now) }
{
    let mut bits = vec![in alloc; false; width as usize]?;
    put_bits(&mut bits, digits);
    Ok(Bits::of_list(bits))
}

/// A change, of as many bits as its variable has.
fn change_made(alloc: Global, table: &Table, change: &Changed) -> Result<Change, NoMemory>
    requires { Keeps Rule.Width table.now (change_of change.now) }
    ensures { IfOk result (λ it. it ≡ change_in table.now (change_of change.now)) }
{
    let var = table.var_of(change.code);
    let value = bits_of(alloc, table.width_at(var), change.digits)?;
    Ok(Change { var, value })
}

/// The changes of a time.
fn changes_of(alloc: Global, table: &Table, changes: &[Changed]) -> Result<Vec<Change>, NoMemory>
    requires { HaveWidths table.now (map change_of changes.now) }
    ensures { IfOk result (λ v. v.items ≡ map (change_in table.now) (map change_of changes.now)) }
{
    let mut made = Vec::with_capacity(alloc, changes.len())?;
    for change in changes {
        made.push(change_made(alloc, table, change)?)?;
    }
    Ok(made)
}

/// A time with these changes.
fn step_made(
    alloc: Global,
    table: &Table,
    moment: Moment,
    changes: &[Changed],
) -> Result<WaveStep, NoMemory>
    requires { HaveWidths table.now (map change_of changes.now) }
    ensures { IfOk result (λ it. it ≡ step_in table.now (time_with moment changes.now)) }
{
    let made = changes_of(alloc, table, changes)?;
    Ok(WaveStep {
        time: moment.time,
        changes: Seq::from(made),
    })
}

/// The times, each with its changes, which stand one behind the other.
fn steps_made(
    alloc: Global,
    table: &Table,
    moments: &[Moment],
    changes: &[Changed],
) -> Result<Vec<WaveStep>, NoMemory>
    requires widths { HaveWidths table.now (map change_of changes.now) }
    requires count { count_of moments.now ≡ length changes.now }
    ensures { IfOk result (λ v. v.items
        ≡ map (step_in table.now) (times_of moments.now changes.now)) }
{
    let mut steps = Vec::with_capacity(alloc, moments.len())?;
    let mut from = 0;
    for moment in moments {
        let (_, rest) = changes.split_at(from);
        let (own, _) = rest.split_at(moment.count);
        steps.push(step_made(alloc, table, *moment, own)?)?;
        from += moment.count;
    }
    Ok(steps)
}

/// The times with their changes.
fn steps_of(alloc: Global, table: &Table, times: &Times) -> Result<Vec<WaveStep>, NoMemory>
    requires { HaveWidths table.now (all_changes times.now) }
    ensures { IfOk result (λ v. v.items ≡ map (step_in table.now) times.now) }
{
    let (moments, changes) = times.parts();
    steps_made(alloc, table, moments, changes)
}

/// A variable.
fn var_made(alloc: Global, it: &Declared) -> Result<WaveVar, NoMemory>
    ensures { IfOk result (λ v. v ≡ variable it.now.name.now it.now.width) }
{
    Ok(WaveVar {
        name: Name::copy_of(alloc, it.name)?,
        width: it.width,
    })
}

/// The variables.
fn vars_of(alloc: Global, declared: &[Declared]) -> Result<Vec<WaveVar>, NoMemory>
    ensures { IfOk result (λ v. v.items
        ≡ map (λ it. variable it.name it.width) (map variable_of declared.now)) }
{
    let mut vars = Vec::new(alloc);
    for it in declared {
        vars.push(var_made(alloc, it)?)?;
    }
    Ok(vars)
}

/// What the changes or the times break first.
fn fault_of(table: &Table, times: &Times) -> Option<VcdFault>
    ensures some { (declared : List Variable) → OfTable declared table.now
        → AreDistinct (codes_of declared)
        → IfSome result (λ fault. IsSourceFault
        (record { declared = declared; moments = times.now }) fault.code fault.at) }
    ensures none { (declared : List Variable) → OfTable declared table.now
        → AreDistinct (codes_of declared) → IfNone result
        (IsRight (record { declared = declared; moments = times.now })) }
    ensures widths { IfNone result (HaveWidths table.now (all_changes times.now)) }
{
    if let Some(at) = table.break_of(Rule::Code, times) {
        return Some(VcdFault {
            code: VcdCode::X02,
            at,
        });
    }
    if let Some(at) = table.break_of(Rule::Width, times) {
        return Some(VcdFault {
            code: VcdCode::X03,
            at,
        });
    }
    match back_at(times) {
        Some(at) => Some(VcdFault {
            code: VcdCode::X04,
            at,
        }),
        None => None,
    }
}

/// The wave of these variables and times.
fn wave_by(
    alloc: Global,
    table: &Table,
    declared: &[Declared],
    times: &Times,
) -> Result<Wave, Or<VcdFault>>
    requires table { OfTable (map variable_of declared.now) table.now }
    requires distinct { AreDistinct (codes_of (map variable_of declared.now)) }
    ensures right { IfOk result (λ _. IsRight (source_in declared.now times.now)) }
    ensures wave { IfOk result (λ wave. wave ≡ wave_of (source_in declared.now times.now)) }
    ensures fault { IfFault result
        (λ fault. IsSourceFault (source_in declared.now times.now) fault.code fault.at) }
{
    if let Some(fault) = fault_of(table, times) {
        return Err(Or::Fault(fault));
    }
    let vars = vars_of(alloc, declared)?;
    let steps = steps_of(alloc, table, times)?;
    Ok(Wave {
        vars: Seq::from(vars),
        steps: Seq::from(steps),
    })
}

/// The wave of a source.
pub fn wave_of(alloc: Global, source: &Source) -> Result<Wave, Or<VcdFault>>
    ensures right { IfOk result (λ _. IsRight (source_of source.now)) }
    ensures wave { IfOk result (λ wave. wave ≡ wave_of (source_of source.now)) }
    ensures fault { IfFault result
        (λ fault. IsSourceFault (source_of source.now) fault.code fault.at) }
{
    let declared = source.declared.as_slice();
    match table_of(alloc, declared) {
        Ok(table) => wave_by(alloc, &table, declared, &source.times),
        Err(Or::Memory) => Err(Or::Memory),
        Err(Or::Fault(at)) => Err(Or::Fault(VcdFault {
            code: VcdCode::X02,
            at,
        })),
    }
}
