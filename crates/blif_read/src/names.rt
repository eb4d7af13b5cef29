//! The rule on names.
ghost use Rattle.std.specs.Prelude.{◌≡◌, ◌↔◌, ◌++◌, [], IsTrue, IfOk, IfSome, IfNone, OnOk};
ghost use Rattle.name_tables.specs.Names.{AreDistinct, is_among};
ghost use Rattle.blif_text.specs.BlifText.{EachIs, HasClock, HasNames, IsClock, all_given};
ghost use Rattle.blif_text.specs.BlifText.{all_inputs, given_by};
ghost use Rattle.blif_text.specs.Faults.{IsFirstWithout};
ghost use Rattle.blif_read.specs.Naming.{AreKnown, HasAlso, HasSame, KeepsNames};
ghost use Rattle.blif_read.specs.Shown.{all_said, statement_of};
ghost use Rattle.stimulus.specs.Texts.{texts};

use crate::statement::{Said, Statement, given_by, inputs_of, read_by};
use chw_base::NoMemory;
use name_forms::forms::is_upper;
use name_tables::Declared;
use std::alloc::Global;

/// The inputs, and all names that are inputs or driven.
#[derive(Drop)]
pub struct Names<'a> {
    pub inputs: Declared<'a>,
    pub given: Declared<'a>,
}

/// Whether it is `clk_` and the name of a domain.
fn is_clock(name: &[u8]) -> bool
    ensures { IsTrue result ↔ IsClock name.now }
{
    if !name.starts_with(b"clk_") {
        return false;
    }
    is_upper(&name[4..])
}

/// Adds names to a table, whether they are new or not.
fn note_all<'a>(names: &[&'a [u8]], table: &mut Declared<'a>) -> Result<(), NoMemory>
    ensures { OnOk result (HasAlso table.old (texts names.now) table.new) }
{
    for name in names {
        table.declare(*name)?;
    }
    Ok(())
}

/// The inputs of statements.
fn input_names<'a>(alloc: Global, all: &[Said<'a>]) -> Result<Declared<'a>, NoMemory>
    ensures { IfOk result (HasSame (all_inputs (all_said all.now))) }
{
    let mut table = Declared::new(alloc);
    for it in all {
        note_all(inputs_of(&it.says), &mut table)?;
    }
    Ok(table)
}

/// The names that statements give.
fn given_names<'a>(alloc: Global, all: &[Said<'a>]) -> Result<Declared<'a>, NoMemory>
    ensures { IfOk result (HasSame (all_given (all_said all.now))) }
{
    let mut table = Declared::new(alloc);
    for it in all {
        note_all(given_by(&it.says), &mut table)?;
    }
    Ok(table)
}

/// Both tables of names.
fn names_of<'a>(alloc: Global, all: &[Said<'a>]) -> Result<Names<'a>, NoMemory>
    ensures inputs { IfOk result (λ names. HasSame (all_inputs (all_said all.now)) names.inputs) }
    ensures given { IfOk result (λ names. HasSame (all_given (all_said all.now)) names.given) }
{
    let inputs = input_names(alloc, all)?;
    let given = given_names(alloc, all)?;
    Ok(Names { inputs, given })
}

fn is_known(name: &[u8], table: &Declared) -> bool
    ensures { IsTrue result ↔ IsTrue (is_among table.now name.now) }
{
    table.find(name).is_some()
}

/// Whether all are names of the table.
fn are_known(names: &[&[u8]], table: &Declared) -> bool
    ensures { IsTrue result ↔ AreKnown table.now (texts names.now) }
{
    for name in names {
        if !is_known(name, table) {
            return false;
        }
    }
    true
}

/// Whether the clock of a latch is an input, and of its form.
fn has_clock(says: &Statement, inputs: &Declared) -> bool
    ensures { IsTrue result ↔ HasClock inputs.now (statement_of says.now) }
{
    match says {
        Statement::Latch { clock, .. } => inputs.find(clock).is_some() && is_clock(clock),
        Statement::Model
        | Statement::Inputs(_)
        | Statement::Outputs(_)
        | Statement::Table { .. }
        | Statement::Row(_)
        | Statement::End => true,
    }
}

/// Declares names, unless one of them is there already.
fn declare_all<'a>(names: &[&'a [u8]], driven: &mut Declared<'a>) -> Result<bool, NoMemory>
    requires { AreDistinct driven.old }
    ensures names { IfOk result (λ yes. IsTrue yes → driven.new ≡ driven.old ++ texts names.now) }
    ensures once { IfOk result (λ yes. IsTrue yes
        ↔ AreDistinct (driven.old ++ texts names.now)) }
{
    for name in names {
        if !driven.declare(*name)? {
            return Ok(false);
        }
    }
    Ok(true)
}

/// Whether a statement keeps the rule on names. What it gives is then among what is driven.
fn keeps_names<'a>(
    names: &Names<'a>,
    says: &Statement<'a>,
    driven: &mut Declared<'a>,
) -> Result<bool, NoMemory>
    requires { AreDistinct driven.old }
    ensures names { IfOk result (λ yes. IsTrue yes
        → driven.new ≡ driven.old ++ given_by (statement_of says.now)) }
    ensures keeps { IfOk result (λ yes. IsTrue yes
        ↔ KeepsNames names.now driven.old (statement_of says.now)) }
{
    if !are_known(read_by(says), &names.given) {
        return Ok(false);
    }
    if !has_clock(says, &names.inputs) {
        return Ok(false);
    }
    declare_all(given_by(says), driven)
}

/// The number of the line that breaks the rule on names first.
pub fn names_fault(alloc: Global, all: &[Said]) -> Result<Option<u32>, NoMemory>
    ensures some { IfOk result (λ r. IfSome r
        (IsFirstWithout (HasNames (all_said all.now)) (all_said all.now))) }
    ensures none { IfOk result (λ r. IfNone r
        (EachIs (HasNames (all_said all.now)) [] (all_said all.now))) }
{
    let names = names_of(alloc, all)?;
    let mut driven = Declared::new(alloc);
    for it in all {
        if !keeps_names(&names, &it.says, &mut driven)? {
            return Ok(Some(it.number));
        }
    }
    Ok(None)
}
