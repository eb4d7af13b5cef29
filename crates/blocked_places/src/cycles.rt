//! Cycles of a letrec's bindings.
ghost use Rattle.std.specs.Prelude.{◌≡◌, ◌↔◌, ◌<◌, ◌^◌, map, length, Some, true, slice_get, IfOk, OnOk, IsTrue};
ghost use Rattle.graph_order.specs.Orders.{numbers};
ghost use Rattle.chw_types.specs.References.{HasNoCycle};
ghost use Rattle.chw_terms.specs.TermView.{group_of};
ghost use Rattle.blocked_places.specs.Cycles.{Counts, AreCounted, AddsCounted, AreOfVariables, AreNamedBy, AreReferences, FindsRound, FindsCycle};

use chw_base::{NoMemory, VarIx, narrow};
use chw_terms::{Binding, Head, Mode, Term};
use chw_types::{Data, Ty};
use chw_typing::group_laws::free_variables;
use free_variables::free_in;
use graph_order::{Ordering, order_of};
use rule_parts::named::is_named;
use std::alloc::Global;

// Whether bindings of this type count on a cycle.
fn counts(alloc: Global, datas: &[Data], mode: Mode, ty: &Ty) -> Result<bool, NoMemory>
    requires { HasNoCycle datas.now }
    ensures { IfOk result (λ is. IsTrue is ↔ Counts datas.now mode ty.now) }
{
    match mode {
        Mode::V | Mode::K => Ok(true),
        Mode::C | Mode::HV | Mode::HC => Ok(!is_named(alloc, datas, mode, ty)?),
    }
}

// For each binding whether it counts.
fn counted(
    alloc: Global,
    datas: &[Data],
    mode: Mode,
    bindings: &[Binding],
) -> Result<Vec<bool>, NoMemory>
    requires { HasNoCycle datas.now }
    ensures { IfOk result (λ flags. AreCounted datas.now mode bindings.now flags.items) }
{
    let mut flags = Vec::new(alloc);
    for binding in bindings {
        flags.push(counts(alloc, datas, mode, &binding.ty)?)?;
    }
    Ok(flags)
}

// Whether the binding of this number counts.
fn is_flagged(flags: &[bool], number: u32) -> bool
    ensures { IsTrue result ↔ (slice_get flags.now number ≡ Some true) }
{
    match flags.get(number as usize) {
        Some(flag) => *flag,
        None => false,
    }
}

// Lists the binding of so many with this variable, where it counts.
fn push_counted(
    list: &mut Vec<u32>,
    count: u32,
    flags: &[bool],
    variable: VarIx,
) -> Result<(), NoMemory>
    ensures { OnOk result (AddsCounted count flags.now variable.number list.old.items list.new.items) }
{
    if count <= variable.number {
        return Ok(());
    }
    let number = count - 1 - variable.number;
    if !is_flagged(flags, number) {
        return Ok(());
    }
    list.push(number)?;
    Ok(())
}

// Of so many bindings those that count, with these variables.
fn listed(
    alloc: Global,
    count: u32,
    flags: &[bool],
    variables: &[VarIx],
) -> Result<Vec<u32>, NoMemory>
    ensures { IfOk result (λ list. AreOfVariables count flags.now (map (λ v. v.number) variables.now) list.items) }
{
    let mut list = Vec::new(alloc);
    for variable in variables {
        push_counted(&mut list, count, flags, *variable)?;
    }
    Ok(list)
}

// Of so many bindings those that count, of which the variables occur in a right side.
fn named_by(alloc: Global, count: u32, flags: &[bool], side: &Term) -> Result<Vec<u32>, NoMemory>
    ensures { IfOk result (λ list. AreNamedBy count flags.now side.now list.items) }
{
    free_variables();
    let variables = free_in(alloc, side)?;
    listed(alloc, count, flags, &variables)
}

// The bindings that count to which each binding refers.
fn references(
    alloc: Global,
    flags: &[bool],
    bindings: &[Binding],
) -> Result<Vec<Vec<u32>>, NoMemory>
    ensures references { IfOk result (λ lists. AreReferences (length bindings.now) flags.now bindings.now (numbers lists.items)) }
    ensures fits { IfOk result (λ lists. length (numbers lists.items) < 2 ^ 32) }
{
    let count = narrow(bindings.len())?;
    let mut lists = Vec::new(alloc);
    for binding in bindings {
        lists.push(named_by(alloc, count, flags, &binding.body)?)?;
    }
    Ok(lists)
}

// A cycle of bindings that count.
fn round_of(
    alloc: Global,
    datas: &[Data],
    mode: Mode,
    bindings: &[Binding],
) -> Result<Option<Vec<u32>>, NoMemory>
    requires { HasNoCycle datas.now }
    ensures { IfOk result (FindsRound datas.now mode (group_of bindings.now)) }
{
    let flags = counted(alloc, datas, mode, bindings)?;
    let references = references(alloc, &flags, bindings)?;
    match order_of(alloc, &references)? {
        Ordering::Order(_) => Ok(None),
        Ordering::Cycle(nodes) => Ok(Some(nodes)),
    }
}

/// A cycle of bindings, each once, that blocks a term at a place of this mode: of bindings whose types aren't named there, or of any where values are
/// built and in constants.
///
/// Where a number would pass 32 bits, the answer is want of memory.
pub(crate) fn cycle_at(
    alloc: Global,
    datas: &[Data],
    mode: Mode,
    at: &Term,
) -> Result<Option<Vec<u32>>, NoMemory>
    requires { HasNoCycle datas.now }
    ensures { IfOk result (FindsCycle datas.now mode at.now) }
{
    if !at.args.is_empty() {
        return Ok(None);
    }
    let Head::LetRec(bindings, _) = &at.head else {
        return Ok(None);
    };
    round_of(alloc, datas, mode, bindings)
}
