//! The free variables of a term, listed.
ghost use Rattle.std.specs.Prelude.{◌≡◌, [], ◌++◌, map, IfOk, OnOk};
ghost use Rattle.chw_terms.specs.FreeVariables.{firsts, free_in, occurrences};
ghost use Rattle.free_variables.specs.Gathered.{numbers_of};

use crate::gathering::gather;
use chw_base::{NoMemory, VarIx};
use chw_terms::Term;
use indexmap::IndexSet;
use std::alloc::Global;

/// The free variables of the term, each once, in the order of their first occurrences: a head before its arguments, the right sides of a
/// group before its body, what a case is on before its alternatives.
///
/// Time is linear in the term. Where a term has over 4,294,967,295 binders one below the other, the answer is want of memory.
pub fn free_in(alloc: Global, t: &Term) -> Result<Vec<VarIx>, NoMemory>
    ensures { IfOk result (λ vs. map (λ v. v.number) vs.items ≡ free_in t.now) }
{
    let mut found = Vec::new(alloc);
    occurring_in(t, &mut found)?;
    each_once(alloc, found.as_slice())
}

/// Puts the free variables of the term behind those that are there, one for each occurrence, in the order of `free_in`.
///
/// Time is linear in the term, and nothing is looked for. Where a term has over 4,294,967,295 binders one below the other, the answer is
/// want of memory.
pub fn occurring_in(t: &Term, found: &mut Vec<VarIx>) -> Result<(), NoMemory>
    ensures { OnOk result (numbers_of found.new.items ≡ numbers_of found.old.items ++ occurrences t.now) }
{
    gather(t, 0, found)
}

// These variables, each where it is first.
fn each_once(alloc: Global, variables: &[VarIx]) -> Result<Vec<VarIx>, NoMemory>
    ensures { IfOk result (λ vs. numbers_of vs.items ≡ firsts (numbers_of variables.now)) }
{
    let mut seen = IndexSet::new(alloc);
    let outcome = gathered_in(alloc, variables, &mut seen);
    drop(seen);
    outcome
}

// The same by an empty set.
fn gathered_in(
    alloc: Global,
    variables: &[VarIx],
    seen: &mut IndexSet<u32>,
) -> Result<Vec<VarIx>, NoMemory>
    requires { seen.old.keys ≡ [] }
    ensures { IfOk result (λ vs. numbers_of vs.items ≡ firsts (numbers_of variables.now)) }
{
    for variable in variables {
        seen.insert(variable.number)?;
    }
    listed(alloc, seen.as_slice())
}

// The variables of these numbers.
fn listed(alloc: Global, numbers: &[u32]) -> Result<Vec<VarIx>, NoMemory>
    ensures { IfOk result (λ vs. map (λ v. v.number) vs.items ≡ numbers.now) }
{
    let mut variables = Vec::new(alloc);
    for number in numbers {
        variables.push(VarIx { number: *number })?;
    }
    Ok(variables)
}
