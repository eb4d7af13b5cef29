//! Whether variables that occur in a term occur in another.
ghost use Rattle.std.specs.Prelude.{◌≡◌, [], ℕ, Contains, IfOk, IsTrue};
ghost use Rattle.chw_terms.specs.FreeVariables.{free_in};
ghost use Rattle.free_variables.specs.Gathered.{numbers_of};
ghost use Rattle.kept_letrecs.specs.Resting.{KeepsVariables};

use chw_base::{NoMemory, VarIx};
use chw_terms::Term;
use free_variables::occurring_in;
use indexmap::IndexSet;
use std::alloc::Global;

// Whether each of these variables is in the set.
fn are_in(found: &[VarIx], set: &IndexSet<u32>) -> bool
    ensures { IsTrue result → (x : ℕ) → Contains (numbers_of found.now) x → Contains set.now.keys x }
{
    for variable in found {
        if !set.contains(&variable.number) {
            return false;
        }
    }
    true
}

// Whether these variables stand among those in their order.
fn are_in_order(found: &[VarIx], those: &[VarIx]) -> bool
    ensures { IsTrue result → (x : ℕ) → Contains (numbers_of found.now) x → Contains (numbers_of those.now) x }
{
    let mut next = 0;
    for variable in those {
        if next == found.len() {
            return true;
        }
        if found[next].number == variable.number {
            next += 1;
        }
    }
    next == found.len()
}

// Whether each of these variables is among those. Most often they stand there in their order, and no set is made.
fn are_among(alloc: Global, found: &[VarIx], those: &[VarIx]) -> Result<bool, NoMemory>
    ensures { IfOk result (λ yes. IsTrue yes → (x : ℕ) → Contains (numbers_of found.now) x → Contains (numbers_of those.now) x) }
{
    if are_in_order(found, those) {
        return Ok(true);
    }
    let mut set = IndexSet::new(alloc);
    let outcome = are_among_by(found, those, &mut set);
    drop(set);
    outcome
}

// The same by an empty set.
fn are_among_by(found: &[VarIx], those: &[VarIx], set: &mut IndexSet<u32>) -> Result<bool, NoMemory>
    requires { set.old.keys ≡ [] }
    ensures { IfOk result (λ yes. IsTrue yes → (x : ℕ) → Contains (numbers_of found.now) x → Contains (numbers_of those.now) x) }
{
    for variable in those {
        set.insert(variable.number)?;
    }
    Ok(are_in(found, set))
}

// Whether each variable that occurs in the first term occurs in the second. Time is linear in both.
pub(crate) fn keeps(alloc: Global, old: &Term, new: &Term) -> Result<bool, NoMemory>
    ensures { IfOk result (λ yes. IsTrue yes → (n : ℕ) → KeepsVariables n old.now new.now) }
{
    let mut before = Vec::new(alloc);
    occurring_in(old, &mut before)?;
    let mut after = Vec::new(alloc);
    occurring_in(new, &mut after)?;
    are_among(alloc, before.as_slice(), after.as_slice())
}
