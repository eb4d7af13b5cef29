//! The walk over a term that gathers its free variables.
ghost use Rattle.std.specs.Prelude.{◌≡◌, ◌+◌, [], ◌∷◌, OnOk, IfOk};
ghost use Rattle.chw_terms.specs.TermView.{tree_of, terms_of, group_of, alts_of};
ghost use Rattle.chw_terms.specs.FreeVariables.{occurrences, occurrences_all, occurrences_group, occurrences_alts};
ghost use Rattle.free_variables.specs.Gathered.{gathered, in_arg, in_alt, numbers_of};

use chw_base::{NoMemory, VarIx};
use chw_terms::{Alt, Arg, Binding, Head, Term};

// The place under so many more binders.
fn deeper(place: u32, binders: usize) -> Result<u32, NoMemory>
    ensures { IfOk result (λ n. n ≡ place + binders) }
{
    let binders = u32::try_from(binders).map_err(|_| NoMemory)?;
    place.checked_add(binders).ok_or(NoMemory)
}

// Gathers the variables of a term that stands under so many binders, as they are called outside of these.
#[cycle(gather)]
pub(crate) fn gather(t: &Term, under: u32, seen: &mut Vec<VarIx>) -> Result<(), NoMemory>
    ensures { OnOk result (numbers_of seen.new.items ≡ gathered under (occurrences t.now) (numbers_of seen.old.items)) }
{
    gather_head(&t.head, under, seen)?;
    for arg in &t.args {
        gather_arg(arg, under, seen)?;
    }
    Ok(())
}

#[cycle(gather)]
fn gather_arg(arg: &Arg, under: u32, seen: &mut Vec<VarIx>) -> Result<(), NoMemory>
    ensures { OnOk result (numbers_of seen.new.items ≡ gathered under (in_arg arg.now) (numbers_of seen.old.items)) }
{
    match arg {
        Arg::OfTerm(e) => gather(e, under, seen),
        Arg::OfType(_) => Ok(()),
    }
}

#[cycle(gather)]
#[tactic(auto, unfolding(chw_terms::specs::FreeVariables::occurrences))]
fn gather_head(head: &Head, under: u32, seen: &mut Vec<VarIx>) -> Result<(), NoMemory>
    ensures { OnOk result (numbers_of seen.new.items ≡ gathered under (occurrences (tree_of head.now)) (numbers_of seen.old.items)) }
{
    match head {
        Head::Var(x) => gather_var(x.number, under, seen),
        Head::Lam(_, body) => gather(body, deeper(under, 1)?, seen),
        Head::TyLam(_, body) => gather(body, under, seen),
        Head::LetRec(bindings, body) => {
            let inner = deeper(under, bindings.len())?;
            gather_group(bindings, inner, seen)?;
            gather(body, inner, seen)
        }
        Head::VecLit(_, elements) => gather_all(elements, under, seen),
        Head::Case(on, alts) => {
            gather(on, under, seen)?;
            gather_alts(alts, under, seen)
        }
        Head::Global(_) | Head::Made(_) | Head::Con(_) | Head::PrimOf(_) | Head::Lit(_, _) => Ok(
            (),
        ),
    }
}

fn gather_var(x: u32, under: u32, seen: &mut Vec<VarIx>) -> Result<(), NoMemory>
    ensures { OnOk result (numbers_of seen.new.items ≡ gathered under (x ∷ []) (numbers_of seen.old.items)) }
{
    if x >= under {
        seen.push(VarIx { number: x - under })?;
    }
    Ok(())
}

#[cycle(gather)]
fn gather_group(bindings: &[Binding], under: u32, seen: &mut Vec<VarIx>) -> Result<(), NoMemory>
    ensures { OnOk result (numbers_of seen.new.items ≡ gathered under (occurrences_group (group_of bindings.now)) (numbers_of seen.old.items)) }
{
    for binding in bindings {
        gather(&binding.body, under, seen)?;
    }
    Ok(())
}

#[cycle(gather)]
fn gather_all(elements: &[Term], under: u32, seen: &mut Vec<VarIx>) -> Result<(), NoMemory>
    ensures { OnOk result (numbers_of seen.new.items ≡ gathered under (occurrences_all (terms_of elements.now)) (numbers_of seen.old.items)) }
{
    for element in elements {
        gather(element, under, seen)?;
    }
    Ok(())
}

#[cycle(gather)]
fn gather_alts(alts: &[Alt], under: u32, seen: &mut Vec<VarIx>) -> Result<(), NoMemory>
    ensures { OnOk result (numbers_of seen.new.items ≡ gathered under (occurrences_alts (alts_of alts.now)) (numbers_of seen.old.items)) }
{
    for alt in alts {
        gather_alt(alt, under, seen)?;
    }
    Ok(())
}

#[cycle(gather)]
fn gather_alt(alt: &Alt, under: u32, seen: &mut Vec<VarIx>) -> Result<(), NoMemory>
    ensures { OnOk result (numbers_of seen.new.items ≡ gathered under (in_alt alt.now) (numbers_of seen.old.items)) }
{
    let inner = deeper(under, alt.pattern.binders() as usize)?;
    gather(&alt.body, inner, seen)
}
