//! The made definitions that stand in bodies.
ghost use Rattle.std.specs.Prelude.{◌≡◌, ◌++◌, length, map, IfOk, OnOk};
ghost use Rattle.chw_terms.specs.TermView.{tree_of};
ghost use Rattle.graph_order.specs.Orders.{numbers};
ghost use Rattle.normal_form.specs.MadeIn.{made_in, arg_made, body_made};

use chw_base::NoMemory;
use chw_terms::{Arg, Head, Made, Term};
use std::alloc::Global;

// Adds the numbers of the made definitions in a term.
#[cycle(add_made)]
fn add_made(term: &Term, found: &mut Vec<u32>) -> Result<(), NoMemory>
    ensures { OnOk result (found.new.items ≡ found.old.items ++ made_in term.now) }
{
    add_head_made(&term.head, found)?;
    for arg in &term.args {
        add_arg_made(arg, found)?;
    }
    Ok(())
}

#[cycle(add_made)]
fn add_arg_made(arg: &Arg, found: &mut Vec<u32>) -> Result<(), NoMemory>
    ensures { OnOk result (found.new.items ≡ found.old.items ++ arg_made arg.now) }
{
    match arg {
        Arg::OfTerm(e) => add_made(e, found),
        Arg::OfType(_) => Ok(()),
    }
}

#[cycle(add_made)]
#[tactic(auto, unfolding(crate::specs::MadeIn::made_in))]
fn add_head_made(head: &Head, found: &mut Vec<u32>) -> Result<(), NoMemory>
    ensures { OnOk result (found.new.items ≡ found.old.items ++ made_in (tree_of head.now)) }
{
    match head {
        Head::Made(at) => {
            found.push(at.number)?;
            Ok(())
        }
        Head::Lam(_, body) | Head::TyLam(_, body) => add_made(body, found),
        Head::LetRec(bindings, body) => {
            for binding in bindings {
                add_made(&binding.body, found)?;
            }
            add_made(body, found)
        }
        Head::VecLit(_, elements) => {
            for element in elements {
                add_made(element, found)?;
            }
            Ok(())
        }
        Head::Case(on, alts) => {
            add_made(on, found)?;
            for alternative in alts {
                add_made(&alternative.body, found)?;
            }
            Ok(())
        }
        Head::Var(_) | Head::Global(_) | Head::Con(_) | Head::PrimOf(_) | Head::Lit(_, _) => Ok(()),
    }
}

/// The numbers of the made definitions in the body of one, from left to right.
pub fn body_made(alloc: Global, it: &Made) -> Result<Vec<u32>, NoMemory>
    ensures { IfOk result (λ found. found.items ≡ body_made it.now) }
{
    let mut found = Vec::new(alloc);
    add_made(&it.body, &mut found)?;
    Ok(found)
}

/// For each made definition the numbers of those in its body, as often as they stand there.
pub(crate) fn uses_of_each(alloc: Global, made: &[Made]) -> Result<Vec<Vec<u32>>, NoMemory>
    ensures uses { IfOk result (λ uses. numbers uses.items ≡ map body_made made.now) }
    ensures size { IfOk result (λ uses. length uses.items ≡ length made.now) }
{
    let mut uses = Vec::new(alloc);
    for it in made {
        uses.push(body_made(alloc, it)?)?;
    }
    Ok(uses)
}
