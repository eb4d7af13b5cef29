//! The definitions that stand in terms, and an order of them or a cycle.
ghost use Rattle.std.specs.Prelude.{◌≡◌, ◌<◌, ◌^◌, ◌++◌, length, map, IfOk, OnOk};
ghost use Rattle.chw_terms.specs.References.{DefRefers};
ghost use Rattle.graph_order.specs.References.{HasNoCycle};
ghost use Rattle.chw_terms.specs.TermView.{tree_of};
ghost use Rattle.graph_order.specs.Orders.{LeastFirst, OfCycle, OfOrder, numbers};
ghost use Rattle.data_kinds.specs.Cycles.{IsCycleOf};
ghost use Rattle.data_kinds.specs.Named.{defs_in, arg_defs, body_defs};

use chw_base::NoMemory;
use chw_terms::{Arg, Def, Head, Term};
use graph_order::{Ordering, order_of};
use std::alloc::Global;

// Adds the numbers of the definitions in a term.
#[cycle(add_defs)]
fn add_defs(t: &Term, found: &mut Vec<u32>) -> Result<(), NoMemory>
    ensures { OnOk result (found.new.items ≡ found.old.items ++ defs_in t.now) }
{
    add_head_defs(&t.head, found)?;
    for arg in &t.args {
        add_arg_defs(arg, found)?;
    }
    Ok(())
}

#[cycle(add_defs)]
fn add_arg_defs(arg: &Arg, found: &mut Vec<u32>) -> Result<(), NoMemory>
    ensures { OnOk result (found.new.items ≡ found.old.items ++ arg_defs arg.now) }
{
    match arg {
        Arg::OfTerm(e) => add_defs(e, found),
        Arg::OfType(_) => Ok(()),
    }
}

#[cycle(add_defs)]
#[tactic(auto, unfolding(crate::specs::Named::defs_in))]
fn add_head_defs(head: &Head, found: &mut Vec<u32>) -> Result<(), NoMemory>
    ensures { OnOk result (found.new.items ≡ found.old.items ++ defs_in (tree_of head.now)) }
{
    match head {
        Head::Var(_) => Ok(()),
        Head::Global(at) => {
            found.push(at.number)?;
            Ok(())
        }
        Head::Made(_) => Ok(()),
        Head::Lam(_, body) => add_defs(body, found),
        Head::TyLam(_, body) => add_defs(body, found),
        Head::LetRec(bindings, body) => {
            for binding in bindings {
                add_defs(&binding.body, found)?;
            }
            add_defs(body, found)
        }
        Head::Con(_) => Ok(()),
        Head::PrimOf(_) => Ok(()),
        Head::Lit(_, _) => Ok(()),
        Head::VecLit(_, elements) => {
            for element in elements {
                add_defs(element, found)?;
            }
            Ok(())
        }
        Head::Case(on, alts) => {
            add_defs(on, found)?;
            for alternative in alts {
                add_defs(&alternative.body, found)?;
            }
            Ok(())
        }
    }
}

// The numbers of the definitions in the body of one.
fn body_defs(alloc: Global, it: &Def) -> Result<Vec<u32>, NoMemory>
    ensures { IfOk result (λ found. found.items ≡ body_defs it.now) }
{
    let mut found = Vec::new(alloc);
    add_defs(&it.body, &mut found)?;
    Ok(found)
}

// For each definition the numbers of those in its body, as often as they stand there.
fn def_graph(alloc: Global, defs: &[Def]) -> Result<Vec<Vec<u32>>, NoMemory>
    ensures graph { IfOk result (λ graph. numbers graph.items ≡ map body_defs defs.now) }
    ensures size { IfOk result (λ graph. length graph.items ≡ length defs.now) }
{
    let mut graph = Vec::new(alloc);
    for it in defs {
        graph.push(body_defs(alloc, it)?)?;
    }
    Ok(graph)
}

/// An order of the definitions in which each stands after those in its body, or a cycle of them.
pub(crate) fn def_order(alloc: Global, defs: &[Def]) -> Result<Ordering, NoMemory>
    requires { length defs.now < 2 ^ 32 }
    ensures no_cycle { IfOk result (λ r. OfOrder r (λ _. HasNoCycle (DefRefers defs.now))) }
    ensures cycle { IfOk result (λ r. OfCycle r (IsCycleOf (DefRefers defs.now))) }
    ensures least { IfOk result (λ r. OfCycle r LeastFirst) }
    ensures some_cycle { IfOk result (λ r. OfCycle r (λ _. HasNoCycle (DefRefers defs.now) → ⊥)) }
{
    let graph = def_graph(alloc, defs)?;
    order_of(alloc, &graph)
}
