//! The outcome of a type, by way of the fields of data types. Types are never put into fields: what an argument comes to is enough.
//! Each data type at arguments of the same outcomes is worked out once, so a chain of data types that each mention the one before
//! twice takes no longer than its text.
//!
//! Calls nest as deep as the types in the fields along a chain of data types.
ghost use Rattle.std.specs.Prelude.{◌≡◌, ◌<◌, IfOk, IfSome, IfNone, OnOk, length};
ghost use Rattle.chw_types.specs.References.{HasNoCycle};
ghost use Rattle.chw_types.specs.Arguments.{all_fields};
ghost use Rattle.chw_layout.specs.Measured.{Measure, Measured};
ghost use Rattle.chw_layout.specs.Outcomes.{laid, ComesUnder, FieldsCome, ConsCome, IsOutcomeOf, HasCons, HasNoCons, AreRight, ReachesAt, Reaches, AllReach};

use crate::numbers::number;
use crate::outcome::{
    Outcome, outcome_at, scalar_outcome, tag_width, tagged_outcome, vector_outcome,
};
use crate::remembered::{Instance, recall, remember};
use chw_base::NoMemory;
use chw_types::{ConDecl, Data, Ty, TyNode};
use std::alloc::Global;

/// The outcome of a closed type, which tells its measure if it has one.
pub(crate) fn closed_outcome(
    alloc: Global,
    t: &Ty,
    datas: &[Data],
    known: &mut Vec<Instance>,
) -> Result<Outcome, NoMemory>
    requires order { HasNoCycle datas.now }
    requires known { AreRight datas.now known.old.items }
    ensures known { OnOk result (AreRight datas.now known.new.items) }
    ensures comes { IfOk result (λ o. (m : Measure) → Measured datas.now t.now m → o ≡ laid m) }
{
    Ok(outcome_of(alloc, t, &[], datas, known, datas.len())?)
}

// The outcome of a type whose variables have outcomes. `left` is more than the length of the chains of references that lead from it.
#[cycle(measuring)]
fn outcome_of(
    alloc: Global,
    t: &Ty,
    env: &[Outcome],
    datas: &[Data],
    known: &mut Vec<Instance>,
    left: usize,
) -> Result<Outcome, NoMemory>
    requires known { AreRight datas.now known.old.items }
    requires reaches { Reaches datas.now left t.now }
    ensures known { OnOk result (AreRight datas.now known.new.items) }
    ensures comes { IfOk result (ComesUnder datas.now env.now t.now) }
{
    match &t.node {
        TyNode::Var(at) => Ok(outcome_at(env, at.number)),
        TyNode::Unsigned(w) => Ok(scalar_outcome(number(w, env))),
        TyNode::Signed(w) => Ok(scalar_outcome(number(w, env))),
        TyNode::BitVector(w) => Ok(scalar_outcome(number(w, env))),
        TyNode::Vec(n, of) => {
            let of = outcome_of(alloc, of, env, datas, known, left)?;
            Ok(vector_outcome(number(n, env), of))
        }
        TyNode::DataOf(at, args) => {
            let mut outs = Vec::new(alloc);
            for arg in args {
                outs.push(outcome_of(alloc, arg, env, datas, known, left)?)?;
            }
            Ok(data_outcome(alloc, at.number, outs, datas, known, left)?)
        }
        _ => Ok(Outcome::Number(number(t, env))),
    }
}

// The outcome of a data type at arguments of these outcomes.
#[cycle(measuring)]
fn data_outcome(
    alloc: Global,
    at: u32,
    outs: Vec<Outcome>,
    datas: &[Data],
    known: &mut Vec<Instance>,
    left: usize,
) -> Result<Outcome, NoMemory>
    requires known { AreRight datas.now known.old.items }
    requires reaches { ReachesAt datas.now left at }
    ensures known { OnOk result (AreRight datas.now known.new.items) }
    ensures comes { IfOk result (IsOutcomeOf datas.now at outs.items) }
{
    if let Some(outcome) = recall(known, at, &outs) {
        return Ok(outcome);
    }
    let outcome = new_outcome(alloc, at, &outs, datas, known, left)?;
    remember(known, at, outs, outcome)?;
    Ok(outcome)
}

// The constructors of a data type with so many parameters.
fn cons_of(datas: &[Data], at: u32, args: usize) -> Option<&[ConDecl]>
    ensures some { IfSome result (λ cs. HasCons datas.now at args cs.now) }
    ensures none { IfNone result (HasNoCons datas.now at args) }
{
    let it = datas.get(at as usize)?;
    if it.params.len() != args {
        return None;
    }
    Some(it.cons.as_slice())
}

// The same as `data_outcome`, from the fields.
#[cycle(measuring)]
fn new_outcome(
    alloc: Global,
    at: u32,
    outs: &[Outcome],
    datas: &[Data],
    known: &mut Vec<Instance>,
    left: usize,
) -> Result<Outcome, NoMemory>
    requires known { AreRight datas.now known.old.items }
    requires reaches { ReachesAt datas.now left at }
    ensures known { OnOk result (AreRight datas.now known.new.items) }
    ensures comes { IfOk result (IsOutcomeOf datas.now at outs.now) }
{
    let Some(cons) = cons_of(datas, at, outs.len()) else {
        return Ok(Outcome::Number(0));
    };
    let widest = cons_outcome(alloc, cons, outs, datas, known, left - 1)?;
    Ok(tagged_outcome(tag_width(cons.len()), widest))
}

// The outcome of the widest of these constructors.
#[cycle(measuring)]
fn cons_outcome(
    alloc: Global,
    cons: &[ConDecl],
    env: &[Outcome],
    datas: &[Data],
    known: &mut Vec<Instance>,
    left: usize,
) -> Result<Outcome, NoMemory>
    requires known { AreRight datas.now known.old.items }
    requires reaches { AllReach datas.now left (all_fields cons.now) }
    ensures known { OnOk result (AreRight datas.now known.new.items) }
    ensures comes { IfOk result (ConsCome datas.now env.now cons.now) }
{
    let mut widest: u32 = 0;
    for con in cons {
        match fields_outcome(alloc, con.fields.as_slice(), env, datas, known, left)? {
            Outcome::Fits(width) => widest = widest.max(width),
            passed => return Ok(passed),
        }
    }
    Ok(Outcome::Fits(widest))
}

// The outcome of these fields together.
#[cycle(measuring)]
fn fields_outcome(
    alloc: Global,
    fields: &[Ty],
    env: &[Outcome],
    datas: &[Data],
    known: &mut Vec<Instance>,
    left: usize,
) -> Result<Outcome, NoMemory>
    requires known { AreRight datas.now known.old.items }
    requires reaches { AllReach datas.now left fields.now }
    ensures known { OnOk result (AreRight datas.now known.new.items) }
    ensures comes { IfOk result (FieldsCome datas.now env.now fields.now) }
{
    let mut sum: u32 = 0;
    for field in fields {
        match outcome_of(alloc, field, env, datas, known, left)? {
            Outcome::Fits(width) => sum = sum.saturating_add(width),
            passed => return Ok(passed),
        }
    }
    Ok(Outcome::Fits(sum))
}
