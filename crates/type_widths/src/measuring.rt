//! What types come to, by way of the fields of data types. Types are never put into fields: what an
//! argument comes to is enough. Each data type at arguments of the same outcomes is worked out once
//! for a table.
//!
//! Calls nest as deep as the types in the fields along a chain of data types.
ghost use Rattle.std.specs.Prelude.{◌≡◌, IfOk, IfSome, IfNone, length};
ghost use Rattle.std.specs.List.{AllZip};
ghost use Rattle.chw_types.specs.Arguments.{all_fields};
ghost use Rattle.chw_layout.specs.Outcomes.{HasCons, HasNoCons, ReachesAt, Reaches, AllReach};
ghost use Rattle.type_widths.specs.Outcomes.{Comes, ComesUnder, FieldsCome, ConsCome, IsOutcomeOf};

use crate::numbers::number;
use crate::outcome::{
    Outcome, or_outcome, outcome_at, scalar_outcome, tagged_outcome, then_outcome, vector_outcome,
};
use crate::widths::{Instance, Widths};
use chw_base::NoMemory;
use chw_layout::tag_width;
use chw_types::{ConDecl, Data, Ty, TyNode};
use std::alloc::Global;

/// What a closed type comes to.
pub(crate) fn closed_outcome(
    alloc: Global,
    t: &Ty,
    widths: &mut Widths<'_>,
) -> Result<Outcome, NoMemory>
    ensures comes { IfOk result (Comes widths.old t.now) }
    ensures same { widths.new ≡ widths.old }
{
    let left = widths.datas().len();
    outcome_of(alloc, t, &[], widths, left)
}

// What a type comes to whose variables have outcomes. `left` is more than the length of the chains
// of references that lead from it.
#[cycle(measuring)]
fn outcome_of(
    alloc: Global,
    t: &Ty,
    env: &[Outcome],
    widths: &mut Widths<'_>,
    left: usize,
) -> Result<Outcome, NoMemory>
    requires { Reaches widths.old left t.now }
    ensures comes { IfOk result (ComesUnder widths.old env.now t.now) }
    ensures same { widths.new ≡ widths.old }
{
    match &t.node {
        TyNode::Var(at) => Ok(outcome_at(env, at.number)),
        TyNode::Unsigned(w) => Ok(scalar_outcome(number(w, env))),
        TyNode::Signed(w) => Ok(scalar_outcome(number(w, env))),
        TyNode::BitVector(w) => Ok(scalar_outcome(number(w, env))),
        TyNode::Vec(n, of) => {
            let of = outcome_of(alloc, of, env, widths, left)?;
            Ok(vector_outcome(number(n, env), of))
        }
        TyNode::DataOf(at, args) => {
            let outs = outcomes_of(alloc, args, env, widths, left)?;
            data_outcome(alloc, at.number, outs, widths, left)
        }
        _ => Ok(Outcome::Number(number(t, env))),
    }
}

// What each of these types comes to.
#[cycle(measuring)]
fn outcomes_of(
    alloc: Global,
    types: &[Ty],
    env: &[Outcome],
    widths: &mut Widths<'_>,
    left: usize,
) -> Result<Vec<Outcome>, NoMemory>
    requires { AllReach widths.old left types.now }
    ensures come { IfOk result (λ os. AllZip (ComesUnder widths.old env.now) types.now os.items) }
    ensures same { widths.new ≡ widths.old }
{
    let mut outs = Vec::new(alloc);
    for t in types {
        outs.push(outcome_of(alloc, t, env, widths, left)?)?;
    }
    Ok(outs)
}

// What a data type comes to at arguments of these outcomes.
#[cycle(measuring)]
fn data_outcome(
    alloc: Global,
    at: u32,
    outs: Vec<Outcome>,
    widths: &mut Widths<'_>,
    left: usize,
) -> Result<Outcome, NoMemory>
    requires { ReachesAt widths.old left at }
    ensures comes { IfOk result (IsOutcomeOf widths.old at outs.items) }
    ensures same { widths.new ≡ widths.old }
{
    let instance = Instance { at, outs };
    if let Some(outcome) = widths.recall(&instance) {
        return Ok(outcome);
    }
    let outcome = new_outcome(alloc, at, &instance.outs, widths, left)?;
    widths.remember(instance, outcome)?;
    Ok(outcome)
}

// The constructors of a data type with so many parameters.
fn cons_of(datas: &[Data], at: u32, args: usize) -> Option<&[ConDecl]>
    ensures some { IfSome result (λ cs. HasCons datas.now at args cs.now) }
    ensures none { IfNone result (HasNoCons datas.now at args) }
{
    let it = datas.get(at as usize)?;
    if it.params.len() != args {
        return None;
    }
    Some(it.cons.as_slice())
}

// The same as `data_outcome`, from the fields.
#[cycle(measuring)]
fn new_outcome(
    alloc: Global,
    at: u32,
    outs: &[Outcome],
    widths: &mut Widths<'_>,
    left: usize,
) -> Result<Outcome, NoMemory>
    requires { ReachesAt widths.old left at }
    ensures comes { IfOk result (IsOutcomeOf widths.old at outs.now) }
    ensures same { widths.new ≡ widths.old }
{
    let Some(cons) = cons_of(widths.datas(), at, outs.len()) else {
        return Ok(Outcome::Number(0));
    };
    let widest = cons_outcome(alloc, cons, outs, widths, left - 1)?;
    Ok(tagged_outcome(tag_width(cons.len()), widest))
}

// What the widest of these constructors comes to.
#[cycle(measuring)]
fn cons_outcome(
    alloc: Global,
    cons: &[ConDecl],
    env: &[Outcome],
    widths: &mut Widths<'_>,
    left: usize,
) -> Result<Outcome, NoMemory>
    requires { AllReach widths.old left (all_fields cons.now) }
    ensures comes { IfOk result (ConsCome widths.old env.now cons.now) }
    ensures same { widths.new ≡ widths.old }
{
    let mut widest = Outcome::Fits(0);
    for i in (0..cons.len()).rev() {
        let con = fields_outcome(alloc, cons[i].fields.as_slice(), env, widths, left)?;
        widest = or_outcome(con, widest);
    }
    Ok(widest)
}

// What these fields come to together.
#[cycle(measuring)]
fn fields_outcome(
    alloc: Global,
    fields: &[Ty],
    env: &[Outcome],
    widths: &mut Widths<'_>,
    left: usize,
) -> Result<Outcome, NoMemory>
    requires { AllReach widths.old left fields.now }
    ensures comes { IfOk result (FieldsCome widths.old env.now fields.now) }
    ensures same { widths.new ≡ widths.old }
{
    let mut whole = Outcome::Fits(0);
    for i in (0..fields.len()).rev() {
        let first = outcome_of(alloc, &fields[i], env, widths, left)?;
        whole = then_outcome(first, whole);
    }
    Ok(whole)
}
