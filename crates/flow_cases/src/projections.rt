//! What the rule makes of a case on a port, in circuits.
ghost use Rattle.std.specs.Prelude.{◌≡◌, ◌<◌, ◌-◌, ◌↔◌, ℕ, [], reverse, slice_get, None, Some, IfOk, IsTrue, MatchOption};
ghost use Rattle.chw_types.specs.References.{HasNoCycle};
ghost use Rattle.chw_terms.specs.declared.rule.Rule.TheVariants.{Proj};
ghost use Rattle.chw_terms.specs.declared.term.Pattern.TheVariants.{OfCon};
ghost use Rattle.chw_terms.specs.TermTree.{var, alt, case_of, no_alts};
ghost use Rattle.chw_terms.specs.TermView.{alts_of};
ghost use Rattle.chw_terms.specs.Unrolled.{named};
ghost use Rattle.chw_typing.specs.HeadTypes.{PatternOf};
ghost use Rattle.rewriting.specs.Origins.{origins_of};
ghost use Rattle.rewriting.specs.Spots.{spot_of};
ghost use Rattle.rewriting.specs.Shapes.{or_body, projections, IsDefaultOrNone};
ghost use Rattle.term_frames.specs.Signatures.{IsSignature};
ghost use Rattle.flow_cases.specs.Answered.{AnswersCase};
ghost use Rattle.flow_cases.specs.Moves.{fields_put};
ghost use Rattle.flow_cases.specs.Ports.{IsPortCase};

use crate::alternatives::lone_default;
use crate::parts::{bare_head, fields_at, named, or_body};
use chw_base::{ConId, NoMemory, VarIx};
use chw_terms::{Alt, Head, Mode, Pattern, Place, Scene, Term};
use chw_types::{Ty, TyNode};
use con_places::Constructors;
use rule_parts::named::is_named;
use std::alloc::Global;
use term_types::Signature;

/// A case on a variable, whose first alternative is for this constructor with so many names and has this body.
#[derive(Clone, Copy)]
struct PortCase<'t> {
    of: VarIx,
    con: ConId,
    names: u32,
    body: &'t Term,
}

// The variable that a term is.
fn variable(term: &Term) -> Option<VarIx>
    ensures { MatchOption result ((x : ℕ) → term.now ≡ var x → ⊥) (λ x. term.now ≡ var x.number) }
{
    let Some(head) = bare_head(term) else {
        return None;
    };
    match head {
        Head::Var(at) => Some(*at),
        _ => None,
    }
}

// Whether there is no alternative, or a default alone.
fn are_default_or_none(alts: &[Alt]) -> bool
    ensures { IsTrue result ↔ IsDefaultOrNone (alts_of alts.now) }
{
    match lone_default(alts) {
        Some(_) => true,
        None => alts.is_empty(),
    }
}

// Whether a term is one of so many names.
fn is_name(term: &Term, names: u32) -> bool
    ensures { IsTrue result ↔ ((j : ℕ) × (j < names) × (term.now ≡ var j)) }
{
    match variable(term) {
        Some(at) => at.number < names,
        None => false,
    }
}

// A case on a variable with an alternative for one constructor, and perhaps a default. It isn't a projection itself.
fn port_case<'t>(on: &Term, alts: &'t [Alt]) -> Option<PortCase<'t>>
    ensures { MatchOption result ((x n : ℕ) (c : _) (e : _) → IsPortCase on.now (alts_of alts.now) x c n e → ⊥)
        (λ it. IsPortCase on.now (alts_of alts.now) it.of.number it.con it.names it.body.now) }
{
    let Some(of) = variable(on) else {
        return None;
    };
    let Some((first, others)) = alts.split_first() else {
        return None;
    };
    let Pattern::OfCon(con, names) = &first.pattern else {
        return None;
    };
    if !are_default_or_none(others) {
        return None;
    }
    if others.is_empty() && is_name(&first.body, *names) {
        return None;
    }
    Some(PortCase {
        of,
        con: *con,
        names: *names,
        body: &first.body,
    })
}

// The fields of a constructor and the arguments of a type, if a pattern for the constructor with so many names is one for the type.
fn fields_of_pattern<'t>(
    constructors: &Constructors<'t>,
    ty: &'t Ty,
    at: ConId,
    names: u32,
) -> Option<(&'t [Ty], &'t [Ty])>
    ensures { MatchOption result ((fields : _) → PatternOf constructors.now ty.now (OfCon at names) fields → ⊥)
        (λ p. PatternOf constructors.now ty.now (OfCon at names) (fields_put p.0.now p.1.now)) }
{
    let Some(it) = constructors.at(at) else {
        return None;
    };
    let TyNode::DataOf(of, args) = &ty.node else {
        return None;
    };
    let fields = it.decl.fields.as_slice();
    if of.number != it.of.number {
        return None;
    }
    if fields.len() != names as usize {
        return None;
    }
    Some((fields, args.as_slice()))
}

// The field of this number of a variable, of this constructor with so many fields.
fn projection(
    alloc: Global,
    con: ConId,
    names: u32,
    of: VarIx,
    field: u32,
) -> Result<Term, NoMemory>
    requires { field < names }
    ensures { IfOk result (λ e. e ≡ case_of (var of.number) (alt (OfCon con names) (var (names - 1 - field)) no_alts)) }
{
    let name = VarIx {
        number: names - 1 - field,
    };
    let only = Alt {
        pattern: Pattern::OfCon(con, names),
        body: Term::var(alloc, name),
    };
    let alts = vec![in alloc; only]?;
    Term::case(alloc, Term::var(alloc, of), alts)
}

// The fields of a variable under as many names as it has fields.
fn projections(alloc: Global, con: ConId, names: u32, of: VarIx) -> Result<Vec<Term>, NoMemory>
    ensures { IfOk result (λ es. es.items ≡ projections con names of.number) }
{
    let of = VarIx {
        number: of.number.checked_add(names).ok_or(NoMemory)?,
    };
    let mut done = Vec::new(alloc);
    for field in 0..names {
        done.push(projection(alloc, con, names, of, field)?)?;
    }
    Ok(done)
}

// The body of the alternative, where the names stand for projections.
fn with_projections(
    alloc: Global,
    it: PortCase<'_>,
    fields: &[Ty],
    args: &[Ty],
) -> Result<Term, NoMemory>
    ensures { IfOk result (λ e. e ≡ or_body (named (fields_put fields.now args.now) (projections it.entry.con it.entry.names it.entry.of.number)) it.entry.body.now) }
{
    let types = fields_at(alloc, fields, args)?;
    let sides = projections(alloc, it.con, it.names, it.of)?;
    let group = named(alloc, types, sides)?;
    or_body(alloc, group, it.body.copy(alloc)?)
}

/// In circuits the names of a pattern for a port stand for projections, unless the case is one itself.
pub(crate) fn proj(
    alloc: Global,
    scene: &Scene,
    signature: &Signature,
    place: &Place,
    on: &Term,
    alts: &[Alt],
) -> Result<Option<Term>, NoMemory>
    requires order { HasNoCycle scene.now.program.now.datas }
    requires table { IsSignature scene.now.program.now signature.now }
    ensures { IfOk result (AnswersCase (origins_of scene.now) (spot_of place.now) Proj on.now alts.now) }
{
    // case x of { C xs -> e; .. }  ==>  letrec { xs = projections of x } in e
    let Mode::C = place.mode else {
        return Ok(None);
    };
    let Some(it) = port_case(on, alts) else {
        return Ok(None);
    };
    let Some(ty) = place.vars.from_end(it.of.number as usize) else {
        return Ok(None);
    };
    let Some((fields, args)) = fields_of_pattern(&signature.constructors, ty, it.con, it.names)
    else {
        return Ok(None);
    };
    if !is_named(alloc, scene.program.datas.as_slice(), Mode::C, ty)? {
        return Ok(None);
    }
    Ok(Some(with_projections(alloc, it, fields, args)?))
}
